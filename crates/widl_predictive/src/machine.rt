//! The machine: a stack of what is still to be read. A rule on top of it is replaced by the row that
//! the token ahead picks, until a token is wanted there. The stack is on the heap, so the nesting of
//! a text is bounded by memory alone.

ghost use Rattle.std.specs.Prelude.{◌≡◌, ◌≢◌, ◌++◌, ◌∷◌, ◌⊎◌, true, List, ◌||◌, IfOk, IfErr, MatchBool, OnOk, IsOkUnless};
ghost use Rattle.widl_predictive.specs.Derivation.{Symbol as StackSymbol};
ghost use Rattle.widl_predictive.specs.Grammar.{row_at, at_level, Leveled, is_deep, next_level, IsAccepted, IsFault};
ghost use Rattle.widl_predictive.specs.Machine.{stack_of, symbol_of, topped, Unfolds, EndsAt, IsFound};
ghost use Rattle.widl_predictive.specs.Runs.{left_of, Takes};

use crate::unfoldings::{Unfoldings, unfold_known};
use crate::{Fault, Rule, Symbol};
use std::alloc::{AllocError, Global};

/// What is still to be read, as it lies on the machine's stack.
#[derive(Clone, Copy, Debug)]
pub enum Frame<T, R> {
    /// A token.
    Wanted(T),
    /// What the rule derives at the level.
    Open(R, u8),
}

/// What was on top of the stack, and is taken from it.
#[derive(Clone, Copy, Debug)]
pub enum Top<T, R> {
    /// A token.
    Wanted(T),
    /// What the rule derives at the level.
    Open(R, u8),
    /// Nothing: the stack is empty.
    Nothing,
}

/// What [`unfold`] came to.
#[derive(Clone, Copy, Debug)]
pub struct Unfolded<T, R> {
    /// The token that is wanted, or nothing. A rule where none of its rows may stand before what is
    /// ahead.
    pub top: Top<T, R>,
    /// Whether one of the rules that were replaced began a level that is too deep.
    pub deep: bool,
}

fn next_level<R: Rule>(level: u8) -> u8
    ensures { result ≡ next_level R.grammar.deep_level level }
{
    if level < R::deep_level() {
        level + 1
    } else {
        level
    }
}

fn frame_of<R: Rule>(symbol: Symbol<R::Terminal, R>, level: u8) -> Frame<R::Terminal, R>
    ensures { symbol_of result ≡ at_level R.grammar level symbol }
{
    match symbol {
        Symbol::Token(terminal) => Frame::Wanted(terminal),
        Symbol::Part(rule) => Frame::Open(rule, level),
        Symbol::Inner(rule) => Frame::Open(rule, next_level::<R>(level)),
    }
}

fn top_of<R: Rule>(frame: Frame<R::Terminal, R>) -> Top<R::Terminal, R>
    ensures { (s : List (StackSymbol R.Terminal (Leveled R))) → topped result s ≡ symbol_of frame ∷ s }
{
    match frame {
        Frame::Wanted(terminal) => Top::Wanted(terminal),
        Frame::Open(rule, level) => Top::Open(rule, level),
    }
}

pub(crate) fn take_top<R: Rule>(stack: &mut Vec<Frame<R::Terminal, R>>) -> Top<R::Terminal, R>
    ensures { topped result (stack_of stack.new.items) ≡ stack_of stack.old.items }
{
    match stack.pop() {
        Some(frame) => top_of::<R>(frame),
        None => Top::Nothing,
    }
}

/// Puts the symbols on the stack, the first on top.
fn push_row<R: Rule>(
    stack: &mut Vec<Frame<R::Terminal, R>>,
    row: &[Symbol<R::Terminal, R>],
    level: u8,
) -> Result<(), AllocError>
    ensures { OnOk result (stack_of stack.new.items ≡ row_at R.grammar level row.now ++ stack_of stack.old.items) }
{
    let mut left = row.len();
    // A row of a single symbol leaves nothing to be put here.
    if left == 0 {
        return Ok(());
    }
    stack.reserve(left)?;
    while left > 0 {
        left -= 1;
        stack.push_reserved(frame_of::<R>(row[left], level));
    }
    Ok(())
}

/// Puts the row on the stack and takes what is then on top. A row's first symbol need not go over the
/// stack for that.
fn enter_row<R: Rule>(
    stack: &mut Vec<Frame<R::Terminal, R>>,
    row: &[Symbol<R::Terminal, R>],
    level: u8,
) -> Result<Top<R::Terminal, R>, AllocError>
    ensures { IfOk result (λ top. topped top (stack_of stack.new.items) ≡ row_at R.grammar level row.now ++ stack_of stack.old.items) }
{
    match row.split_first() {
        None => Ok(take_top::<R>(stack)),
        Some((first, others)) => {
            push_row::<R>(stack, others, level)?;
            Ok(top_of::<R>(frame_of::<R>(*first, level)))
        }
    }
}

fn is_deep<R: Rule>(rule: R, level: u8) -> bool
    ensures { result ≡ is_deep R.grammar (rule, level) }
{
    level == R::deep_level() && rule.begins_level()
}

pub(crate) fn either(a: bool, b: bool) -> bool
    ensures { result ≡ (a || b) }
{
    a || b
}

/// Replaces the rules on top of the stack by the rows that what is ahead picks, and takes the token
/// that is then wanted.
pub(crate) fn unfold<R: Rule>(
    stack: &mut Vec<Frame<R::Terminal, R>>,
    ahead: Option<R::Terminal>,
) -> Result<Unfolded<R::Terminal, R>, AllocError>
    ensures { IfOk result (λ r. Unfolds R.grammar R.sets ahead (stack_of stack.old.items) (topped r.top (stack_of stack.new.items)) r.deep × EndsAt R.grammar R.sets ahead r.top) }
{
    let mut deep = false;
    let mut top = take_top::<R>(stack);
    while let Top::Open(rule, level) = top {
        match rule.row(ahead) {
            Some(row) => {
                top = enter_row::<R>(stack, row, level)?;
                deep = either(deep, is_deep(rule, level));
            }
            None => return Ok(Unfolded {
                top: Top::Open(rule, level),
                deep,
            }),
        }
    }
    Ok(Unfolded { top, deep })
}

/// Whether the token is the one that is wanted.
fn is_wanted<R: Rule>(top: Top<R::Terminal, R>, terminal: R::Terminal) -> bool
    ensures { MatchBool result (top ≡ Top.Wanted terminal) (top ≢ Top.Wanted terminal) }
{
    match top {
        Top::Wanted(wanted) => R::is_same(wanted, terminal),
        Top::Open(_, _) | Top::Nothing => false,
    }
}

fn run_machine<R: Rule>(alloc: Global, start: R, tokens: &[R::Terminal]) -> Result<(), Fault>
    requires { R.grammar.starts start ≡ true }
    ensures ok { OnOk result (IsAccepted R.grammar start tokens.now) }
    ensures fault { IfErr result (IsFound R.grammar start tokens.now) }
{
    let mut stack = Vec::new(alloc);
    stack.push(Frame::Open(start, 1))?;
    let mut known = Unfoldings::none(alloc, R::slots())?;
    for (place, terminal) in tokens.iter().enumerate() {
        let unfolded = unfold_known::<R>(&mut known, &mut stack, Some(*terminal))?;
        if !is_wanted::<R>(unfolded.top, *terminal) {
            return Err(Fault::Syntax(place));
        }
        // Only now do the tokens up to this one begin a sentence.
        if unfolded.deep {
            return Err(Fault::TooDeep(place));
        }
    }
    let unfolded = unfold::<R>(&mut stack, None)?;
    match unfolded.top {
        Top::Nothing => Ok(()),
        Top::Wanted(_) | Top::Open(_, _) => Err(Fault::Syntax(tokens.len())),
    }
}

/// Whether the tokens are a sentence of the grammar that begins with the rule `start`, and where
/// they fail to be one. The time is linear in the number of tokens.
///
/// `Ok` exactly for a sentence without a deep place. [`Fault::Syntax`] and [`Fault::TooDeep`] say
/// the list's fault, which is the lower of its syntax place and its deep place; each list that is
/// not accepted has exactly one. [`Fault::Memory`] may come for any list.
pub fn read_sentence<R: Rule>(alloc: Global, start: R, tokens: &[R::Terminal]) -> Result<(), Fault>
    requires { R.grammar.starts start ≡ true }
    ensures ok { OnOk result (IsAccepted R.grammar start tokens.now) }
    ensures fault { IfErr result (λ e. (e ≡ Fault.Memory) ⊎ IsFault R.grammar start tokens.now e) }
    ensures complete { IsAccepted R.grammar start tokens.now → IsOkUnless result Fault.Memory }
{
    run_machine(alloc, start, tokens)
}

/// Takes the next token of a part, of which the stack holds what is still to be read, where `ahead`
/// is the token ahead, or `None` at the end; `false` where nothing of the part is left before it.
///
/// It is for tokens that are known to be a sentence. What a rule derives is read by calls that begin
/// with a stack of `Frame::Open(rule, 1)` alone, one for each token, until one answers `false`. What
/// the stack holds after want of memory is not said.
pub fn next_token<R: Rule>(
    stack: &mut Vec<Frame<R::Terminal, R>>,
    ahead: Option<R::Terminal>,
) -> Result<bool, AllocError>
    ensures { IfOk result (Takes R.grammar R.sets ahead (left_of stack.old.items) (left_of stack.new.items)) }
{
    let unfolded = unfold::<R>(stack, ahead)?;
    Ok(matches!(unfolded.top, Top::Wanted(_)))
}
