//! What rules gave way to, kept: a rule at a level gives way to the same rows whenever the same token is ahead, so its rows
//! are put on the stack one by one the first time alone.

ghost use Rattle.std.specs.Prelude.{◌≡◌, ◌++◌, ◌∷◌, [], Contains, IsTrue, IfOk, IfSome, OnOk};
ghost use Rattle.widl_predictive.specs.Derivation.{Nonterminal};
ghost use Rattle.widl_predictive.specs.Machine.{stack_of, topped, Unfolds, EndsAt};
ghost use Rattle.widl_predictive.specs.Unfoldings.{IsUnfolding, AreUnfoldings};

use crate::Rule;
use crate::machine::{Frame, Top, Unfolded, either, take_top, unfold};
use std::alloc::{AllocError, Global};

/// In a slot where nothing is kept: more than there is of what is kept.
const ABSENT: u32 = u32::MAX;

/// What a rule gives way to at a level, before what is ahead.
#[derive(Drop)]
struct Unfolding<T, R> {
    rule: R,
    level: u8,
    ahead: Option<T>,
    /// What is then on top of the stack.
    top: Top<T, R>,
    /// Whether one of the rules that were replaced began a level that is too deep.
    deep: bool,
    /// What lies below the top.
    below: Vec<Frame<T, R>>,
}

/// What is kept, found by slots.
#[derive(Drop)]
pub(crate) struct Unfoldings<T, R> {
    /// Which of those that are kept is in each slot.
    slots: Vec<u32>,
    kept: Vec<Unfolding<T, R>>,
}

impl<T: Copy, R: Copy> Unfoldings<T, R> {
    /// Nothing yet, with so many slots.
    pub(crate) fn none(alloc: Global, slots: usize) -> Result<Unfoldings<T, R>, AllocError>
        ensures { IfOk result (λ none. none.kept.items ≡ []) }
    {
        Ok(Unfoldings {
            slots: vec![in alloc; ABSENT; slots]?,
            kept: Vec::new(alloc),
        })
    }

    /// Whether nothing is kept in the slot.
    fn is_free(&self, slot: usize) -> bool {
        match self.slots.get(slot) {
            Some(number) => *number == ABSENT,
            None => false,
        }
    }

    /// What is kept in the slot.
    fn in_slot(&self, slot: usize) -> Option<&Unfolding<T, R>>
        ensures { IfSome result (λ u. Contains self.now.kept.items u.now) }
    {
        match self.slots.get(slot) {
            Some(number) => self.kept.get(*number as usize),
            None => None,
        }
    }

    /// Keeps it in the slot.
    fn keep(&mut self, slot: usize, added: Unfolding<T, R>) -> Result<(), AllocError>
        ensures { OnOk result (self.new.kept.items ≡ self.old.kept.items ++ added ∷ []) }
    {
        let number = u32::try_from(self.kept.len()).unwrap_or(ABSENT);
        self.kept.push(added)?;
        if let Some(place) = self.slots.get_mut(slot) {
            *place = number;
        }
        Ok(())
    }
}

fn is_same_ahead<R: Rule>(one: Option<R::Terminal>, other: Option<R::Terminal>) -> bool
    ensures { IsTrue result → one ≡ other }
{
    match (one, other) {
        (Some(one), Some(other)) => R::is_same(one, other),
        (None, None) => true,
        _ => false,
    }
}

/// What is kept of the rule at the level, before what is ahead.
fn find<'k, R: Rule>(
    known: &'k Unfoldings<R::Terminal, R>,
    rule: R,
    level: u8,
    ahead: Option<R::Terminal>,
) -> Option<&'k Unfolding<R::Terminal, R>>
    requires { AreUnfoldings R.grammar R.sets known.now.kept.items }
    ensures { IfSome result (λ u. IsUnfolding R.grammar R.sets ahead rule level u.now) }
{
    let unfolding = known.in_slot(rule.slot(level, ahead))?;
    if unfolding.level == level
        && R::is_same_rule(unfolding.rule, rule)
        && is_same_ahead::<R>(unfolding.ahead, ahead)
    {
        Some(unfolding)
    } else {
        None
    }
}

/// Keeps what the rule gives way to, where its slot is free.
#[inline(never)]
fn learn<R: Rule>(
    known: &mut Unfoldings<R::Terminal, R>,
    rule: R,
    level: u8,
    ahead: Option<R::Terminal>,
) -> Result<(), AllocError>
    requires { AreUnfoldings R.grammar R.sets known.old.kept.items }
    ensures { OnOk result (AreUnfoldings R.grammar R.sets known.new.kept.items) }
{
    let slot = rule.slot(level, ahead);
    if !known.is_free(slot) {
        return Ok(());
    }
    let mut below = Vec::new(*known.kept.allocator());
    below.push(Frame::Open(rule, level))?;
    let unfolded = unfold::<R>(&mut below, ahead)?;
    let unfolding = Unfolding {
        rule,
        level,
        ahead,
        top: unfolded.top,
        deep: unfolded.deep,
        below,
    };
    known.keep(slot, unfolding)
}

/// Unfolds a rule that is on top of the stack and that nothing is kept of, and keeps what it gives way to.
#[inline(never)]
fn unfold_new<R: Rule>(
    known: &mut Unfoldings<R::Terminal, R>,
    stack: &mut Vec<Frame<R::Terminal, R>>,
    rule: R,
    level: u8,
    ahead: Option<R::Terminal>,
) -> Result<Unfolded<R::Terminal, R>, AllocError>
    requires { AreUnfoldings R.grammar R.sets known.old.kept.items }
    ensures kept { OnOk result (AreUnfoldings R.grammar R.sets known.new.kept.items) }
    ensures unfolded { IfOk result (λ r. Unfolds R.grammar R.sets ahead (Nonterminal (rule, level) ∷ stack_of stack.old.items) (topped r.top (stack_of stack.new.items)) r.deep × EndsAt R.grammar R.sets ahead r.top) }
{
    learn::<R>(known, rule, level, ahead)?;
    stack.push(Frame::Open(rule, level))?;
    unfold::<R>(stack, ahead)
}

/// [`unfold`], by what is kept.
pub(crate) fn unfold_known<R: Rule>(
    known: &mut Unfoldings<R::Terminal, R>,
    stack: &mut Vec<Frame<R::Terminal, R>>,
    ahead: Option<R::Terminal>,
) -> Result<Unfolded<R::Terminal, R>, AllocError>
    requires { AreUnfoldings R.grammar R.sets known.old.kept.items }
    ensures kept { OnOk result (AreUnfoldings R.grammar R.sets known.new.kept.items) }
    ensures unfolded { IfOk result (λ r. Unfolds R.grammar R.sets ahead (stack_of stack.old.items) (topped r.top (stack_of stack.new.items)) r.deep × EndsAt R.grammar R.sets ahead r.top) }
{
    let mut deep = false;
    let mut top = take_top::<R>(stack);
    while let Top::Open(rule, level) = top {
        match find::<R>(known, rule, level, ahead) {
            None => {
                let rest = unfold_new::<R>(known, stack, rule, level, ahead)?;
                return Ok(Unfolded {
                    top: rest.top,
                    deep: either(deep, rest.deep),
                });
            }
            Some(unfolding) => {
                deep = either(deep, unfolding.deep);
                if let Top::Nothing = unfolding.top {
                    top = take_top::<R>(stack);
                } else {
                    stack.extend_from_slice(unfolding.below.as_slice())?;
                    return Ok(Unfolded {
                        top: unfolding.top,
                        deep,
                    });
                }
            }
        }
    }
    Ok(Unfolded { top, deep })
}
