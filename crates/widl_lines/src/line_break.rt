//! The first rule that a line breaks, among open blocks.

ghost use Rattle.std.specs.Prelude.{◌≡◌, ℕ, ◌<◌, ◌≤◌, ◌+◌, List, length, get_or, map, IfOk, OnOk, MatchOption, true, false};
ghost use Rattle.widl_first.specs.Keys.{IsFirst, first_of, precedes};
ghost use Rattle.widl_lines.specs.declared.words.Word.{Word};
ghost use Rattle.widl_lines.specs.Grammar.{grammar};
ghost use Rattle.widl_lines.specs.Terminals.{is_large};
ghost use Rattle.widl_lines.specs.WordTerms.{lexeme_of};
ghost use Rattle.widl_lines.specs.Stacks.{blocks_of};
ghost use Rattle.widl_lines.specs.Blocks.{first_word, change_by};
ghost use Rattle.widl_lines.specs.Breaks.{number, terminals_of, large_of, break_key, WordBreaks, ByBlocks, LineBreaks, NoneLarge};

use crate::blocks::{Block, Change, change_of, innermost, is_opening, start_of};
use crate::{Rule, Terminal, Word, is_large};
use std::alloc::{AllocError, Global};
use widl_predictive::{Fault, read_sentence};
use widl_text::limits::MOST_NESTED_BLOCKS;

/// A rule that a line can break.
#[derive(Clone, Copy)]
pub enum LineRule {
    /// No line of a form begins with the words up to this one.
    NoForm,
    /// Brackets or blocks of the 33rd level.
    TooDeep,
    /// An integer or a text is too large.
    TooLarge,
    /// The line needs a block that isn't there.
    NoBlock,
}

/// A rule that a line breaks, and the number of the word that breaks it, from 0; the number of words where the
/// line ends too early.
#[derive(Clone, Copy)]
pub struct LineBreak {
    /// The rule.
    pub rule: LineRule,
    /// The number of the word.
    pub word: usize,
}

/// The number of the rule, which is its place in the order of the rules at one word.
pub fn number(rule: LineRule) -> u8
    ensures { result ≡ number rule }
{
    match rule {
        LineRule::NoForm => 2,
        LineRule::TooDeep => 3,
        LineRule::TooLarge => 4,
        LineRule::NoBlock => 6,
    }
}

fn precedes(a: LineBreak, b: LineBreak) -> bool
    ensures { result ≡ precedes break_key a b }
{
    a.word < b.word || (a.word == b.word && number(a.rule) < number(b.rule))
}

fn first_of(a: Option<LineBreak>, b: Option<LineBreak>) -> Option<LineBreak>
    ensures { result ≡ first_of break_key a b }
{
    match (a, b) {
        (None, b) => b,
        (Some(a), None) => Some(a),
        (Some(a), Some(b)) => { if precedes(b, a) { Some(b) } else { Some(a) } }
    }
}

fn broken(rule: LineRule, word: usize) -> Option<LineBreak>
    ensures { result ≡ Some (record { rule = rule; word = word }) }
{
    Some(LineBreak { rule, word })
}

fn is_large_word(word: &Word<'_>) -> bool
    ensures { result ≡ is_large word.now.form word.now.text.now }
{
    is_large(word.form, word.text)
}

/// The number of the first too large word before a place.
fn first_large(words: &[Word<'_>], limit: usize) -> Option<usize>
    requires { limit ≤ length words.now }
    ensures { MatchOption result (NoneLarge (map lexeme_of words.now) limit) (λ k. (k < limit) × (get_or (large_of (map lexeme_of words.now)) k false ≡ true) × NoneLarge (map lexeme_of words.now) k) }
{
    for place in 0..limit {
        if is_large_word(&words[place]) {
            return Some(place);
        }
    }
    None
}

/// Puts the terminals of the words into the room.
fn list_terminals(room: &mut Vec<Terminal>, words: &[Word<'_>]) -> Result<(), AllocError>
    ensures { OnOk result (room.new.items ≡ map (λ word. word.terminal) words.now) }
{
    room.clear();
    for word in words {
        room.push(word.terminal)?;
    }
    Ok(())
}

/// The first rule that a line's words break by themselves.
fn break_by_words(
    alloc: Global,
    start: Rule,
    words: &[Word<'_>],
    terminals: &[Terminal],
) -> Result<Option<LineBreak>, AllocError>
    requires start { grammar.starts start ≡ true }
    requires terminals { terminals.now ≡ map (λ word. word.terminal) words.now }
    ensures { IfOk result (WordBreaks start (map lexeme_of words.now)) }
{
    match read_sentence(alloc, start, terminals) {
        Err(Fault::Memory) => Err(AllocError),
        Err(Fault::Syntax(word)) => match first_large(words, word) {
            Some(large) => Ok(broken(LineRule::TooLarge, large)),
            None => Ok(broken(LineRule::NoForm, word)),
        },
        Err(Fault::TooDeep(word)) => match first_large(words, word) {
            Some(large) => Ok(broken(LineRule::TooLarge, large)),
            None => Ok(broken(LineRule::TooDeep, word)),
        },
        Ok(()) => match first_large(words, words.len()) {
            Some(large) => Ok(broken(LineRule::TooLarge, large)),
            None => Ok(None),
        },
    }
}

fn first_word(words: &[Word<'_>]) -> Terminal
    ensures { result ≡ first_word (map lexeme_of words.now) }
{
    match words {
        [] => Terminal::Do,
        [word, ..] => word.terminal,
    }
}

/// What a line does to the open blocks.
pub fn change_by(words: &[Word<'_>], blocks: &[Block]) -> Option<Change>
    ensures { result ≡ change_by (map lexeme_of words.now) (blocks_of blocks.now) }
{
    change_of(first_word(words), innermost(blocks))
}

/// The rule that a line's first word breaks among the open blocks.
fn break_by_blocks(blocks: &[Block], words: &[Word<'_>]) -> Option<LineBreak>
    ensures { IsFirst break_key (ByBlocks (blocks_of blocks.now) (map lexeme_of words.now)) result }
{
    let change = change_by(words, blocks);
    if change.is_none() {
        return broken(LineRule::NoBlock, 0);
    }
    if is_opening(change) && blocks.len() >= MOST_NESTED_BLOCKS {
        return broken(LineRule::TooDeep, 0);
    }
    None
}

/// The first rule that a line breaks: by word, then rule. Of these are a word that no line of a form goes on
/// with, brackets of level 33, a 33rd block, a too large integer or text, and a block that isn't there. What is in
/// the room doesn't matter: it is used for each line again.
pub fn line_break(
    alloc: Global,
    room: &mut Vec<Terminal>,
    blocks: &[Block],
    words: &[Word<'_>],
) -> Result<Option<LineBreak>, AllocError>
    ensures { IfOk result (LineBreaks (blocks_of blocks.now) (map lexeme_of words.now)) }
{
    list_terminals(room, words)?;
    let own = break_by_words(alloc, start_of(innermost(blocks)), words, room)?;
    Ok(first_of(own, break_by_blocks(blocks, words)))
}
