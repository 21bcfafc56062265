//! The words of a line.

ghost use Rattle.std.specs.Prelude.{◌≡◌, ◌+◌, ◌^◌, ◌<◌, ◌≤◌, [], ◌∷◌, ◌++◌, length, map, IfOk, OnOk};
ghost use Rattle.widl_lines.specs.Words.{lexeme, missing, words_from, is_comment, words_of};
ghost use Rattle.widl_lines.specs.declared.shape.Context.TheVariants.{First};
ghost use Rattle.widl_lines.specs.WordTerms.{lexeme_of};

use crate::shape::{Context, is_blank, next_context, shape_of};
use crate::terminal::terminal_of;
use crate::{Terminal, WordForm};
use std::alloc::{AllocError, Global};
use std::mem;

/// A word of a line.
#[derive(Clone, Copy)]
pub struct Word<'a> {
    /// Its bytes, a slice of the script.
    pub text: &'a [u8],
    /// The column of its first byte, in bytes from 1.
    pub column: u32,
    /// How it was cut.
    pub form: WordForm,
    /// What it is to the grammar.
    pub terminal: Terminal,
}

fn push_word<'a>(
    words: &mut Vec<Word<'a>>,
    form: WordForm,
    column: u32,
    text: &'a [u8],
) -> Result<(), AllocError>
    ensures { OnOk result (map lexeme_of words.new.items ≡ map lexeme_of words.old.items ++ lexeme form column text.now ∷ []) }
{
    words.push(Word {
        text,
        column,
        form,
        terminal: terminal_of(form, text),
    })?;
    Ok(())
}

/// Adds a word, and after a text without its closing quote the word that is missing.
fn push_cut<'a>(
    words: &mut Vec<Word<'a>>,
    form: WordForm,
    column: u32,
    text: &'a [u8],
) -> Result<(), AllocError>
    requires { column + length text.now < 2 ^ 32 }
    ensures { OnOk result (map lexeme_of words.new.items ≡ map lexeme_of words.old.items ++ lexeme form column text.now ∷ missing form (column + length text.now)) }
{
    push_word(words, form, column, text)?;
    if form == WordForm::Unclosed {
        push_word(words, WordForm::Missing, column + text.len() as u32, &[])?;
    }
    Ok(())
}

/// Puts the words of a line that is no comment into the room.
fn cut_words<'a>(words: &mut Vec<Word<'a>>, line: &'a [u8]) -> Result<(), AllocError>
    requires { length line.now + 1 < 2 ^ 32 }
    ensures { OnOk result (map lexeme_of words.new.items ≡ words_from First 1 0 line.now) }
{
    words.clear();
    let mut context = Context::First;
    let mut column = 1;
    let mut rest = line;
    while let [byte, after @ ..] = rest {
        if is_blank(*byte) {
            column += 1;
            rest = after;
        } else {
            let shape = shape_of(context, *byte, after);
            let (word, others) = rest.split_at(1 + shape.more);
            push_cut(words, shape.form, column, word)?;
            context = next_context(context, word);
            column += word.len() as u32;
            rest = others;
        }
    }
    Ok(())
}

/// The same words in a list without room for more.
fn copied<'a>(alloc: Global, words: &[Word<'a>]) -> Result<Vec<Word<'a>>, AllocError>
    ensures { IfOk result (λ copy. copy.items ≡ words.now) }
{
    let mut copy = Vec::with_capacity(alloc, words.len())?;
    copy.extend_from_slice(words)?;
    Ok(copy)
}

fn is_comment(line: &[u8]) -> bool
    ensures { result ≡ is_comment line.now }
{
    match line {
        [] => false,
        [first, ..] => *first == b'#',
    }
}

/// As many words of a line as are copied out of the room.
const MOST_COPIED: usize = 256;

/// The words in the room: copied where they are few, so that the room serves the next line, and else the room
/// itself.
fn taken<'a>(alloc: Global, room: &mut Vec<Word<'a>>) -> Result<Vec<Word<'a>>, AllocError>
    ensures { IfOk result (λ words. words.items ≡ room.old.items) }
{
    if room.len() > MOST_COPIED {
        return Ok(mem::replace(room, Vec::new(alloc)));
    }
    copied(alloc, room)
}

/// The words of a line. A line whose first byte is `#` has none. What is in the room doesn't matter: it is used
/// for each line again.
#[tactic(auto, using(crate::proofs::Cutting::comment, crate::proofs::Cutting::no_comment))]
pub fn words_of<'a>(
    alloc: Global,
    room: &mut Vec<Word<'a>>,
    line: &'a [u8],
) -> Result<Vec<Word<'a>>, AllocError>
    requires { length line.now + 1 < 2 ^ 32 }
    ensures { IfOk result (λ words. map lexeme_of words.items ≡ words_of line.now) }
{
    if is_comment(line) {
        return Ok(Vec::new(alloc));
    }
    cut_words(room, line)?;
    taken(alloc, room)
}
