//! One line further in a script: what it breaks first, or the blocks that it leaves open.

ghost use Rattle.std.specs.Prelude.{◌≡◌, map, IfOk, OnOk, MatchOption};
ghost use Rattle.widl_lines.specs.WordTerms.{lexeme_of};
ghost use Rattle.widl_lines.specs.Stacks.{blocks_of};
ghost use Rattle.widl_lines.specs.Blocks.{after_change, blocks_after};
ghost use Rattle.widl_lines.specs.Breaks.{LineBreaks};
ghost use Rattle.widl_lines.specs.TextBreaks.{column_of};

use crate::blocks::{Block, Change, apply};
use crate::line_break::{LineBreak, change_by, line_break};
use crate::{Terminal, Word};
use std::alloc::{AllocError, Global};

fn apply_change(blocks: &mut Vec<Block>, change: Option<Change>) -> Result<(), AllocError>
    ensures { OnOk result (blocks_of blocks.new.items ≡ after_change change (blocks_of blocks.old.items)) }
{
    match change {
        Some(change) => apply(blocks, change),
        None => Ok(()),
    }
}

/// What a line breaks first; where it breaks nothing, the open blocks become those after it.
pub fn pass_line(
    alloc: Global,
    room: &mut Vec<Terminal>,
    blocks: &mut Vec<Block>,
    words: &[Word<'_>],
) -> Result<Option<LineBreak>, AllocError>
    ensures broken { IfOk result (LineBreaks (blocks_of blocks.old.items) (map lexeme_of words.now)) }
    ensures blocks { IfOk result (λ found. MatchOption found (blocks_of blocks.new.items ≡ blocks_after (map lexeme_of words.now) (blocks_of blocks.old.items)) (λ _. Unit {0})) }
{
    let found = line_break(alloc, room, blocks, words)?;
    if found.is_some() {
        return Ok(found);
    }
    let change = change_by(words, blocks);
    apply_change(blocks, change)?;
    Ok(None)
}

/// The column of the word of that number, or of the line's end.
pub fn column_of(words: &[Word<'_>], word: usize, end: u32) -> u32
    ensures { result ≡ column_of (map lexeme_of words.now) word end }
{
    match words.get(word) {
        Some(word) => word.column,
        None => end,
    }
}
