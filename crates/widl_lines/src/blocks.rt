//! The open blocks of a script, and what a line's first word does to them.

ghost use Rattle.std.specs.Prelude.{◌≡◌, ◌∷◌, true, OnOk, Option};
ghost use Rattle.widl_lines.specs.Grammar.{grammar};
ghost use Rattle.widl_lines.specs.Blocks.{change_of, innermost, outer, changed, is_opening, start_of};
ghost use Rattle.widl_lines.specs.Stacks.{blocks_of};

use crate::{Rule, Terminal};
use std::alloc::AllocError;

/// A block of lines that is open.
#[derive(Clone, Copy, PartialEq, Eq)]
pub enum Block {
    /// The body of a function.
    Function,
    /// The steps of a callee.
    Steps,
    /// The lines of a `try` before its `catch`.
    Try,
    /// The lines after a `catch`.
    Catch,
    /// The lines of an `if` before its `else`, if it has one.
    If,
    /// The lines after an `else`.
    Else,
}

/// What a line does to the open blocks.
#[derive(Clone, Copy)]
pub enum Change {
    /// Nothing.
    Stay,
    /// It opens a block.
    Open(Block),
    /// It ends the innermost block and opens another.
    Turn(Block),
    /// It closes the innermost block.
    Close,
}

fn at_catch(inside: Option<Block>) -> Option<Change>
    ensures { result ≡ change_of Terminal.Catch inside }
{
    match inside {
        Some(Block::Try) => Some(Change::Turn(Block::Catch)),
        _ => None,
    }
}

fn at_else(inside: Option<Block>) -> Option<Change>
    ensures { result ≡ change_of Terminal.Else inside }
{
    match inside {
        Some(Block::If) => Some(Change::Turn(Block::Else)),
        _ => None,
    }
}

fn at_end(inside: Option<Block>) -> Option<Change>
    ensures { result ≡ change_of Terminal.End inside }
{
    match inside {
        None | Some(Block::Try) => None,
        _ => Some(Change::Close),
    }
}

/// What a line that begins with the word does, by the innermost block; `None` where the word needs a block
/// that isn't there.
pub fn change_of(word: Terminal, inside: Option<Block>) -> Option<Change>
    ensures { result ≡ change_of word inside }
{
    match word {
        Terminal::Function => Some(Change::Open(Block::Function)),
        Terminal::Steps => Some(Change::Open(Block::Steps)),
        Terminal::Try => Some(Change::Open(Block::Try)),
        Terminal::If => Some(Change::Open(Block::If)),
        Terminal::Catch => at_catch(inside),
        Terminal::Else => at_else(inside),
        Terminal::End => at_end(inside),
        _ => Some(Change::Stay),
    }
}

/// Whether the change opens a block.
pub fn is_opening(change: Option<Change>) -> bool
    ensures { result ≡ is_opening change }
{
    matches!(change, Some(Change::Open(_)))
}

/// The rule of the grammar by which a line is read.
pub fn start_of(inside: Option<Block>) -> Rule
    ensures value { result ≡ start_of inside }
    ensures start { grammar.starts result ≡ true }
{
    match inside {
        Some(Block::Steps) => Rule::StepLine,
        _ => Rule::Line,
    }
}

/// The innermost of the open blocks.
pub fn innermost(blocks: &[Block]) -> Option<Block>
    ensures { result ≡ innermost (blocks_of blocks.now) }
{
    blocks.last().copied()
}

fn open_block(blocks: &mut Vec<Block>, block: Block) -> Result<(), AllocError>
    ensures { OnOk result (blocks_of blocks.new.items ≡ block ∷ blocks_of blocks.old.items) }
{
    blocks.push(block)?;
    Ok(())
}

fn close_block(blocks: &mut Vec<Block>)
    ensures { blocks_of blocks.new.items ≡ outer (blocks_of blocks.old.items) }
{
    let _ = blocks.pop();
}

/// Makes the change.
pub fn apply(blocks: &mut Vec<Block>, change: Change) -> Result<(), AllocError>
    ensures { OnOk result (blocks_of blocks.new.items ≡ changed change (blocks_of blocks.old.items)) }
{
    match change {
        Change::Stay => Ok(()),
        Change::Open(block) => open_block(blocks, block),
        Change::Turn(block) => {
            close_block(blocks);
            open_block(blocks, block)
        }
        Change::Close => {
            close_block(blocks);
            Ok(())
        }
    }
}
