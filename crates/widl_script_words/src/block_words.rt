//! The words that the lines of blocks begin with.

ghost use Rattle.std.specs.Prelude.{◌≡◌, MatchOption, false};
ghost use Rattle.widl_script_words.specs.StepReading.{block_terminal, is_block_word};

use widl_lines::Terminal;

/// The first line of a block, its `catch` or `else`, or its `end`.
#[derive(Clone, Copy, Debug)]
pub enum BlockWord {
    /// `try`.
    Try,
    /// `catch NAME`.
    Catch,
    /// `if E is E`.
    If,
    /// `else`.
    Else,
    /// `function NAME(P, P)`.
    Function,
    /// `steps TARGET`.
    Steps,
    /// `end`.
    End,
}

/// What a line that begins with the terminal does to the open blocks, if anything.
pub fn block_word_of(terminal: Terminal) -> Option<BlockWord>
    ensures { MatchOption result (is_block_word terminal ≡ false) (λ b. terminal ≡ block_terminal b) }
{
    match terminal {
        Terminal::Try => Some(BlockWord::Try),
        Terminal::Catch => Some(BlockWord::Catch),
        Terminal::If => Some(BlockWord::If),
        Terminal::Else => Some(BlockWord::Else),
        Terminal::Function => Some(BlockWord::Function),
        Terminal::Steps => Some(BlockWord::Steps),
        Terminal::End => Some(BlockWord::End),
        _ => None,
    }
}
