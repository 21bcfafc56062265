//! The lines of a script, each with the blocks around it.

ghost use Rattle.std.specs.Prelude.{◌≡◌, ◌<◌, length, slice_get, List, IfOk, Some};
ghost use Rattle.widl_lines.specs.Blocks.{first_word};
ghost use Rattle.widl_lines.specs.TextBreaks.{Line};
ghost use Rattle.widl_script_rules.specs.Standings.{around_after};
ghost use Rattle.widl_script_rules.specs.Surroundings.{around_at, first_words, plain_line, plain_lines, AreAround, IsAround};

use std::alloc::{AllocError, Global};
use widl_lines::{LineWords, Terminal};

/// The blocks around a line, by the places of the lines that opened them.
#[derive(Clone, Copy, Debug)]
pub(crate) struct Around {
    /// The innermost block.
    pub(crate) block: Option<usize>,
    /// The innermost function.
    pub(crate) function: Option<usize>,
}

/// The terminal of a line's first word; that of `do`, which changes no blocks, where the line has none.
pub(crate) fn first_word(line: &LineWords<'_>) -> Terminal
    ensures { result ≡ first_word (plain_line line.now).words }
{
    match line.words.first() {
        Some(word) => word.terminal,
        None => Terminal::Do,
    }
}

impl Around {
    const NOWHERE: Around = Around {
        block: None,
        function: None,
    };

    /// What is around the next line after one at the place that begins with the word, where these are around
    /// that line and the lines before it.
    fn after(self, all: &[Around], place: usize, word: Terminal) -> Around
        requires { place < length all.now }
        ensures { (lines : List Line) (line : Line) → slice_get lines place ≡ Some line → first_word line.words ≡ word → AreAround lines all.now → IsAround lines place self (around_at lines place) → IsAround lines (length all.now) result (around_after word line (around_at lines place)) }
    {
        match word {
            Terminal::Function => Around {
                block: Some(place),
                function: Some(place),
            },
            Terminal::Steps | Terminal::Try | Terminal::If => Around {
                block: Some(place),
                function: self.function,
            },
            Terminal::End => match self.block {
                Some(opening) => match all.get(opening) {
                    Some(outer) => *outer,
                    None => Around::NOWHERE,
                },
                None => Around::NOWHERE,
            },
            _ => self,
        }
    }
}

/// The first word of each of the lines. The rules walk over this list: it is short, and the words of a line lie
/// far from those of another.
pub(crate) fn first_words(
    alloc: Global,
    lines: &[LineWords<'_>],
) -> Result<Vec<Terminal>, AllocError>
    ensures words { IfOk result (λ words. words.items ≡ first_words (plain_lines lines.now)) }
    ensures count { IfOk result (λ words. length words.items ≡ length lines.now) }
{
    let mut words = Vec::with_capacity(alloc, lines.len())?;
    'lines: for line in lines {
        words.push(first_word(line))?;
    }
    Ok(words)
}

/// What is around each of the lines, which begin with these words.
pub(crate) fn surroundings(
    alloc: Global,
    lines: &[LineWords<'_>],
    words: &[Terminal],
) -> Result<Vec<Around>, AllocError>
    requires words { words.now ≡ first_words (plain_lines lines.now) }
    requires count { length words.now ≡ length lines.now }
    ensures each { IfOk result (λ all. AreAround (plain_lines lines.now) all.items) }
    ensures count { IfOk result (λ all. length all.items ≡ length lines.now) }
{
    let mut all = Vec::with_capacity(alloc, lines.len())?;
    let mut around = Around::NOWHERE;
    'lines: for (place, word) in words.iter().enumerate() {
        all.push(around)?;
        around = around.after(&all, place, *word);
    }
    Ok(all)
}
