//! Where functions, steps blocks and `return` may stand.

ghost use Rattle.std.specs.Prelude.{◌≡◌, ◌<◌, ℕ, length, Contains, List};
ghost use Rattle.widl_lines.specs.Blocks.{first_word};
ghost use Rattle.widl_first.specs.Keys.{IsFirst};
ghost use Rattle.widl_lines.specs.TextBreaks.{Line};
ghost use Rattle.widl_script_rules.specs.LeastBreak.{place_key};
ghost use Rattle.widl_script_rules.specs.Placing.{is_misplaced, misplaced_in, misplaced_words};
ghost use Rattle.widl_script_rules.specs.Standings.{is_in_steps, standings};
ghost use Rattle.widl_script_rules.specs.Surroundings.{first_words, plain_line, plain_lines, AreAround, IsAround};

use crate::places::{first_of, place_at};
use crate::standings::{Around, first_word};
use widl_lines::{LineWords, ScriptPlace, Terminal};

/// Whether the innermost of these blocks of a script's lines is a steps block.
pub(crate) fn is_in_steps(lines: &[LineWords<'_>], around: Around) -> bool
    ensures { (limit : ℕ) (outer : List Line) → IsAround (plain_lines lines.now) limit around outer → result ≡ is_in_steps outer }
{
    match around.block {
        Some(place) => match lines.get(place) {
            Some(line) => matches!(first_word(line), Terminal::Steps),
            None => false,
        },
        None => false,
    }
}

/// Whether a line that begins with the word may not stand in these blocks.
fn is_misplaced(lines: &[LineWords<'_>], around: Around, word: Terminal) -> bool
    ensures { (limit : ℕ) (outer : List Line) → IsAround (plain_lines lines.now) limit around outer → result ≡ is_misplaced word outer }
{
    match word {
        Terminal::Function | Terminal::Steps => around.block.is_some(),
        Terminal::Return => !is_in_steps(lines, around) && around.function.is_none(),
        _ => false,
    }
}

/// What a line breaks that begins with the word.
fn misplaced_in(
    lines: &[LineWords<'_>],
    around: Around,
    word: Terminal,
    line: &LineWords<'_>,
) -> Option<ScriptPlace>
    requires { word ≡ first_word (plain_line line.now).words }
    ensures { (limit : ℕ) (outer : List Line) → IsAround (plain_lines lines.now) limit around outer → IsFirst place_key (Contains (misplaced_in (record { around = outer; line = plain_line line.now }))) result }
{
    if is_misplaced(lines, around, word) {
        place_at(7, line, 0)
    } else {
        None
    }
}

/// Rule 7: the first `function` or `steps` in a block, or `return` outside functions.
pub(crate) fn first_misplaced_word(
    lines: &[LineWords<'_>],
    words: &[Terminal],
    all: &[Around],
) -> Option<ScriptPlace>
    requires words { words.now ≡ first_words (plain_lines lines.now) }
    requires words_count { length words.now ≡ length lines.now }
    requires each { AreAround (plain_lines lines.now) all.now }
    requires count { length all.now ≡ length lines.now }
    ensures { IsFirst place_key (Contains (misplaced_words (standings (plain_lines lines.now)))) result }
{
    let mut first = None;
    'lines: for (place, line) in lines.iter().enumerate() {
        first = first_of(first, misplaced_in(lines, all[place], words[place], line));
    }
    first
}
