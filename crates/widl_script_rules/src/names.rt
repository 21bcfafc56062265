//! Which words are names, and what the lines of a script name.

ghost use Rattle.std.specs.Prelude.{◌≡◌, [], drop, map, if◌then◌else◌};
ghost use Rattle.widl_lines.specs.Blocks.{first_word};
ghost use Rattle.widl_lines.specs.WordTerms.{lexeme_of};
ghost use Rattle.widl_script_rules.specs.Names.{bound_in, function_name};
ghost use Rattle.widl_script_rules.specs.Standings.{opens_function, second_word};
ghost use Rattle.widl_script_rules.specs.Surroundings.{plain_line, word_list};
ghost use Rattle.widl_script_words.specs.Words.{is_name};

use widl_lines::{LineWords, Terminal, Word};

/// Whether a terminal is a name: the words that only targets and step lines use are names too.
pub(crate) fn is_name(terminal: Terminal) -> bool
    ensures { result ≡ is_name terminal }
{
    matches!(
        terminal,
        Terminal::Name
            | Terminal::UnderscoredName
            | Terminal::Arg
            | Terminal::Slot
            | Terminal::Literal
            | Terminal::Invoke
            | Terminal::Append
            | Terminal::Clear
            | Terminal::Static
            | Terminal::Constructor
            | Terminal::ToString
    )
}

/// The words of a line behind so many of its first ones.
pub(crate) fn words_behind<'l, 's>(line: &'l LineWords<'s>, count: usize) -> &'l [Word<'s>]
    ensures { map lexeme_of result.now ≡ drop count (plain_line line.now).words }
{
    let words = line.words.as_slice();
    if count < words.len() {
        &words[count..]
    } else {
        &[]
    }
}

/// The second word of a line.
fn second_word<'l, 's>(line: &'l LineWords<'s>) -> Option<&'l Word<'s>>
    ensures { word_list result ≡ second_word (plain_line line.now).words }
{
    line.words.get(1)
}

/// The name that a line binds by `let` or `catch`, which begins with the word.
pub(crate) fn bound_word<'l, 's>(word: Terminal, line: &'l LineWords<'s>) -> Option<&'l Word<'s>>
    requires { word ≡ first_word (plain_line line.now).words }
    ensures { word_list result ≡ bound_in (plain_line line.now) }
{
    match word {
        Terminal::Let | Terminal::Catch => second_word(line),
        _ => None,
    }
}

/// The name of the function that a line opens, which begins with the word.
pub(crate) fn function_name<'l, 's>(word: Terminal, line: &'l LineWords<'s>) -> Option<&'l Word<'s>>
    requires { word ≡ first_word (plain_line line.now).words }
    ensures { word_list result ≡ function_name (plain_line line.now) }
{
    match word {
        Terminal::Function => second_word(line),
        _ => None,
    }
}

/// The words behind the name of the function that a line opens, which begins with the word: the parameters, with what
/// stands between them.
pub(crate) fn parameter_words<'l, 's>(word: Terminal, line: &'l LineWords<'s>) -> &'l [Word<'s>]
    requires { word ≡ first_word (plain_line line.now).words }
    ensures { map lexeme_of result.now ≡ (if opens_function (plain_line line.now) then drop 2 (plain_line line.now).words else []) }
{
    match word {
        Terminal::Function => words_behind(line, 2),
        _ => &[],
    }
}
