//! Parameters whose name is an earlier one's of the same function.

ghost use Rattle.std.specs.Prelude.{◌≡◌, ◌&&◌, ◌||◌, [], bytes_eq, length, Contains, IfOk, List, None, OnOk, Some, ℕ, if◌then◌else◌};
ghost use Rattle.widl_first.specs.Keys.{IsFirst};
ghost use Rattle.widl_script_rules.specs.LeastBreak.{place_key};
ghost use Rattle.widl_script_rules.specs.Names.{parameters_in};
ghost use Rattle.widl_script_rules.specs.RepeatedParameters.{repeated_parameters, repeated_words};
ghost use Rattle.widl_lines.specs.Blocks.{first_word};
ghost use Rattle.widl_lines.specs.WordTerms.{lexeme_of};
ghost use Rattle.widl_script_rules.specs.Standings.{place_of, places_of, standings};
ghost use Rattle.widl_script_rules.specs.Surroundings.{first_words, has_key, plain_line, plain_lines};
ghost use Rattle.widl_script_words.specs.Words.{is_name};

use crate::names::{is_name, parameter_words};
use crate::places::{first_of, place_of};
use indexmap::IndexSet;
use std::alloc::{AllocError, Global};
use widl_lines::{LineWords, ScriptPlace, Terminal, Word};

/// Takes the next word of a line's parameters, and answers its place where it is a name that one of the words
/// before it has.
fn repeated_word<'s>(
    names: &mut IndexSet<&'s [u8]>,
    line: &LineWords<'_>,
    word: &Word<'s>,
) -> Result<Option<ScriptPlace>, AllocError>
    ensures names { OnOk result ((text : List ℕ) → has_key names.new.keys text ≡ (has_key names.old.keys text || (is_name word.now.terminal && bytes_eq text word.now.text.now))) }
    ensures place { IfOk result (λ place. place ≡ (if is_name word.now.terminal && has_key names.old.keys word.now.text.now then Some (place_of 8 (plain_line line.now) (lexeme_of word.now)) else None)) }
{
    if !is_name(word.terminal) {
        return Ok(None);
    }
    if names.insert(word.text)? {
        Ok(None)
    } else {
        Ok(Some(place_of(8, line, word)))
    }
}

/// The first parameter of a line, which begins with the word, that has the name of an earlier one.
fn repeated_in(
    alloc: Global,
    word: Terminal,
    line: &LineWords<'_>,
) -> Result<Option<ScriptPlace>, AllocError>
    requires { word ≡ first_word (plain_line line.now).words }
    ensures { IfOk result (λ first. IsFirst place_key (Contains (places_of 8 (plain_line line.now) (repeated_words [] (parameters_in (plain_line line.now))))) first) }
{
    let mut names = IndexSet::new(alloc);
    let mut first = None;
    let words = parameter_words(word, line);
    'words: for word in words {
        let repeated = repeated_word(&mut names, line, word)?;
        first = first_of(first, repeated);
    }
    Ok(first)
}

/// Rule 8, of parameters: the first that has the name of an earlier one of its function.
pub(crate) fn first_repeated_parameter(
    alloc: Global,
    lines: &[LineWords<'_>],
    words: &[Terminal],
) -> Result<Option<ScriptPlace>, AllocError>
    requires words { words.now ≡ first_words (plain_lines lines.now) }
    requires count { length words.now ≡ length lines.now }
    ensures { IfOk result (λ first. IsFirst place_key (Contains (repeated_parameters (standings (plain_lines lines.now)))) first) }
{
    let mut first = None;
    'lines: for (place, line) in lines.iter().enumerate() {
        let repeated = repeated_in(alloc, words[place], line)?;
        first = first_of(first, repeated);
    }
    Ok(first)
}
