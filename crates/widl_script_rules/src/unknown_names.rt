//! Names that are not known where a script uses them.

ghost use Rattle.std.specs.Prelude.{◌≡◌, ◌&&◌, drop, length, map, not, Contains, IfOk, List, ℕ};
ghost use Rattle.widl_first.specs.Keys.{IsFirst};
ghost use Rattle.widl_idl.specs.DefinitionTerms.{defs_term, DefsTerm};
ghost use Rattle.widl_lines.specs.Blocks.{first_word};
ghost use Rattle.widl_lines.specs.Words.{Lexeme};
ghost use Rattle.widl_lines.specs.TextBreaks.{Line};
ghost use Rattle.widl_lines.specs.WordTerms.{lexeme_of};
ghost use Rattle.widl_script_rules.specs.LeastBreak.{place_key};
ghost use Rattle.widl_script_rules.specs.KnownNames.{place_unless, unknown_words, used_where, InScope, Knows};
ghost use Rattle.widl_script_rules.specs.Names.{is_dot, is_known, names_in, unknown_in, unknown_names, used_behind};
ghost use Rattle.widl_script_rules.specs.Standings.{function_around, places_of, standings};
ghost use Rattle.widl_script_rules.specs.Surroundings.{first_words, plain_line, plain_lines, AreAround, IsAround};
ghost use Rattle.widl_script_words.specs.Words.{is_name};

use crate::known_names::KnownNames;
use crate::names::{is_name, words_behind};
use crate::places::{first_of, place_of};
use crate::placing::is_in_steps;
use crate::standings::{Around, first_word};
use std::alloc::{AllocError, Global};
use widl_idl::Defs;
use widl_lines::{LineWords, ScriptPlace, Terminal, Word};

fn is_dot(terminal: Terminal) -> bool
    ensures { result ≡ is_dot terminal }
{
    matches!(terminal, Terminal::Dot)
}

/// Whether the word behind a line's first one is passed over, where the line uses names.
fn passed_behind(first: Terminal) -> Option<bool>
    ensures { (words : List Lexeme) → used_behind first words ≡ used_where result words }
{
    match first {
        Terminal::Let | Terminal::Catch => Some(true),
        Terminal::Function | Terminal::Steps => None,
        _ => Some(false),
    }
}

/// A line of a script, the place of the line that opens the innermost function around it, and what is known.
#[derive(Drop)]
struct Scope<'a, 's, 'd> {
    known: &'a KnownNames<'s, 'd>,
    lines: &'a [LineWords<'s>],
    function: Option<usize>,
    line: &'a LineWords<'s>,
}

impl<'a, 's, 'd> Scope<'a, 's, 'd> {
    /// The place of a word of the line, where it is a name that isn't known and isn't to be passed over.
    fn unknown_place(
        &self,
        room: &mut Vec<u16>,
        word: &Word<'s>,
        is_passed: bool,
    ) -> Result<Option<ScriptPlace>, AllocError>
        ensures { IfOk result (λ place. (list : DefsTerm) (around : List Line) → InScope list self.now around → place ≡ place_unless (plain_line self.now.line.now) (not is_passed && is_name word.now.terminal) (is_known list (standings (plain_lines self.now.lines.now)) (function_around around) word.now.text.now) (lexeme_of word.now)) }
    {
        if is_passed || !is_name(word.terminal) {
            return Ok(None);
        }
        if self.known.has(room, self.lines, self.function, word.text)? {
            Ok(None)
        } else {
            Ok(Some(place_of(5, self.line, word)))
        }
    }

    /// The first unknown name in an expression's words of the line, of which the first may be passed over.
    fn first_unknown(
        &self,
        room: &mut Vec<u16>,
        words: &[Word<'s>],
        passed: bool,
    ) -> Result<Option<ScriptPlace>, AllocError>
        ensures { IfOk result (λ first. (list : DefsTerm) (around : List Line) → InScope list self.now around → IsFirst place_key (Contains (places_of 5 (plain_line self.now.line.now) (unknown_words list (plain_lines self.now.lines.now) around (names_in passed (map lexeme_of words.now))))) first) }
    {
        let mut first = None;
        let mut is_passed = passed;
        'words: for word in words {
            let unknown = self.unknown_place(room, word, is_passed)?;
            first = first_of(first, unknown);
            is_passed = is_dot(word.terminal);
        }
        Ok(first)
    }

    /// The first unknown name that the line uses, where it is no step.
    fn first_unknown_used(&self, room: &mut Vec<u16>) -> Result<Option<ScriptPlace>, AllocError>
        ensures { IfOk result (λ first. (list : DefsTerm) (around : List Line) → InScope list self.now around → IsFirst place_key (Contains (places_of 5 (plain_line self.now.line.now) (unknown_words list (plain_lines self.now.lines.now) around (used_behind (first_word (plain_line self.now.line.now).words) (drop 1 (plain_line self.now.line.now).words))))) first) }
    {
        let Some(passed) = passed_behind(first_word(self.line)) else {
            return Ok(None);
        };
        let first = self.first_unknown(room, words_behind(self.line, 1), passed)?;
        Ok(first)
    }
}

/// The first unknown name of a line among these blocks.
fn first_unknown_in<'s>(
    known: &KnownNames<'s, '_>,
    room: &mut Vec<u16>,
    lines: &[LineWords<'s>],
    around: Around,
    line: &LineWords<'s>,
) -> Result<Option<ScriptPlace>, AllocError>
    ensures { IfOk result (λ first. (list : DefsTerm) (limit : ℕ) (outer : List Line) → Knows list (plain_lines lines.now) known.now → IsAround (plain_lines lines.now) limit around outer → IsFirst place_key (Contains (places_of 5 (plain_line line.now) (unknown_in list (standings (plain_lines lines.now)) (record { around = outer; line = plain_line line.now })))) first) }
{
    if is_in_steps(lines, around) {
        return Ok(None);
    }
    let scope = Scope {
        known,
        lines,
        function: around.function,
        line,
    };
    let first = scope.first_unknown_used(room)?;
    Ok(first)
}

/// Rule 5: the first name that is unknown.
pub(crate) fn first_unknown_name(
    alloc: Global,
    lines: &[LineWords<'_>],
    words: &[Terminal],
    all: &[Around],
    list: &Defs,
) -> Result<Option<ScriptPlace>, AllocError>
    requires words { words.now ≡ first_words (plain_lines lines.now) }
    requires words_count { length words.now ≡ length lines.now }
    requires each { AreAround (plain_lines lines.now) all.now }
    requires count { length all.now ≡ length lines.now }
    ensures { IfOk result (λ first. IsFirst place_key (Contains (unknown_names (defs_term list.now) (standings (plain_lines lines.now)))) first) }
{
    let known = KnownNames::of(alloc, lines, words, all, list)?;
    let mut room = Vec::new(alloc);
    let mut first = None;
    'lines: for (place, line) in lines.iter().enumerate() {
        let unknown = first_unknown_in(&known, &mut room, lines, all[place], line)?;
        first = first_of(first, unknown);
    }
    Ok(first)
}
