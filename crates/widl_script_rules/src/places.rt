//! Places at which rules are broken.

ghost use Rattle.std.specs.Prelude.{◌≡◌, ◌∷◌, [], ℕ, option_map, slice_get};
ghost use Rattle.widl_first.specs.Keys.{first_of, precedes};
ghost use Rattle.widl_lines.specs.WordTerms.{lexeme_of};
ghost use Rattle.widl_script_rules.specs.LeastBreak.{place_key};
ghost use Rattle.widl_script_rules.specs.Standings.{place_of};
ghost use Rattle.widl_script_rules.specs.Surroundings.{plain_line};
ghost use Rattle.widl_script_rules.specs.UsedPlaces.{FirstAt, capped};

use widl_lines::{LineWords, ScriptPlace, Word};

/// Whether the place is before the other one, by line, column and rule.
fn precedes(a: ScriptPlace, b: ScriptPlace) -> bool
    ensures { result ≡ precedes place_key a b }
{
    a.line < b.line
        || (a.line == b.line && (a.column < b.column || (a.column == b.column && a.rule < b.rule)))
}

/// The first of two places.
pub(crate) fn first_of(a: Option<ScriptPlace>, b: Option<ScriptPlace>) -> Option<ScriptPlace>
    ensures { result ≡ first_of place_key a b }
{
    match (a, b) {
        (None, b) => b,
        (Some(p), None) => Some(p),
        (Some(p), Some(q)) => { if precedes(q, p) { Some(q) } else { Some(p) } }
    }
}

/// The place of a word that breaks a rule.
pub(crate) fn place_of(rule: u8, line: &LineWords<'_>, word: &Word<'_>) -> ScriptPlace
    ensures { result ≡ place_of rule (plain_line line.now) (lexeme_of word.now) }
{
    ScriptPlace {
        rule,
        line: line.number,
        column: word.column,
    }
}

/// The place of the line's word of this number, from 0, that breaks a rule.
pub(crate) fn place_at(rule: u8, line: &LineWords<'_>, number: usize) -> Option<ScriptPlace>
    ensures { result ≡ option_map (place_of rule (plain_line line.now)) (slice_get (plain_line line.now).words number) }
{
    match line.words.get(number) {
        Some(word) => Some(place_of(rule, line, word)),
        None => None,
    }
}

/// The same of a number that is the greatest one where the word's is greater, which no line has.
pub(crate) fn place_near(rule: u8, line: &LineWords<'_>, number: usize) -> Option<ScriptPlace>
    ensures { (word : ℕ) → number ≡ capped word → FirstAt rule (plain_line line.now) (word ∷ []) result }
{
    let words = line.words.as_slice();
    if number < words.len() {
        place_at(rule, line, number)
    } else {
        None
    }
}
