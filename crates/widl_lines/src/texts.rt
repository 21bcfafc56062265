//! The texts of a script: their escapes and their units.

ghost use Rattle.std.specs.Prelude.{◌≡◌, ◌<◌, ◌≤◌, ◌∷◌, ◌++◌, [], true, length, chars, is_some, option_map, IfOk, OnOk, MatchOption, None};
ghost use Rattle.std.specs.Char.Escape.{encode_utf16};
ghost use Rattle.widl_lines.specs.Spelled.{Digit, IsNext, NoDigit, Spells};
ghost use Rattle.widl_lines.specs.Terminals.{has_many_units, is_large};
ghost use Rattle.widl_lines.specs.Texts.{between_quotes, short_escape, units_of, units_of_characters, units_of_digits, units_of_escape};

use crate::WordForm;
use crate::characters::split_character;
use crate::integers::is_large_integer;
use std::alloc::{AllocError, Global};
use widl_text::Units;
use widl_text::limits::MOST_TEXT_UNITS;

/// What the next character or escape of a text is.
#[derive(Clone, Copy)]
enum Spelled<'a> {
    /// The text has ended.
    End,
    /// A character, or the unit of an escape, and what follows.
    Code(u32, &'a [u8]),
    /// Neither.
    Malformed,
}

/// The value of a hexadecimal digit that stands first, and what follows.
fn split_digit(text: &[u8]) -> Option<(u32, &[u8])>
    ensures { MatchOption result (NoDigit (chars text.now)) (λ cut. Digit text.now cut.0 cut.1.now) }
{
    let (character, more) = split_character(text)?;
    let digit = match character {
        48..=57 => character - 48,
        65..=70 => character - 55,
        97..=102 => character - 87,
        _ => return None,
    };
    Some((digit, more))
}

/// The unit of four hexadecimal digits that stand first, and what follows.
fn split_four_digits(text: &[u8]) -> Option<(u32, &[u8])>
    ensures { MatchOption result (units_of_digits (chars text.now) ≡ None) (λ cut. Spells 0x10000 text.now (units_of_digits (chars text.now)) true cut.0 cut.1.now) }
{
    let (first, more) = split_digit(text)?;
    let (second, more) = split_digit(more)?;
    let (third, more) = split_digit(more)?;
    let (fourth, more) = split_digit(more)?;
    Some((((first * 16 + second) * 16 + third) * 16 + fourth, more))
}

/// The unit that the character after a `\` stands for, where no digits follow it.
fn short_escape(character: u32) -> Option<u32>
    ensures { result ≡ short_escape character }
{
    match character {
        34 | 92 => Some(character),
        110 => Some(10),
        _ => None,
    }
}

/// The unit of the escape whose `\` stands before the text, and what follows.
fn split_escape(text: &[u8]) -> Option<(u32, &[u8])>
    ensures { MatchOption result (units_of_escape (chars text.now) ≡ None) (λ cut. Spells 0x10000 text.now (units_of_escape (chars text.now)) true cut.0 cut.1.now) }
{
    let (character, more) = split_character(text)?;
    if character == 117 {
        return split_four_digits(more);
    }
    Some((short_escape(character)?, more))
}

/// What the next character or escape of a text is.
fn next_spelled(escapes: bool, text: &[u8]) -> Spelled<'_>
    ensures { IsNext escapes text.now result }
{
    match split_character(text) {
        None => Spelled::End,
        Some((92, more)) if escapes => match split_escape(more) {
            Some((unit, more)) => Spelled::Code(unit, more),
            None => Spelled::Malformed,
        },
        Some((character, more)) => {
            if character < 0x11_0000 {
                Spelled::Code(character, more)
            } else {
                Spelled::Malformed
            }
        }
    }
}

/// How many units the character has, or the unit of an escape.
fn count_of(code: u32) -> usize
    ensures count { result ≡ length (encode_utf16 code) }
    ensures few { result ≤ 2 }
{
    if code < 0x1_0000 { 1 } else { 2 }
}

/// How many units a text has; none where an escape is malformed.
fn count_units(escapes: bool, text: &[u8]) -> Option<usize>
    ensures { result ≡ option_map length (units_of_characters escapes (chars text.now)) }
{
    let mut count = 0;
    let mut rest = text;
    'codes: loop {
        match next_spelled(escapes, rest) {
            Spelled::End => return Some(count),
            Spelled::Code(code, more) => {
                count += count_of(code);
                rest = more;
            }
            Spelled::Malformed => return None,
        }
    }
}

/// Adds the units of a character, or the unit of an escape.
fn push_code(units: &mut Units, code: u32) -> Result<(), AllocError>
    requires { code < 0x11_0000 }
    ensures { OnOk result (units.new ≡ units.old ++ encode_utf16 code) }
{
    if code < 0x1_0000 {
        return units.push(code as u16);
    }
    let above = code - 0x1_0000;
    units.push((0xD800 + above / 0x400) as u16)?;
    units.push((0xDC00 + above % 0x400) as u16)
}

fn read_units(alloc: Global, escapes: bool, text: &[u8]) -> Result<Option<Units>, AllocError>
    ensures { IfOk result (λ units. units ≡ units_of_characters escapes (chars text.now)) }
{
    let mut units = Units::new(alloc);
    let mut rest = text;
    'codes: loop {
        match next_spelled(escapes, rest) {
            Spelled::End => return Ok(Some(units)),
            Spelled::Code(code, more) => {
                push_code(&mut units, code)?;
                rest = more;
            }
            Spelled::Malformed => return Ok(None),
        }
    }
}

/// What stands between the quotes of a text.
fn between_quotes(text: &[u8]) -> &[u8]
    ensures { result.now ≡ between_quotes text.now }
{
    if text.len() < 2 {
        return &[];
    }
    &text[1..text.len() - 1]
}

/// Whether each escape of a text is one of the language's.
#[tactic(auto, unfolding(crate::specs::Texts::units_of))]
pub fn is_well_formed(text: &[u8]) -> bool
    ensures { result ≡ is_some (units_of WordForm.Text text.now) }
{
    count_units(true, between_quotes(text)).is_some()
}

/// Whether a text has more units than one may have.
fn has_many_units(escapes: bool, text: &[u8]) -> bool
    ensures { result ≡ has_many_units (units_of_characters escapes (chars (between_quotes text.now))) }
{
    match count_units(escapes, between_quotes(text)) {
        Some(count) => count > MOST_TEXT_UNITS,
        None => false,
    }
}

/// Whether the literal that the word is exceeds the limits of the language: an integer above 2^64 in
/// magnitude, or a text of more than 1,000 units. The time is linear in the word's length.
#[tactic(auto, unfolding(crate::specs::Terminals::is_large, crate::specs::Texts::units_of))]
pub fn is_large(form: WordForm, text: &[u8]) -> bool
    ensures { result ≡ is_large form text.now }
{
    match form {
        WordForm::Bare => is_large_integer(text),
        WordForm::Text => has_many_units(true, text),
        WordForm::RawText => has_many_units(false, text),
        WordForm::Unclosed | WordForm::Decimal | WordForm::Missing => false,
    }
}

/// The units of a word that is a text, whose escapes stand for a unit each; none where one is malformed, and
/// for a word that is no text.
///
/// # Errors
///
/// `AllocError` where there is no memory.
#[tactic(auto, unfolding(crate::specs::Texts::units_of))]
pub fn units_of(alloc: Global, form: WordForm, text: &[u8]) -> Result<Option<Units>, AllocError>
    ensures { IfOk result (λ units. units ≡ units_of form text.now) }
{
    match form {
        WordForm::Text => read_units(alloc, true, between_quotes(text)),
        WordForm::RawText => read_units(alloc, false, between_quotes(text)),
        WordForm::Bare | WordForm::Unclosed | WordForm::Decimal | WordForm::Missing => Ok(None),
    }
}
