//! The terminal of a word.

ghost use Rattle.std.specs.Prelude.{◌≡◌, ◌||◌};
ghost use Rattle.std.specs.List.{list_all};
ghost use Rattle.widl_lines.specs.Terminals.{class_of, is_identifier, is_identifier_byte, is_name, is_plain_identifier, is_underscored, is_word_byte, terminal_of};

use crate::integers::{is_integer, is_natural, is_negative};
use crate::listed::listed;
use crate::texts::is_well_formed;
use crate::word_bytes::is_word_byte;
use crate::{Terminal, WordForm};

/// Whether the byte may stand in an identifier of Web IDL.
fn is_identifier_byte(byte: u8) -> bool
    ensures { result ≡ is_identifier_byte byte }
{
    is_word_byte(byte) || byte == b'-'
}

fn are_word_bytes(text: &[u8]) -> bool
    ensures { result ≡ list_all is_word_byte text.now }
{
    text.iter().all(|byte| is_word_byte(*byte))
}

fn are_identifier_bytes(text: &[u8]) -> bool
    ensures { result ≡ list_all is_identifier_byte text.now }
{
    text.iter().all(|byte| is_identifier_byte(*byte))
}

/// Whether the word is a letter and letters, digits and `_`.
fn is_name(text: &[u8]) -> bool
    ensures { result ≡ is_name text.now }
{
    match text.split_first() {
        Some((first, more)) => first.is_ascii_alphabetic() && are_word_bytes(more),
        None => false,
    }
}

/// Whether the word is `_` and letters, digits and `_`.
fn is_underscored(text: &[u8]) -> bool
    ensures { result ≡ is_underscored text.now }
{
    match text.split_first() {
        Some((first, more)) => *first == b'_' && are_word_bytes(more),
        None => false,
    }
}

/// Whether the word is an identifier of Web IDL without a sign before it.
fn is_plain_identifier(text: &[u8]) -> bool
    ensures { result ≡ is_plain_identifier text.now }
{
    match text.split_first() {
        Some((first, more)) => first.is_ascii_alphabetic() && are_identifier_bytes(more),
        None => false,
    }
}

/// Whether the word is an identifier of Web IDL without `_` before it.
fn is_identifier(text: &[u8]) -> bool
    ensures { result ≡ is_identifier text.now }
{
    match text.split_first() {
        Some((b'-', more)) => is_plain_identifier(more),
        _ => is_plain_identifier(text),
    }
}

/// The class of a word that the language doesn't list.
fn class_of(text: &[u8]) -> Terminal
    ensures { result ≡ class_of text.now }
{
    if is_name(text) {
        Terminal::Name
    } else if is_underscored(text) {
        Terminal::UnderscoredName
    } else if is_identifier(text) {
        Terminal::DashedName
    } else if is_natural(text) {
        Terminal::Natural
    } else if is_negative(text) {
        Terminal::Negative
    } else if is_integer(text) {
        Terminal::OtherInteger
    } else {
        Terminal::Unknown
    }
}

#[tactic(auto, unfolding(crate::specs::Terminals::terminal_of))]
fn bare_terminal(text: &[u8]) -> Terminal
    ensures { result ≡ terminal_of WordForm.Bare text.now }
{
    match listed(text) {
        Some(terminal) => terminal,
        None => class_of(text),
    }
}

/// The terminal of a word that was cut in this form. The time is linear in its length.
#[tactic(auto, unfolding(crate::specs::Terminals::terminal_of))]
pub fn terminal_of(form: WordForm, text: &[u8]) -> Terminal
    ensures { result ≡ terminal_of form text.now }
{
    match form {
        WordForm::Bare => bare_terminal(text),
        WordForm::Text => {
            if is_well_formed(text) {
                Terminal::Text
            } else {
                Terminal::Unknown
            }
        }
        WordForm::RawText | WordForm::Unclosed => Terminal::Text,
        WordForm::Decimal | WordForm::Missing => Terminal::Unknown,
    }
}
