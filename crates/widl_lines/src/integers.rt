//! The integers of a script.

ghost use Rattle.std.specs.Prelude.{◌≡◌, ◌||◌, ◌&&◌, false};
ghost use Rattle.std.specs.List.{list_all};
ghost use Rattle.std.specs.Char.{is_ascii_digit, is_ascii_hexdigit};
ghost use Rattle.widl_lines.specs.Integers.{is_after_zero, is_hexadecimal, is_integer, is_large_integer, is_natural, is_negative, is_octal_digit, is_positive, is_unsigned, without_minus};

use widl_text::magnitude;

fn are_digits(text: &[u8]) -> bool
    ensures { result ≡ list_all is_ascii_digit text.now }
{
    text.iter().all(|byte| byte.is_ascii_digit())
}

fn are_hexadecimal_digits(text: &[u8]) -> bool
    ensures { result ≡ list_all is_ascii_hexdigit text.now }
{
    text.iter().all(|byte| byte.is_ascii_hexdigit())
}

fn is_octal_digit(byte: u8) -> bool
    ensures { result ≡ is_octal_digit byte }
{
    matches!(byte, b'0'..=b'7')
}

fn are_octal_digits(text: &[u8]) -> bool
    ensures { result ≡ list_all is_octal_digit text.now }
{
    text.iter().all(|byte| is_octal_digit(*byte))
}

/// Whether the word is digits, of which the first isn't 0.
fn is_positive(text: &[u8]) -> bool
    ensures { result ≡ is_positive text.now }
{
    match text.split_first() {
        Some((b'1'..=b'9', more)) => are_digits(more),
        _ => false,
    }
}

/// Whether the word is `-` and digits, of which the first isn't 0.
pub fn is_negative(text: &[u8]) -> bool
    ensures { result ≡ is_negative text.now }
{
    match text.split_first() {
        Some((b'-', more)) => is_positive(more),
        _ => false,
    }
}

/// Whether the word is `0`, or digits of which the first isn't 0.
pub fn is_natural(text: &[u8]) -> bool
    ensures { result ≡ is_natural text.now }
{
    text == b"0".as_slice() || is_positive(text)
}

fn is_hexadecimal(text: &[u8]) -> bool
    ensures { result ≡ is_hexadecimal text.now }
{
    !text.is_empty() && are_hexadecimal_digits(text)
}

fn is_after_zero(text: &[u8]) -> bool
    ensures { result ≡ is_after_zero text.now }
{
    match text.split_first() {
        Some((b'x' | b'X', more)) => is_hexadecimal(more),
        _ => are_octal_digits(text),
    }
}

fn is_unsigned(text: &[u8]) -> bool
    ensures { result ≡ is_unsigned text.now }
{
    match text.split_first() {
        Some((b'0', more)) => is_after_zero(more),
        _ => is_positive(text),
    }
}

fn without_minus(text: &[u8]) -> &[u8]
    ensures { result.now ≡ without_minus text.now }
{
    match text.split_first() {
        Some((b'-', more)) => more,
        _ => text,
    }
}

/// Whether the word is an integer of Web IDL.
pub fn is_integer(text: &[u8]) -> bool
    ensures { result ≡ is_integer text.now }
{
    is_unsigned(without_minus(text))
}

/// Whether a word may be an integer, by its first byte: most words aren't, and need no further look.
fn may_be_integer(text: &[u8]) -> bool
    ensures { result ≡ false → is_integer text.now ≡ false }
{
    match text.split_first() {
        Some((first, _)) => first.is_ascii_digit() || *first == b'-',
        None => false,
    }
}

/// Whether the word is an integer above 2^64 in magnitude.
pub fn is_large_integer(text: &[u8]) -> bool
    ensures { result ≡ is_large_integer text.now }
{
    may_be_integer(text) && is_integer(text) && magnitude(without_minus(text)) > 1 << 64
}
