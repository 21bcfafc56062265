//! The shape of a word: in which form it is cut, and how long it is. It depends on the word's own bytes and on
//! the words before it.

ghost use Rattle.std.specs.Prelude.{◌≡◌, ◌≤◌, length, false, not, IfSome};
ghost use Rattle.widl_lines.specs.Words.{is_blank, is_run, run_length, has_dashes, is_literal, text_length, decimal_length, quoted, number, bare, shape_of, begins_step, after_first, in_step, next_context};

use crate::WordForm;
use crate::word_bytes::is_word_byte;

/// Where in its line a word stands.
#[derive(Clone, Copy)]
pub enum Context {
    /// It is the line's first word.
    First,
    /// Somewhere after a first word `steps`.
    InTarget,
    /// Somewhere after a first word that begins step lines with slots and literals.
    InStep,
    /// Directly after the word `slot` of a step line.
    AfterSlot,
    /// Directly after the word `literal` of a step line.
    AfterLiteral,
    /// Anywhere else.
    Elsewhere,
}

/// The form of a word and its length.
#[derive(Clone, Copy)]
pub struct Shape {
    /// The form in which it is cut.
    pub form: WordForm,
    /// How many bytes it has after its first one.
    pub more: usize,
}

/// Whether the byte is a space, a TAB or a CR.
pub fn is_blank(byte: u8) -> bool
    ensures { result ≡ is_blank byte }
{
    byte == b' ' || byte == b'\t' || byte == b'\r'
}

fn is_run(dashes: bool, byte: u8) -> bool
    ensures { result ≡ is_run dashes byte }
{
    is_word_byte(byte) || (dashes && byte == b'-')
}

/// How many bytes from the start belong to a run.
fn run_length(dashes: bool, text: &[u8]) -> usize
    ensures value { result ≡ run_length dashes text.now }
    ensures most { result ≤ length text.now }
{
    let mut rest = text;
    while let [byte, after @ ..] = rest {
        if !is_run(dashes, *byte) {
            break;
        }
        rest = after;
    }
    text.len() - rest.len()
}

fn has_dashes(context: Context) -> bool
    ensures { result ≡ has_dashes context }
{
    matches!(context, Context::InTarget | Context::AfterSlot)
}

fn is_literal(context: Context) -> bool
    ensures { result ≡ is_literal context }
{
    matches!(context, Context::AfterLiteral)
}

/// How many bytes a text has after its opening quote, with its closing one; `None` where it has none.
fn text_length(escapes: bool, text: &[u8]) -> Option<usize>
    ensures value { result ≡ text_length escapes false text.now }
    ensures most { IfSome result (λ n. n ≤ length text.now) }
{
    let mut rest = text;
    let mut passed = 0;
    let mut escaped = false;
    while let [byte, after @ ..] = rest {
        passed += 1;
        if *byte == b'"' && !escaped {
            return Some(passed);
        }
        escaped = escapes && !escaped && *byte == b'\\';
        rest = after;
    }
    None
}

/// How many bytes a decimal has after its first one; `None` where no point comes after the digits.
fn decimal_length(text: &[u8]) -> Option<usize>
    ensures value { result ≡ decimal_length text.now }
    ensures most { IfSome result (λ n. n ≤ length text.now) }
{
    let mut rest = text;
    let mut passed = 0;
    while let [byte, after @ ..] = rest {
        passed += 1;
        if *byte == b'.' {
            return Some(passed + run_length(false, after));
        }
        if !byte.is_ascii_digit() {
            return None;
        }
        rest = after;
    }
    None
}

fn quoted(context: Context, text: &[u8]) -> Shape
    ensures value { result ≡ quoted context text.now (text_length (not (is_literal context)) false text.now) }
    ensures most { result.more ≤ length text.now }
{
    match text_length(!is_literal(context), text) {
        None => Shape {
            form: WordForm::Unclosed,
            more: text.len(),
        },
        Some(more) => {
            let form = if is_literal(context) {
                WordForm::RawText
            } else {
                WordForm::Text
            };
            Shape { form, more }
        }
    }
}

fn number(text: &[u8]) -> Shape
    ensures value { result ≡ number text.now (decimal_length text.now) }
    ensures most { result.more ≤ length text.now }
{
    match decimal_length(text) {
        None => Shape {
            form: WordForm::Bare,
            more: run_length(false, text),
        },
        Some(more) => Shape {
            form: WordForm::Decimal,
            more,
        },
    }
}

fn bare(context: Context, byte: u8, text: &[u8]) -> Shape
    ensures value { result ≡ bare context byte text.now }
    ensures most { result.more ≤ length text.now }
{
    let dashes = has_dashes(context);
    let more = if is_run(dashes, byte) || byte == b'-' || byte == b'@' {
        run_length(dashes, text)
    } else {
        0
    };
    Shape {
        form: WordForm::Bare,
        more,
    }
}

/// The shape of the word that begins with the byte, which the text follows.
pub fn shape_of(context: Context, byte: u8, text: &[u8]) -> Shape
    ensures value { result ≡ shape_of context byte text.now }
    ensures most { result.more ≤ length text.now }
{
    if byte == b'"' {
        quoted(context, text)
    } else if is_literal(context) && (byte.is_ascii_digit() || byte == b'-') {
        number(text)
    } else {
        bare(context, byte, text)
    }
}

/// Whether the word is the first one of a step line that may name slots and literals.
fn begins_step(word: &[u8]) -> bool
    ensures { result ≡ begins_step word.now }
{
    word == b"return".as_slice() || word == b"append".as_slice() || word == b"invoke".as_slice()
}

fn after_first(word: &[u8]) -> Context
    ensures { result ≡ after_first word.now }
{
    if word == b"steps".as_slice() {
        Context::InTarget
    } else if word == b"slot".as_slice() {
        Context::AfterSlot
    } else if begins_step(word) {
        Context::InStep
    } else {
        Context::Elsewhere
    }
}

fn in_step(word: &[u8]) -> Context
    ensures { result ≡ in_step word.now }
{
    if word == b"slot".as_slice() {
        Context::AfterSlot
    } else if word == b"literal".as_slice() {
        Context::AfterLiteral
    } else {
        Context::InStep
    }
}

/// Where the word after this one stands.
pub fn next_context(context: Context, word: &[u8]) -> Context
    ensures { result ≡ next_context context word.now }
{
    match context {
        Context::First => after_first(word),
        Context::InTarget => Context::InTarget,
        Context::InStep => in_step(word),
        Context::AfterSlot | Context::AfterLiteral => Context::InStep,
        Context::Elsewhere => Context::Elsewhere,
    }
}
