//! The forms in which words are cut from a line.

/// How a word was cut from its line.
#[derive(Clone, Copy, Debug, PartialEq, Eq)]
pub enum WordForm {
    /// Any word outside quotes: a run of letters, digits and `_`, in a target and after `slot` also of `-`;
    /// `-` or `@` with the run after it; or one other byte.
    Bare,
    /// A text with its closing quote, whose escapes count.
    Text,
    /// A text with its closing quote after `literal`, where there are no escapes.
    RawText,
    /// A text without its closing quote: from the quote to the line's end.
    Unclosed,
    /// A decimal after `literal`: digits, a point and a run.
    Decimal,
    /// The empty word one past the line's end, after a text without its closing quote.
    Missing,
}
