//! The categories of innermost types.

/// The kind of an innermost type, by which two of them are distinguished (Web IDL,
/// "distinguishable").
#[derive(Clone, Copy, Debug, PartialEq, Eq)]
pub enum Category {
    /// None: `any`, promises, and what is no innermost type.
    Never,
    /// `undefined`.
    Undefined,
    /// `boolean`.
    Boolean,
    /// The integer types.
    Numeric,
    /// The string types and enumerations.
    String,
    /// `object`.
    Object,
    /// The interface of this number.
    Interface(u32),
    /// Callback functions.
    Function,
    /// Dictionaries, records and callback interfaces.
    DictionaryLike,
    /// Sequences.
    SequenceLike,
}
