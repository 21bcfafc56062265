//! Hints.

/// Which primitive value of an object is preferred (ECMA-262, "ToPrimitive").
#[derive(Clone, Copy)]
pub enum Hint {
    /// A Number.
    PrefersNumber,
    /// A String.
    PrefersString,
}
