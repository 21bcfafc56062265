//! Picks.

/// What a value picks by its class: an overload of several, or a member type of a union (Web IDL,
/// "overload resolution algorithm" and "JavaScript binding of union types").
#[derive(Clone, Copy, Debug, PartialEq, Eq)]
pub enum Pick {
    /// The entry of this number: an overload, or a place among the flattened member types.
    Entry(u32),
    /// The entry of this number, a sequence, if the value has a method `@iterator`.
    Probe(u32),
    /// No entry.
    Refuse,
}
