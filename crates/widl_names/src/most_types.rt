//! How many types typedefs may make.

/// The most types that stand in the types of typedefs, wherever these are used in one list of
/// definitions, or in one written type that a rule looks into. Typedefs of typedefs can mean types that grow far
/// faster than their source, so that a short file means a list for which no machine has the memory. They are
/// counted before they are made.
pub const MOST_TYPES: usize = 100_000_000;
