//! The limits of the product, by name. Definitions name the same numbers in `specs/Limits.antt`.

/// The most bytes of one file.
pub const MOST_FILE_BYTES: usize = 1_048_576;

/// The most files of a set.
pub const MOST_FILES: usize = 64;

/// The most levels of a type: as it is written, and with its typedefs replaced.
pub const MOST_TYPE_LEVELS: usize = 16;

/// The most arguments of one list.
pub const MOST_ARGUMENTS: usize = 64;

/// The most overloads of one name.
pub const MOST_OVERLOADS: u32 = 64;

/// The most dictionaries on one chain of member types.
pub const MOST_CHAINED_DICTIONARIES: usize = 256;

/// The most interfaces, namespaces, partials and includes statements of a set, with the members that they
/// bring.
pub const MOST_MEMBERS: u32 = 1_000_000;

/// The most units of a budget.
pub const MOST_UNITS: u64 = 2_000_000;

/// The most levels of blocks of a script that lie in one another.
pub const MOST_NESTED_BLOCKS: usize = 32;

/// The most levels of brackets on one line of a script.
pub const MOST_NESTED_BRACKETS: usize = 32;

/// The most units of a text that is written in a script.
pub const MOST_TEXT_UNITS: usize = 1_000;

/// The most calls that are open at a time.
pub const MOST_OPEN_CALLS: usize = 100;

/// The most objects that are there before a script.
pub const MOST_FIRST_OBJECTS: usize = 6_000_018;

/// The greatest number that a workload is made from.
pub const MOST_WORK: u32 = 1_000;
