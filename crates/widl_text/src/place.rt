//! Places in source files.

/// A byte of one of the source files.
#[derive(Clone, Copy, Debug, PartialEq, Eq)]
pub struct Place {
    /// The number of the file, from 0 in the order in which the files were named.
    pub file: u16,
    /// The offset in bytes from the start of the file.
    pub at: u32,
}
