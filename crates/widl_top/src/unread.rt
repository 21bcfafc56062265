//! Why a file was not read.

use widl_folder::FetchError;

/// The place among the arguments of a file that was not read whole, and why it wasn't.
#[derive(Debug, Drop)]
pub struct Unread {
    /// The place of the file's name among the arguments.
    pub place: usize,
    /// Why it was not read.
    pub cause: FetchError,
}
