//! The verdict on a set of files.

use crate::finding::Finding;
use widl_idl::Refusal;
use widl_overload::Accepted;

/// The verdict on a set of files.
#[derive(Drop)]
pub enum Verdict {
    /// A fault of the encoding or of the grammar.
    Fault(Finding),
    /// A broken rule of the profile, of merging or of validity.
    Broken(Refusal),
    /// None of these: the set is accepted, with its merged list.
    Accepted(Accepted),
}
