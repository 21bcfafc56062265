//! Typedefs.

use super::{AnnotatedType, Name};

/// A typedef ([Web IDL, Typedefs](https://webidl.spec.whatwg.org/#idl-typedefs)).
#[derive(Drop)]
pub struct Typedef {
    /// The type that is named.
    pub ty: AnnotatedType,
    /// Its name.
    pub name: Name,
}
