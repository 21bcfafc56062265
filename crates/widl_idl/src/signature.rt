//! Signatures, each of one overload.

use crate::argument::Args;
use crate::types::IdlType;
use widl_text::{Items, Place};

/// The arguments and the return type of an operation, a callback or a constructor. That of a
/// constructor returns `undefined`.
#[derive(Drop)]
pub struct Sig {
    /// Where its name stands.
    pub at: Place,
    /// Its arguments.
    pub args: Args,
    /// Its return type.
    pub result: IdlType,
}

/// Overloads in the order of their declaration.
pub type Sigs = Items<Sig>;
