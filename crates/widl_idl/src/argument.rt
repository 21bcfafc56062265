//! Arguments of operations, constructors and callbacks.

use crate::literal::Literal;
use crate::types::IdlType;
use widl_text::{Items, Units};

/// Whether a call may leave an argument out, or repeat it
/// (Web IDL, "optionality value").
#[derive(Clone, Copy, Debug, PartialEq, Eq)]
pub enum Optionality {
    /// A call has it.
    Required,
    /// A call may leave it out.
    Optional,
    /// A call may have it any number of times.
    Variadic,
}

/// Optionality values, in the order of their arguments.
pub type Optionalities = Items<Optionality>;

/// A declared argument (Web IDL, "arguments").
#[derive(Drop)]
pub struct Arg {
    /// Its name.
    pub name: Units,
    /// Its type.
    pub ty: IdlType,
    /// Whether a call may leave it out, or repeat it.
    pub opt: Optionality,
    /// Its default value.
    pub value: Option<Literal>,
}

/// Arguments in the order of their declaration.
pub type Args = Items<Arg>;
