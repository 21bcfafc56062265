//! Constants.

use crate::literal::Literal;
use crate::types::IdlType;
use widl_text::{Items, Place, Units};

/// A constant (Web IDL, "Constants").
#[derive(Drop)]
pub struct Constant {
    /// Where its name stands.
    pub at: Place,
    /// Its name.
    pub name: Units,
    /// Its type.
    pub ty: IdlType,
    /// Its value.
    pub value: Literal,
}

/// Constants in order.
pub type Constants = Items<Constant>;
