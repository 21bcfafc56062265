//! Attributes.

use crate::types::IdlType;
use widl_text::{Items, Place, Units};

/// An attribute (Web IDL, "Attributes").
#[derive(Drop)]
pub struct Attr {
    /// Where its name stands.
    pub at: Place,
    /// Its name.
    pub name: Units,
    /// Its type.
    pub ty: IdlType,
    /// Whether it can only be read.
    pub readonly: bool,
    /// Whether it is static.
    pub fixed: bool,
}

/// Attributes in order.
pub type Attrs = Items<Attr>;
