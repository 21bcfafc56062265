//! Namespaces.

use crate::attribute::Attrs;
use crate::constant::Constants;
use crate::interface::Slots;
use crate::operation::OpNames;
use widl_text::{Items, Place, Units};

/// A namespace with all its members (Web IDL, "Namespaces").
#[derive(Drop)]
pub struct Space {
    /// Where its name stands.
    pub at: Place,
    /// Its name.
    pub name: Units,
    /// Its operations.
    pub ops: OpNames,
    /// Its attributes.
    pub attrs: Attrs,
    /// Its constants.
    pub consts: Constants,
    /// All of its members in order.
    pub order: Slots,
}

/// Namespaces by their numbers.
pub type Spaces = Items<Space>;
