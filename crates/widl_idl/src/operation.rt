//! Operations by their names.

use crate::signature::Sigs;
use widl_text::{Items, Units};

/// The operations of an interface or a namespace that have one name and are all static or all
/// regular (Web IDL, "Overloading").
#[derive(Drop)]
pub struct OpName {
    /// Their name.
    pub name: Units,
    /// Whether they are static.
    pub fixed: bool,
    /// One signature each.
    pub sigs: Sigs,
}

/// Operations in the order in which their names come first.
pub type OpNames = Items<OpName>;
