//! Dictionaries.

use crate::literal::Literal;
use crate::types::IdlType;
use widl_text::{Items, Place, Units};

/// A member of a dictionary (Web IDL, "Dictionaries").
#[derive(Drop)]
pub struct Member {
    /// Where its name stands.
    pub at: Place,
    /// Its name.
    pub name: Units,
    /// Its type.
    pub ty: IdlType,
    /// Whether each value of the dictionary has it.
    pub required: bool,
    /// Its default value.
    pub value: Option<Literal>,
}

/// Members in the order of their declaration.
pub type Members = Items<Member>;

/// A dictionary with the members that it declares itself (Web IDL, "Dictionaries").
#[derive(Drop)]
pub struct Dict {
    /// Where its name stands.
    pub at: Place,
    /// Its name.
    pub name: Units,
    /// The number of the dictionary from which it inherits.
    pub parent: Option<u32>,
    /// Its own members.
    pub members: Members,
}

/// Dictionaries by their numbers.
pub type Dicts = Items<Dict>;
