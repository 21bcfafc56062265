//! Interfaces.

use crate::attribute::Attrs;
use crate::constant::Constants;
use crate::operation::OpNames;
use crate::signature::Sigs;
use crate::types::IdlType;
use widl_text::{Items, Place, Units};

/// Whether objects of an interface have a text (Web IDL, "Stringifiers").
#[derive(Clone, Copy, Debug, PartialEq, Eq)]
pub enum Stringify {
    /// They have none.
    No,
    /// A stringifier without an attribute.
    Plain,
    /// The value of the attribute of this number.
    Attr(u32),
}

/// The types of a pair iterable (Web IDL, "Iterable declarations").
#[derive(Drop)]
pub struct Pair {
    /// The type of the keys.
    pub key: IdlType,
    /// The type of the values.
    pub value: IdlType,
}

/// A member, by its number in the list of its kind.
#[derive(Clone, Copy, Debug, PartialEq, Eq)]
pub enum Slot {
    /// The operations of a name.
    Op(u32),
    /// An attribute.
    Attr(u32),
    /// A constant.
    Constant(u32),
    /// The stringifier.
    Stringifier,
    /// The pair iterable.
    Pairs,
}

/// Members of all kinds in their common order.
pub type Slots = Items<Slot>;

/// An interface with all its members (Web IDL, "Interfaces").
#[derive(Drop)]
pub struct Iface {
    /// Where its name stands.
    pub at: Place,
    /// Its name.
    pub name: Units,
    /// The number of the interface from which it inherits.
    pub parent: Option<u32>,
    /// Its constructors.
    pub ctors: Sigs,
    /// Its operations.
    pub ops: OpNames,
    /// Its attributes.
    pub attrs: Attrs,
    /// Its constants.
    pub consts: Constants,
    /// Its stringifier.
    pub text: Stringify,
    /// Its pair iterable.
    pub pairs: Option<Pair>,
    /// All of its members in order.
    pub order: Slots,
}

/// Interfaces by their numbers.
pub type Ifaces = Items<Iface>;
