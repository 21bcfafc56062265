//! Waits: what a conversation needs of an answer, and what it still needs then.
//!
//! An ask goes out with its arguments, so a wait doesn't hold them. It knows the kind of its ask.

use crate::containers::Filled;
use crate::jobs::Filling;
use crate::members_left::MemberPlace;
use crate::primitive::PrimitiveWait;
use crate::record::{NamedProperty, Property, Recorded};
use crate::resolution::Probe;
use crate::sequence::SequenceWait;
use crate::union::UnionProbe;

/// A member of a dictionary whose value is waited for.
#[derive(Drop)]
pub struct MemberWait {
    /// Where the member stands.
    pub at: MemberPlace,
    /// The dictionary, with the members that are left after this one.
    pub filling: Box<Filling>,
}

/// What waits for a value, and ends with a value that was thrown.
#[derive(Drop)]
pub enum ValueWait {
    /// Of an object to a primitive value.
    Primitive(PrimitiveWait),
    /// Of an argument by which overloads are told apart, for its method `@iterator`.
    Probe(Probe),
    /// On the way from an object to a sequence.
    Sequence(SequenceWait),
    /// Of a record's property.
    Property(NamedProperty),
    /// Of an object for a member of a dictionary.
    Member(MemberWait),
    /// Of an object that is converted to a union, for its method `@iterator`.
    UnionProbe(Box<UnionProbe>),
    /// For an array that is made.
    NewArray,
    /// For an object that is made.
    NewObject,
}

/// What waits for an answer.
#[derive(Drop)]
pub enum Wait {
    /// It is a value.
    Value(ValueWait),
    /// It is the own keys of an object, for a record.
    Keys(Recorded),
    /// It is the flags of an own property, for a record.
    Own(Property),
    /// It is none: the unit was taken that a member takes where it is not read.
    Unit(MemberWait),
    /// It is none: the unit was taken of an item on its way to script.
    Item(Filled),
}
