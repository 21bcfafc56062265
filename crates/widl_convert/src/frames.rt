//! Frames: what a conversation does with the end of a task.
//!
//! Each goes on with one kind of end, and passes any other on.

use crate::containers::Outgoing;
use crate::jobs::Beginning;
use crate::record::{NamedProperty, Property};
use crate::resolution::Resolution;
use crate::sequence::Iteration;
use crate::waits::MemberWait;
use widl_idl::{IntKind, Mode, TextKind};
use widl_steps::Want;

/// What goes on with a value of the script.
#[derive(Drop)]
pub enum ValueFrame {
    /// It is a primitive value, which becomes a Number, a String or a length.
    Scalar(Want),
    /// It is that of the item of a container that was taken last.
    Item(Box<Outgoing>),
}

/// What goes on with a Number.
#[derive(Drop)]
pub enum NumberFrame {
    /// It becomes a length.
    Length,
    /// It becomes a value of an integer type.
    Integer(IntKind, Mode),
}

/// What goes on with a String.
#[derive(Drop)]
pub enum TextFrame {
    /// It becomes a value of a string type.
    String(TextKind),
    /// It becomes a value of the enumeration of this number.
    Enumeration(u32),
}

/// What goes on with an IDL value.
#[derive(Drop)]
pub enum IdlFrame {
    /// It is that of the argument that was taken last.
    Argument(Box<Resolution>),
    /// It is that of a declared argument which the call doesn't have.
    Defaulted(Beginning),
    /// It is the next element of a sequence.
    Element(Box<Iteration>),
    /// It is that of a record's property.
    Property(NamedProperty),
    /// It is that of a member of a dictionary.
    Member(MemberWait),
}

/// What waits for the end of a task.
#[derive(Drop)]
pub enum Frame {
    /// It is a value of the script.
    Value(ValueFrame),
    /// It is a Number.
    Number(NumberFrame),
    /// It is a String.
    Text(TextFrame),
    /// It is an IDL value.
    Idl(IdlFrame),
    /// It is the key of a record's entry.
    Key(Property),
}
