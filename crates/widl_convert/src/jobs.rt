//! Jobs: the tasks of a conversation.

use crate::containers::{Filled, Outgoing};
use crate::members_left::{MemberPlace, MembersLeft};
use crate::record::Properties;
use crate::resolution::{Call, Resolution};
use crate::sequence::{Iterable, Iteration};
use widl_idl::{Callee, IdlType};
use widl_steps::{Hint, Want};
use widl_value::{IdlMembers, IdlValue, IdlValues, ObjRef, Value};

/// A place among the arguments of an overload, where a type stands in the list of definitions.
#[derive(Clone, Copy)]
pub struct ArgumentPlace {
    /// The callee.
    pub callee: Callee,
    /// The number of the overload.
    pub overload: u32,
    /// The place among its arguments.
    pub place: usize,
}

/// The values of an overload's arguments up to a place, after which a call has no more.
#[derive(Drop)]
pub struct Beginning {
    /// The callee.
    pub callee: Callee,
    /// The number of the overload.
    pub overload: u32,
    /// The values.
    pub made: IdlValues,
}

/// A dictionary that is made, as far as its members have come.
#[derive(Drop)]
pub struct Filling {
    /// The dictionary.
    pub dictionary: u32,
    /// The object whose properties its members are; without one all are undefined.
    pub object: Option<ObjRef>,
    /// The members that are left.
    pub left: MembersLeft,
    /// The members before, those that were left out not among them.
    pub made: IdlMembers,
}

/// A task with its arguments. Where one is a type of an argument or of a member, the place at which it stands is held
/// in its stead.
#[derive(Drop)]
pub enum Job {
    /// A value to a primitive value.
    Primitive {
        /// Which one is preferred.
        hint: Hint,
        /// The value.
        value: Value,
    },
    /// A value to a Number, a String or a length.
    Scalar {
        /// Which of them.
        want: Want,
        /// The value.
        value: Value,
    },
    /// A value to an IDL value.
    Convert {
        /// Its type.
        ty: IdlType,
        /// The value.
        value: Value,
    },
    /// An argument to an IDL value of the type in an overload's entry.
    Argument {
        /// The place of the argument.
        at: ArgumentPlace,
        /// How many arguments the entry has.
        length: u32,
        /// The argument.
        value: Value,
    },
    /// An object with its method `@iterator` to a sequence.
    SequenceFrom(Iterable),
    /// The turns of an iterator that are left.
    Turns(Box<Iteration>),
    /// The properties of an object that are left, for a record.
    Entries(Box<Properties>),
    /// The choice of an overload.
    Resolve(Call),
    /// The choice of an overload, from its next argument on.
    Arguments(Box<Resolution>),
    /// The default value of an argument, if it has one.
    Default(ArgumentPlace),
    /// The values of the declared arguments that a call doesn't have.
    Defaults(Beginning),
    /// The members of a dictionary, from the first on.
    Dictionary {
        /// The dictionary.
        dictionary: u32,
        /// The object whose properties they are, if there is one.
        object: Option<ObjRef>,
    },
    /// The members of a dictionary that are left.
    Members(Box<Filling>),
    /// The value of a member to an IDL value of its type.
    Member {
        /// The place of the member.
        at: MemberPlace,
        /// The value.
        value: Value,
    },
    /// The default value of a member.
    MemberDefault(MemberPlace),
    /// An IDL value to a value of the script.
    Out {
        /// Its type.
        ty: IdlType,
        /// The value.
        value: IdlValue,
    },
    /// The items of a container that are left, on their way to script.
    OutItems(Box<Outgoing>),
    /// The units of a container that are left, and then the container.
    OutUnits(Filled),
}
