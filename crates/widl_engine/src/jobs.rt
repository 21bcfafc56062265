//! Jobs: what a machine has still to begin.

use widl_convert::Ask;
use widl_script_tree::Row;
use widl_store::Builtin;
use widl_trace::Code;
use widl_value::{ObjRef, Value, Values};

/// The key of a member before it is tested.
#[derive(Drop)]
pub enum KeyPart {
    /// A name after a point, by its number.
    Named(u32),
    /// The value between brackets.
    Computed(Box<Value>),
}

/// A member of a value before both are tested.
#[derive(Drop)]
pub struct Member {
    /// The value before the member.
    pub of: Value,
    /// Its key.
    pub key: KeyPart,
}

/// The parts of an accessor before they are tested.
#[derive(Drop)]
pub struct AccessorParts {
    /// The getter.
    pub getter: Value,
    /// The setter.
    pub setter: Option<Value>,
}

/// What a member is evaluated for, with the places of the expressions that come after it.
#[derive(Clone, Copy)]
pub enum MemberUse {
    /// Its value.
    Read,
    /// A call of its value with these arguments.
    Call(Row),
    /// It is set to the value at this place.
    Set(u32),
    /// A property is defined.
    Define {
        /// The place of the value.
        value: u32,
        /// Whether it isn't enumerable.
        hidden: bool,
    },
    /// An accessor is defined.
    Accessor {
        /// The place of the getter.
        getter: u32,
        /// The place of the setter.
        setter: Option<u32>,
    },
    /// It is deleted.
    Delete,
}

/// A call without its arguments.
#[derive(Drop)]
pub struct Calling {
    /// What is called.
    pub f: Value,
    /// The value of `this`.
    pub this: Value,
}

/// The call of a function that isn't written in the script.
#[derive(Drop)]
pub struct BuiltinCall {
    /// The function's object.
    pub f: ObjRef,
    /// Which it is.
    pub what: Builtin,
    /// The value of `this`.
    pub this: Value,
    /// The arguments.
    pub args: Values,
}

/// What the values of a row are for.
#[derive(Drop)]
pub enum RowUse {
    /// The arguments of a call.
    Arguments(Box<Calling>),
    /// The arguments of a construction by this value.
    New(Box<Value>),
    /// The items of an array.
    Items,
}

/// An algorithm with its arguments, by places and numbers in the tables of the script. What is large lies in
/// a box, since jobs are handed on by value.
#[derive(Drop)]
pub enum Job {
    /// The statements of a row, in order.
    Statements(Row),
    /// The statement at a place.
    Statement(u32),
    /// The expression at a place.
    Evaluate(u32),
    /// The expressions of a row, in order.
    Row {
        /// What the values are for.
        what: RowUse,
        /// The values so far.
        made: Values,
        /// What is left.
        row: Row,
    },
    /// A member is read.
    Read {
        /// The value before it.
        of: Value,
        /// Its key.
        key: KeyPart,
    },
    /// A member is set.
    Set {
        /// The member.
        member: Box<Member>,
        /// The value.
        value: Value,
    },
    /// A member is defined.
    Define {
        /// The member.
        member: Box<Member>,
        /// Whether it isn't enumerable.
        hidden: bool,
        /// The value.
        value: Value,
    },
    /// A member is defined as an accessor.
    Accessor {
        /// The member.
        member: Box<Member>,
        /// The getter and the setter.
        parts: Box<AccessorParts>,
    },
    /// A member is deleted.
    Delete {
        /// The value before it.
        of: Value,
        /// Its key.
        key: KeyPart,
    },
    /// A value is called.
    Call {
        /// What is called, and the value of `this`.
        calling: Box<Calling>,
        /// The arguments.
        args: Values,
    },
    /// A value constructs.
    Construct {
        /// The constructor.
        f: Box<Value>,
        /// The arguments.
        args: Values,
    },
    /// The conversation of a function that isn't written in the script.
    Function(Box<BuiltinCall>),
    /// The work of an ask.
    Asked(Box<Ask>),
    /// A TypeError is thrown.
    Fail(Code),
}
