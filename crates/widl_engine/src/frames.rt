//! Frames: what a machine does with the end of a job.

use crate::jobs::{Member, MemberUse, RowUse};
use crate::suspended::Suspended;
use widl_script_tree::Row;
use widl_value::{Value, Values};

/// What goes on with a value, and passes any other end on.
#[derive(Drop)]
pub enum ValueFrame {
    /// The statements after one.
    NextStatements(Row),
    /// Nothing.
    Drops,
    /// It is bound to the name of this number.
    Binds(u32),
    /// It is returned.
    Returns,
    /// It is thrown.
    Throws,
    /// It is shown.
    Shows,
    /// It is the left one of two that are compared.
    Compares {
        /// The place of the right one.
        right: u32,
        /// The statements where both are the same.
        same: Row,
        /// The statements where they aren't.
        otherwise: Row,
    },
    /// It is the right one.
    Chooses {
        /// The left one.
        left: Value,
        /// The statements where both are the same.
        same: Row,
        /// The statements where they aren't.
        otherwise: Row,
    },
    /// It stands before a member with this name.
    Name {
        /// What the member is evaluated for.
        what: MemberUse,
        /// The name's number.
        name: u32,
    },
    /// It stands before a member with a computed key.
    Key {
        /// What the member is evaluated for.
        what: MemberUse,
        /// The place of the key.
        key: u32,
    },
    /// It is the key.
    KeyOf {
        /// What the member is evaluated for.
        what: MemberUse,
        /// The value before the member.
        of: Value,
    },
    /// It is called.
    Calls {
        /// The value of `this`.
        this: Value,
        /// The arguments.
        args: Row,
    },
    /// This member is set to it.
    Sets(Box<Member>),
    /// A member is defined as it.
    Defines {
        /// The member.
        member: Box<Member>,
        /// Whether the property isn't enumerable.
        hidden: bool,
    },
    /// It is the getter of a member.
    Getter {
        /// The member.
        member: Box<Member>,
        /// The place of the setter.
        setter: Option<u32>,
    },
    /// It is the setter.
    Setter {
        /// The member.
        member: Box<Member>,
        /// The getter.
        getter: Value,
    },
    /// It is the prototype of a new object.
    Prototype,
    /// It is one of a row.
    InRow {
        /// What the values are for.
        what: RowUse,
        /// Those before it.
        made: Values,
        /// What comes after it.
        rest: Row,
    },
    /// It is called with a `this` that comes next.
    This {
        /// The place of `this`.
        this: u32,
        /// The arguments.
        args: Row,
    },
    /// It is `this` of a call.
    ThisOf {
        /// What is called.
        f: Value,
        /// The arguments.
        args: Row,
    },
    /// It constructs with these arguments.
    Constructs(Row),
}

/// What is done with the end of a job.
#[derive(Drop)]
pub enum Frame {
    /// Goes on with a value.
    Value(ValueFrame),
    /// Handles a thrown value.
    Catches {
        /// The number of the name that it is bound to.
        name: u32,
        /// The statements.
        handler: Row,
    },
    /// Ends a call.
    Called,
    /// Ends the call of a function with what its conversation has come to.
    Talked,
    /// A conversation, which goes on.
    Suspended(Suspended),
    /// Ends the script.
    Last,
}
