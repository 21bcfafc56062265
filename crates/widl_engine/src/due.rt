//! Actions that take no unit.

use crate::ends::Completion;
use widl_script_tree::Row;
use widl_steps::{Change, Look, New};
use widl_store::{Builtin, Prop};
use widl_text::Key;
use widl_trace::Code;
use widl_value::{ObjRef, Value, Values};

/// What the call of an object does.
#[derive(Clone, Copy)]
pub enum Body {
    /// The statements of the function of this number.
    Script(u32),
    /// What this function does.
    Builtin(Builtin),
    /// Nothing: the object can't be called.
    Nothing,
}

/// A new object.
#[derive(Drop)]
pub enum NewObject {
    /// An ordinary object with this prototype.
    Ordinary(Option<ObjRef>),
    /// The function of this number.
    Function(u32),
    /// A TypeError.
    Error,
    /// What a conversation asks for, or an array of the script.
    Asked(New),
}

/// What a new object is for.
#[derive(Clone, Copy)]
pub enum Made {
    /// It is the value of an expression.
    Value,
    /// It is bound to the name of this number.
    Bound(u32),
    /// It is thrown with this code.
    Error(Code),
}

/// What comes after a name is bound.
#[derive(Clone, Copy)]
pub enum Then {
    /// Nothing.
    Ends,
    /// These statements.
    Handles(Row),
}

/// An action that takes no unit, with what is kept for its reply.
#[derive(Drop)]
pub enum Due {
    /// Whether one more call may be open, before this call.
    Depth {
        /// The function.
        f: ObjRef,
        /// The value of `this`.
        this: Value,
        /// The arguments.
        args: Values,
        /// What the call does.
        body: Body,
    },
    /// Whether one more call may be open, before this construction.
    DepthOfNew {
        /// The constructor.
        f: ObjRef,
        /// The arguments.
        args: Values,
    },
    /// The context of a function of the script.
    Enter {
        /// The function's number.
        number: u32,
        /// The value of `this`.
        this: Value,
        /// The arguments.
        args: Values,
    },
    /// The context of a function that isn't written in the script.
    EnterBuiltin {
        /// The function's object.
        f: ObjRef,
        /// The function.
        function: Builtin,
        /// The value of `this`.
        this: Value,
        /// The arguments.
        args: Values,
    },
    /// The innermost context is left by a call that ended so.
    Leave(Completion),
    /// What the call of an object does.
    FindBody {
        /// The object.
        f: ObjRef,
        /// The value of `this`.
        this: Value,
        /// The arguments.
        args: Values,
    },
    /// What an object constructs.
    FindConstructor {
        /// The object.
        f: ObjRef,
        /// The arguments.
        args: Values,
    },
    /// The value of `this`.
    ReadThis,
    /// What the name of this number stands for.
    ReadName(u32),
    /// A value is bound to a name.
    Bind {
        /// The name's number.
        name: u32,
        /// The value.
        value: Value,
        /// What comes next.
        then: Then,
    },
    /// The next symbol.
    TakeSymbol,
    /// A new object.
    Add {
        /// The object.
        new: NewObject,
        /// What it is for.
        then: Made,
    },
    /// The property that an object or one of its prototypes has.
    Find {
        /// The object.
        obj: ObjRef,
        /// The property's key.
        key: Key,
    },
    /// A property is set.
    Put {
        /// The object.
        obj: ObjRef,
        /// The property's key.
        key: Key,
        /// The value.
        value: Value,
    },
    /// A property is defined.
    Define {
        /// The object.
        obj: ObjRef,
        /// The property's key.
        key: Key,
        /// The property.
        prop: Prop,
    },
    /// A property is deleted.
    Delete {
        /// The object.
        obj: ObjRef,
        /// The property's key.
        key: Key,
    },
    /// The own keys of an object.
    FindKeys(ObjRef),
    /// The flags of an own property.
    FindOwn {
        /// The object.
        obj: ObjRef,
        /// The property's key.
        key: Key,
    },
    /// What this look sees of an object.
    Look {
        /// The object.
        obj: ObjRef,
        /// The look.
        what: Look,
    },
    /// The inner part of an object is changed.
    Change {
        /// The object.
        obj: ObjRef,
        /// The change.
        change: Change,
    },
    /// An end of the profile, by its number.
    Reach(u8),
}
