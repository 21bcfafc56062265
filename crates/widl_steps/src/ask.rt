//! Asks.

use widl_store::Turn;
use widl_text::{Items, Key};
use widl_trace::Event;
use widl_value::{ObjRef, Value, Values};

/// The properties of a new object in order, each with its key and value.
pub type ScriptEntries = Items<(Key, Value)>;

/// What a conversion or a built-in function asks of the objects of a script. [`Answer`](crate::Answer)
/// names what each ask is answered.
#[derive(Drop)]
pub enum Ask {
    /// Reads a property (ECMA-262, "Get").
    Get {
        /// The object.
        obj: ObjRef,
        /// The key of the property.
        key: Key,
    },
    /// Calls a function (ECMA-262, "Call").
    Call {
        /// The function.
        f: ObjRef,
        /// The value of `this` in the call.
        this: Value,
        /// The arguments.
        args: Values,
    },
    /// What kind of object this is (ECMA-262, "IsArray" and internal slots).
    Kind(ObjRef),
    /// One unit of the budget.
    Unit,
    /// An event that is told in the trace.
    Note(Event),
    /// The own keys of an object (ECMA-262, `[[OwnPropertyKeys]]`).
    OwnKeys(ObjRef),
    /// The flags of an own property (ECMA-262, `[[GetOwnProperty]]`).
    Own {
        /// The object.
        obj: ObjRef,
        /// The key of the property.
        key: Key,
    },
    /// A new array of these elements (ECMA-262, "CreateArrayFromList").
    NewArray(Values),
    /// A new object with these properties (ECMA-262, "OrdinaryObjectCreate" and
    /// "CreateDataProperty").
    NewObject(ScriptEntries),
    /// A new Array Iterator over the elements of an object (ECMA-262, "CreateArrayIterator").
    NewArrayIterator(ObjRef),
    /// How far an iterator has come.
    Cursor(ObjRef),
    /// Sets how far an Array Iterator has come.
    SetCursor {
        /// The iterator.
        obj: ObjRef,
        /// The index of the next element.
        next: u64,
        /// Whether a call of it is under way, or it has given all.
        turn: Turn,
    },
}

/// What is looked at of an object. A look has no line and takes no unit.
#[derive(Clone, Copy)]
pub enum Look {
    /// Its kind, as [`Ask::Kind`] asks.
    Kind,
    /// How far it has come as an iterator, as [`Ask::Cursor`] asks.
    Cursor,
}

/// What is made whole, for one unit.
#[derive(Drop)]
pub enum New {
    /// An array of these elements, as [`Ask::NewArray`] asks.
    Array(Values),
    /// An object with these properties, as [`Ask::NewObject`] asks.
    Object(ScriptEntries),
    /// An iterator over the elements of this object, as [`Ask::NewArrayIterator`] asks.
    ArrayIterator(ObjRef),
}

/// What is changed in an object that is there. A change has no line and takes no unit.
#[derive(Drop)]
pub enum Change {
    /// How far an Array Iterator has come, as [`Ask::SetCursor`] asks.
    Cursor {
        /// The index of the next element.
        next: u64,
        /// Whether a call of it is under way, or it has given all.
        turn: Turn,
    },
}
