//! Answers.

use widl_store::{PairKind, Turn};
use widl_value::{Flags, Keys, ObjRef, Value};

/// The kinds of objects that a built-in function tells apart (ECMA-262, "Object.prototype.toString").
#[derive(Clone, Copy)]
pub enum KindName {
    /// An array.
    Array,
    /// An object that can be called.
    Function,
    /// An error.
    Error,
    /// A promise.
    Promise,
    /// Any other object.
    Other,
}

/// How far an iterator has come.
#[derive(Clone, Copy)]
pub enum CursorState {
    /// A default iterator object (Web IDL, "Default iterator objects").
    Pairs {
        /// The object whose pairs it gives.
        of: ObjRef,
        /// What it gives of each pair.
        kind: PairKind,
        /// The place of the next pair.
        next: u32,
    },
    /// An Array Iterator (ECMA-262, "Array Iterator Objects").
    Array {
        /// The object whose elements it gives.
        of: ObjRef,
        /// The index of the next element.
        next: u64,
        /// Whether a call of it is under way, or it has given all.
        turn: Turn,
    },
}

/// What an [`Ask`](crate::Ask) is answered.
#[derive(Drop)]
pub enum Answer {
    /// Nothing has been asked yet: a conversation begins.
    Begin,
    /// `Unit` and `Note` are done, and so is a change.
    Done,
    /// `Get` and `Call` ended with this value; or this is the object that was to be made.
    Normal(Value),
    /// `Get` or `Call` threw this value.
    Thrown(Value),
    /// The answer to `Kind`.
    Kind(KindName),
    /// The answer to `OwnKeys`.
    Keys(Keys),
    /// The answer to `Own`; `None` where the object has no such property.
    Own(Option<Flags>),
    /// The answer to `Cursor`; `None` where the object is no such iterator.
    Cursor(Option<CursorState>),
}
