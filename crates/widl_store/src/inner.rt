//! The inner parts of objects.

use widl_idl::Callee;
use widl_value::{IdlPairs, IdlSlots, ObjRef, Value};

/// The inner part of an object: what it is, and what it keeps where no property does (ECMA-262, "Object
/// Internal Methods and Internal Slots").
#[derive(Drop)]
pub enum Inner {
    /// An ordinary object.
    Plain,
    /// An array (ECMA-262, "Array Exotic Objects").
    Array,
    /// An error.
    Error,
    /// The function of a script that has this number.
    Script(u32),
    /// A function that is there before a script begins.
    Builtin(Builtin),
    /// An interface object (Web IDL, "Interface object"), with the values of the static attributes.
    Interface {
        /// The interface.
        iface: u32,
        /// Its slots.
        slots: IdlSlots,
    },
    /// A platform object (Web IDL, "platform object").
    Platform {
        /// Its slots.
        slots: IdlSlots,
        /// Its value pairs to iterate over.
        pairs: IdlPairs,
    },
    /// A namespace object (Web IDL, "Namespace object"), with the values of the attributes.
    Space {
        /// Its slots.
        slots: IdlSlots,
    },
    /// A default iterator object (Web IDL, "Default iterator objects").
    PairIterator {
        /// The object whose pairs it gives.
        of: ObjRef,
        /// What it gives of each pair.
        kind: PairKind,
        /// The place of the next pair.
        next: u32,
    },
    /// An Array Iterator (ECMA-262, "Array Iterator Objects").
    ArrayIterator {
        /// The object whose elements it gives.
        of: ObjRef,
        /// The index of the next element.
        next: u64,
        /// How far it has come.
        turn: Turn,
    },
    /// A promise (ECMA-262, "Promise Objects").
    Promise(Settled),
}

/// What an iterator gives of each pair (Web IDL, "Default iterator objects").
#[derive(Clone, Copy, Debug, PartialEq, Eq)]
pub enum PairKind {
    /// An array of the key and the value.
    Entries,
    /// The key.
    Keys,
    /// The value.
    Values,
}

/// The functions of an interface with a pair iterator (Web IDL, "Iterable declarations").
#[derive(Clone, Copy)]
pub enum PairCall {
    /// `entries`.
    Entries,
    /// `keys`.
    Keys,
    /// `values`.
    Values,
    /// `forEach`.
    ForEach,
    /// `next` of the iterators.
    Next,
}

/// A function that is there before a script begins.
#[derive(Clone, Copy)]
pub enum Builtin {
    /// The function of this number, which is there whatever the definitions are.
    Intrinsic(u8),
    /// A part of an interface or a namespace, but for constructors.
    Callee(Callee),
    /// The interface object of the interface of this number.
    InterfaceObject(u32),
    /// A function of the pair iterator that an interface declares.
    Pairs {
        /// The interface.
        iface: u32,
        /// The function.
        what: PairCall,
    },
}

/// How far an Array Iterator has come.
#[derive(Clone, Copy, Debug, PartialEq, Eq)]
pub enum Turn {
    /// It waits for the next call.
    Idle,
    /// A call of it is under way.
    Running,
    /// It has given all.
    Ended,
}

/// The state of a promise (ECMA-262, "Properties of Promise Instances").
#[derive(Drop)]
pub enum Settled {
    /// Nothing is known of it.
    Pending,
    /// It is fulfilled with this value.
    Fulfilled(Value),
    /// It is rejected with this value.
    Rejected(Value),
    /// It will follow an object with a method `then`.
    Waits {
        /// The object.
        on: ObjRef,
        /// The method.
        method: ObjRef,
    },
}
