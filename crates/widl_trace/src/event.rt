//! Events of a run.

use crate::code::Code;
use widl_idl::Callee;
use widl_text::Key;
use widl_value::{IdlValues, ObjRef, Value, Values};

/// What a script or a built-in function can tell of a run. A trace has one line for each event, in
/// their order (this program's own).
#[derive(Drop)]
pub enum Event {
    /// A built-in function or a conversion reads a property (ECMA-262, "Get").
    Get {
        /// The object that is asked.
        obj: ObjRef,
        /// The key of the property.
        key: Key,
    },
    /// The own keys of an object are listed (ECMA-262, `[[OwnPropertyKeys]]`).
    Keys {
        /// The object that is asked.
        obj: ObjRef,
    },
    /// An own property of an object is looked at (ECMA-262, `[[GetOwnProperty]]`).
    Own {
        /// The object that is asked.
        obj: ObjRef,
        /// The key of the property.
        key: Key,
    },
    /// A call begins, also that of a getter or a setter (ECMA-262, "Call").
    Call {
        /// The function.
        f: ObjRef,
        /// The value of `this` in the call.
        this: Value,
        /// The arguments.
        args: Values,
    },
    /// A construction begins (ECMA-262, "Construct").
    New {
        /// The constructor.
        f: ObjRef,
        /// The arguments.
        args: Values,
    },
    /// A call or a construction ends with a value.
    Ret(Value),
    /// A call or a construction ends with a thrown value.
    Thr(Value),
    /// What a callee does begins, with its arguments as IDL values (Web IDL, "method steps").
    Op {
        /// The operation, constructor, getter, setter or stringifier.
        callee: Callee,
        /// The overload that was chosen, for an operation or a constructor.
        overload: Option<u32>,
        /// The IDL values.
        values: IdlValues,
    },
    /// A TypeError was created, and is about to be thrown.
    Error {
        /// The object.
        obj: ObjRef,
        /// Why it was made.
        code: Code,
    },
    /// A promise was fulfilled (ECMA-262, "FulfillPromise").
    Fulfilled {
        /// The promise.
        promise: ObjRef,
        /// The value that it has now.
        value: Value,
    },
    /// A promise was rejected (ECMA-262, "RejectPromise").
    Rejected {
        /// The promise.
        promise: ObjRef,
        /// The reason that it has now.
        value: Value,
    },
    /// A job was queued that is to settle a promise by another object (ECMA-262,
    /// "NewPromiseResolveThenableJob").
    Waits {
        /// The promise.
        promise: ObjRef,
        /// The object that it waits for.
        on: ObjRef,
        /// The method `then` of that object.
        method: ObjRef,
    },
    /// A statement shows a value.
    Show(Value),
    /// A job is still queued when the script has ended.
    Job {
        /// The promise that the job is to settle.
        promise: ObjRef,
        /// The object that the promise waits for.
        on: ObjRef,
        /// The method `then` of that object.
        method: ObjRef,
    },
    /// The script has ended.
    Done,
    /// The script has ended with a thrown value.
    Uncaught(Value),
    /// Fewer units of the budget were left than a step takes.
    StopBudget,
    /// Too many calls were open.
    StopDepth,
    /// Something was asked for that this program doesn't run, by its number.
    StopProfile(u8),
}
