//! Jobs: the tasks of a call.

use crate::arguments::Arguments;
use crate::overload::Overload;
use widl_idl::Callee;
use widl_store::Builtin;
use widl_value::{IdlValue, ObjRef, Value};

/// A task with its arguments.
#[derive(Drop)]
pub enum CallJob {
    /// What a function does.
    Function {
        /// The function.
        f: ObjRef,
        /// Which it is.
        what: Builtin,
        /// The value of `this`.
        this: Value,
        /// The arguments.
        args: Arguments,
        /// Whether it constructs.
        construct: bool,
    },
    /// The choice of an overload of an operation.
    Resolve {
        /// The operation.
        callee: Callee,
        /// The arguments.
        args: Arguments,
    },
    /// `undefined` to an IDL value of the type of an overload's result, or of the inner one where that is
    /// nullable.
    OfUndefined(Overload),
    /// The result of an overload to a value of the script.
    Out {
        /// The overload.
        overload: Overload,
        /// The result.
        value: IdlValue,
    },
    /// A value of the script to a length.
    ToLength(Value),
}
