//! What conversations come to.

use widl_steps::Ask;
use widl_trace::Code;
use widl_value::{IdlValue, IdlValues, Value};

/// What a conversion or a built-in function gives.
#[derive(Drop)]
pub enum Outcome {
    /// An IDL value.
    Idl(IdlValue),
    /// An overload with the values of its arguments (Web IDL, "overload resolution algorithm").
    Chosen {
        /// The number of the overload.
        overload: u32,
        /// The values.
        values: IdlValues,
    },
    /// A value of the script language.
    Script(Value),
}

/// What comes next in a conversation. After anything but an ask it has ended.
#[derive(Drop)]
pub enum Next {
    /// An ask, which waits for its answer.
    Ask(Ask),
    /// It ends with an outcome.
    Done(Outcome),
    /// It throws a new TypeError, for this reason.
    Throw(Code),
    /// It throws this value, which an answer or a step of the script threw.
    Rethrow(Value),
    /// It comes to something that this program doesn't run, by its number.
    Profile(u8),
    /// There is no memory.
    Memory,
}
