//! Frames: what a call does with the end of a task.
//!
//! Each goes on with one kind of end, and passes any other on.

use crate::array_turns::ArrayTurn;
use crate::overload::Overload;
use widl_idl::Callee;

/// What waits for the end of a task.
#[derive(Drop)]
pub enum CallFrame {
    /// It is an overload of this operation, with the values of its arguments.
    Chosen(Callee),
    /// It is the IDL value of an overload's result.
    Result(Overload),
    /// It is the length of the array of this turn.
    Length(ArrayTurn),
}
