//! The ends of jobs.

use widl_convert::{Answer, Ending};
use widl_value::Value;

/// How a part of a script ends (ECMA-262, "The Completion Record Specification Type"); a statement
/// that gives no value ends with `undefined`.
#[derive(Debug, PartialEq, Eq, Drop)]
pub enum Completion {
    /// With a value.
    Normal(Value),
    /// By a `return` with this value.
    Returned(Value),
    /// By this value, which was thrown.
    Thrown(Value),
}

/// How a job ends.
#[derive(Drop)]
pub enum JobEnd {
    /// A part of a script.
    Completed(Completion),
    /// A conversation.
    Talked(Ending),
    /// A look at an object, which shows this.
    Seen(Answer),
}
