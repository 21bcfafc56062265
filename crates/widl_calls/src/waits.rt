//! Waits: what a call needs of an answer, and what it still needs then.

use crate::array_turns::ArrayWait;
use crate::inside::Inside;
use crate::overload::Overload;
use crate::step_lines::NamedValue;
use widl_value::ObjRef;

/// What waits for an answer.
#[derive(Drop)]
pub enum CallWait {
    /// A conversion within the call.
    Inside(Inside),
    /// The steps of an overload, whose event is told.
    Noted {
        /// The overload.
        overload: Overload,
        /// The value of the argument that they read.
        read: Option<Box<NamedValue>>,
    },
    /// The next line of these steps, for which a unit is taken.
    Line {
        /// The overload.
        overload: Overload,
        /// The value of the argument that they read.
        read: Option<Box<NamedValue>>,
    },
    /// `toString`, for the tag of this object.
    Tag(ObjRef),
    /// `toString`, for the kind of an object without a tag.
    Kind,
    /// A function of arrays or of their iterators.
    Array(ArrayWait),
}
