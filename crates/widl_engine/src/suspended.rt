//! A conversation on the stack of a machine.

ghost use Rattle.std.specs.Prelude.{◌≡◌, Some};
ghost use Rattle.widl_calls.specs.Stack.{call_pending};
ghost use Rattle.widl_engine.specs.AskKinds.{ask_kind_of};

use widl_calls::CallAsker;
use widl_steps::Look;
use widl_value::Shape;

/// The kind of an ask.
#[derive(Clone, Copy)]
pub enum AskKind {
    /// A property is read.
    Get,
    /// A function is called.
    Call,
    /// A unit is taken.
    Unit,
    /// An event is told.
    Note,
    /// The keys of an object.
    OwnKeys,
    /// An own property.
    Own,
    /// An object is looked at.
    Look(Look),
    /// A new object of this shape.
    New(Shape),
    /// The inner part of an object is changed.
    Change,
}

/// A conversation that waits for the end of the work of an ask, whatever else is done until then.
#[derive(Drop)]
pub struct Suspended {
    /// The conversation; in a box, where it stays as long as it goes on.
    pub asker: Box<CallAsker>,
    /// The kind of the ask.
    pub kind: AskKind,
    ghost waits: { call_pending asker.value ≡ Some (ask_kind_of kind) },
}
