//! Moves: the next step of a conversation.

ghost use Rattle.std.specs.Prelude.{◌≡◌};
ghost use Rattle.widl_steps.specs.AskTerms.{ask_term, kind_of};
ghost use Rattle.widl_convert.specs.Waits.{kind_for};

use crate::frames::Frame;
use crate::jobs::Job;
use crate::outcome::Outcome;
use crate::waits::Wait;
use widl_steps::Ask;
use widl_trace::Code;
use widl_value::Value;

/// An ask that goes out, with what waits for its answer.
#[derive(Drop)]
pub struct Asking {
    /// The ask.
    pub ask: Ask,
    /// What waits.
    pub wait: Wait,
    ghost fits: { kind_of (ask_term ask) ≡ kind_for wait },
}

/// How a task ends.
#[derive(Drop)]
pub enum Ending {
    /// With an outcome.
    Done(Outcome),
    /// It throws a new TypeError, for this reason.
    Throw(Code),
    /// It throws this value, which was thrown before.
    Rethrow(Value),
    /// At something that this program doesn't run, by its number.
    Profile(u8),
}

/// What a conversation does next.
#[derive(Drop)]
pub enum Move {
    /// It asks.
    Asks(Asking),
    /// A task has ended so.
    Gives(Ending),
    /// It goes through a task, whose end is for the frame.
    Steps(Frame, Job),
    /// It goes through a task, whose end is for the frame below.
    Goes(Job),
}
