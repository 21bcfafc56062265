//! Moves: the next step of a call.

ghost use Rattle.std.specs.Prelude.{◌≡◌};
ghost use Rattle.widl_steps.specs.AskTerms.{ask_term, kind_of};
ghost use Rattle.widl_calls.specs.Waits.{call_kind_for};

use crate::frames::CallFrame;
use crate::jobs::CallJob;
use crate::waits::CallWait;
use widl_convert::Ending;
use widl_steps::Ask;

/// An ask that goes out, with what waits for its answer.
#[derive(Drop)]
pub struct CallAsking {
    /// The ask.
    pub ask: Ask,
    /// What waits.
    pub wait: CallWait,
    ghost fits: { kind_of (ask_term ask) ≡ call_kind_for wait },
}

/// What a call does next.
#[derive(Drop)]
pub enum CallMove {
    /// It asks.
    Asks(CallAsking),
    /// A task has ended so.
    Gives(Ending),
    /// It goes through a task, whose end is for the frame.
    Steps(CallFrame, CallJob),
    /// It goes through a task, whose end is for the frame below.
    Goes(CallJob),
}
