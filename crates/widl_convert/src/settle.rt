//! From a move to the next ask or the end.

ghost use Rattle.std.specs.Prelude.{ℕ, ◌≡◌, ◌+◌, ◌<◌, IfOk};
ghost use Rattle.widl_dialog.specs.Stack.{stack_load};
ghost use Rattle.widl_idl.specs.DefinitionTerms.{defs_term};
ghost use Rattle.widl_steps.specs.Tasks.{Talk};
ghost use Rattle.widl_convert.specs.Loads.{frame_load, weight};
ghost use Rattle.widl_convert.specs.Stack.{Follows, Settles, moves_on};

use crate::frames::Frame;
use crate::jobs::Job;
use crate::moves::{Asking, Ending, Move};
use crate::stack::Stack;
use crate::steps::{begin, returned};
use std::alloc::{AllocError, Global};
use widl_tables::Tables;

/// What the moves of a conversation lead to.
pub enum Settled {
    /// To an ask.
    Waits(Asking),
    /// To the end.
    Ends(Ending),
    /// To nothing: there was no memory.
    Memory,
}

/// Makes all moves up to the next ask or the end.
#[tactic(auto, using(crate::proofs::Suspending::given_last))]
pub(crate) fn settle(alloc: Global, tables: &Tables, frames: &mut Stack, first: Move) -> Settled
    ensures { Settles (defs_term tables.now.defs) (moves_on (defs_term tables.now.defs) first frames.old) (stack_load (frame_load (defs_term tables.now.defs)) frames.old + weight (defs_term tables.now.defs) first) frames.new result }
{
    let mut current = first;
    loop {
        match current {
            Move::Asks(asking) => return Settled::Waits(asking),
            Move::Gives(ending) => {
                let Some(frame) = frames.pop() else {
                    return Settled::Ends(ending);
                };
                match returned(alloc, tables, frame, ending) {
                    Ok(next) => current = next,
                    Err(_) => return Settled::Memory,
                }
            }
            Move::Steps(frame, job) => match enter(alloc, tables, frames, frame, job) {
                Ok(next) => current = next,
                Err(_) => return Settled::Memory,
            },
            Move::Goes(job) => match begin(alloc, tables, job) {
                Ok(next) => current = next,
                Err(_) => return Settled::Memory,
            },
        }
    }
}

/// The move after the first one of a task, whose end is for a frame. The frame is put on the others only where the task
/// hasn't ended yet: so what is converted at once takes no memory for frames.
///
/// # Errors
///
/// `AllocError` where there is no memory.
fn enter(
    alloc: Global,
    tables: &Tables,
    frames: &mut Stack,
    frame: Frame,
    job: Job,
) -> Result<Move, AllocError>
    ensures follows { IfOk result (λ m. (d : Talk) (bound : ℕ) → Follows (defs_term tables.now.defs) d bound (Move.Steps frame job) frames.old → Follows (defs_term tables.now.defs) d bound m frames.new) }
    ensures less { IfOk result (λ m. stack_load (frame_load (defs_term tables.now.defs)) frames.new + weight (defs_term tables.now.defs) m < stack_load (frame_load (defs_term tables.now.defs)) frames.old + weight (defs_term tables.now.defs) (Move.Steps frame job)) }
{
    match begin(alloc, tables, job)? {
        Move::Gives(ending) => returned(alloc, tables, frame, ending),
        next => {
            frames.push(frame)?;
            Ok(next)
        }
    }
}
