//! From a move to the next ask or the end.

ghost use Rattle.std.specs.Prelude.{ℕ, ◌≡◌, ◌+◌, ◌<◌, ◌++◌, [], ◌∷◌, IfNone, IfOk, IfSome};
ghost use Rattle.widl_dialog.specs.Stack.{stack_load};
ghost use Rattle.widl_idl.specs.DefinitionTerms.{defs_term};
ghost use Rattle.widl_steps.specs.CallTasks.{CallTalk};
ghost use Rattle.widl_steps.specs.FoundSteps.{steps_over};
ghost use Rattle.widl_calls.specs.Frames.{call_frame_load, call_weight};
ghost use Rattle.widl_calls.specs.Stack.{CallFollows, CallSettles, call_moves_on};

use crate::frames::CallFrame;
use crate::jobs::CallJob;
use crate::moves::{CallAsking, CallMove};
use crate::steps::{begin, returned};
use std::alloc::{AllocError, Global};
use widl_convert::Ending;
use widl_script_tree::Script;
use widl_tables::Tables;

/// What the moves of a call lead to.
pub enum CallSettled {
    /// To an ask.
    Waits(CallAsking),
    /// To the end.
    Ends(Ending),
    /// To nothing: there was no memory.
    Memory,
}

/// Makes all moves up to the next ask or the end.
pub(crate) fn settle(
    alloc: Global,
    tables: &Tables,
    script: &Script,
    frames: &mut Vec<CallFrame>,
    first: CallMove,
) -> CallSettled
    ensures { CallSettles (defs_term tables.now.defs) (steps_over tables.now script.now) (call_moves_on (defs_term tables.now.defs) (steps_over tables.now script.now) first frames.old.items) (stack_load call_frame_load frames.old.items + call_weight (defs_term tables.now.defs) first) frames.new.items result }
{
    let mut current = first;
    loop {
        match current {
            CallMove::Asks(asking) => return CallSettled::Waits(asking),
            CallMove::Gives(ending) => {
                let Some(frame) = pop(frames) else {
                    return CallSettled::Ends(ending);
                };
                match returned(alloc, tables, script, frame, ending) {
                    Ok(next) => current = next,
                    Err(_) => return CallSettled::Memory,
                }
            }
            CallMove::Steps(frame, job) => {
                match enter(alloc, tables, script, frames, frame, job) {
                    Ok(next) => current = next,
                    Err(_) => return CallSettled::Memory,
                }
            }
            CallMove::Goes(job) => match begin(alloc, tables, script, job) {
                Ok(next) => current = next,
                Err(_) => return CallSettled::Memory,
            },
        }
    }
}

/// The move after the first one of a task, whose end is for a frame. The frame is put on the others only where the task
/// hasn't ended yet.
///
/// # Errors
///
/// `AllocError` where there is no memory.
fn enter(
    alloc: Global,
    tables: &Tables,
    script: &Script,
    frames: &mut Vec<CallFrame>,
    frame: CallFrame,
    job: CallJob,
) -> Result<CallMove, AllocError>
    ensures follows { IfOk result (λ m. (d : CallTalk) (bound : ℕ) → CallFollows (defs_term tables.now.defs) (steps_over tables.now script.now) d bound (CallMove.Steps frame job) frames.old.items → CallFollows (defs_term tables.now.defs) (steps_over tables.now script.now) d bound m frames.new.items) }
    ensures less { IfOk result (λ m. stack_load call_frame_load frames.new.items + call_weight (defs_term tables.now.defs) m < stack_load call_frame_load frames.old.items + call_weight (defs_term tables.now.defs) (CallMove.Steps frame job)) }
{
    match begin(alloc, tables, script, job)? {
        CallMove::Gives(ending) => returned(alloc, tables, script, frame, ending),
        next => {
            frames.push(frame)?;
            Ok(next)
        }
    }
}

/// Takes the topmost frame.
fn pop(frames: &mut Vec<CallFrame>) -> Option<CallFrame>
    ensures some { IfSome result (λ frame. frames.old.items ≡ frames.new.items ++ frame ∷ []) }
    ensures none { IfNone result (frames.old.items ≡ []) }
{
    frames.pop()
}
