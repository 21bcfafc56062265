//! The moves of a call in which a conversion goes on.

ghost use Rattle.std.specs.Prelude.{◌≡◌, ◌≤◌, IfOk, Some};
ghost use Rattle.widl_dialog.specs.Dialog.{Say};
ghost use Rattle.widl_dialog.specs.Rename.{rename};
ghost use Rattle.widl_idl.specs.DefinitionTerms.{DefsTerm, defs_term};
ghost use Rattle.widl_steps.specs.Operations.{StepsOf};
ghost use Rattle.widl_steps.specs.AskTerms.{BeginAnswer, IsFree, IsWanted, answer_term, ask_term, kind_of};
ghost use Rattle.widl_steps.specs.Tasks.{Talk};
ghost use Rattle.widl_steps.specs.CallTasks.{Of};
ghost use Rattle.widl_convert.specs.Stack.{Expects, IsCalmer, IsQuiet, Resumes, pending, quiet, rest};
ghost use Rattle.widl_calls.specs.Frames.{CallLeads, call_dialog, call_weight, inner_load};
ghost use Rattle.widl_calls.specs.Kinds.{kind_in};

use crate::inside::Inside;
use crate::moves::{CallAsking, CallMove};
use crate::waits::CallWait;
use std::alloc::{AllocError, Global};
use widl_convert::{Asker, Ending, Next};
use widl_steps::{Answer, Ask};
use widl_tables::Tables;

/// A conversion begins. Only one that asks is kept, in a box: most end at once.
///
/// # Errors
///
/// `AllocError` where there is no memory.
pub(crate) fn begins(alloc: Global, tables: &Tables, asker: Asker) -> Result<CallMove, AllocError>
    requires begins { Expects asker BeginAnswer }
    requires ready { IsQuiet asker }
    ensures leads { IfOk result (λ m. (steps : StepsOf) → CallLeads (defs_term tables.now.defs) steps (rename Of (rest (defs_term tables.now.defs) asker BeginAnswer)) (call_dialog (defs_term tables.now.defs) steps m)) }
    ensures weight { IfOk result (λ m. call_weight (defs_term tables.now.defs) m ≤ quiet (defs_term tables.now.defs) asker) }
{
    let mut asker = asker;
    match asker.resume(tables, Answer::Begin) {
        Next::Ask(ask) => waits(alloc, ask, asker),
        next => ended(next),
    }
}

/// A conversion goes on with an answer.
///
/// # Errors
///
/// `AllocError` where there is no memory.
pub(crate) fn goes_on(
    tables: &Tables,
    inside: Inside,
    answer: Answer,
) -> Result<CallMove, AllocError>
    requires { IsWanted (kind_in inside.asker.value) (answer_term answer) }
    ensures leads { IfOk result (λ m. (steps : StepsOf) → CallLeads (defs_term tables.now.defs) steps (rename Of (rest (defs_term tables.now.defs) inside.asker.value (answer_term answer))) (call_dialog (defs_term tables.now.defs) steps m)) }
    ensures weight { IfOk result (λ m. IsFree (kind_in inside.asker.value) → call_weight (defs_term tables.now.defs) m ≤ quiet (defs_term tables.now.defs) inside.asker.value) }
{
    let Inside { asker } = inside;
    resume(tables, asker, answer)
}

/// The move of a call in which a conversion is resumed.
///
/// # Errors
///
/// `AllocError` where there is no memory.
fn resume(tables: &Tables, asker: Box<Asker>, answer: Answer) -> Result<CallMove, AllocError>
    requires { Expects asker.value (answer_term answer) }
    ensures leads { IfOk result (λ m. (steps : StepsOf) → CallLeads (defs_term tables.now.defs) steps (rename Of (rest (defs_term tables.now.defs) asker.value (answer_term answer))) (call_dialog (defs_term tables.now.defs) steps m)) }
    ensures weight { IfOk result (λ m. IsQuiet asker.value → call_weight (defs_term tables.now.defs) m ≤ quiet (defs_term tables.now.defs) asker.value) }
{
    let mut asker = asker;
    match asker.resume(tables, answer) {
        Next::Ask(ask) => Ok(asks(ask, asker)),
        next => ended(next),
    }
}

/// The move after the first ask of a conversion, which waits in a box from now on.
///
/// # Errors
///
/// `AllocError` where there is no memory.
#[inline(never)]
fn waits(alloc: Global, ask: Ask, asker: Asker) -> Result<CallMove, AllocError>
    requires { pending asker ≡ Some (kind_of (ask_term ask)) }
    ensures dialog { IfOk result (λ m. (list : DefsTerm) (steps : StepsOf) → call_dialog list steps m ≡ Say (ask_term ask) (λ a. rename Of (rest list asker a))) }
    ensures weight { IfOk result (λ m. (list : DefsTerm) → call_weight list m ≡ inner_load (quiet list asker)) }
{
    Ok(asks(ask, Box::new(alloc, asker)?))
}

/// The move after an ask of a conversion.
fn asks(ask: Ask, asker: Box<Asker>) -> CallMove
    requires { pending asker.value ≡ Some (kind_of (ask_term ask)) }
    ensures dialog { (list : DefsTerm) (steps : StepsOf) → call_dialog list steps result ≡ Say (ask_term ask) (λ a. rename Of (rest list asker.value a)) }
    ensures weight { (list : DefsTerm) → call_weight list result ≡ inner_load (quiet list asker.value) }
{
    CallMove::Asks(CallAsking {
        ask,
        wait: CallWait::Inside(Inside { asker }),
    })
}

/// The move after the end of a conversion.
///
/// # Errors
///
/// `AllocError` where there was no memory for it.
fn ended(next: Next) -> Result<CallMove, AllocError>
    requires { (ask : Ask) → next ≡ Next.Ask ask → ⊥ }
    ensures leads { IfOk result (λ m. (list : DefsTerm) (steps : StepsOf) (d : Talk) (asker : Asker) → Resumes list d asker next → CallLeads list steps (rename Of d) (call_dialog list steps m)) }
    ensures weight { IfOk result (λ m. (list : DefsTerm) (old new : Asker) → IsCalmer list old new next → IsQuiet old → call_weight list m ≤ quiet list old) }
{
    match next {
        Next::Ask(_) => unreachable!(),
        Next::Done(outcome) => Ok(CallMove::Gives(Ending::Done(outcome))),
        Next::Throw(reason) => Ok(CallMove::Gives(Ending::Throw(reason))),
        Next::Rethrow(value) => Ok(CallMove::Gives(Ending::Rethrow(value))),
        Next::Profile(number) => Ok(CallMove::Gives(Ending::Profile(number))),
        Next::Memory => Err(AllocError),
    }
}
