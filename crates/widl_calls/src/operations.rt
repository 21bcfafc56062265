//! Operations: what the function of an operation does.

ghost use Rattle.std.specs.Prelude.{◌≡◌, ◌≤◌, ◌<◌, ◌+◌, ℕ, IfOk};
ghost use Rattle.widl_dialog.specs.Dialog.{bind};
ghost use Rattle.widl_idl.specs.DefinitionTerms.{DefsTerm, defs_term};
ghost use Rattle.widl_steps.specs.Operations.{StepsOf};
ghost use Rattle.widl_value.specs.IdlTerms.{idl_terms};
ghost use Rattle.widl_steps.specs.Tasks.{Picks};
ghost use Rattle.widl_steps.specs.FoundSteps.{steps_over};
ghost use Rattle.widl_steps.specs.Operations.{chosen, operation, owned_operation, result as to_script, result_type};
ghost use Rattle.widl_convert.specs.Frames.{end_of};
ghost use Rattle.widl_convert.specs.Loads.{given_load};
ghost use Rattle.widl_calls.specs.Frames.{call_dialog, call_weight, ended_or_dictionary, operation_load, result_load};

use crate::arguments::Arguments;
use crate::ends::{NOT_BUILT, reaches};
use crate::frames::CallFrame;
use crate::jobs::CallJob;
use crate::moves::{CallAsking, CallMove};
use crate::overload::{Overload, gives_promise};
use crate::step_lines::read_value;
use crate::waits::CallWait;
use std::alloc::{AllocError, Global};
use widl_convert::{Ending, Outcome};
use widl_idl::{Callee, Owner};
use widl_script_tree::Script;
use widl_steps::Ask;
use widl_tables::Tables;
use widl_trace::Event;
use widl_value::IdlValues;

/// The first move of an operation. That of a regular one of an interface, which looks at `this`, isn't
/// built.
pub(crate) fn operation(tables: &Tables, callee: Callee, args: Arguments) -> CallMove
    ensures dialog { (steps : StepsOf) → call_dialog (defs_term tables.now.defs) steps result ≡ operation (defs_term tables.now.defs) steps callee args.values }
    ensures weight { call_weight (defs_term tables.now.defs) result ≤ operation_load (defs_term tables.now.defs) callee args.values }
{
    match callee.owner {
        Owner::Space(_) => of_namespace(tables, callee, args),
        Owner::Iface(_) => reaches(NOT_BUILT),
    }
}

/// The first move of an operation that doesn't look at `this`.
fn of_namespace(tables: &Tables, callee: Callee, args: Arguments) -> CallMove
    ensures dialog { (steps : StepsOf) (n : ℕ) → call_dialog (defs_term tables.now.defs) steps result ≡ owned_operation (defs_term tables.now.defs) steps callee args.values (Owner.Space n) }
    ensures weight { call_weight (defs_term tables.now.defs) result ≤ operation_load (defs_term tables.now.defs) callee args.values }
{
    if gives_promise(tables, &callee) {
        reaches(NOT_BUILT)
    } else {
        CallMove::Steps(CallFrame::Chosen(callee), CallJob::Resolve { callee, args })
    }
}

/// The move after the choice of an overload.
///
/// # Errors
///
/// `AllocError` where there is no memory.
pub(crate) fn chosen(
    alloc: Global,
    tables: &Tables,
    script: &Script,
    callee: Callee,
    ending: Ending,
) -> Result<CallMove, AllocError>
    ensures dialog { IfOk result (λ m. call_dialog (defs_term tables.now.defs) (steps_over tables.now script.now) m ≡ chosen (defs_term tables.now.defs) (steps_over tables.now script.now) callee (end_of ending)) }
    ensures weight { IfOk result (λ m. call_weight (defs_term tables.now.defs) m ≤ given_load (end_of ending)) }
{
    match ending {
        Ending::Done(Outcome::Chosen { overload, values }) => noted(
            alloc,
            tables,
            script,
            Overload {
                callee,
                number: overload,
            },
            values,
        ),
        ending => Ok(CallMove::Gives(ending)),
    }
}

/// The event of an overload is told. Of the values of its arguments only the one is kept that the steps
/// read.
///
/// # Errors
///
/// `AllocError` where there is no memory.
fn noted(
    alloc: Global,
    tables: &Tables,
    script: &Script,
    overload: Overload,
    values: IdlValues,
) -> Result<CallMove, AllocError>
    ensures dialog { IfOk result (λ m. call_dialog (defs_term tables.now.defs) (steps_over tables.now script.now) m ≡ chosen (defs_term tables.now.defs) (steps_over tables.now script.now) overload.callee (Picks overload.number (idl_terms values))) }
    ensures weight { IfOk result (λ m. call_weight (defs_term tables.now.defs) m ≡ 0) }
{
    let read = read_value(alloc, overload.lines(tables, script), &values)?;
    Ok(CallMove::Asks(CallAsking {
        ask: Ask::Note(Event::Op {
            callee: overload.callee,
            overload: Some(overload.number),
            values,
        }),
        wait: CallWait::Noted { overload, read },
    }))
}

/// The move after the steps of an overload, by their end; without one to the dictionary that `undefined` is
/// converted to.
pub(crate) fn with_result(overload: Overload, ended: Option<Ending>) -> CallMove
    ensures { (list : DefsTerm) (steps : StepsOf) → call_dialog list steps result ≡ bind (ended_or_dictionary (result_type list overload.callee overload.number) ended) (to_script (result_type list overload.callee overload.number)) }
{
    match ended {
        None => CallMove::Steps(CallFrame::Result(overload), CallJob::OfUndefined(overload)),
        Some(ending) => result(overload, ending),
    }
}

/// The move after the IDL value of a result.
pub(crate) fn result(overload: Overload, ending: Ending) -> CallMove
    ensures dialog { (list : DefsTerm) (steps : StepsOf) → call_dialog list steps result ≡ to_script (result_type list overload.callee overload.number) (end_of ending) }
    ensures weight { (list : DefsTerm) → call_weight list result < result_load + given_load (end_of ending) }
{
    match ending {
        Ending::Done(Outcome::Idl(value)) => CallMove::Goes(CallJob::Out { overload, value }),
        ending => CallMove::Gives(ending),
    }
}
