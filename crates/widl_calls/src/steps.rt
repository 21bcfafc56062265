//! The next move: of a task, after an answer, after the end of another task.

ghost use Rattle.std.specs.Prelude.{◌≡◌, ◌≤◌, ◌<◌, ◌+◌, IfOk};
ghost use Rattle.widl_idl.specs.DefinitionTerms.{DefsTerm, defs_term};
ghost use Rattle.widl_steps.specs.Operations.{StepsOf};
ghost use Rattle.widl_steps.specs.AskTerms.{IsFree, IsWanted, answer_term};
ghost use Rattle.widl_steps.specs.BuiltCalls.{calls_built_today};
ghost use Rattle.widl_steps.specs.CallRules.{call_rule};
ghost use Rattle.widl_steps.specs.FoundSteps.{steps_over};
ghost use Rattle.widl_convert.specs.Frames.{end_of};
ghost use Rattle.widl_convert.specs.Loads.{given_load};
ghost use Rattle.widl_calls.specs.Frames.{CallLeads, call_after, call_dialog, call_frame_load, call_job_of, call_patience, call_returned_to, call_weight, job_load};
ghost use Rattle.widl_calls.specs.Waits.{call_kind_for};

use crate::arguments::Arguments;
use crate::array_functions::{array_answered, length_given};
use crate::conversions::{begins, goes_on};
use crate::ends::{gives, returns};
use crate::frames::CallFrame;
use crate::functions::function;
use crate::jobs::CallJob;
use crate::moves::CallMove;
use crate::object_functions::{by_kind, with_answer};
use crate::operations::{chosen, result};
use crate::overload::Overload;
use crate::step_lines::{after_unit, lines};
use crate::waits::CallWait;
use std::alloc::{AllocError, Global};
use widl_convert::{Asker, Ending, inner_type};
use widl_idl::{Callee, IdlType};
use widl_script_tree::Script;
use widl_steps::{Answer, Want};
use widl_tables::Tables;
use widl_value::{IdlValue, Value};

/// The first move of a task.
///
/// # Errors
///
/// `AllocError` where there is no memory.
pub(crate) fn begin(
    alloc: Global,
    tables: &Tables,
    script: &Script,
    job: CallJob,
) -> Result<CallMove, AllocError>
    ensures leads { IfOk result (λ m. CallLeads (defs_term tables.now.defs) (steps_over tables.now script.now) (call_rule calls_built_today (defs_term tables.now.defs) (steps_over tables.now script.now) (call_job_of (defs_term tables.now.defs) (steps_over tables.now script.now) job)) (call_dialog (defs_term tables.now.defs) (steps_over tables.now script.now) m)) }
    ensures weight { IfOk result (λ m. call_weight (defs_term tables.now.defs) m ≤ job_load (defs_term tables.now.defs) job) }
{
    match job {
        CallJob::Function {
            f: _,
            what,
            this,
            args,
            construct: _,
        } => function(alloc, tables, what, this, args),
        CallJob::Resolve { callee, args } => resolve(alloc, tables, callee, args),
        CallJob::OfUndefined(overload) => of_undefined(alloc, tables, overload),
        CallJob::Out { overload, value } => out(alloc, tables, overload, value),
        CallJob::ToLength(value) => to_length(alloc, tables, value),
    }
}

/// The choice of an overload begins.
///
/// # Errors
///
/// `AllocError` where there is no memory.
fn resolve(
    alloc: Global,
    tables: &Tables,
    callee: Callee,
    args: Arguments,
) -> Result<CallMove, AllocError>
    ensures leads { IfOk result (λ m. (steps : StepsOf) → CallLeads (defs_term tables.now.defs) steps (call_rule calls_built_today (defs_term tables.now.defs) steps (call_job_of (defs_term tables.now.defs) steps (CallJob.Resolve callee args))) (call_dialog (defs_term tables.now.defs) steps m)) }
    ensures weight { IfOk result (λ m. call_weight (defs_term tables.now.defs) m ≤ job_load (defs_term tables.now.defs) (CallJob.Resolve callee args)) }
{
    let Arguments { values } = args;
    begins(alloc, tables, Asker::start_resolve(alloc, callee, values)?)
}

/// The conversion of `undefined` to the type of an overload's result begins, or to the inner one where that
/// is nullable.
///
/// # Errors
///
/// `AllocError` where there is no memory.
fn of_undefined(alloc: Global, tables: &Tables, overload: Overload) -> Result<CallMove, AllocError>
    ensures leads { IfOk result (λ m. (steps : StepsOf) → CallLeads (defs_term tables.now.defs) steps (call_rule calls_built_today (defs_term tables.now.defs) steps (call_job_of (defs_term tables.now.defs) steps (CallJob.OfUndefined overload))) (call_dialog (defs_term tables.now.defs) steps m)) }
    ensures weight { IfOk result (λ m. call_weight (defs_term tables.now.defs) m ≤ job_load (defs_term tables.now.defs) (CallJob.OfUndefined overload)) }
{
    match overload.result_type(tables) {
        None => Ok(gives(IdlValue::Undefined)),
        Some(ty) => begins(
            alloc,
            tables,
            Asker::start_convert(alloc, inner_type(ty), Value::Undefined)?,
        ),
    }
}

/// The first move of a result's way to a value of the script. That of `undefined` and of a value of `any` is at its end.
///
/// # Errors
///
/// `AllocError` where there is no memory.
fn out(
    alloc: Global,
    tables: &Tables,
    overload: Overload,
    value: IdlValue,
) -> Result<CallMove, AllocError>
    ensures leads { IfOk result (λ m. (steps : StepsOf) → CallLeads (defs_term tables.now.defs) steps (call_rule calls_built_today (defs_term tables.now.defs) steps (call_job_of (defs_term tables.now.defs) steps (CallJob.Out overload value))) (call_dialog (defs_term tables.now.defs) steps m)) }
    ensures weight { IfOk result (λ m. call_weight (defs_term tables.now.defs) m ≤ job_load (defs_term tables.now.defs) (CallJob.Out overload value)) }
{
    match value {
        IdlValue::Undefined => Ok(returns(Value::Undefined)),
        IdlValue::Any(value) => Ok(returns(value)),
        value => converts_out(alloc, tables, overload, value),
    }
}

/// The conversion of a result to a value of the script begins.
///
/// # Errors
///
/// `AllocError` where there is no memory.
fn converts_out(
    alloc: Global,
    tables: &Tables,
    overload: Overload,
    value: IdlValue,
) -> Result<CallMove, AllocError>
    ensures leads { IfOk result (λ m. (steps : StepsOf) → CallLeads (defs_term tables.now.defs) steps (call_rule calls_built_today (defs_term tables.now.defs) steps (call_job_of (defs_term tables.now.defs) steps (CallJob.Out overload value))) (call_dialog (defs_term tables.now.defs) steps m)) }
    ensures weight { IfOk result (λ m. call_weight (defs_term tables.now.defs) m ≤ job_load (defs_term tables.now.defs) (CallJob.Out overload value)) }
{
    match overload.result_type(tables) {
        None => begins(
            alloc,
            tables,
            Asker::start_out(alloc, &IdlType::Undefined, value)?,
        ),
        Some(ty) => begins(alloc, tables, Asker::start_out(alloc, ty, value)?),
    }
}

/// The conversion of a value of the script to a length begins.
///
/// # Errors
///
/// `AllocError` where there is no memory.
fn to_length(alloc: Global, tables: &Tables, value: Value) -> Result<CallMove, AllocError>
    ensures leads { IfOk result (λ m. (steps : StepsOf) → CallLeads (defs_term tables.now.defs) steps (call_rule calls_built_today (defs_term tables.now.defs) steps (call_job_of (defs_term tables.now.defs) steps (CallJob.ToLength value))) (call_dialog (defs_term tables.now.defs) steps m)) }
    ensures weight { IfOk result (λ m. call_weight (defs_term tables.now.defs) m ≤ job_load (defs_term tables.now.defs) (CallJob.ToLength value)) }
{
    begins(
        alloc,
        tables,
        Asker::start_scalar(alloc, Want::Length, value)?,
    )
}

/// The move after an answer.
///
/// # Errors
///
/// `AllocError` where there is no memory.
pub(crate) fn answered(
    alloc: Global,
    tables: &Tables,
    script: &Script,
    wait: CallWait,
    answer: Answer,
) -> Result<CallMove, AllocError>
    requires { IsWanted (call_kind_for wait) (answer_term answer) }
    ensures leads { IfOk result (λ m. CallLeads (defs_term tables.now.defs) (steps_over tables.now script.now) (call_after (defs_term tables.now.defs) (steps_over tables.now script.now) wait (answer_term answer)) (call_dialog (defs_term tables.now.defs) (steps_over tables.now script.now) m)) }
    ensures weight { IfOk result (λ m. IsFree (call_kind_for wait) → call_weight (defs_term tables.now.defs) m < call_patience (defs_term tables.now.defs) wait) }
{
    match wait {
        CallWait::Inside(inside) => goes_on(tables, inside, answer),
        CallWait::Noted { overload, read } => lines(alloc, tables, script, overload, read),
        CallWait::Line { overload, read } => after_unit(alloc, tables, script, overload, read),
        CallWait::Tag(obj) => with_answer(alloc, obj, answer),
        CallWait::Kind => by_kind(alloc, answer),
        CallWait::Array(wait) => array_answered(alloc, wait, answer),
    }
}

/// The move after the end of a task.
///
/// # Errors
///
/// `AllocError` where there is no memory.
pub(crate) fn returned(
    alloc: Global,
    tables: &Tables,
    script: &Script,
    frame: CallFrame,
    ending: Ending,
) -> Result<CallMove, AllocError>
    ensures dialog { IfOk result (λ m. call_dialog (defs_term tables.now.defs) (steps_over tables.now script.now) m ≡ call_returned_to (defs_term tables.now.defs) (steps_over tables.now script.now) frame (end_of ending)) }
    ensures weight { IfOk result (λ m. call_weight (defs_term tables.now.defs) m < call_frame_load frame + given_load (end_of ending)) }
{
    match frame {
        CallFrame::Chosen(callee) => chosen(alloc, tables, script, callee, ending),
        CallFrame::Result(overload) => Ok(result(overload, ending)),
        CallFrame::Length(turn) => length_given(alloc, turn, ending),
    }
}
