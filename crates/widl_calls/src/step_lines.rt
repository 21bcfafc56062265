//! Steps blocks: a unit for each line, and what a line does.

ghost use Rattle.std.specs.Prelude.{◌≡◌, IfOk, Some, option_map, slice_get};
ghost use Rattle.std.specs.Option.{option_map_or};
ghost use Rattle.widl_dialog.specs.Dialog.{End, Steps, bind};
ghost use Rattle.widl_idl.specs.DefinitionTerms.{DefsTerm, defs_term};
ghost use Rattle.widl_steps.specs.Operations.{StepsOf};
ghost use Rattle.widl_value.specs.IdlTerms.{idl_term, idl_terms};
ghost use Rattle.widl_idl.specs.Terms.{TypeTerm, UndefinedType, type_term};
ghost use Rattle.widl_steps.specs.Defaults.{literal_value};
ghost use Rattle.widl_steps.specs.Tasks.{Default};
ghost use Rattle.widl_steps.specs.CallTasks.{Of};
ghost use Rattle.widl_steps.specs.FoundSteps.{steps_over};
ghost use Rattle.widl_steps.specs.Operations.{result as to_script, result_type};
ghost use Rattle.widl_steps.specs.StepLines.{argument_value, line as line_talk, lines as lines_talk, return_line};
ghost use Rattle.widl_convert.specs.Literals.{given_or_dictionary};
ghost use Rattle.widl_calls.specs.Frames.{CallLeads, call_dialog, ended_or_dictionary, first_line};
ghost use Rattle.widl_calls.specs.HeldValues.{ReadByLine, ReadByLines, ReadBySource, at_place, held};

use crate::default_results::default_result;
use crate::ends::{fault, given, not_built};
use crate::moves::{CallAsking, CallMove};
use crate::operations::with_result;
use crate::overload::Overload;
use crate::waits::CallWait;
use std::alloc::{AllocError, Global};
use widl_convert::{Ending, literal_value};
use widl_idl::{IdlType, Literal};
use widl_script_tree::{Script, Source, StepLine};
use widl_steps::Ask;
use widl_tables::Tables;
use widl_trace::Code;
use widl_value::{IdlValue, IdlValues};

/// The value of an argument, with the argument's number.
#[derive(Drop)]
pub struct NamedValue {
    /// The number.
    pub number: u32,
    /// The value.
    pub value: IdlValue,
}

/// The number of the argument that a source reads.
fn arg_of_source(source: &Source) -> Option<u32>
    ensures { ReadBySource source.now result }
{
    match source {
        Source::Arg(number) => Some(*number),
        Source::This | Source::Slot(_) | Source::Literal(_) => None,
    }
}

/// The number of the argument that a line reads.
fn arg_of_line(line: &StepLine) -> Option<u32>
    ensures { ReadByLine line.now result }
{
    match line {
        StepLine::Return(source) => arg_of_source(source),
        StepLine::ReturnInvoke(_)
        | StepLine::SetSlot { slot: _, source: _ }
        | StepLine::Append(_, _)
        | StepLine::Clear
        | StepLine::Throw(_)
        | StepLine::Invoke(_) => None,
    }
}

/// The number of the argument that lines read.
fn arg_of_lines(lines: &[StepLine]) -> Option<u32>
    ensures { ReadByLines lines.now result }
{
    match lines {
        [] => None,
        [line, ..] => arg_of_line(line),
    }
}

/// A copy of the value of an argument, if there is one.
///
/// # Errors
///
/// `AllocError` where there is no memory.
fn named_value(
    alloc: Global,
    number: u32,
    values: &IdlValues,
) -> Result<Option<Box<NamedValue>>, AllocError>
    ensures { IfOk result (λ named. slice_get (held named) number ≡ slice_get (idl_terms values.now) number) }
{
    if (number as usize) < values.len() {
        let value = values.at(number as usize).copy()?;
        Ok(Some(Box::new(alloc, NamedValue { number, value })?))
    } else {
        Ok(None)
    }
}

/// A copy of the one value of these that lines read: without the others they do the same.
///
/// # Errors
///
/// `AllocError` where there is no memory.
pub(crate) fn read_value(
    alloc: Global,
    lines: &[StepLine],
    values: &IdlValues,
) -> Result<Option<Box<NamedValue>>, AllocError>
    ensures { IfOk result (λ named. (list : DefsTerm) (t : TypeTerm) → lines_talk list t (held named) lines.now ≡ lines_talk list t (idl_terms values.now) lines.now) }
{
    match arg_of_lines(lines) {
        None => Ok(None),
        Some(number) => named_value(alloc, number, values),
    }
}

/// The move to the steps of an overload, whose event is told, and to their result.
///
/// # Errors
///
/// `AllocError` where there is no memory.
pub(crate) fn lines(
    alloc: Global,
    tables: &Tables,
    script: &Script,
    overload: Overload,
    read: Option<Box<NamedValue>>,
) -> Result<CallMove, AllocError>
    ensures { IfOk result (λ m. call_dialog (defs_term tables.now.defs) (steps_over tables.now script.now) m ≡ bind (lines_talk (defs_term tables.now.defs) (result_type (defs_term tables.now.defs) overload.callee overload.number) (held read) (steps_over tables.now script.now overload.callee overload.number)) (to_script (result_type (defs_term tables.now.defs) overload.callee overload.number))) }
{
    match overload.lines(tables, script) {
        [] => Ok(with_result(overload, default_result(alloc, tables, overload)?)),
        [..] => Ok(CallMove::Asks(CallAsking {
            ask: Ask::Unit,
            wait: CallWait::Line { overload, read },
        })),
    }
}

/// The move after the unit of the first line.
///
/// # Errors
///
/// `AllocError` where there is no memory.
pub(crate) fn after_unit(
    alloc: Global,
    tables: &Tables,
    script: &Script,
    overload: Overload,
    read: Option<Box<NamedValue>>,
) -> Result<CallMove, AllocError>
    ensures { IfOk result (λ m. CallLeads (defs_term tables.now.defs) (steps_over tables.now script.now) (bind (first_line (defs_term tables.now.defs) (result_type (defs_term tables.now.defs) overload.callee overload.number) (held read) (steps_over tables.now script.now overload.callee overload.number)) (to_script (result_type (defs_term tables.now.defs) overload.callee overload.number))) (call_dialog (defs_term tables.now.defs) (steps_over tables.now script.now) m)) }
{
    let ended = first_line(alloc, tables, script, overload, read)?;
    Ok(with_result(overload, ended))
}

/// How the steps of an overload end, after the unit of their first line.
///
/// # Errors
///
/// `AllocError` where there is no memory.
fn first_line(
    alloc: Global,
    tables: &Tables,
    script: &Script,
    overload: Overload,
    read: Option<Box<NamedValue>>,
) -> Result<Option<Ending>, AllocError>
    ensures { IfOk result (λ ended. CallLeads (defs_term tables.now.defs) (steps_over tables.now script.now) (first_line (defs_term tables.now.defs) (result_type (defs_term tables.now.defs) overload.callee overload.number) (held read) (steps_over tables.now script.now overload.callee overload.number)) (ended_or_dictionary (result_type (defs_term tables.now.defs) overload.callee overload.number) ended)) }
{
    match overload.lines(tables, script) {
        [] => default_result(alloc, tables, overload),
        [line, ..] => do_line(alloc, tables, overload, read, line),
    }
}

/// How steps end with a line.
///
/// # Errors
///
/// `AllocError` where there is no memory.
fn do_line(
    alloc: Global,
    tables: &Tables,
    overload: Overload,
    read: Option<Box<NamedValue>>,
    line: &StepLine,
) -> Result<Option<Ending>, AllocError>
    ensures { IfOk result (λ ended. (steps : StepsOf) → CallLeads (defs_term tables.now.defs) steps (line_talk (result_type (defs_term tables.now.defs) overload.callee overload.number) (held read) line.now) (ended_or_dictionary (result_type (defs_term tables.now.defs) overload.callee overload.number) ended)) }
{
    match line {
        StepLine::Return(source) => return_line(alloc, tables, overload, read, source),
        StepLine::Throw(value) => Ok(Some(Ending::Rethrow(value.copy()?))),
        StepLine::ReturnInvoke(_)
        | StepLine::SetSlot { slot: _, source: _ }
        | StepLine::Append(_, _)
        | StepLine::Clear
        | StepLine::Invoke(_) => Ok(not_built()),
    }
}

/// How steps end with the value of a source.
///
/// # Errors
///
/// `AllocError` where there is no memory.
fn return_line(
    alloc: Global,
    tables: &Tables,
    overload: Overload,
    read: Option<Box<NamedValue>>,
    source: &Source,
) -> Result<Option<Ending>, AllocError>
    ensures { IfOk result (λ ended. (steps : StepsOf) → CallLeads (defs_term tables.now.defs) steps (return_line (result_type (defs_term tables.now.defs) overload.callee overload.number) (held read) source.now) (ended_or_dictionary (result_type (defs_term tables.now.defs) overload.callee overload.number) ended)) }
{
    match source {
        Source::Arg(number) => Ok(return_arg(read, *number)),
        Source::Literal(literal) => return_literal(alloc, tables, overload, literal),
        Source::This | Source::Slot(_) => Ok(not_built()),
    }
}

/// How steps end with the value of the argument of a number.
fn return_arg(read: Option<Box<NamedValue>>, number: u32) -> Option<Ending>
    ensures { (t : TypeTerm) → ended_or_dictionary t result ≡ argument_value (slice_get (held read) number) }
{
    match read {
        None => fault(Code::NoValue),
        Some(named) => return_named(Box::into_inner(named), number),
    }
}

/// The same with the value that is held, where it is that of the argument.
fn return_named(named: NamedValue, number: u32) -> Option<Ending>
    ensures { (t : TypeTerm) → ended_or_dictionary t result ≡ argument_value (slice_get (at_place named.number (idl_term named.value)) number) }
{
    let NamedValue { number: own, value } = named;
    if number == own {
        argument_value(value)
    } else {
        fault(Code::NoValue)
    }
}

/// How steps end with the value of an argument, which may be missing.
fn argument_value(value: IdlValue) -> Option<Ending>
    ensures { (t : TypeTerm) → ended_or_dictionary t result ≡ argument_value (Some (idl_term value)) }
{
    match value {
        IdlValue::Missing => fault(Code::NoValue),
        IdlValue::Undefined => given(IdlValue::Undefined),
        IdlValue::Null => given(IdlValue::Null),
        IdlValue::Bool(b) => given(IdlValue::Bool(b)),
        IdlValue::Int(n) => given(IdlValue::Int(n)),
        IdlValue::Text(text) => given(IdlValue::Text(text)),
        IdlValue::Choice { of, index } => given(IdlValue::Choice { of, index }),
        IdlValue::Object(obj) => given(IdlValue::Object(obj)),
        IdlValue::Any(value) => given(IdlValue::Any(value)),
        IdlValue::List(values) => given(IdlValue::List(values)),
        IdlValue::Entries(entries) => given(IdlValue::Entries(entries)),
        IdlValue::Dict { of, members } => given(IdlValue::Dict { of, members }),
        IdlValue::Promise(promise) => given(IdlValue::Promise(promise)),
    }
}

/// How steps end with the value of a literal of the result's type; without an end `{}` is the dictionary that
/// `undefined` is converted to.
///
/// # Errors
///
/// `AllocError` where there is no memory.
fn return_literal(
    alloc: Global,
    tables: &Tables,
    overload: Overload,
    literal: &Literal,
) -> Result<Option<Ending>, AllocError>
    ensures { IfOk result (λ ended. (steps : StepsOf) → CallLeads (defs_term tables.now.defs) steps (Steps (Of (Default (result_type (defs_term tables.now.defs) overload.callee overload.number) (Some literal.now))) End) (ended_or_dictionary (result_type (defs_term tables.now.defs) overload.callee overload.number) ended)) }
{
    match literal_of(alloc, tables, overload.result_type(tables), literal)? {
        None => Ok(None),
        Some(value) => Ok(given(value)),
    }
}

/// A literal as an IDL value of a type, where none stands for `undefined`; `{}` is none itself.
///
/// # Errors
///
/// `AllocError` where there is no memory.
fn literal_of(
    alloc: Global,
    tables: &Tables,
    ty: Option<&IdlType>,
    literal: &Literal,
) -> Result<Option<IdlValue>, AllocError>
    ensures { IfOk result (λ value. let t = option_map_or (λ t. type_term t.now) ty.entry UndefinedType in literal_value (defs_term tables.now.defs) t literal.now ≡ given_or_dictionary t (option_map idl_term value)) }
{
    match ty {
        None => literal_value(alloc, tables, &IdlType::Undefined, literal),
        Some(ty) => literal_value(alloc, tables, ty, literal),
    }
}
