//! The next move: of a task, after an answer, after the end of another task.

ghost use Rattle.std.specs.Prelude.{◌≡◌, ◌≤◌, ◌<◌, ◌+◌, IfOk};
ghost use Rattle.widl_idl.specs.DefinitionTerms.{DefsTerm, defs_term};
ghost use Rattle.widl_steps.specs.AskTerms.{IsFree, answer_term};
ghost use Rattle.widl_steps.specs.Built.{built_today};
ghost use Rattle.widl_steps.specs.Rules.{rule};
ghost use Rattle.widl_convert.specs.Frames.{after, end_of, job_of, move_dialog, number_to, returned_to, text_to, value_to};
ghost use Rattle.widl_convert.specs.Loads.{end_load, frame_load, load, patience, value_load, weight};
ghost use Rattle.widl_value.specs.IdlTerms.{idl_term};
ghost use Rattle.widl_steps.specs.Tasks.{Gives, Plain};
ghost use Rattle.widl_convert.specs.Stack.{Leads};
ghost use Rattle.widl_convert.specs.Waits.{kind_for};

use crate::containers::{out_items, out_units, with_item};
use crate::convert::{
    convert_argument, convert_at_once, gives, to_enumeration, to_integer, to_string,
};
use crate::defaults::{default, defaults, with_default};
use crate::dictionary::{
    convert_member, first_member, member_default, next_member, undefined_member, with_member,
    with_member_value,
};
use crate::frames::{Frame, IdlFrame, NumberFrame, TextFrame, ValueFrame};
use crate::jobs::Job;
use crate::moves::{Ending, Move};
use crate::outcome::Outcome;
use crate::primitive::to_primitive;
use crate::record::{after_entry, entries, with_keys, with_name, with_own};
use crate::resolve::{arguments, probed, resolve, with_argument};
use crate::results::{out, returns};
use crate::scalar::{to_length, to_scalar, with_primitive};
use crate::sequence::{after_element, sequence_from, turns};
use crate::waits::{ValueWait, Wait};
use crate::{primitive, record, sequence, union};
use std::alloc::{AllocError, Global};
use widl_steps::Answer;
use widl_tables::Tables;
use widl_text::Units;
use widl_value::{IdlValue, Number, Value};

/// The first move of a task.
///
/// # Errors
///
/// `AllocError` where there is no memory.
#[tactic(auto, using(crate::proofs::Suspending::led, crate::proofs::Suspending::led_all))]
pub(crate) fn begin(alloc: Global, tables: &Tables, job: Job) -> Result<Move, AllocError>
    ensures leads { IfOk result (λ m. Leads (defs_term tables.now.defs) (rule built_today (defs_term tables.now.defs) (job_of (defs_term tables.now.defs) job)) (move_dialog (defs_term tables.now.defs) m)) }
    ensures weight { IfOk result (λ m. weight (defs_term tables.now.defs) m ≤ load (defs_term tables.now.defs) (job_of (defs_term tables.now.defs) job)) }
{
    match job {
        Job::Primitive { hint, value } => Ok(to_primitive(hint, value)),
        Job::Scalar { want, value } => to_scalar(alloc, want, value),
        Job::Convert { ty, value } => convert_at_once(alloc, tables, &ty, value),
        Job::Argument { at, length, value } => {
            convert_argument(alloc, tables, at, length, value)
        }
        Job::SequenceFrom(iterable) => Ok(sequence_from(alloc, iterable)),
        Job::Turns(iteration) => Ok(turns(alloc, iteration)),
        Job::Entries(properties) => entries(alloc, properties),
        Job::Resolve(call) => resolve(alloc, tables, call),
        Job::Arguments(resolution) => Ok(arguments(tables, resolution)),
        Job::Default(at) => default(alloc, tables, at),
        Job::Defaults(beginning) => Ok(defaults(tables, beginning)),
        Job::Dictionary { dictionary, object } => first_member(alloc, tables, dictionary, object),
        Job::Members(filling) => next_member(alloc, tables, filling),
        Job::Member { at, value } => convert_member(alloc, tables, at, value),
        Job::MemberDefault(at) => member_default(alloc, tables, at),
        Job::Out { ty: _, value } => out(alloc, tables, value),
        Job::OutItems(outgoing) => Ok(out_items(outgoing)),
        Job::OutUnits(filled) => out_units(alloc, filled),
    }
}

/// The move after an answer.
///
/// # Errors
///
/// `AllocError` where there is no memory.
pub(crate) fn answered(
    alloc: Global,
    tables: &Tables,
    wait: Wait,
    answer: Answer,
) -> Result<Move, AllocError>
    ensures dialog { IfOk result (λ m. move_dialog (defs_term tables.now.defs) m ≡ after (defs_term tables.now.defs) wait (answer_term answer)) }
    ensures weight { IfOk result (λ m. IsFree (kind_for wait) → weight (defs_term tables.now.defs) m < patience wait) }
{
    match wait {
        Wait::Value(wait) => with_completion(alloc, tables, wait, answer),
        Wait::Keys(of) => with_keys(alloc, of, answer),
        Wait::Own(property) => with_own(property, answer),
        Wait::Unit(wait) => Ok(undefined_member(tables, wait)),
        Wait::Item(filled) => Ok(Move::Goes(Job::OutUnits(filled))),
    }
}

/// The move after a value, given or thrown.
///
/// # Errors
///
/// `AllocError` where there is no memory.
fn with_completion(
    alloc: Global,
    tables: &Tables,
    wait: ValueWait,
    answer: Answer,
) -> Result<Move, AllocError>
    ensures { IfOk result (λ m. move_dialog (defs_term tables.now.defs) m ≡ after (defs_term tables.now.defs) (Wait.Value wait) (answer_term answer)) }
{
    match answer {
        Answer::Thrown(value) => Ok(Move::Gives(Ending::Rethrow(value))),
        Answer::Normal(value) => with_value(alloc, tables, wait, value),
        _ => with_value(alloc, tables, wait, Value::Undefined),
    }
}

/// The move after a value that an answer gave.
///
/// # Errors
///
/// `AllocError` where there is no memory.
fn with_value(
    alloc: Global,
    tables: &Tables,
    wait: ValueWait,
    value: Value,
) -> Result<Move, AllocError>
    ensures { IfOk result (λ m. move_dialog (defs_term tables.now.defs) m ≡ value_to (defs_term tables.now.defs) wait value) }
{
    match wait {
        ValueWait::Primitive(wait) => primitive::with_value(alloc, wait, value),
        ValueWait::Probe(probe) => probed(alloc, tables, probe, value),
        ValueWait::Sequence(wait) => sequence::with_value(alloc, wait, value),
        ValueWait::Property(property) => record::with_value(alloc, property, value),
        ValueWait::Member(wait) => Ok(with_member_value(tables, wait, value)),
        ValueWait::UnionProbe(probe) => union::probed(alloc, probe, value),
        ValueWait::NewArray => Ok(returns(value)),
        ValueWait::NewObject => Ok(returns(value)),
    }
}

/// The move after the end of a task.
///
/// # Errors
///
/// `AllocError` where there is no memory.
pub(crate) fn returned(
    alloc: Global,
    tables: &Tables,
    frame: Frame,
    ending: Ending,
) -> Result<Move, AllocError>
    ensures dialog { IfOk result (λ m. move_dialog (defs_term tables.now.defs) m ≡ returned_to (defs_term tables.now.defs) frame (end_of ending)) }
    ensures weight { IfOk result (λ m. weight (defs_term tables.now.defs) m < frame_load (defs_term tables.now.defs) frame + end_load (end_of ending)) }
{
    match ending {
        Ending::Done(Outcome::Script(value)) => with_script(alloc, tables, frame, value),
        Ending::Done(Outcome::Idl(value)) => with_idl(frame, value),
        ending => Ok(Move::Gives(ending)),
    }
}

/// The move after a value of the script that a task gave.
///
/// # Errors
///
/// `AllocError` where there is no memory.
fn with_script(
    alloc: Global,
    tables: &Tables,
    frame: Frame,
    value: Value,
) -> Result<Move, AllocError>
    ensures dialog { IfOk result (λ m. move_dialog (defs_term tables.now.defs) m ≡ returned_to (defs_term tables.now.defs) frame (Plain value)) }
    ensures weight { IfOk result (λ m. weight (defs_term tables.now.defs) m < frame_load (defs_term tables.now.defs) frame + end_load (Plain value)) }
{
    match frame {
        Frame::Value(ValueFrame::Scalar(want)) => Ok(with_primitive(want, value)),
        Frame::Value(ValueFrame::Item(outgoing)) => with_item(outgoing, value),
        Frame::Number(frame) => match value {
            Value::Num(number) => Ok(with_number(frame, number)),
            value => Ok(Move::Gives(Ending::Done(Outcome::Script(value)))),
        },
        Frame::Text(frame) => match value {
            Value::Str(text) => with_text(alloc, tables, frame, text),
            value => Ok(Move::Gives(Ending::Done(Outcome::Script(value)))),
        },
        Frame::Idl(_) => Ok(Move::Gives(Ending::Done(Outcome::Script(value)))),
        Frame::Key(_) => Ok(Move::Gives(Ending::Done(Outcome::Script(value)))),
    }
}

/// The move after an IDL value that a task gave.
///
/// # Errors
///
/// `AllocError` where there is no memory.
fn with_idl(frame: Frame, value: IdlValue) -> Result<Move, AllocError>
    ensures dialog { IfOk result (λ m. (list : DefsTerm) → move_dialog list m ≡ returned_to list frame (Gives (idl_term value))) }
    ensures weight { IfOk result (λ m. (list : DefsTerm) → weight list m < frame_load list frame + value_load (idl_term value)) }
{
    match frame {
        Frame::Idl(IdlFrame::Argument(resolution)) => with_argument(resolution, value),
        Frame::Idl(IdlFrame::Defaulted(beginning)) => with_default(beginning, value),
        Frame::Idl(IdlFrame::Element(iteration)) => after_element(iteration, value),
        Frame::Idl(IdlFrame::Property(property)) => after_entry(property, value),
        Frame::Key(property) => Ok(with_name(property, value)),
        Frame::Idl(IdlFrame::Member(wait)) => with_member(wait, value),
        Frame::Value(_) => Ok(gives(value)),
        Frame::Number(_) => Ok(gives(value)),
        Frame::Text(_) => Ok(gives(value)),
    }
}

/// The move after a Number that a task gave.
fn with_number(frame: NumberFrame, number: Number) -> Move
    ensures dialog { (list : DefsTerm) → move_dialog list result ≡ number_to frame number }
    ensures weight { (list : DefsTerm) → weight list result ≡ 0 }
{
    match frame {
        NumberFrame::Length => to_length(number),
        NumberFrame::Integer(kind, mode) => to_integer(kind, mode, number),
    }
}

/// The move after a String that a task gave.
///
/// # Errors
///
/// `AllocError` where there is no memory.
fn with_text(
    alloc: Global,
    tables: &Tables,
    frame: TextFrame,
    text: Units,
) -> Result<Move, AllocError>
    ensures dialog { IfOk result (λ m. move_dialog (defs_term tables.now.defs) m ≡ text_to (defs_term tables.now.defs) frame text) }
    ensures weight { IfOk result (λ m. weight (defs_term tables.now.defs) m ≡ 0) }
{
    match frame {
        TextFrame::String(kind) => to_string(alloc, kind, text),
        TextFrame::Enumeration(number) => Ok(to_enumeration(tables, number, text)),
    }
}
