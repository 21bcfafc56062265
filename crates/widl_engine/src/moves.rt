//! The next move.

ghost use Rattle.std.specs.Prelude.{◌≡◌, IfOk};
ghost use Rattle.widl_dialog.specs.Dialog.{End, Say};
ghost use Rattle.widl_script_tree.specs.Tables.{Tables as ScriptTables, expressions_tree, name_at, statements_tree};
ghost use Rattle.widl_runs.specs.Actions.{Write};
ghost use Rattle.widl_runs.specs.Ends.{Normal};
ghost use Rattle.widl_runs.specs.Expressions.{constructs_with as the_constructs_with};
ghost use Rattle.widl_runs.specs.Fitting.{FitsJob};
ghost use Rattle.widl_runs.specs.Jobs.{Program, nothing, reaches, value as goes_on_with};
ghost use Rattle.widl_runs.specs.Members.{calls_with as the_calls_with};
ghost use Rattle.widl_runs.specs.Rules.{rule};
ghost use Rattle.widl_runs.specs.Statements.{caught as the_caught};
ghost use Rattle.widl_runs.specs.Traces.{ends_script as the_ends_script, last_line as the_last_line};
ghost use Rattle.widl_trace.specs.EventTerms.{event_term};
ghost use Rattle.widl_engine.specs.Frames.{LeadsTo, after_charge, after_line, after_unit, back_to, completion_end, ends_by, job_end_of, job_of, move_of, program_of, throws_by, value_to};
ghost use Rattle.widl_engine.specs.ReadOver.{IsReadOver};

use crate::charges::{AfterLine, Charge, Unit};
use crate::due::{Due, Made, NewObject, Then};
use crate::ends::{Completion, JobEnd};
use crate::frames::{Frame, ValueFrame};
use crate::jobs::{Calling, Job, KeyPart, RowUse};
use crate::{answering, asks, calls, errors, expressions, members, rows, statements};
use std::alloc::{AllocError, Global};
use widl_script_tree::{Row, Script};
use widl_tables::Tables;
use widl_trace::Event;
use widl_value::{Value, Values};

/// What a machine does next.
#[derive(Drop)]
pub enum Move {
    /// An action that takes units.
    Pays(Charge),
    /// An action that takes none.
    Acts(Due),
    /// A job has ended so.
    Gives(JobEnd),
    /// A job, whose end is for the frame.
    Steps(Frame, Job),
    /// A job, whose end is for the frame below.
    Goes(Job),
}

/// The end of a part of a script.
#[inline(always)]
pub(crate) fn completes(completion: Completion) -> Move
    ensures { (p : Program) (s : ScriptTables) → move_of p s result ≡ End (completion_end completion) }
{
    Move::Gives(JobEnd::Completed(completion))
}

/// The end with a value.
#[inline(always)]
pub(crate) fn gives(value: Value) -> Move
    ensures { (p : Program) (s : ScriptTables) → move_of p s result ≡ End (Normal value) }
{
    completes(Completion::Normal(value))
}

/// The end without a value.
#[inline(always)]
pub(crate) fn ends() -> Move
    ensures { (p : Program) (s : ScriptTables) → move_of p s result ≡ nothing }
{
    completes(Completion::Normal(Value::Undefined))
}

/// An end of the profile.
#[inline(always)]
pub(crate) fn reaches(end: u8) -> Move
    ensures { (p : Program) (s : ScriptTables) → move_of p s result ≡ reaches end }
{
    Move::Acts(Due::Reach(end))
}

/// The first move of a job.
#[inline(always)]
pub(crate) fn begin(
    alloc: Global,
    tables: &Tables,
    script: &Script,
    job: Job,
) -> Result<Move, AllocError>
    requires { FitsJob (job_of script.now job) }
    ensures { IfOk result (λ m. let p : Program = program_of tables.now script.now in IsReadOver p.list script.now → LeadsTo p script.now (rule p (job_of script.now job)) m) }
{
    match job {
        Job::Statements(row) => Ok(statements::run_statements(script, row)),
        Job::Statement(place) => Ok(statements::run_statement(script, place)),
        Job::Evaluate(place) => expressions::evaluate(alloc, script, place),
        Job::Row { what, made, row } => Ok(rows::evaluate_row(script, what, made, row)),
        Job::Read { of, key } => members::read_member(alloc, script, of, key),
        Job::Set { member, value } => members::set_member(alloc, script, member, value),
        Job::Define {
            member,
            hidden,
            value,
        } => members::define_member(alloc, script, member, value, hidden),
        Job::Accessor { member, parts } => members::define_accessor(alloc, script, member, parts),
        Job::Delete { of, key } => members::delete_member(alloc, script, of, key),
        Job::Call { calling, args } => Ok(calls::call(calling, args)),
        Job::Construct { f, args } => Ok(calls::construct(f, args)),
        Job::Function(call) => answering::begins(alloc, tables, script, call),
        Job::Asked(ask) => asks::asks(alloc, ask),
        Job::Fail(code) => Ok(errors::fail(code)),
    }
}

/// A new object is added.
#[inline(always)]
fn adds(new: NewObject, then: Made) -> Move
    ensures { result ≡ Move.Acts (Due.Add new then) }
{
    Move::Acts(Due::Add { new, then })
}

/// The move after a unit.
#[inline(always)]
fn unit_paid(script: &Script, unit: Unit) -> Result<Move, AllocError>
    ensures { IfOk result (λ m. (p : Program) → move_of p script.now m ≡ after_unit script.now unit) }
{
    match unit {
        Unit::Statement(place) => Ok(statements::performs(script, place)),
        Unit::Symbol => Ok(Move::Acts(Due::TakeSymbol)),
        Unit::Object(proto) => Ok(adds(NewObject::Ordinary(proto), Made::Value)),
        Unit::Function(number) => {
            let name = script.function(number).name;
            Ok(adds(NewObject::Function(number), Made::Bound(name)))
        }
        Unit::Asked => Ok(ends()),
        Unit::New(new) => Ok(adds(NewObject::Asked(new), Made::Value)),
        Unit::Fail(code) => Ok(adds(NewObject::Error, Made::Error(code))),
    }
}

/// The object of an error's line is thrown.
#[inline(always)]
fn throws(event: Event) -> Move
    ensures { (p : Program) (s : ScriptTables) → move_of p s result ≡ throws_by event }
{
    match event {
        Event::Error { obj, code: _ } => completes(Completion::Thrown(Value::Obj(obj))),
        _ => ends(),
    }
}

/// The script ends with the value that its last line shows.
#[inline(always)]
fn ends_thrown(event: Event) -> Move
    ensures { (p : Program) (s : ScriptTables) → move_of p s result ≡ ends_by event }
{
    match event {
        Event::Uncaught(value) => completes(Completion::Thrown(value)),
        _ => ends(),
    }
}

/// The move after a line.
#[inline(always)]
fn line_written(
    alloc: Global,
    script: &Script,
    event: Event,
    then: AfterLine,
) -> Result<Move, AllocError>
    ensures { IfOk result (λ m. (p : Program) → move_of p script.now m ≡ after_line p script.now event then) }
{
    match then {
        AfterLine::Shown => Ok(ends()),
        AfterLine::Enters(body) => Ok(calls::enters(body, event)),
        AfterLine::Constructs => Ok(reaches(calls::NOT_YET)),
        AfterLine::Gets => Ok(asks::gets(event)),
        AfterLine::Keys => Ok(asks::finds_keys(event)),
        AfterLine::Own => Ok(asks::finds_own(event)),
        AfterLine::Leaves => Ok(calls::leaves(event)),
        AfterLine::Throws => Ok(throws(event)),
        AfterLine::Ends(end) => Ok(Move::Gives(Box::into_inner(end))),
        AfterLine::EndsThrown => Ok(ends_thrown(event)),
    }
}

/// The move after a charge was taken.
#[inline(always)]
pub(crate) fn charged(alloc: Global, script: &Script, charge: Charge) -> Result<Move, AllocError>
    ensures { IfOk result (λ m. (p : Program) → move_of p script.now m ≡ after_charge p script.now charge) }
{
    match charge {
        Charge::Unit(unit) => unit_paid(script, unit),
        Charge::Line { event, then } => line_written(alloc, script, event, then),
    }
}

/// A value is bound to a name.
#[inline(always)]
fn binds(name: u32, value: Value) -> Move
    ensures { result ≡ Move.Acts (Due.Bind name value Then.Ends) }
{
    Move::Acts(Due::Bind {
        name,
        value,
        then: Then::Ends,
    })
}

/// A value is shown.
#[inline(always)]
fn shows(value: Value) -> Move
    ensures { result ≡ Move.Pays (Charge.Line (Event.Show value) AfterLine.Shown) }
{
    Move::Pays(Charge::Line {
        event: Event::Show(value),
        then: AfterLine::Shown,
    })
}

/// A frame goes on with a value.
#[inline(always)]
pub(crate) fn valued(
    alloc: Global,
    script: &Script,
    frame: ValueFrame,
    value: Value,
) -> Result<Move, AllocError>
    ensures { IfOk result (λ m. (p : Program) → move_of p script.now m ≡ value_to script.now frame value) }
{
    match frame {
        ValueFrame::NextStatements(rest) => Ok(Move::Goes(Job::Statements(rest))),
        ValueFrame::Drops => Ok(ends()),
        ValueFrame::Binds(name) => Ok(binds(name, value)),
        ValueFrame::Returns => Ok(completes(Completion::Returned(value))),
        ValueFrame::Throws => Ok(completes(Completion::Thrown(value))),
        ValueFrame::Shows => Ok(shows(value)),
        ValueFrame::Compares {
            right,
            same,
            otherwise,
        } => {
            let frame = ValueFrame::Chooses {
                left: value,
                same,
                otherwise,
            };
            Ok(Move::Steps(Frame::Value(frame), Job::Evaluate(right)))
        }
        ValueFrame::Chooses {
            left,
            same,
            otherwise,
        } => Ok(statements::chooses(script, left, same, otherwise, value)),
        ValueFrame::Name { what, name } => {
            members::uses(alloc, script, what, value, KeyPart::Named(name))
        }
        ValueFrame::Key { what, key } => {
            let frame = ValueFrame::KeyOf { what, of: value };
            Ok(Move::Steps(Frame::Value(frame), Job::Evaluate(key)))
        }
        ValueFrame::KeyOf { what, of } => {
            members::uses(alloc, script, what, of, members::computed(alloc, value)?)
        }
        ValueFrame::Calls { this, args } => calls_with(alloc, value, this, args),
        ValueFrame::Sets(member) => Ok(Move::Goes(Job::Set { member, value })),
        ValueFrame::Defines { member, hidden } => Ok(Move::Goes(Job::Define {
            member,
            hidden,
            value,
        })),
        ValueFrame::Getter { member, setter } => {
            members::with_getter(alloc, script, member, setter, value)
        }
        ValueFrame::Setter { member, getter } => {
            members::defines_accessor(alloc, member, getter, Some(value))
        }
        ValueFrame::Prototype => Ok(expressions::object_of(value)),
        ValueFrame::InRow { what, made, rest } => {
            expressions::next_in_row(script, what, made, rest, value)
        }
        ValueFrame::This { this, args } => {
            let frame = ValueFrame::ThisOf { f: value, args };
            Ok(Move::Steps(Frame::Value(frame), Job::Evaluate(this)))
        }
        ValueFrame::ThisOf { f, args } => calls_with(alloc, f, value, args),
        ValueFrame::Constructs(args) => constructs_with(alloc, value, args),
    }
}

/// The arguments of a call are evaluated.
#[inline(always)]
fn calls_with(alloc: Global, f: Value, this: Value, args: Row) -> Result<Move, AllocError>
    ensures { IfOk result (λ m. (p : Program) (s : ScriptTables) → move_of p s m ≡ the_calls_with this (expressions_tree s args) f) }
{
    let calling = Box::new(alloc, Calling { f, this })?;
    Ok(Move::Goes(Job::Row {
        what: RowUse::Arguments(calling),
        made: Values::new(alloc),
        row: args,
    }))
}

/// The arguments of a construction are evaluated.
#[inline(always)]
fn constructs_with(alloc: Global, f: Value, args: Row) -> Result<Move, AllocError>
    ensures { IfOk result (λ m. (p : Program) (s : ScriptTables) → move_of p s m ≡ the_constructs_with (expressions_tree s args) f) }
{
    let f = Box::new(alloc, f)?;
    Ok(Move::Goes(Job::Row {
        what: RowUse::New(f),
        made: Values::new(alloc),
        row: args,
    }))
}

/// A frame isn't needed any more. It is dropped here alone, since a function pays for the room of all that it may drop.
pub(crate) fn let_go(_frame: ValueFrame) {}

/// A frame goes on with a value, and passes any other end on.
#[inline(always)]
fn gone_on(
    alloc: Global,
    script: &Script,
    frame: ValueFrame,
    end: JobEnd,
) -> Result<Move, AllocError>
    ensures { IfOk result (λ m. (p : Program) → move_of p script.now m ≡ goes_on_with (value_to script.now frame) (job_end_of end)) }
{
    match end {
        JobEnd::Completed(Completion::Normal(value)) => valued(alloc, script, frame, value),
        JobEnd::Completed(Completion::Returned(value)) => {
            let_go(frame);
            Ok(completes(Completion::Returned(value)))
        }
        JobEnd::Completed(Completion::Thrown(value)) => {
            let_go(frame);
            Ok(completes(Completion::Thrown(value)))
        }
        JobEnd::Talked(ending) => {
            let_go(frame);
            Ok(Move::Gives(JobEnd::Talked(ending)))
        }
        JobEnd::Seen(answer) => {
            let_go(frame);
            Ok(Move::Gives(JobEnd::Seen(answer)))
        }
    }
}

/// A thrown value is bound for its handler.
#[inline(always)]
fn caught(script: &Script, name: u32, handler: Row, end: JobEnd) -> Move
    ensures { (p : Program) → move_of p script.now result ≡ the_caught (name_at script.now name) (statements_tree script.now handler) (job_end_of end) }
{
    match end {
        JobEnd::Completed(Completion::Normal(value)) => gives(value),
        JobEnd::Completed(Completion::Returned(value)) => completes(Completion::Returned(value)),
        JobEnd::Completed(Completion::Thrown(value)) => Move::Acts(Due::Bind {
            name,
            value,
            then: Then::Handles(handler),
        }),
        JobEnd::Talked(ending) => Move::Gives(JobEnd::Talked(ending)),
        JobEnd::Seen(answer) => Move::Gives(JobEnd::Seen(answer)),
    }
}

/// A line that ends the script.
#[inline(always)]
fn ends_script(event: Event, then: AfterLine) -> Move
    ensures { result ≡ Move.Pays (Charge.Line event then) }
{
    Move::Pays(Charge::Line { event, then })
}

/// The last line of a script that ends so.
#[inline(always)]
fn done(alloc: Global, end: JobEnd) -> Result<Move, AllocError>
    ensures { IfOk result (λ m. (p : Program) (s : ScriptTables) → move_of p s m ≡ Say (Write (event_term Event.Done)) (the_ends_script (job_end_of end))) }
{
    Ok(ends_script(Event::Done, AfterLine::Ends(Box::new(alloc, end)?)))
}

/// The last line.
#[inline(always)]
fn last_line(alloc: Global, end: JobEnd) -> Result<Move, AllocError>
    ensures { IfOk result (λ m. (p : Program) (s : ScriptTables) → move_of p s m ≡ the_last_line (job_end_of end)) }
{
    match end {
        JobEnd::Completed(Completion::Normal(value)) => {
            done(alloc, JobEnd::Completed(Completion::Normal(value)))
        }
        JobEnd::Completed(Completion::Returned(value)) => {
            done(alloc, JobEnd::Completed(Completion::Returned(value)))
        }
        JobEnd::Completed(Completion::Thrown(value)) => {
            Ok(ends_script(Event::Uncaught(value), AfterLine::EndsThrown))
        }
        JobEnd::Talked(ending) => done(alloc, JobEnd::Talked(ending)),
        JobEnd::Seen(answer) => done(alloc, JobEnd::Seen(answer)),
    }
}

/// The move after the end of another job.
#[inline(always)]
pub(crate) fn returned(
    alloc: Global,
    tables: &Tables,
    script: &Script,
    frame: Frame,
    end: JobEnd,
) -> Result<Move, AllocError>
    ensures { IfOk result (λ m. let p : Program = program_of tables.now script.now in IsReadOver p.list script.now → LeadsTo p script.now (back_to p script.now frame (job_end_of end)) m) }
{
    match frame {
        Frame::Value(frame) => gone_on(alloc, script, frame, end),
        Frame::Catches { name, handler } => Ok(caught(script, name, handler, end)),
        Frame::Called => Ok(calls::called(end)),
        Frame::Talked => Ok(calls::talked(end)),
        Frame::Suspended(suspended) => answering::answered(alloc, tables, script, suspended, end),
        Frame::Last => last_line(alloc, end),
    }
}
