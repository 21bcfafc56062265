//! What is done at once. A name or a literal has its value without a frame on the others; and of a statement
//! that binds a literal it is known beforehand what a machine does from its unit up to the next one.

ghost use Rattle.std.specs.Prelude.{◌≡◌, ◌<◌, IfOk, IfSome, IsTrue, OnOk};
ghost use Rattle.widl_dialog.specs.Dialog.{End};
ghost use Rattle.widl_runs.specs.Ends.{Normal};
ghost use Rattle.widl_value.specs.declared.value.Value.TheVariants.{Undefined};
ghost use Rattle.widl_script_tree.specs.Tables.{Tables as ScriptTables, expression_tree};
ghost use Rattle.widl_store.specs.Objects.{StoreState};
ghost use Rattle.widl_runs.specs.Expressions.{evaluate};
ghost use Rattle.widl_runs.specs.Jobs.{Program};
ghost use Rattle.widl_engine.specs.AtOnce.{BeginWithUnit, BindsLiteral, GoesOnWith, HasValue, binding};
ghost use Rattle.widl_engine.specs.Frames.{program_of};
ghost use Rattle.widl_engine.specs.Machine.{Continues, Leads, MachineFits, Turns, moves_on, still};
ghost use Rattle.widl_engine.specs.ReadOver.{IsReadOver};

use crate::advance::{falls_due, pop, push};
use crate::charges::{Charge, Unit};
use crate::contexts::Place;
use crate::ends::{Completion, JobEnd};
use crate::frames::{Frame, ValueFrame};
use crate::globals::{bind, read};
use crate::jobs::Job;
use crate::machine::{Machine, Turn, more, script_ends};
use crate::moves::{Move, let_go, valued};
use crate::statements::{is_steps, run_statements};
use std::alloc::{AllocError, Global};
use widl_script_tree::laws::rows_open;
use widl_script_tree::{Expression, Row, Script, Statement};
use widl_store::Store;
use widl_tables::Tables;
use widl_value::Value;

/// A literal that a statement binds to a name.
#[derive(Drop)]
pub struct Binding {
    /// The name's number.
    pub name: u32,
    /// The place of the literal.
    pub place: u32,
    /// Its value.
    pub value: Value,
}

/// The value of a literal but a text.
fn literal(script: &Script, place: u32) -> Option<Value>
    ensures { IfSome result (λ v. evaluate (expression_tree script.now place) ≡ End (Normal v)) }
{
    match script.expression(place) {
        Expression::Undefined => Some(Value::Undefined),
        Expression::Null => Some(Value::Null),
        Expression::Bool(b) => Some(Value::Bool(*b)),
        Expression::Number(number) => Some(Value::Num(*number)),
        Expression::Symbol(id) => Some(Value::Sym(*id)),
        _ => None,
    }
}

/// The value of an expression that is a name, or a literal but a text.
pub(crate) fn value_at(
    script: &Script,
    store: &Store,
    place: &Place,
    expression: u32,
) -> Result<Option<Value>, AllocError>
    ensures { IfOk result (λ o. IfSome o (λ v. (p : Program) → IsReadOver p.list script.now → HasValue p script.now store.now place.now expression v)) }
{
    match script.expression(expression) {
        Expression::Name(name) => Ok(Some(read(script, store, place, *name)?)),
        _ => Ok(literal(script, expression)),
    }
}

/// The literal that a statement binds.
pub(crate) fn bound_at(script: &Script, place: u32) -> Option<Binding>
    ensures { IfSome result (BindsLiteral script.now (Charge.Unit (Unit.Statement place))) }
{
    match *script.statement(place) {
        Statement::Let { name, value } => {
            let place = value;
            let value = literal(script, place)?;
            Some(Binding { name, place, value })
        }
        _ => None,
    }
}

/// Whether there are statements, of which the first takes a unit.
fn begin_with_unit(script: &Script, row: Row) -> bool
    ensures { IsTrue result → BeginWithUnit script.now row }
{
    rows_open(script);
    row.count > 0 && !is_steps(script, row.first)
}

/// The statements that a frame goes on with, of which the first takes a unit.
fn next_row(script: &Script, frame: &Frame) -> Option<Row>
    ensures { IfSome result (GoesOnWith script.now frame.now) }
{
    match frame {
        Frame::Value(ValueFrame::NextStatements(row)) => {
            if begin_with_unit(script, *row) {
                return Some(*row);
            }
            None
        }
        _ => None,
    }
}

impl Machine {
    /// The turn of an expression whose end is for a frame. Where its value is there at once, the frame isn't put on
    /// the others.
    #[inline(never)]
    pub(crate) fn evaluates(
        &mut self,
        alloc: Global,
        tables: &Tables,
        script: &Script,
        store: &Store,
        frame: Frame,
        place: u32,
    ) -> Turn
        requires read { let p : Program = program_of tables.now script.now in IsReadOver p.list script.now }
        requires fits { let p : Program = program_of tables.now script.now in MachineFits p script.now store.now (moves_on p script.now (Move.Steps frame (Job.Evaluate place)) self.old) self.old }
        ensures { Turns (program_of tables.now script.now) script.now store.now (Move.Steps frame (Job.Evaluate place)) self.old store.now self.new result }
    {
        match frame {
            Frame::Value(frame) => match value_at(script, store, &self.place, place) {
                Ok(Some(value)) => match valued(alloc, script, frame, value) {
                    Ok(next) => self.ends_or_goes_on(alloc, tables, script, store, next),
                    Err(_) => Turn::Memory,
                },
                Ok(None) => {
                    let frame = Frame::Value(frame);
                    self.evaluates_parts(alloc, tables, script, store, frame, place)
                }
                Err(_) => {
                    let_go(frame);
                    Turn::Memory
                }
            },
            frame => self.steps(alloc, tables, script, frame, Job::Evaluate(place)),
        }
    }

    /// The unit of the first of these statements is due.
    fn first_is_due(&mut self, row: Row) -> Result<(), AllocError>
        requires { 0 < row.count }
        ensures { OnOk result ((p : Program) (s : ScriptTables) (t : StoreState) → BeginWithUnit s row → Leads p s t (moves_on p s (Move.Goes (Job.Statements row)) self.old) self.old t (still p s self.new) self.new) }
    {
        let rest = Frame::Value(ValueFrame::NextStatements(row.rest()));
        push(&mut self.frames, rest)?;
        falls_due(&mut self.due, Charge::Unit(Unit::Statement(row.first)));
        Ok(())
    }

    /// The turn of statements whose end is for the frame below.
    pub(crate) fn statements(&mut self, script: &Script, row: Row) -> Turn
        ensures { (p : Program) (t : StoreState) → Turns p script.now t (Move.Goes (Job.Statements row)) self.old t self.new result }
    {
        if !begin_with_unit(script, row) {
            return more(*self.frames.allocator(), run_statements(script, row));
        }
        match self.first_is_due(row) {
            Ok(()) => Turn::Rests,
            Err(_) => Turn::Memory,
        }
    }

    /// The unit of the first of these statements, whose end is for a frame, is due.
    fn first_is_due_under(&mut self, frame: Frame, row: Row) -> Result<(), AllocError>
        requires { 0 < row.count }
        ensures { OnOk result ((p : Program) (s : ScriptTables) (t : StoreState) → BeginWithUnit s row → Leads p s t (moves_on p s (Move.Steps frame (Job.Statements row)) self.old) self.old t (still p s self.new) self.new) }
    {
        push(&mut self.frames, frame)?;
        self.first_is_due(row)?;
        Ok(())
    }

    /// The turn of statements whose end is for a frame.
    pub(crate) fn statements_under(
        &mut self,
        alloc: Global,
        tables: &Tables,
        script: &Script,
        frame: Frame,
        row: Row,
    ) -> Turn
        requires read { let p : Program = program_of tables.now script.now in IsReadOver p.list script.now }
        ensures { (t : StoreState) → Turns (program_of tables.now script.now) script.now t (Move.Steps frame (Job.Statements row)) self.old t self.new result }
    {
        if !begin_with_unit(script, row) {
            return self.steps(alloc, tables, script, frame, Job::Statements(row));
        }
        match self.first_is_due_under(frame, row) {
            Ok(()) => Turn::Rests,
            Err(_) => Turn::Memory,
        }
    }

    /// The turn of the end of a statement.
    fn finish_statement(&mut self, script: &Script) -> Turn
        ensures { (p : Program) (t : StoreState) → Continues p script.now t (Move.Gives (JobEnd.Completed (Completion.Normal Undefined))) self.old t self.new result }
    {
        let end = JobEnd::Completed(Completion::Normal(Value::Undefined));
        match pop(&mut self.frames) {
            None => script_ends(*self.frames.allocator(), end),
            Some(frame) => match next_row(script, &frame) {
                Some(row) => match self.first_is_due(row) {
                    Ok(()) => Turn::Rests,
                    Err(_) => Turn::Memory,
                },
                None => match push(&mut self.frames, frame) {
                    Ok(()) => more(*self.frames.allocator(), Move::Gives(end)),
                    Err(_) => Turn::Memory,
                },
            },
        }
    }

    /// The turn of a statement that binds a literal.
    pub(crate) fn bind_literal(&mut self, script: &Script, literal: Binding) -> Turn
        requires { evaluate (expression_tree script.now literal.place) ≡ End (Normal literal.value) }
        ensures { (p : Program) (t : StoreState) → Continues p script.now t (binding literal) self.old t self.new result }
    {
        match bind(script, &mut self.place, literal.name, literal.value) {
            Ok(()) => self.finish_statement(script),
            Err(_) => Turn::Memory,
        }
    }
}
