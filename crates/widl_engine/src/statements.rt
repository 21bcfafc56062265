//! Statements.

ghost use Rattle.std.specs.Prelude.{◌≡◌};
ghost use Rattle.widl_script_tree.specs.Tables.{statement_tree, statements_tree, steps_statement};
ghost use Rattle.widl_runs.specs.Jobs.{Program, nothing};
ghost use Rattle.widl_runs.specs.Statements.{chooses, performs, run_statement, run_statements};
ghost use Rattle.std.specs.Prelude.{IsTrue, not, slice_get};
ghost use Rattle.widl_dialog.specs.Dialog.{Say};
ghost use Rattle.widl_runs.specs.Actions.{Pay};
ghost use Rattle.widl_engine.specs.Frames.{move_of};

use crate::charges::{Charge, Unit};
use crate::expressions::member;
use crate::frames::{Frame, ValueFrame};
use crate::jobs::{Job, MemberUse};
use crate::moves::{Move, ends};
use crate::same_values::is_same;
use widl_script_tree::laws::{expressions_open, parts_are_lower, rows_open};
use widl_script_tree::{Row, Script, Statement};
use widl_value::Value;

/// The next statement of a row.
#[inline(always)]
pub(crate) fn run_statements(script: &Script, row: Row) -> Move
    ensures { (p : Program) → move_of p script.now result ≡ run_statements (statements_tree script.now row) }
{
    rows_open(script);
    if row.count == 0 {
        return ends();
    }
    Move::Steps(
        Frame::Value(ValueFrame::NextStatements(row.rest())),
        Job::Statement(row.first),
    )
}

/// Whether the statement at a place is a steps block.
#[inline(always)]
pub(crate) fn is_steps(script: &Script, place: u32) -> bool
    ensures yes { IsTrue result → run_statement (statement_tree script.now place) ≡ nothing }
    ensures no { IsTrue (not result) → run_statement (statement_tree script.now place) ≡ Say Pay (λ r. performs (statement_tree script.now place)) }
{
    match script.statement(place) {
        Statement::Steps(number) => script.steps(*number).is_some(),
        _ => false,
    }
}

/// The unit of a statement.
#[inline(always)]
pub(crate) fn run_statement(script: &Script, place: u32) -> Move
    ensures { (p : Program) → move_of p script.now result ≡ run_statement (statement_tree script.now place) }
{
    if is_steps(script, place) {
        return ends();
    }
    Move::Pays(Charge::Unit(Unit::Statement(place)))
}

/// The value of an expression is for a frame.
#[inline(always)]
pub(crate) fn evaluates(frame: ValueFrame, place: u32) -> Move
    ensures { result ≡ Move.Steps (Frame.Value frame) (Job.Evaluate place) }
{
    Move::Steps(Frame::Value(frame), Job::Evaluate(place))
}

/// A steps block does nothing.
#[inline(always)]
fn performs_steps(script: &Script, number: u32) -> Move
    ensures { (p : Program) → move_of p script.now result ≡ performs (steps_statement (slice_get script.now.blocks number)) }
{
    expressions_open(script);
    parts_are_lower(script);
    match script.steps(number) {
        Some(_) => ends(),
        None => evaluates(ValueFrame::Drops, u32::MAX),
    }
}

/// What a statement does after its unit.
#[inline(always)]
pub(crate) fn performs(script: &Script, place: u32) -> Move
    ensures { (p : Program) → move_of p script.now result ≡ performs (statement_tree script.now place) }
{
    match *script.statement(place) {
        Statement::Let { name, value } => evaluates(ValueFrame::Binds(name), value),
        Statement::Do(value) => evaluates(ValueFrame::Drops, value),
        Statement::Set { member: of, value } => member(script, MemberUse::Set(value), of),
        Statement::Define {
            member: of,
            value,
            hidden,
        } => member(script, MemberUse::Define { value, hidden }, of),
        Statement::DefineAccessor {
            member: of,
            getter,
            setter,
        } => member(script, MemberUse::Accessor { getter, setter }, of),
        Statement::Delete(of) => member(script, MemberUse::Delete, of),
        Statement::Return(value) => evaluates(ValueFrame::Returns, value),
        Statement::Throw(value) => evaluates(ValueFrame::Throws, value),
        Statement::Show(value) => evaluates(ValueFrame::Shows, value),
        Statement::Try {
            body,
            name,
            handler,
        } => Move::Steps(Frame::Catches { name, handler }, Job::Statements(body)),
        Statement::If {
            left,
            right,
            then,
            otherwise,
        } => evaluates(
            ValueFrame::Compares {
                right,
                same: then,
                otherwise,
            },
            left,
        ),
        Statement::Function(number) => Move::Pays(Charge::Unit(Unit::Function(number))),
        Statement::Steps(number) => performs_steps(script, number),
        Statement::Item(_) => unreachable!(),
    }
}

/// The statements where two values are the same, or else the others.
#[inline(always)]
pub(crate) fn chooses(script: &Script, left: Value, same: Row, otherwise: Row, right: Value) -> Move
    ensures { (p : Program) → move_of p script.now result ≡ chooses left (statements_tree script.now same) (statements_tree script.now otherwise) right }
{
    if is_same(&left, &right) {
        Move::Goes(Job::Statements(same))
    } else {
        Move::Goes(Job::Statements(otherwise))
    }
}
