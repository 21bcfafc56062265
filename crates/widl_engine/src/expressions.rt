//! Expressions.

ghost use Rattle.std.specs.Prelude.{◌≡◌, ◌++◌, ◌∷◌, [], IfOk};
ghost use Rattle.widl_script_tree.specs.Tables.{Tables, expression_tree, expressions_tree, member_at, object_tree};
ghost use Rattle.widl_runs.specs.Expressions.{call_tree, evaluate, next_in_row, object_of};
ghost use Rattle.widl_runs.specs.Jobs.{Program};
ghost use Rattle.widl_runs.specs.Members.{member as the_member};
ghost use Rattle.widl_engine.specs.Frames.{member_use_of, move_of, row_use_of};

use crate::charges::{Charge, Unit};
use crate::due::Due;
use crate::errors::fails;
use crate::frames::{Frame, ValueFrame};
use crate::jobs::{Job, MemberUse, RowUse};
use crate::moves::{Move, gives};
use crate::new_objects::OBJECT_PROTOTYPE;
use std::alloc::{AllocError, Global};
use widl_script_tree::{Expression, MemberKey, MemberOf, Row, Script};
use widl_trace::Code;
use widl_value::{Value, Values};

/// A member is evaluated.
#[inline(always)]
pub(crate) fn member(script: &Script, what: MemberUse, member: MemberOf) -> Move
    ensures { (p : Program) → move_of p script.now result ≡ the_member (member_use_of script.now what) (member_at script.now member) }
{
    let frame = match member.key {
        MemberKey::Named(name) => ValueFrame::Name { what, name },
        MemberKey::Computed(key) => ValueFrame::Key { what, key },
    };
    Move::Steps(Frame::Value(frame), Job::Evaluate(member.of))
}

/// A call is evaluated: of a member, or of any other value.
#[inline(always)]
fn call(script: &Script, callee: u32, args: Row) -> Move
    ensures { (p : Program) → move_of p script.now result ≡ call_tree (expression_tree script.now callee) (expressions_tree script.now args) }
{
    match script.expression(callee) {
        Expression::Member(of) => member(script, MemberUse::Call(args), *of),
        _ => {
            let frame = ValueFrame::Calls {
                this: Value::Undefined,
                args,
            };
            Move::Steps(Frame::Value(frame), Job::Evaluate(callee))
        }
    }
}

/// A new object is evaluated.
#[inline(always)]
fn new_object(script: &Script, proto: Option<u32>) -> Move
    ensures { (p : Program) → move_of p script.now result ≡ evaluate (object_tree (expression_tree script.now) proto) }
{
    match proto {
        None => Move::Pays(Charge::Unit(Unit::Object(Some(OBJECT_PROTOTYPE)))),
        Some(place) => Move::Steps(Frame::Value(ValueFrame::Prototype), Job::Evaluate(place)),
    }
}

/// The first move of an expression.
#[inline(always)]
pub(crate) fn evaluate(alloc: Global, script: &Script, place: u32) -> Result<Move, AllocError>
    ensures { IfOk result (λ m. (p : Program) → move_of p script.now m ≡ evaluate (expression_tree script.now place)) }
{
    match script.expression(place) {
        Expression::Undefined => Ok(gives(Value::Undefined)),
        Expression::Null => Ok(gives(Value::Null)),
        Expression::Bool(b) => Ok(gives(Value::Bool(*b))),
        Expression::Number(number) => Ok(gives(Value::Num(*number))),
        Expression::Text(text) => Ok(gives(Value::Str(text.copy()?))),
        Expression::Symbol(id) => Ok(gives(Value::Sym(*id))),
        Expression::Name(name) => Ok(Move::Acts(Due::ReadName(*name))),
        Expression::This => Ok(Move::Acts(Due::ReadThis)),
        Expression::NewSymbol => Ok(Move::Pays(Charge::Unit(Unit::Symbol))),
        Expression::NewObject { proto } => Ok(new_object(script, *proto)),
        Expression::NewArray(row) => Ok(Move::Goes(Job::Row {
            what: RowUse::Items,
            made: Values::new(alloc),
            row: *row,
        })),
        Expression::Member(of) => Ok(member(script, MemberUse::Read, *of)),
        Expression::Call { callee, args } => Ok(call(script, *callee, *args)),
        Expression::CallWith { callee, this, args } => Ok(Move::Steps(
            Frame::Value(ValueFrame::This {
                this: *this,
                args: *args,
            }),
            Job::Evaluate(*callee),
        )),
        Expression::New { callee, args } => Ok(Move::Steps(
            Frame::Value(ValueFrame::Constructs(*args)),
            Job::Evaluate(*callee),
        )),
        Expression::Item(_) => unreachable!(),
    }
}

/// A new object with a value as its prototype.
#[inline(always)]
pub(crate) fn object_of(value: Value) -> Move
    ensures { (p : Program) (s : Tables) → move_of p s result ≡ object_of value }
{
    match value {
        Value::Null => Move::Pays(Charge::Unit(Unit::Object(None))),
        Value::Obj(proto) => Move::Pays(Charge::Unit(Unit::Object(Some(proto)))),
        _ => fails(Code::NotObject),
    }
}

/// A row has one value more.
#[inline(always)]
pub(crate) fn next_in_row(
    script: &Script,
    what: RowUse,
    made: Values,
    rest: Row,
    value: Value,
) -> Result<Move, AllocError>
    ensures { IfOk result (λ m. (p : Program) → move_of p script.now m ≡ next_in_row (row_use_of what) made (expressions_tree script.now rest) value) }
{
    let mut made = made;
    made.push(value)?;
    Ok(Move::Goes(Job::Row {
        what,
        made,
        row: rest,
    }))
}
