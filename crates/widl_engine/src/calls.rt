//! Calls.

ghost use Rattle.std.specs.Prelude.{◌≡◌, IfOk};
ghost use Rattle.widl_value.specs.declared.object.ObjRef.{ObjRef};
ghost use Rattle.widl_script_tree.specs.Tables.{Tables};
ghost use Rattle.widl_trace.specs.EventTerms.{event_term};
ghost use Rattle.widl_convert.specs.Frames.{end_of};
ghost use Rattle.widl_runs.specs.Calls.{by_talk, call, callable, closes, construct, end_line};
ghost use Rattle.widl_runs.specs.Ends.{Returned};
ghost use Rattle.widl_runs.specs.Jobs.{CallValue, Doing, Program};
ghost use Rattle.widl_engine.specs.Calling.{talked};
ghost use Rattle.widl_engine.specs.Frames.{enters_by, job_end_of, job_of, leaves_by, move_of};
ghost use Rattle.widl_engine.specs.Tested.{if_function};

use crate::charges::{AfterLine, Charge};
use crate::due::{Body, Due};
use crate::ends::{Completion, JobEnd};
use crate::errors::fails;
use crate::frames::Frame;
use crate::jobs::{Calling, Job};
use crate::moves::{Move, ends, reaches};
use std::alloc::{AllocError, Global};
use widl_convert::{Ending, Outcome};
use widl_trace::{Code, Event};
use widl_value::{ObjRef, Shape, Value, Values};

/// The end of the profile of all that isn't there yet.
pub(crate) const NOT_YET: u8 = 99;

/// The object, where a value can be called (ECMA-262, "IsCallable").
#[inline(always)]
pub(crate) fn callable(value: &Value) -> Option<ObjRef>
    ensures { (k : ObjRef → Doing) → callable k value.now ≡ if_function k result }
{
    match value {
        Value::Obj(obj) => match obj.shape {
            Shape::Callable => Some(*obj),
            _ => None,
        },
        _ => None,
    }
}

/// The call of a value.
///
/// # Errors
///
/// `AllocError` where there is no memory.
#[inline(always)]
pub(crate) fn calls(alloc: Global, f: Value, this: Value, args: Values) -> Result<Job, AllocError>
    ensures { IfOk result (λ j. (s : Tables) → job_of s j ≡ CallValue f this args) }
{
    let calling = Box::new(alloc, Calling { f, this })?;
    Ok(Job::Call { calling, args })
}

/// A value is called.
#[inline(always)]
pub(crate) fn call(calling: Box<Calling>, args: Values) -> Move
    ensures { (p : Program) (s : Tables) → move_of p s result ≡ call p calling.value.f calling.value.this args }
{
    let Calling { f, this } = Box::into_inner(calling);
    match callable(&f) {
        None => fails(Code::NotCallable),
        Some(f) => Move::Acts(Due::FindBody { f, this, args }),
    }
}

/// A value constructs.
#[inline(always)]
pub(crate) fn construct(f: Box<Value>, args: Values) -> Move
    ensures { (p : Program) (s : Tables) → move_of p s result ≡ construct f.value args }
{
    match Box::into_inner(f) {
        Value::Obj(f) => Move::Acts(Due::FindConstructor { f, args }),
        _ => fails(Code::NoConstructor),
    }
}

/// The call of a body, after its line.
#[inline(always)]
pub(crate) fn enters(body: Body, event: Event) -> Move
    ensures { (p : Program) (s : Tables) → move_of p s result ≡ enters_by p body event }
{
    match event {
        Event::Call { f, this, args } => match body {
            Body::Script(number) => Move::Acts(Due::Enter { number, this, args }),
            Body::Builtin(function) => Move::Acts(Due::EnterBuiltin {
                f,
                function,
                this,
                args,
            }),
            Body::Nothing => reaches(NOT_YET),
        },
        _ => ends(),
    }
}

/// The event of a call's end.
#[inline(always)]
fn end_event(end: JobEnd) -> Event
    ensures { event_term result ≡ end_line (job_end_of end) }
{
    match end {
        JobEnd::Completed(Completion::Normal(_)) => Event::Ret(Value::Undefined),
        JobEnd::Completed(Completion::Returned(value)) => Event::Ret(value),
        JobEnd::Completed(Completion::Thrown(value)) => Event::Thr(value),
        JobEnd::Talked(_) => Event::Ret(Value::Undefined),
        JobEnd::Seen(_) => Event::Ret(Value::Undefined),
    }
}

/// The line of a call's end.
#[inline(always)]
pub(crate) fn called(end: JobEnd) -> Move
    ensures { (p : Program) (s : Tables) → move_of p s result ≡ closes (job_end_of end) }
{
    Move::Pays(Charge::Line {
        event: end_event(end),
        then: AfterLine::Leaves,
    })
}

/// The line of the end of a call with this value.
fn returns(value: Value) -> Move
    ensures { (p : Program) (s : Tables) → move_of p s result ≡ closes (Returned value) }
{
    called(JobEnd::Completed(Completion::Returned(value)))
}

/// What the conversation of a function has come to is what its call comes to.
fn ends_talk(ending: Ending) -> Move
    ensures { (p : Program) (s : Tables) → move_of p s result ≡ by_talk closes (end_of ending) }
{
    match ending {
        Ending::Done(Outcome::Script(value)) => returns(value),
        Ending::Done(Outcome::Idl(_)) => returns(Value::Undefined),
        Ending::Done(Outcome::Chosen { .. }) => returns(Value::Undefined),
        Ending::Throw(reason) => Move::Steps(Frame::Called, Job::Fail(reason)),
        Ending::Rethrow(value) => called(JobEnd::Completed(Completion::Thrown(value))),
        Ending::Profile(end) => reaches(end),
    }
}

/// The call of a function after the end of its conversation.
pub(crate) fn talked(end: JobEnd) -> Move
    ensures { (p : Program) (s : Tables) → move_of p s result ≡ talked (job_end_of end) }
{
    match end {
        JobEnd::Talked(ending) => ends_talk(ending),
        JobEnd::Completed(Completion::Normal(_)) => returns(Value::Undefined),
        JobEnd::Completed(Completion::Returned(_)) => returns(Value::Undefined),
        JobEnd::Completed(Completion::Thrown(_)) => returns(Value::Undefined),
        JobEnd::Seen(_) => returns(Value::Undefined),
    }
}

/// The end of a call, after its line.
#[inline(always)]
pub(crate) fn leaves(event: Event) -> Move
    ensures { (p : Program) (s : Tables) → move_of p s result ≡ leaves_by event }
{
    match event {
        Event::Ret(value) => Move::Acts(Due::Leave(Completion::Normal(value))),
        Event::Thr(value) => Move::Acts(Due::Leave(Completion::Thrown(value))),
        _ => ends(),
    }
}
