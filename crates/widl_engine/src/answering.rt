//! Conversations begin, and go on with the end of the work of an ask.

ghost use Rattle.std.specs.Prelude.{◌≡◌, ◌<◌, ◌^◌, IfOk, Some, false, length};
ghost use Rattle.widl_dialog.specs.Dialog.{End, Steps};
ghost use Rattle.widl_script_tree.specs.Tables.{Tables as ScriptTables};
ghost use Rattle.widl_steps.specs.AskTerms.{answer_term, ask_term, kind_of as the_kind_of};
ghost use Rattle.widl_steps.specs.Records.{flags_in as the_flags_in, keys_in as the_keys_in};
ghost use Rattle.widl_steps.specs.CallTasks.{Function};
ghost use Rattle.widl_steps.specs.Operations.{lines_of};
ghost use Rattle.widl_convert.specs.Frames.{end_of};
ghost use Rattle.widl_calls.specs.Stack.{CallExpects, call_pending, call_rest};
ghost use Rattle.widl_runs.specs.Asks.{in_world};
ghost use Rattle.widl_runs.specs.Ends.{JobEnd as Ended, Talked, answer_by, answer_of, completion_answer as the_completion_answer, seen_in as the_seen_in, shaped_object as the_shaped_object};
ghost use Rattle.widl_runs.specs.Jobs.{Asked, Program, Talk};
ghost use Rattle.widl_runs.specs.Rules.{rule};
ghost use Rattle.widl_engine.specs.AskKinds.{ask_kind_of};
ghost use Rattle.widl_engine.specs.Frames.{LeadsTo, back_to, job_end_of, job_of, move_of, program_of};
ghost use Rattle.widl_engine.specs.Conversing.{IsNextMove, IsWaiting};
ghost use Rattle.widl_engine.specs.ReadOver.{IsReadOver};

use crate::asks::kind_of;
use crate::ends::{Completion, JobEnd};
use crate::frames::Frame;
use crate::jobs::{BuiltinCall, Job};
use crate::looks::sight_in;
use crate::moves::Move;
use crate::suspended::{AskKind, Suspended};
use std::alloc::{AllocError, Global};
use widl_calls::CallAsker;
use widl_convert::{Answer, Ask, Ending, Next};
use widl_script_tree::Script;
use widl_tables::Tables;
use widl_value::{Flags, Keys, ObjRef, Shape, Value};

/// The answer of a read or a call.
fn completion_answer(end: JobEnd) -> Answer
    ensures { answer_term result ≡ the_completion_answer (job_end_of end) }
{
    match end {
        JobEnd::Completed(Completion::Normal(value)) => Answer::Normal(value),
        JobEnd::Completed(Completion::Returned(_)) => Answer::Normal(Value::Undefined),
        JobEnd::Completed(Completion::Thrown(value)) => Answer::Thrown(value),
        JobEnd::Talked(_) => Answer::Normal(Value::Undefined),
        JobEnd::Seen(_) => Answer::Normal(Value::Undefined),
    }
}

/// What a look at an object has shown.
fn seen_in(end: JobEnd) -> Answer
    ensures { answer_term result ≡ the_seen_in (job_end_of end) }
{
    match end {
        JobEnd::Seen(answer) => answer,
        JobEnd::Completed(Completion::Normal(_)) => Answer::Begin,
        JobEnd::Completed(Completion::Returned(_)) => Answer::Begin,
        JobEnd::Completed(Completion::Thrown(_)) => Answer::Begin,
        JobEnd::Talked(_) => Answer::Begin,
    }
}

/// The keys in an answer.
fn keys_in(alloc: Global, answer: Answer) -> Keys
    ensures { result ≡ the_keys_in (answer_term answer) }
{
    match answer {
        Answer::Keys(keys) => keys,
        _ => Keys::new(alloc),
    }
}

/// The flags in an answer.
fn flags_in(answer: Answer) -> Option<Flags>
    ensures { result ≡ the_flags_in (answer_term answer) }
{
    match answer {
        Answer::Own(flags) => flags,
        _ => None,
    }
}

/// The new object in the end of its making, which has this shape.
fn shaped_object(shape: Shape, end: JobEnd) -> ObjRef
    ensures { result ≡ the_shaped_object shape (job_end_of end) }
{
    match end {
        JobEnd::Completed(Completion::Normal(Value::Obj(obj))) => ObjRef { id: obj.id, shape },
        _ => ObjRef { id: 0, shape },
    }
}

/// The answer of an ask, by its kind and the end of its work.
fn answer(alloc: Global, kind: AskKind, end: JobEnd) -> Answer
    ensures { answer_term result ≡ answer_by (ask_kind_of kind) (job_end_of end) }
{
    match kind {
        AskKind::Get | AskKind::Call => completion_answer(end),
        AskKind::Unit | AskKind::Note | AskKind::Change => Answer::Done,
        AskKind::OwnKeys => Answer::Keys(keys_in(alloc, seen_in(end))),
        AskKind::Own => Answer::Own(flags_in(seen_in(end))),
        AskKind::Look(what) => sight_in(what, seen_in(end)),
        AskKind::New(shape) => Answer::Normal(Value::Obj(shaped_object(shape, end))),
    }
}

/// The frame of a conversation that waits for the end of an ask's work.
fn suspend(asker: Box<CallAsker>, kind: AskKind) -> Frame
    requires { call_pending asker.value ≡ Some (ask_kind_of kind) }
    ensures { (p : Program) (s : ScriptTables) (e : Ended) → back_to p s result e ≡ in_world (call_rest p.list (lines_of p.list p.script) asker.value (answer_by (ask_kind_of kind) e)) }
{
    Frame::Suspended(Suspended { asker, kind })
}

/// The move of a conversation that asks this, and waits.
///
/// # Errors
///
/// `AllocError` where there is no memory.
fn waits(alloc: Global, asker: Box<CallAsker>, ask: Ask) -> Result<Move, AllocError>
    requires { call_pending asker.value ≡ Some (the_kind_of (ask_term ask)) }
    ensures { IfOk result (λ m. (p : Program) (s : ScriptTables) → move_of p s m ≡ Steps (Asked (ask_term ask)) (λ end. in_world (call_rest p.list (lines_of p.list p.script) asker.value (answer_of (ask_term ask) end)))) }
{
    let frame = suspend(asker, kind_of(&ask));
    Ok(Move::Steps(frame, Job::Asked(Box::new(alloc, ask)?)))
}

/// The move of a conversation by what comes next in it.
///
/// # Errors
///
/// `AllocError` where there is no memory.
fn goes_on(alloc: Global, asker: Box<CallAsker>, next: Next) -> Result<Move, AllocError>
    requires { IsWaiting asker.value next }
    ensures { IfOk result (λ m. (p : Program) (s : ScriptTables) → IsNextMove p s asker.value next m) }
{
    match next {
        Next::Ask(ask) => waits(alloc, asker, ask),
        Next::Done(outcome) => Ok(talked(asker, Ending::Done(outcome))),
        Next::Throw(reason) => Ok(talked(asker, Ending::Throw(reason))),
        Next::Rethrow(value) => Ok(talked(asker, Ending::Rethrow(value))),
        Next::Profile(number) => Ok(talked(asker, Ending::Profile(number))),
        Next::Memory => no_memory(asker),
    }
}

/// There is no memory for what comes next in a conversation.
fn no_memory(_asker: Box<CallAsker>) -> Result<Move, AllocError>
    ensures { IfOk result (λ m. ⊥) }
{
    Err(AllocError)
}

/// A conversation goes on with an answer.
///
/// # Errors
///
/// `AllocError` where there is no memory.
fn goes(
    alloc: Global,
    tables: &Tables,
    script: &Script,
    asker: Box<CallAsker>,
    answer: Answer,
) -> Result<Move, AllocError>
    requires { CallExpects asker.value (answer_term answer) }
    ensures { IfOk result (λ m. let p : Program = program_of tables.now script.now in IsReadOver p.list script.now → LeadsTo p script.now (in_world (call_rest p.list (lines_of p.list p.script) asker.value (answer_term answer))) m) }
{
    let mut asker = asker;
    let next = asker.resume(tables, script, answer);
    goes_on(alloc, asker, next)
}

/// The end of a conversation.
fn talked(_asker: Box<CallAsker>, ending: Ending) -> Move
    ensures { (p : Program) (s : ScriptTables) → move_of p s result ≡ End (Talked (end_of ending)) }
{
    Move::Gives(JobEnd::Talked(ending))
}

/// The move after the end of the work that a conversation on the stack waits for.
///
/// # Errors
///
/// `AllocError` where there is no memory.
pub(crate) fn answered(
    alloc: Global,
    tables: &Tables,
    script: &Script,
    suspended: Suspended,
    end: JobEnd,
) -> Result<Move, AllocError>
    ensures { IfOk result (λ m. let p : Program = program_of tables.now script.now in IsReadOver p.list script.now → LeadsTo p script.now (back_to p script.now (Frame.Suspended suspended) (job_end_of end)) m) }
{
    let Suspended { asker, kind } = suspended;
    let answer = answer(alloc, kind, end);
    goes(alloc, tables, script, asker, answer)
}

/// The first move of the conversation of a function.
///
/// # Errors
///
/// `AllocError` where there is no memory.
fn starts(
    alloc: Global,
    tables: &Tables,
    script: &Script,
    call: BuiltinCall,
) -> Result<Move, AllocError>
    requires few { length call.args < 2 ^ 32 }
    ensures { IfOk result (λ m. let p : Program = program_of tables.now script.now in IsReadOver p.list script.now → LeadsTo p script.now (rule p (Talk (Function call.f call.what call.this call.args false))) m) }
{
    let BuiltinCall {
        f,
        what,
        this,
        args,
    } = call;
    let asker = CallAsker::start(alloc, f, what, this, args, false)?;
    goes(
        alloc,
        tables,
        script,
        Box::new(alloc, asker)?,
        Answer::Begin,
    )
}

/// The first move of the conversation of a function in a box.
///
/// # Errors
///
/// `AllocError` where there is no memory.
pub(crate) fn begins(
    alloc: Global,
    tables: &Tables,
    script: &Script,
    call: Box<BuiltinCall>,
) -> Result<Move, AllocError>
    requires few { length call.value.args < 2 ^ 32 }
    ensures { IfOk result (λ m. let p : Program = program_of tables.now script.now in IsReadOver p.list script.now → LeadsTo p script.now (rule p (job_of script.now (Job.Function call))) m) }
{
    starts(alloc, tables, script, Box::into_inner(call))
}
