//! Conversations of calls.

ghost use Rattle.std.specs.Prelude.{◌≡◌, IfOk, IfSome, Some};
ghost use Rattle.widl_steps.specs.AskTerms.{BeginAnswer, answer_term, ask_term, kind_of};
ghost use Rattle.widl_calls.specs.Stack.{CallExpects, call_pending};

use crate::answers::{Answers, tell_end};
use crate::asker::callee_of;
use crate::fault::Fault;
use crate::idl::OPERATION;
use crate::values::{value_of, values_of};
use std::alloc::Global;
use widl_calls::CallAsker;
use widl_convert::{Answer, Ask, Next};
use widl_script_tree::Script;
use widl_store::Builtin;
use widl_tables::Tables;
use widl_value::{ObjRef, Shape, Value, Values};

/// The function that is called.
const FUNCTION: ObjRef = ObjRef {
    id: 19,
    shape: Shape::Callable,
};

/// The call of the operation with these arguments.
pub fn operation(alloc: Global, given: &str) -> Result<CallAsker, Fault>
    ensures { IfOk result (λ asker. CallExpects asker BeginAnswer) }
{
    let args = values_of(alloc, given)?;
    if args.len() > 4_294_967_295 {
        return Err(Fault::Line("there are too many arguments"));
    }
    let what = Builtin::Callee(OPERATION);
    Ok(CallAsker::start(alloc, FUNCTION, what, Value::Undefined, args, false)?)
}

/// The function of a number, or that of a callee.
fn function_of(text: &str) -> Result<Builtin, Fault> {
    match text.parse::<u8>() {
        Ok(number) => Ok(Builtin::Intrinsic(number)),
        Err(_) => Ok(Builtin::Callee(callee_of(text)?)),
    }
}

/// The call of a function on a value of `this`, without arguments.
pub fn function(alloc: Global, of: &str, given: &str) -> Result<CallAsker, Fault>
    ensures { IfOk result (λ asker. CallExpects asker BeginAnswer) }
{
    let what = function_of(of)?;
    let this = value_of(alloc, given)?;
    Ok(CallAsker::start(alloc, FUNCTION, what, this, Values::new(alloc), false)?)
}

/// What a call asks next after an answer, or else how it ends.
fn next_ask(
    tables: &Tables,
    script: &Script,
    asker: &mut CallAsker,
    answer: Answer,
) -> Result<Ask, Next>
    requires { CallExpects asker.old (answer_term answer) }
    ensures { IfOk result (λ ask. call_pending asker.new ≡ Some (kind_of (ask_term ask))) }
{
    match asker.resume(tables, script, answer) {
        Next::Ask(ask) => Ok(ask),
        end => Err(end),
    }
}

/// Goes on with an answer and tells what comes next. Where that is an ask, its answer comes back, if there is one.
#[tactic(auto, using(widl_calls::proofs::CallResuming::call_expects))]
fn turn(
    tables: &Tables,
    script: &Script,
    asker: &mut CallAsker,
    answer: Answer,
    answers: &mut Answers<'_>,
    told: &mut String,
) -> Result<Option<Answer>, Fault>
    requires { CallExpects asker.old (answer_term answer) }
    ensures { IfOk result (λ next. IfSome next (λ a. CallExpects asker.new (answer_term a))) }
{
    match next_ask(tables, script, asker, answer) {
        Ok(ask) => {
            let next = answers.answer(&ask, told);
            drop(ask);
            next
        }
        Err(end) => {
            let ended = tell_end(&end, told);
            drop(end);
            ended?;
            Ok(None)
        }
    }
}

/// Tells a call of which nothing has been asked. It ends or waits as a conversation does, beside whose asks it has one for
/// each line of its steps.
pub fn talk(
    tables: &Tables,
    script: &Script,
    asker: &mut CallAsker,
    answers: &mut Answers<'_>,
    told: &mut String,
) -> Result<(), Fault>
    requires { CallExpects asker.old BeginAnswer }
{
    let mut answer = Answer::Begin;
    for _round in 0..u64::MAX {
        match turn(tables, script, asker, answer, answers, told)? {
            Some(next) => answer = next,
            None => return Ok(()),
        }
    }
    drop(answer);
    Err(Fault::Line("a call doesn't end"))
}
