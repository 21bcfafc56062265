//! Conversations of conversions, resolutions and results.

ghost use Rattle.std.specs.Prelude.{◌≡◌, IfOk, IfSome, Some};
ghost use Rattle.widl_steps.specs.AskTerms.{BeginAnswer, answer_term, ask_term, kind_of};
ghost use Rattle.widl_convert.specs.Stack.{Expects, pending};

use crate::answers::{Answers, tell_end};
use crate::fault::Fault;
use crate::idl::first_type;
use crate::literals::idl_value_of;
use crate::values::{value_of, values_of};
use std::alloc::Global;
use widl_convert::{Answer, Ask, Asker, Next, Want};
use widl_idl::{Callee, IdlType, Owner, Part};
use widl_tables::Tables;

/// The conversion of a value to a type.
fn conversion_to(alloc: Global, ty: &IdlType, given: &str) -> Result<Asker, Fault>
    ensures { IfOk result (λ asker. Expects asker BeginAnswer) }
{
    Ok(Asker::start_convert(alloc, ty, value_of(alloc, given)?)?)
}

/// The conversion of a value to the type of the first argument.
pub fn conversion(alloc: Global, tables: &Tables, given: &str) -> Result<Asker, Fault>
    ensures { IfOk result (λ asker. Expects asker BeginAnswer) }
{
    let ty = first_type(alloc, tables)?;
    let asker = conversion_to(alloc, &ty, given);
    drop(ty);
    asker
}

/// The conversion of an IDL value of a type to a value of the script.
fn result_of_type(alloc: Global, ty: &IdlType, given: &str) -> Result<Asker, Fault>
    ensures { IfOk result (λ asker. Expects asker BeginAnswer) }
{
    Ok(Asker::start_out(alloc, ty, idl_value_of(alloc, given)?)?)
}

/// The conversion of an IDL value of the type of the first argument to a value of the script.
pub fn result_of(alloc: Global, tables: &Tables, given: &str) -> Result<Asker, Fault>
    ensures { IfOk result (λ asker. Expects asker BeginAnswer) }
{
    let ty = first_type(alloc, tables)?;
    let asker = result_of_type(alloc, &ty, given);
    drop(ty);
    asker
}

/// What a value is converted to without a type.
fn want_of(text: &str) -> Result<Want, Fault> {
    match text {
        "Number" => Ok(Want::Number),
        "String" => Ok(Want::Text),
        "length" => Ok(Want::Length),
        _ => Err(Fault::Line("a Number, a String or a length is wanted")),
    }
}

/// The conversion of a value to a Number, a String or a length.
pub fn scalar(alloc: Global, of: &str, given: &str) -> Result<Asker, Fault>
    ensures { IfOk result (λ asker. Expects asker BeginAnswer) }
{
    let want = want_of(of)?;
    let value = value_of(alloc, given)?;
    Ok(Asker::start_scalar(alloc, want, value)?)
}

/// The choice of an overload of a callee for these arguments.
pub fn resolution(alloc: Global, callee: Callee, given: &str) -> Result<Asker, Fault>
    ensures { IfOk result (λ asker. Expects asker BeginAnswer) }
{
    let args = values_of(alloc, given)?;
    if args.len() > 4_294_967_295 {
        return Err(Fault::Line("there are too many arguments"));
    }
    Ok(Asker::start_resolve(alloc, callee, args)?)
}

/// The part of an owner that is called: `constructor`, `stringifier`, or `operation`, `getter` or `setter` and a number.
fn part_of(text: &str) -> Result<Part, Fault> {
    let (kind, number) = text.split_once(' ').unwrap_or((text, "0"));
    let number = number.parse::<u32>()?;
    match kind {
        "operation" => Ok(Part::Op(number)),
        "constructor" => Ok(Part::Constructor),
        "getter" => Ok(Part::Get(number)),
        "setter" => Ok(Part::Set(number)),
        "stringifier" => Ok(Part::Text),
        _ => Err(Fault::Line("a part of an owner is wanted")),
    }
}

/// The owner of a kind and a number.
fn owner_of(kind: &str, number: u32) -> Result<Owner, Fault> {
    match kind {
        "namespace" => Ok(Owner::Space(number)),
        "interface" => Ok(Owner::Iface(number)),
        _ => Err(Fault::Line("an owner is wanted")),
    }
}

/// A callee: `namespace` or `interface`, its number, and its part.
pub fn callee_of(text: &str) -> Result<Callee, Fault> {
    let mut words = text.splitn(3, ' ');
    let (Some(kind), Some(number), Some(part)) = (words.next(), words.next(), words.next()) else {
        return Err(Fault::Line("a callee is wanted"));
    };
    Ok(Callee {
        owner: owner_of(kind, number.parse::<u32>()?)?,
        part: part_of(part)?,
    })
}

/// What a conversation asks next after an answer, or else how it ends.
pub fn next_ask(tables: &Tables, asker: &mut Asker, answer: Answer) -> Result<Ask, Next>
    requires { Expects asker.old (answer_term answer) }
    ensures { IfOk result (λ ask. pending asker.new ≡ Some (kind_of (ask_term ask))) }
{
    match asker.resume(tables, answer) {
        Next::Ask(ask) => Ok(ask),
        end => Err(end),
    }
}

/// Goes on with an answer and tells what comes next. Where that is an ask, its answer comes back, if there is one.
#[tactic(auto, using(widl_convert::proofs::Resuming::expects))]
fn turn(
    tables: &Tables,
    asker: &mut Asker,
    answer: Answer,
    answers: &mut Answers<'_>,
    told: &mut String,
) -> Result<Option<Answer>, Fault>
    requires { Expects asker.old (answer_term answer) }
    ensures { IfOk result (λ next. IfSome next (λ a. Expects asker.new (answer_term a))) }
{
    match next_ask(tables, asker, answer) {
        Ok(ask) => {
            let next = answers.answer(&ask, told);
            drop(ask);
            next
        }
        Err(end) => {
            let ended = tell_end(&end, told);
            drop(end);
            ended?;
            Ok(None)
        }
    }
}

/// Tells a conversation that expects an answer, from this one on.
///
/// An ask takes one of the row's answers, or comes of a value or a list that the row has: so the conversation ends, or
/// waits, long before the last of these turns.
pub fn talk(
    tables: &Tables,
    asker: &mut Asker,
    first: Answer,
    answers: &mut Answers<'_>,
    told: &mut String,
) -> Result<(), Fault>
    requires { Expects asker.old (answer_term first) }
{
    let mut answer = first;
    for _round in 0..u64::MAX {
        match turn(tables, asker, answer, answers, told)? {
            Some(next) => answer = next,
            None => return Ok(()),
        }
    }
    drop(answer);
    Err(Fault::Line("a conversation doesn't end"))
}
