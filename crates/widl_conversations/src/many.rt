//! Many conversions that wait at once.

ghost use Rattle.std.specs.Prelude.{◌≡◌, Some};
ghost use Rattle.widl_steps.specs.AskTerms.{ask_term, kind_of};
ghost use Rattle.widl_convert.specs.Stack.{pending};

use crate::answers::Answers;
use crate::asker::{conversion, next_ask, talk};
use crate::fault::Fault;
use crate::rows::Row;
use crate::task::many_of;
use std::alloc::Global;
use std::mem::ManuallyDrop;
use widl_convert::{Answer, Ask, Asker};
use widl_tables::Tables;

/// A conversion that waits for the answer to its ask.
#[derive(Drop)]
struct Waiting {
    asker: Asker,
    ask: Ask,
    ghost waits: { pending asker ≡ Some (kind_of (ask_term ask)) },
}

/// The conversion of a row at its first ask.
fn wait(alloc: Global, tables: &Tables, row: &Row<'_>) -> Result<Waiting, Fault> {
    let mut asker = conversion(alloc, tables, row.given)?;
    match next_ask(tables, &mut asker, Answer::Begin) {
        Ok(ask) => Ok(Waiting { asker, ask }),
        Err(end) => {
            drop(end);
            drop(asker);
            Err(Fault::Line("a conversion that asks is wanted"))
        }
    }
}

/// Tells a conversion from an ask on.
#[tactic(auto, using(widl_convert::proofs::Resuming::expects))]
fn go_on(
    tables: &Tables,
    asker: &mut Asker,
    ask: &Ask,
    answers: &mut Answers<'_>,
    told: &mut String,
) -> Result<(), Fault>
    requires { pending asker.old ≡ Some (kind_of (ask_term ask.now)) }
{
    match answers.answer(ask, told)? {
        Some(answer) => talk(tables, asker, answer, answers, told),
        None => Ok(()),
    }
}

/// What a conversion that waits tells.
fn told_by(
    alloc: Global,
    tables: &Tables,
    waiting: Waiting,
    row: &Row<'_>,
) -> Result<String, Fault> {
    let Waiting { mut asker, ask } = waiting;
    let mut told = String::new(alloc);
    let mut answers = Answers::new(alloc, row.answers);
    let end = go_on(tables, &mut asker, &ask, &mut answers, &mut told);
    drop(ask);
    drop(asker);
    end?;
    Ok(told)
}

/// What a conversion that waits tells is what the first told, of which nothing is kept yet where it is the first.
fn tell_same(
    alloc: Global,
    tables: &Tables,
    waiting: Waiting,
    row: &Row<'_>,
    first: &mut String,
) -> Result<(), Fault> {
    let one = told_by(alloc, tables, waiting, row)?;
    if first.is_empty() {
        return Ok(first.push_str(one.as_str())?);
    }
    if first.as_str() == one.as_str() {
        Ok(())
    } else {
        Err(Fault::Line("the conversations tell different things"))
    }
}

/// Tells what each of many conversions tells that wait at once. Where one can't be told, those that still wait are left to the end
/// of the program, which a fault ends.
pub fn tell_many(
    alloc: Global,
    tables: &Tables,
    row: &Row<'_>,
    told: &mut String,
) -> Result<(), Fault> {
    let count = many_of(row.of).0.parse::<u32>()?;
    let mut all = ManuallyDrop::new(Vec::new(alloc));
    for _ in 0..count {
        all.push(wait(alloc, tables, row)?)?;
    }
    let mut first = String::new(alloc);
    for _ in 0..count {
        if let Some(waiting) = all.pop() {
            tell_same(alloc, tables, waiting, row, &mut first)?;
        }
    }
    Ok(told.push_str(first.as_str())?)
}
