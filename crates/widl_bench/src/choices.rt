//! The word `choice`: overloads, members of a union and values of an enumeration are chosen, again and again. The
//! overloads are those of the first operation, the union is the type of its first argument, and the enumeration is
//! the first one.

use crate::first::{FIRST, first_type};
use crate::numbers::number_of;
use crate::sets::tables_of;
use anyhow::{Result, bail};
use std::alloc::Global;
use widl_idl::{Callee, Defs, IdlType, IdlTypes};
use widl_overload::Accepted;
use widl_tables::{Kept, Pick, Tables, kept, pick_member, pick_overload};
use widl_text::Units;
use widl_value::Class;

/// The classes that are chosen by, one after another.
const CLASSES: [Class; 8] = [
    Class::Undefined,
    Class::Null,
    Class::Bool,
    Class::Num,
    Class::Str,
    Class::Sym,
    Class::Callable,
    Class::Plain,
];

/// The class of a turn. Turns depend on what came before, so that no choice is made once for all rounds.
fn class_of(turn: usize) -> Class {
    CLASSES[turn % 8]
}

/// What a number of arguments keeps of a callee's overloads.
fn kept_of(alloc: Global, list: &Accepted, callee: &Callee, args: u32) -> Result<Kept> {
    Ok(kept(alloc, list.defs(), callee, args)?)
}

/// How many overloads are kept.
fn kept_count(alloc: Global, list: &Accepted, args: u32) -> Result<usize> {
    let kept = kept_of(alloc, list, &FIRST, args)?;
    Ok(kept.overloads.len())
}

/// How many overloads are kept in all rounds together.
fn keep(alloc: Global, list: &Accepted, args: u32, rounds: usize) -> Result<usize> {
    let mut all = 0usize;
    for _ in 0..rounds {
        let count = kept_count(alloc, list, args)?;
        all = all.saturating_add(count);
    }
    Ok(all)
}

/// How many picks among what is kept are refused, in all rounds.
fn refused_of(defs: &Defs, kept: &Kept, rounds: usize) -> usize {
    let mut refused = 0usize;
    for round in 0..rounds {
        let class = class_of(round.saturating_add(refused));
        if pick_overload(defs, kept, class, false) == Pick::Refuse {
            refused = refused.saturating_add(1);
        }
    }
    refused
}

/// How many picks of an overload are refused, in all rounds.
fn pick(alloc: Global, list: &Accepted, args: u32, rounds: usize) -> Result<usize> {
    let kept = kept_of(alloc, list, &FIRST, args)?;
    Ok(refused_of(list.defs(), &kept, rounds))
}

/// The union that is the type of the first argument.
fn first_union(defs: &Defs) -> Result<&IdlTypes> {
    match first_type(defs, &FIRST)? {
        IdlType::Union(members) => Ok(members),
        _ => bail!("a union is wanted"),
    }
}

/// How many picks of a member are refused, in all rounds.
fn pick_members(defs: &Defs, rounds: usize) -> Result<usize> {
    let members = first_union(defs)?;
    let mut refused = 0usize;
    for round in 0..rounds {
        let class = class_of(round.saturating_add(refused));
        if pick_member(defs, members, class, false) == Pick::Refuse {
            refused = refused.saturating_add(1);
        }
    }
    Ok(refused)
}

/// How many times one of two texts isn't found among the values, each looked for in its turn.
fn missed(tables: &Tables, one: &Units, other: &Units, rounds: usize) -> usize {
    let mut missed = 0usize;
    for round in 0..rounds {
        let text = if round.saturating_add(missed) % 2 == 0 {
            one
        } else {
            other
        };
        if tables.enum_at(0, text).is_none() {
            missed = missed.saturating_add(1);
        }
    }
    missed
}

/// The same of the last two values of the first enumeration.
fn find_values(tables: &Tables, rounds: usize) -> Result<usize> {
    let [first, ..] = tables.list().defs().choices.as_slice() else {
        bail!("an enumeration is wanted");
    };
    let [.., one, other] = first.values.as_slice() else {
        bail!("an enumeration of two values or more is wanted");
    };
    Ok(missed(tables, one, other, rounds))
}

/// How many overloads were kept, or how many choices had no result.
fn counted(alloc: Global, tables: &Tables, what: &str, args: u32, rounds: usize) -> Result<usize> {
    match what {
        "kept" => keep(alloc, tables.list(), args, rounds),
        "pick" => pick(alloc, tables.list(), args, rounds),
        "member" => pick_members(tables.list().defs(), rounds),
        "value" => find_values(tables, rounds),
        _ => bail!("kept, pick, member or value is wanted"),
    }
}

/// Does what the first argument says over the set of the files of the others, as often as the numbers before them
/// say, and prints how many overloads were kept, or how many choices had no result: `kept ARGUMENTS ROUNDS`,
/// `pick ARGUMENTS ROUNDS`, `member 0 ROUNDS` or `value 0 ROUNDS`.
pub fn run(rt: &HostRuntime, args: &[String]) -> Result<()> {
    let [what, count, rounds, names @ ..] = args else {
        bail!("kept, pick, member or value, two numbers and names of files are wanted");
    };
    let rounds = number_of(rounds.as_str())?;
    let Ok(count) = u32::try_from(number_of(count.as_str())?) else {
        bail!("these are too many arguments");
    };
    let tables = tables_of(rt, names)?;
    let counted = counted(rt.alloc(), &tables, what.as_str(), count, rounds)?;
    println!(rt; "{counted} counted")?;
    Ok(())
}
