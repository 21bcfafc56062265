//! Large lists, whose choices are of one call's cost.

use super::kept_for;
use crate::shared::accepted_sets::accepted;
use crate::shared::{expect, list_of, many_interfaces, sixty_four_overloads, sure, units};
use std::alloc::Global;
use std::fmt::Write;
use std::mem::ManuallyDrop;
use std::process::Abort;
use widl_idl::{Defs, IdlType, IdlTypes, Optionality, Spaces};
use widl_tables::{Pick, Tables, compile, pick_member, pick_overload};
use widl_value::Class;

/// So many arguments keep so many overloads, which differ at this place, and a class picks this one.
type Kept = (u32, (usize, Option<u32>), Class, Pick);

/// What the 64 overloads of 64 arguments keep, where all are required or optional.
fn expect_kept(rt: &impl Abort, alloc: Global, opt: Optionality, rows: &[Kept]) {
    let defs = sixty_four_overloads(rt, alloc, opt);
    for (args, (count, place), class, wanted) in rows {
        let kept = kept_for(rt, alloc, &defs, *args);
        let differ_there = kept.overloads.len() == *count && kept.place == *place;
        assert!(rt; differ_there, "{args} arguments");
        let pick = pick_overload(&defs, &kept, *class, false);
        assert!(rt; pick == *wanted, "{args} arguments, {class:?}");
    }
}

const REQUIRED: [Kept; 3] = [
    (64, (64, Some(63)), Class::Platform(63), Pick::Entry(63)),
    (64, (64, Some(63)), Class::Plain, Pick::Refuse),
    (63, (0, None), Class::Plain, Pick::Refuse),
];

// No place tells the first three apart, as in no valid list: past the end of the entries each takes any value.
const OPTIONAL: [Kept; 5] = [
    (0, (64, Some(0)), Class::Sym, Pick::Entry(0)),
    (1, (64, Some(1)), Class::Sym, Pick::Entry(0)),
    (63, (64, Some(63)), Class::Sym, Pick::Entry(0)),
    (64, (64, Some(63)), Class::Undefined, Pick::Entry(0)),
    (64, (64, Some(63)), Class::Sym, Pick::Refuse),
];

/// A list with so many interfaces.
fn interfaces_alone(
    rt: &impl Abort,
    alloc: Global,
    count: u32,
    chained: bool,
) -> ManuallyDrop<Defs> {
    let ifaces = many_interfaces(rt, alloc, count, chained);
    ManuallyDrop::new(list_of(alloc, ifaces, Spaces::new(alloc)))
}

/// A class picks this member of a union.
fn expect_member(rt: &impl Abort, defs: &Defs, members: &IdlTypes, class: Class, wanted: Pick) {
    let pick = pick_member(defs, members, class, false);
    assert!(rt; pick == wanted, "{class:?}");
}

/// A union of so many interfaces, of which none inherits from another.
fn expect_large_union(rt: &impl Abort, alloc: Global, count: u32) {
    let defs = interfaces_alone(rt, alloc, count, false);
    let mut members = ManuallyDrop::new(IdlTypes::new(alloc));
    for number in 0..count {
        sure(rt, members.push(IdlType::Interface(number)));
    }
    let last = count.saturating_sub(1);
    expect_member(
        rt,
        &defs,
        &members,
        Class::Platform(last),
        Pick::Entry(last),
    );
    expect_member(rt, &defs, &members, Class::Platform(count), Pick::Refuse);
    expect_member(rt, &defs, &members, Class::Str, Pick::Refuse);
}

/// A union of the ends of a chain of interfaces.
fn expect_chain(rt: &impl Abort, alloc: Global) {
    let defs = interfaces_alone(rt, alloc, 60_000, true);
    let mut members = ManuallyDrop::new(IdlTypes::new(alloc));
    sure(rt, members.push(IdlType::Interface(59_999)));
    sure(rt, members.push(IdlType::Interface(0)));
    expect_member(rt, &defs, &members, Class::Platform(59_998), Pick::Entry(1));
}

/// The tables over `enum E { "auto", "", "autos", "none" }; enum F { "value0", "value1", .. };`.
fn two_enumerations(rt: &impl Abort, alloc: Global, count: u32) -> ManuallyDrop<Tables> {
    let few = "enum E { \"auto\", \"\", \"autos\", \"none\" }; enum F { ";
    let mut file = sure(rt, String::from_str(alloc, few));
    for number in 0..count {
        sure(rt, write!(file, "\"value{number}\", "));
    }
    sure(rt, file.push_str("};"));
    let set = accepted(rt, alloc, &[&file]);
    ManuallyDrop::new(sure(rt, compile(alloc, set)))
}

/// Enumerations, texts, and the places of the values that they are.
const PLACES: [(u32, &str, Option<u32>); 7] = [
    (0, "auto", Some(0)),
    (0, "", Some(1)),
    (0, "none", Some(3)),
    (0, "aut", None),
    (1, "value49999", Some(49_999)),
    (1, "value50000", None),
    (2, "auto", None),
];

fn expect_values(rt: &impl Abort, alloc: Global, rows: &[(u32, &str, Option<u32>)]) {
    let tables = two_enumerations(rt, alloc, 50_000);
    for (choice, text, want) in rows {
        let found = tables.enum_at(*choice, &units(rt, alloc, text));
        expect(rt, found == *want, text);
    }
}

#[test]
fn large_lists_have_their_choices(rt: HostRuntime) {
    let alloc = rt.alloc();
    expect_kept(&rt, alloc, Optionality::Required, &REQUIRED);
    expect_kept(&rt, alloc, Optionality::Optional, &OPTIONAL);
    expect_large_union(&rt, alloc, 1_000);
    expect_large_union(&rt, alloc, 100_000);
    expect_chain(&rt, alloc);
    expect_values(&rt, alloc, &PLACES);
}
