//! Each class against each kind of type: the first test that it meets.

use super::CLASSES;
use crate::shared::{
    THE_OPERATION, THREE, add_of_one, list_with, nullable, of_kind, sure, union, with_parents,
};
use std::alloc::Global;
use std::mem::ManuallyDrop;
use std::process::Abort;
use widl_idl::{Defs, IdlType, Optionality, Sigs};
use widl_tables::{Kept, Pick, pick_overload};
use widl_text::Items;
use widl_value::Class;

/// For each kind of type the first test that a value of each class meets, by its place in hexadecimal.
const FIRST_TESTS: [(&str, &str); 16] = [
    ("any", "bbbbbbbbb"),
    ("undefined", "---------"),
    ("boolean", "aa6aaaaaa"),
    ("long", "999799999"),
    ("DOMString", "888888888"),
    ("enumeration", "888888888"),
    ("interface", "------2--"),
    ("derived", "------2--"),
    ("unrelated", "---------"),
    ("function", "-------3-"),
    ("callback", "------555"),
    ("dictionary", "11----555"),
    ("object", "------235"),
    ("sequence", "------444"),
    ("record", "------555"),
    ("promise", "---------"),
];

/// What a value picks of entry 0 and another one, by the first tests of these that it meets: the entry of the
/// earlier test.
fn earlier(first: u8, second: u8, other: u32) -> Pick {
    let (test, entry) = if second == b'-' || (first != b'-' && first <= second) {
        (first, 0)
    } else {
        (second, other)
    };
    match test {
        b'-' => Pick::Refuse,
        b'4' => Pick::Probe(entry),
        _ => Pick::Entry(entry),
    }
}

/// Entry 0 and another one, of one argument each.
fn between(rt: &impl Abort, alloc: Global, other: u32) -> ManuallyDrop<Kept> {
    let mut overloads = Items::new(alloc);
    sure(rt, overloads.push(0));
    sure(rt, overloads.push(other));
    ManuallyDrop::new(Kept {
        callee: THE_OPERATION,
        overloads,
        argcount: 1,
        place: Some(0),
    })
}

/// The first test by which a class is told, but for the ends of the row.
fn test_of(class: Class, test: u8, ends: (u8, u8)) -> u8 {
    match class {
        Class::Undefined => ends.0,
        Class::Null => ends.1,
        _ => test,
    }
}

/// A list with three interfaces and an operation: its first overload takes a type, and those after it one of each kind.
fn beside_each_kind(
    rt: &impl Abort,
    alloc: Global,
    ty: IdlType,
    opt: Optionality,
) -> ManuallyDrop<Defs> {
    let mut sigs = Sigs::new(alloc);
    add_of_one(rt, alloc, &mut sigs, ty, opt);
    for (kind, _) in &FIRST_TESTS {
        let ty = of_kind(rt, alloc, kind);
        add_of_one(rt, alloc, &mut sigs, ty, Optionality::Required);
    }
    let ifaces = with_parents(rt, alloc, &THREE);
    ManuallyDrop::new(list_with(rt, alloc, ifaces, sigs))
}

/// The first tests of a type are those of a row, but for undefined and null: beside an entry of each kind each
/// class picks what meets the earlier test.
fn expect_tests(
    rt: &impl Abort,
    alloc: Global,
    (ty, opt): (IdlType, Optionality),
    row: &str,
    ends: (u8, u8),
) {
    let defs = beside_each_kind(rt, alloc, ty, opt);
    let mut number = 0u32;
    for (_, others) in &FIRST_TESTS {
        number = number.saturating_add(1);
        let kept = between(rt, alloc, number);
        let tests = row.as_bytes().iter().zip(others.as_bytes().iter());
        for (class, (test, other)) in CLASSES.iter().zip(tests) {
            let wanted = earlier(test_of(*class, *test, ends), *other, number);
            let pick = pick_overload(&defs, &kept, *class, false);
            assert!(rt; pick == wanted, "{class:?} beside {others}");
        }
    }
}

/// The type in a union in a union, 16 levels deep.
fn nested_unions(rt: &impl Abort, alloc: Global, t: IdlType) -> IdlType {
    let mut nested = t;
    for _level in 0..16 {
        nested = union(rt, alloc, IdlType::Undefined, nested);
    }
    nested
}

/// The types of a kind, as they stand, nullable and in unions.
fn expect_kind(rt: &impl Abort, alloc: Global, kind: &str, row: &str) {
    let ends = match row.as_bytes() {
        [first, second, ..] => (*first, *second),
        _ => (b'-', b'-'),
    };
    for (opt, first) in &[
        (Optionality::Variadic, ends.0),
        (Optionality::Optional, b'0'),
        (Optionality::Required, ends.0),
    ] {
        let ty = of_kind(rt, alloc, kind);
        expect_tests(rt, alloc, (ty, *opt), row, (*first, ends.1));
    }
    let with_null = nullable(rt, alloc, of_kind(rt, alloc, kind));
    expect_tests(
        rt,
        alloc,
        (with_null, Optionality::Required),
        row,
        (b'1', b'1'),
    );
    let deep = nested_unions(rt, alloc, of_kind(rt, alloc, kind));
    expect_tests(rt, alloc, (deep, Optionality::Required), row, ends);
}

fn expect_kinds(rt: &impl Abort, alloc: Global, rows: &[(&str, &str)]) {
    for (kind, row) in rows {
        expect_kind(rt, alloc, kind, row);
    }
}

#[test]
fn first_tests_of_kinds(rt: HostRuntime) {
    expect_kinds(&rt, rt.alloc(), &FIRST_TESTS);
}
