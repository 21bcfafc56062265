//! Each call once, with ample memory.

ghost use Rattle.widl_idl.specs.Flattened.{IsUnion};
ghost use Rattle.widl_idl.specs.Terms.{type_term};

use crate::shared::{boxed, expect, long, nullable, sure, text, union};
use std::alloc::Global;
use std::mem::ManuallyDrop;
use std::process::Abort;
use widl_idl::{
    Defs, Fragments, IdlType, IdlTypes, IntKind, Merged, Mode, Optionality, Refusal, TextKind,
    Violation, earlier_violation, flattened, includes_nullable, joined, nullable_count, same_type,
};
use widl_text::{Items, Place};

fn clamped() -> IdlType {
    IdlType::Int(IntKind::Long, Mode::Clamp)
}

/// Two types are the same or not.
fn expect_same(rt: &impl Abort, a: &IdlType, b: IdlType, same: bool, what: &str) {
    let b = ManuallyDrop::new(b);
    expect(rt, same_type(a, &b) == same, what);
}

/// A union has so many nullable types, includes one or not, and has these flattened members.
fn expect_union(
    rt: &impl Abort,
    alloc: Global,
    t: IdlType,
    nullable: (u32, bool),
    members: IdlType,
    what: &str,
)
    requires { IsUnion (type_term t) }
{
    let t = ManuallyDrop::new(t);
    expect(rt, nullable_count(&t) == nullable.0, what);
    expect(rt, includes_nullable(&t) == nullable.1, what);
    let found = ManuallyDrop::new(IdlType::Union(sure(rt, flattened(alloc, &t))));
    expect_same(rt, &found, members, true, what);
}

/// The members `long` and `DOMString`.
fn long_or_text(rt: &impl Abort, alloc: Global) -> IdlType {
    union(rt, alloc, long(), text())
}

/// The members `long`, `boolean` and `DOMString`.
fn long_or_boolean_or_text(rt: &impl Abort, alloc: Global) -> IdlType {
    let mut members = IdlTypes::new(alloc);
    sure(rt, members.push(long()));
    sure(rt, members.push(IdlType::Boolean));
    sure(rt, members.push(text()));
    IdlType::Union(members)
}

/// A union of this type and `DOMString`, whose members are `long` and `DOMString`.
fn expect_two(rt: &impl Abort, alloc: Global, first: IdlType, nullable: (u32, bool), what: &str) {
    let t = union(rt, alloc, first, text());
    expect_union(rt, alloc, t, nullable, long_or_text(rt, alloc), what);
}

/// A union of two types, whose members are `long`, `boolean` and `DOMString`.
fn expect_three(
    rt: &impl Abort,
    alloc: Global,
    types: (IdlType, IdlType),
    nullable: (u32, bool),
    what: &str,
) {
    let t = union(rt, alloc, types.0, types.1);
    expect_union(
        rt,
        alloc,
        t,
        nullable,
        long_or_boolean_or_text(rt, alloc),
        what,
    );
}

/// `(sequence<long?> or DOMString)`.
fn sequence_or_text(rt: &impl Abort, alloc: Global) -> IdlType
    ensures { IsUnion (type_term result) }
{
    let element = nullable(rt, alloc, long());
    union(rt, alloc, IdlType::Seq(boxed(rt, alloc, element)), text())
}

fn expect_plain_members(rt: &impl Abort, alloc: Global) {
    expect_two(rt, alloc, long(), (0, false), "(long or DOMString)");
    let members = sequence_or_text(rt, alloc);
    let what = "(sequence<long?> or DOMString)";
    expect_union(
        rt,
        alloc,
        sequence_or_text(rt, alloc),
        (0, false),
        members,
        what,
    );
}

fn expect_nullable_members(rt: &impl Abort, alloc: Global) {
    let once = nullable(rt, alloc, long());
    expect_two(rt, alloc, once, (1, true), "(long? or DOMString)");
    let twice = nullable(rt, alloc, nullable(rt, alloc, long()));
    expect_two(rt, alloc, twice, (1, true), "(long?? or DOMString)");
    let empty = IdlType::Text {
        kind: TextKind::Dom,
        null_empty: true,
    };
    let t = union(rt, alloc, nullable(rt, alloc, clamped()), empty);
    expect_union(
        rt,
        alloc,
        t,
        (1, true),
        long_or_text(rt, alloc),
        "annotated members",
    );
}

fn expect_inner_unions(rt: &impl Abort, alloc: Global) {
    let inner = union(rt, alloc, long(), nullable(rt, alloc, IdlType::Boolean));
    let types = (inner, nullable(rt, alloc, text()));
    expect_three(
        rt,
        alloc,
        types,
        (2, false),
        "((long or boolean?) or DOMString?)",
    );
    let inner = union(rt, alloc, long(), IdlType::Boolean);
    let types = (nullable(rt, alloc, inner), text());
    expect_three(
        rt,
        alloc,
        types,
        (1, true),
        "((long or boolean)? or DOMString)",
    );
    let inner = union(rt, alloc, nullable(rt, alloc, long()), IdlType::Boolean);
    let types = (nullable(rt, alloc, inner), text());
    expect_three(
        rt,
        alloc,
        types,
        (2, false),
        "((long? or boolean)? or DOMString)",
    );
}

/// A union of nullable types has so many members, and a copy of it is the same.
fn expect_many(rt: &impl Abort, alloc: Global, t: &IdlType, count: usize)
    requires { IsUnion (type_term t.now) }
{
    expect(rt, nullable_count(t) as usize == count, "nullable types");
    let copy = sure(rt, t.copy(alloc));
    expect(rt, same_type(t, &copy), "a copy");
    drop(copy);
    expect(rt, sure(rt, flattened(alloc, t)).len() == count, "members");
}

fn expect_many_members(rt: &impl Abort, alloc: Global, count: u32) {
    let mut members = IdlTypes::new(alloc);
    for number in 0..count {
        sure(rt, members.push(nullable(rt, alloc, IdlType::Dict(number))));
    }
    expect_many(rt, alloc, &IdlType::Union(members), count as usize);
}

fn expect_differences(rt: &impl Abort, alloc: Global) {
    let clamped_long = ManuallyDrop::new(clamped());
    expect_same(rt, &clamped_long, long(), false, "an annotation");
    let copy = sure(rt, clamped_long.copy(alloc));
    expect_same(rt, &clamped_long, copy, true, "a copy");
    let dictionary = ManuallyDrop::new(IdlType::Dict(1));
    expect_same(
        rt,
        &dictionary,
        IdlType::Interface(1),
        false,
        "a dictionary and an interface",
    );
}

fn expect_types_in_a_list(rt: &impl Abort, alloc: Global) {
    let mut types = IdlTypes::new(alloc);
    sure(rt, types.push(long()));
    assert!(rt; types.len() == 1);
    let former = ManuallyDrop::new(types.replace(0, text()));
    expect_same(rt, &former, long(), true, "the former type");
    expect_same(rt, types.at(0), text(), true, "the new type");
    expect(
        rt,
        sure(rt, types.copy(alloc)).len() == 1,
        "a copy's length",
    );
}

fn expect_items_in_a_list(rt: &impl Abort, alloc: Global) {
    let mut items = Items::new(alloc);
    sure(rt, items.push(Optionality::Required));
    sure(rt, items.push(Optionality::Variadic));
    assert!(rt; items.len() == 2);
    let former = items.replace(0, Optionality::Optional);
    expect(rt, former == Optionality::Required, "the former item");
    expect(rt, *items.at(0) == Optionality::Optional, "the new item");
    expect(rt, items.as_slice().len() == 2, "the items");
}

#[tactic(auto, using(widl_idl::proofs::Empty::empty_is_merged))]
fn expect_the_empty_set(rt: &impl Abort, alloc: Global) {
    let defs = Defs {
        ifaces: Items::new(alloc),
        spaces: Items::new(alloc),
        dicts: Items::new(alloc),
        choices: Items::new(alloc),
        callback_fns: Items::new(alloc),
        callback_ifaces: Items::new(alloc),
    };
    let merged = ManuallyDrop::new(Merged::new(defs, Fragments::new(alloc)));
    expect(rt, merged.defs().ifaces.len() == 0, "no interfaces");
    expect(rt, merged.fragments().len() == 0, "no fragments");
}

/// A file, a place in it, and another place in it that the violation speaks of.
type Broken = (u16, u32, Option<u32>);

fn violation((file, at, other): Broken) -> Violation {
    Violation {
        at: Place { file, at },
        other: other.map(|at| Place { file, at }),
    }
}

/// Violations, and the earlier one of each two: at one place that whose other place is earlier.
const EARLIER: [(Option<Broken>, Option<Broken>, Broken); 7] = [
    (Some((1, 5, None)), Some((0, 90, None)), (0, 90, None)),
    (Some((1, 6, None)), Some((1, 5, None)), (1, 5, None)),
    (None, Some((1, 6, None)), (1, 6, None)),
    (Some((1, 6, None)), None, (1, 6, None)),
    (
        Some((2, 7, Some(4))),
        Some((2, 7, Some(3))),
        (2, 7, Some(3)),
    ),
    (
        Some((2, 7, Some(3))),
        Some((2, 7, Some(4))),
        (2, 7, Some(3)),
    ),
    (Some((2, 7, Some(3))), Some((2, 7, None)), (2, 7, None)),
];

/// Rules and their violations, or none, one after another.
const JOINED: [(u8, Option<Broken>); 5] = [
    (12, Some((0, 4, None))),
    (9, Some((0, 4, None))),
    (30, Some((0, 4, None))),
    (1, Some((0, 5, None))),
    (2, None),
];

/// What is left of them: at one place that of the lower rule.
const LEFT: Refusal = Refusal {
    rule: 9,
    at: Place { file: 0, at: 4 },
    other: None,
};

fn expect_earlier(rt: &impl Abort, rows: &[(Option<Broken>, Option<Broken>, Broken)]) {
    for (a, b, want) in rows {
        let found = earlier_violation(a.map(violation), b.map(violation));
        assert!(rt; found == Some(violation(*want)), "{want:?}");
    }
}

fn expect_joined(rt: &impl Abort, rows: &[(u8, Option<Broken>)]) {
    let mut best = None;
    for (rule, broken) in rows {
        best = joined(*rule, broken.map(violation), best);
    }
    expect(rt, best == Some(LEFT), "what is left");
}

#[test]
fn types_lists_and_violations(rt: HostRuntime) {
    let alloc = rt.alloc();
    expect_plain_members(&rt, alloc);
    expect_nullable_members(&rt, alloc);
    expect_inner_unions(&rt, alloc);
    expect_many_members(&rt, alloc, 300_000);
    expect_differences(&rt, alloc);
    expect_types_in_a_list(&rt, alloc);
    expect_items_in_a_list(&rt, alloc);
    expect_the_empty_set(&rt, alloc);
    expect_earlier(&rt, &EARLIER);
    expect_joined(&rt, &JOINED);
}
