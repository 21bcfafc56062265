//! Which types are distinguishable.

use crate::shared::{THREE, expect, list_of, many_interfaces, of_kind, of_kinds, with_parents};
use std::alloc::Global;
use std::mem::ManuallyDrop;
use std::process::Abort;
use widl_idl::{Defs, IdlType, Ifaces, Spaces};
use widl_overload::{distinguishable, inherits};

/// A list of interfaces alone.
fn of_interfaces(alloc: Global, ifaces: Ifaces) -> ManuallyDrop<Defs> {
    ManuallyDrop::new(list_of(alloc, ifaces, Spaces::new(alloc)))
}

/// Which kinds are distinguishable, a row for each.
const TABLE: [(&str, &str); 17] = [
    ("undefined", "01111111110001001"),
    ("boolean", "10111111111111001"),
    ("long", "11011111111111000"),
    ("DOMString", "11100111111111001"),
    ("enumeration", "11100111111111001"),
    ("object", "11111000000000001"),
    ("interface", "11111000111111001"),
    ("derived", "11111000111111001"),
    ("unrelated", "11111011011111001"),
    ("function", "11111011101111001"),
    ("callback", "01111011110001001"),
    ("dictionary", "01111011110001000"),
    ("record", "01111011110001001"),
    ("sequence", "11111011111110001"),
    ("promise", "00000000000000000"),
    ("any", "00000000000000000"),
    ("long?", "11011111111011000"),
];

/// A type is told from each kind as marked.
fn expect_marks(rt: &impl Abort, alloc: Global, defs: &Defs, a: &IdlType, marks: &str) {
    for ((kind, _), mark) in TABLE.iter().zip(marks.as_bytes().iter()) {
        let b = ManuallyDrop::new(of_kind(rt, alloc, kind));
        let apart = distinguishable(defs, a, &b);
        assert!(rt; apart == (*mark == b'1'), "{kind} in {marks}");
    }
}

fn expect_table(rt: &impl Abort, alloc: Global, defs: &Defs, rows: &[(&str, &str)]) {
    for (kind, marks) in rows {
        let a = ManuallyDrop::new(of_kind(rt, alloc, kind));
        expect_marks(rt, alloc, defs, &a, marks);
    }
}

/// The kinds of a union, those of another one or one kind, and whether they are distinguishable.
type Union = (&'static [&'static str], &'static [&'static str], bool);

const UNIONS: [Union; 8] = [
    (&["long", "DOMString"], &["boolean"], true),
    (&["long", "DOMString"], &["DOMString"], false),
    (&["long", "DOMString"], &["boolean", "DOMString"], false),
    (&["derived", "long"], &["DOMString", "interface"], false),
    (&["derived", "long"], &["DOMString", "unrelated"], true),
    (&["long", "dictionary"], &["DOMString?"], false),
    (&["long", "dictionary"], &["DOMString"], true),
    (&["long?", "DOMString"], &["dictionary"], false),
];

/// The type of a kind, or the union of several.
fn of_row(rt: &impl Abort, alloc: Global, kinds: &[&str]) -> ManuallyDrop<IdlType> {
    ManuallyDrop::new(match kinds {
        [kind] => of_kind(rt, alloc, kind),
        _ => IdlType::Union(of_kinds(rt, alloc, kinds)),
    })
}

/// Two types are distinguishable or not, in either order.
fn expect_unions(rt: &impl Abort, alloc: Global, defs: &Defs, rows: &[Union]) {
    for (first, second, apart) in rows {
        let a = of_row(rt, alloc, first);
        let b = of_row(rt, alloc, second);
        assert!(rt; distinguishable(defs, &a, &b) == *apart, "{first:?}");
        assert!(rt; distinguishable(defs, &b, &a) == *apart, "{first:?}");
    }
}

#[test]
fn kinds_and_unions_against_each_other(rt: HostRuntime) {
    let alloc = rt.alloc();
    let defs = of_interfaces(alloc, with_parents(&rt, alloc, &THREE));
    expect_table(&rt, alloc, &defs, &TABLE);
    expect_unions(&rt, alloc, &defs, &UNIONS);
}

/// One interface inherits from another one, so that nothing tells them apart.
fn expect_heir(rt: &impl Abort, defs: &Defs, heir: u32, parent: u32) {
    let ifaces = defs.ifaces.as_slice();
    expect(rt, inherits(ifaces, heir, parent), "the heir");
    expect(rt, !inherits(ifaces, parent, heir), "the parent");
    let heir = IdlType::Interface(heir);
    let parent = IdlType::Interface(parent);
    let apart = distinguishable(defs, &parent, &heir) || distinguishable(defs, &heir, &parent);
    expect(rt, !apart, "the heir and the parent");
}

#[test]
fn a_long_chain_of_interfaces(rt: HostRuntime) {
    let ifaces = many_interfaces(&rt, rt.alloc(), 60_001, true);
    expect_heir(&rt, &of_interfaces(rt.alloc(), ifaces), 60_000, 0);
}
