//! The values of enumerations. All other calls are tried by rows of `widl_conversations`.

use crate::shared::{NOWHERE, expect, list_of, sure, units};
use std::alloc::Global;
use std::mem::ManuallyDrop;
use std::process::Abort;
use widl_idl::{Choice, Defs, Texts};
use widl_scalar::enum_at;
use widl_text::{Items, Units};

/// The text `value` and a unit.
fn numbered(rt: &impl Abort, alloc: Global, unit: u16) -> Units {
    let mut value = units(rt, alloc, "value");
    sure(rt, value.push(unit));
    value
}

/// A list whose one enumeration has these values, and 50,000 numbered ones behind them.
fn with_values(rt: &impl Abort, alloc: Global, first: &[&str]) -> ManuallyDrop<Defs> {
    let mut values = Texts::new(alloc);
    for value in first {
        sure(rt, values.push(units(rt, alloc, value)));
    }
    for unit in 0..50_000 {
        sure(rt, values.push(numbered(rt, alloc, unit)));
    }
    let mut defs = list_of(alloc, Items::new(alloc), Items::new(alloc));
    let (at, name) = (NOWHERE, units(rt, alloc, "E"));
    sure(rt, defs.choices.push(Choice { at, name, values }));
    ManuallyDrop::new(defs)
}

const VALUES: [&str; 4] = ["auto", "", "autos", "auto"];

/// Enumerations, texts, and the places of the values that they are.
const PLACES: [(u32, &str, Option<u32>); 8] = [
    (0, "auto", Some(0)),
    (0, "", Some(1)),
    (0, "autos", Some(2)),
    (0, "aut", None),
    (0, "autost", None),
    (0, "Auto", None),
    (1, "auto", None),
    (4_294_967_295, "auto", None),
];

fn expect_places(rt: &impl Abort, alloc: Global, rows: &[(u32, &str, Option<u32>)]) {
    let defs = with_values(rt, alloc, &VALUES);
    for (choice, text, want) in rows {
        let found = enum_at(&defs, *choice, &units(rt, alloc, text));
        expect(rt, found == *want, text);
    }
    let last = enum_at(&defs, 0, &numbered(rt, alloc, 49_999));
    expect(rt, last == Some(50_003), "the last value");
    let more = enum_at(&defs, 0, &numbered(rt, alloc, 50_000));
    expect(rt, more.is_none(), "a value more");
}

#[test]
fn values_have_places(rt: HostRuntime) {
    expect_places(&rt, rt.alloc(), &PLACES);
}
