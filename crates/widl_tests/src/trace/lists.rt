//! The IDL values that a callee begins with.

use super::expect_made;
use crate::shared::{THE_OPERATION, sure, units};
use std::alloc::Global;
use std::process::Abort;
use widl_overload::Accepted;
use widl_trace::Event;
use widl_value::{IdlEntries, IdlMembers, IdlValue, IdlValues, Number, ObjRef, Shape, Value};

/// The steps of `N.f` begin with one value.
pub fn with_value(rt: &impl Abort, alloc: Global, value: IdlValue) -> Event {
    let mut values = IdlValues::new(alloc);
    sure(rt, values.push(value));
    Event::Op {
        callee: THE_OPERATION,
        overload: Some(0),
        values,
    }
}

fn expect_value(rt: &impl Abort, alloc: Global, list: &Accepted, value: IdlValue, line: &str) {
    expect_made(rt, alloc, list, with_value(rt, alloc, value), line);
}

/// A sequence of one value.
pub fn sequence(rt: &impl Abort, alloc: Global, value: IdlValue) -> IdlValue {
    let mut values = IdlValues::new(alloc);
    sure(rt, values.push(value));
    IdlValue::List(values)
}

fn record(rt: &impl Abort, alloc: Global, keys: &[&str], n: i128) -> IdlValue {
    let mut entries = IdlEntries::new(alloc);
    for key in keys {
        sure(rt, entries.push((units(rt, alloc, key), IdlValue::Int(n))));
    }
    IdlValue::Entries(entries)
}

/// A dictionary `D` with its inherited member `b` and this value as its own member `c`.
fn dictionary(rt: &impl Abort, alloc: Global, value: IdlValue) -> IdlValue {
    let mut members = IdlMembers::new(alloc);
    sure(rt, members.push((0, 1, IdlValue::Int(2))));
    sure(rt, members.push((1, 0, value)));
    IdlValue::Dict { of: 1, members }
}

/// The steps of an overload of `N.f` begin with two values.
fn expect_two(
    rt: &impl Abort,
    alloc: Global,
    list: &Accepted,
    overload: u32,
    (first, second): (IdlValue, IdlValue),
    line: &str,
) {
    let mut values = IdlValues::new(alloc);
    sure(rt, values.push(first));
    sure(rt, values.push(second));
    let event = Event::Op {
        callee: THE_OPERATION,
        overload: Some(overload),
        values,
    };
    expect_made(rt, alloc, list, event, line);
}

/// Values without parts, and the lines of steps that begin with them.
const PLAIN: [(IdlValue, &str); 8] = [
    (IdlValue::Undefined, "op N.f#0 (undefined)"),
    (IdlValue::Null, "op N.f#0 (null)"),
    (IdlValue::Bool(true), "op N.f#0 (true)"),
    (IdlValue::Int(-128), "op N.f#0 (-128)"),
    (
        IdlValue::Choice { of: 0, index: 1 },
        "op N.f#0 (\"two words\")",
    ),
    (
        IdlValue::Object(ObjRef {
            id: 18,
            shape: Shape::Plain,
        }),
        "op N.f#0 (#18)",
    ),
    (IdlValue::Any(Value::Num(Number::Whole(3))), "op N.f#0 (3)"),
    (
        IdlValue::Promise(ObjRef {
            id: 20,
            shape: Shape::Plain,
        }),
        "op N.f#0 (promise #20)",
    ),
];

fn expect_plain(rt: &impl Abort, alloc: Global, list: &Accepted, rows: &[(IdlValue, &str)]) {
    for (value, line) in rows {
        expect_value(rt, alloc, list, sure(rt, value.copy()), line);
    }
    let text = IdlValue::Text(units(rt, alloc, "x"));
    expect_two(
        rt,
        alloc,
        list,
        1,
        (text, IdlValue::Int(1)),
        "op N.f#1 (\"x\", 1)",
    );
    let left_out = (IdlValue::Int(1), IdlValue::Missing);
    expect_two(rt, alloc, list, 0, left_out, "op N.f#0 (1, missing)");
}

fn expect_lists_and_records(rt: &impl Abort, alloc: Global, list: &Accepted) {
    let value = sequence(rt, alloc, IdlValue::Int(7));
    expect_value(rt, alloc, list, value, "op N.f#0 ([7])");
    let value = record(rt, alloc, &["\u{fffd}"], 2);
    expect_value(rt, alloc, list, value, "op N.f#0 ({\"\\ufffd\": 2})");
    let value = record(rt, alloc, &["a", ""], 1);
    expect_value(rt, alloc, list, value, "op N.f#0 ({\"a\": 1, \"\": 1})");
    let value = IdlValue::List(IdlValues::new(alloc));
    expect_value(rt, alloc, list, value, "op N.f#0 ([])");
    let value = IdlValue::Entries(IdlEntries::new(alloc));
    expect_value(rt, alloc, list, value, "op N.f#0 ({})");
}

fn expect_dictionaries(rt: &impl Abort, alloc: Global, list: &Accepted) {
    let value = dictionary(rt, alloc, IdlValue::Int(5));
    expect_value(rt, alloc, list, value, "op N.f#0 (D{b: 2, c: 5})");
    let inner = sequence(rt, alloc, record(rt, alloc, &["k"], 9));
    let value = dictionary(rt, alloc, inner);
    let line = "op N.f#0 (D{b: 2, c: [{\"k\": 9}]})";
    expect_value(rt, alloc, list, value, line);
    let (of, members) = (0, IdlMembers::new(alloc));
    let value = IdlValue::Dict { of, members };
    expect_value(rt, alloc, list, value, "op N.f#0 (C{})");
}

pub fn expect_values(rt: &impl Abort, alloc: Global, list: &Accepted) {
    expect_plain(rt, alloc, list, &PLAIN);
    expect_lists_and_records(rt, alloc, list);
    expect_dictionaries(rt, alloc, list);
}
