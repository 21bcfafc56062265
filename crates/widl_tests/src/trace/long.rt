//! Long lines, and values that nest deeply.

use super::lists::{sequence, with_value};
use super::short::long_text;
use crate::shared::{expect, object, sure};
use std::alloc::Global;
use std::mem::ManuallyDrop;
use std::process::Abort;
use widl_overload::Accepted;
use widl_trace::{Event, line_within};
use widl_value::{IdlValue, Value, Values};

/// So many texts of 1,000 units.
fn texts(rt: &impl Abort, alloc: Global, count: usize) -> Values {
    let text = long_text(rt, alloc, 1_000);
    let mut values = Values::new(alloc);
    for _ in 0..count {
        sure(rt, values.push(Value::Str(sure(rt, text.copy()))));
    }
    values
}

/// A call with many texts is given up.
fn expect_no_line(rt: &impl Abort, alloc: Global, list: &Accepted) {
    let (f, args) = (object(19), texts(rt, alloc, 500_000));
    let event = ManuallyDrop::new(Event::New { f, args });
    let line = sure(rt, line_within(alloc, list, &event, 1_000));
    expect(rt, line.is_none(), "a call with many texts");
}

/// A value that nests 4,096 levels, which can be dropped before its line is looked at.
fn expect_nested(rt: &impl Abort, alloc: Global, list: &Accepted) {
    let mut value = IdlValue::Int(7);
    for _ in 0..4_096 {
        value = sequence(rt, alloc, value);
    }
    let event = with_value(rt, alloc, value);
    let line = sure(rt, widl_trace::line(alloc, list, &event));
    drop(event);
    expect(
        rt,
        line.bytes().len() == 10 + 4_096 + 1 + 4_096 + 1,
        "many levels",
    );
}

/// A line of two mebibytes.
fn expect_long_line(rt: &impl Abort, alloc: Global, list: &Accepted) {
    let text = Value::Str(long_text(rt, alloc, 2_097_152));
    let event = ManuallyDrop::new(Event::Show(text));
    let line = sure(rt, widl_trace::line(alloc, list, &event));
    expect(rt, line.bytes().len() == 2_097_159, "two mebibytes");
}

pub fn expect_long(rt: &impl Abort, alloc: Global, list: &Accepted) {
    expect_no_line(rt, alloc, list);
    expect_nested(rt, alloc, list);
    expect_long_line(rt, alloc, list);
}
