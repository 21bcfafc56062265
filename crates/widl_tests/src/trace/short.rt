//! Lines that may have so many bytes at most, and what lines cost.

use crate::shared::{expect, object, sure};
use std::alloc::Global;
use std::mem::ManuallyDrop;
use std::process::Abort;
use widl_overload::Accepted;
use widl_text::Units;
use widl_trace::{Event, cost, line_within};
use widl_value::Value;

/// A text of so many units.
pub fn long_text(rt: &impl Abort, alloc: Global, count: usize) -> Units {
    let mut text = Units::new(alloc);
    for _ in 0..count {
        sure(rt, text.push(0x61));
    }
    text
}

/// A text of so many units is shown by a line of so many bytes, which costs so many units.
fn expect_cost(rt: &impl Abort, alloc: Global, list: &Accepted, row: (usize, usize, u64)) {
    let text = Value::Str(long_text(rt, alloc, row.0));
    let event = ManuallyDrop::new(Event::Show(text));
    let line = sure(rt, widl_trace::line(alloc, list, &event));
    expect(rt, line.bytes().len() == row.1, "the bytes of a line");
    expect(rt, cost(&line) == row.2, "the cost of a line");
}

/// How many bytes a line of 12 may have, and whether it is written.
const MOST_BYTES: [(usize, bool); 4] = [(0, false), (11, false), (12, true), (13, true)];

fn expect_most(rt: &impl Abort, alloc: Global, list: &Accepted, rows: &[(usize, bool)]) {
    let event = ManuallyDrop::new(Event::Uncaught(Value::Obj(object(20))));
    for (most, there) in rows {
        let line = sure(rt, line_within(alloc, list, &event, *most));
        assert!(rt; line.is_some() == *there, "{most} bytes");
    }
}

/// A unit pays for 64 bytes with the line feed.
pub fn expect_short(rt: &impl Abort, alloc: Global, list: &Accepted) {
    expect_cost(rt, alloc, list, (56, 63, 1));
    expect_cost(rt, alloc, list, (57, 64, 2));
    expect_most(rt, alloc, list, &MOST_BYTES);
}
