//! What no clause says: that memory is found where there is some, and what real writers hold.

use crate::shared::{expect, sure};
use std::alloc::Global;
use std::mem::ManuallyDrop;
use std::process::Abort;
use widl_sink::{Line, MemorySink, Numbers, Sink, StdoutSink, SureSink, Writer, cost};

/// The number 2, which stands in the place of 9.
fn changed_numbers(rt: &impl Abort, alloc: Global) -> Numbers {
    let mut numbers = Numbers::new(alloc);
    sure(rt, numbers.push(9));
    assert!(rt; numbers.len() == 1);
    expect(rt, *numbers.at(0) == 9, "a number");
    expect(rt, numbers.replace(0, 2) == 9, "the former number");
    numbers
}

/// The answer of one write.
fn expect_write<K: Sink>(rt: &impl Abort, out: &mut K, answer: Option<u32>) {
    expect(rt, out.write(b"some bytes").ok() == answer, "a write");
}

fn write_into_memory(rt: &impl Abort, alloc: Global) {
    let fails = changed_numbers(rt, alloc);
    let mut out = ManuallyDrop::new(sure(rt, MemorySink::new(alloc, 7, 4, fails)));
    for answer in &[Some(4), None, Some(3), None] {
        expect_write(rt, &mut *out, *answer);
    }
    expect(rt, out.held() == b"somesom".as_slice(), "what fits");
}

fn write_a_line(rt: &impl Abort, alloc: Global) {
    let line = Line::new(sure(rt, Vec::from_slice(alloc, b"ret undefined")));
    expect(rt, cost(&line) == 1, "the line's cost");
    let out = sure(rt, MemorySink::new(alloc, 100, 5, Numbers::new(alloc)));
    let mut out = ManuallyDrop::new(out);
    let mut writer = ManuallyDrop::new(sure(rt, Writer::new(alloc)));
    expect(rt, writer.emit(&line, &mut *out).is_ok(), "a line");
    expect(rt, writer.flush(&mut *out).is_ok(), "its end");
    expect(
        rt,
        out.held() == b"ret undefined\n".as_slice(),
        "a whole line",
    );
}

#[test]
fn memory_takes_what_fits_and_whole_lines(rt: HostRuntime) {
    write_into_memory(&rt, rt.alloc());
    write_a_line(&rt, rt.alloc());
}

#[test]
fn a_writer_of_std_holds_the_bytes(rt: HostRuntime) {
    expect_write(&rt, &mut SureSink::new(), Some(10));
    let mut room = [0u8; 12];
    let mut out = StdoutSink::new(&mut room[..]);
    for answer in &[Some(10), Some(2), None] {
        expect_write(&rt, &mut out, *answer);
    }
}
