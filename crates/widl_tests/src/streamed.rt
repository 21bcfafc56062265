//! How the writer of lines calls a sink, and what the sink holds where one of these calls fails.

use std::alloc::Global;
use std::process::Abort;
use widl_sink::{Line, MemorySink, Numbers, WriteFailed, Writer};

/// Lines that are emitted and then flushed, and the calls of a sink that take them.
struct Row {
    /// How many bytes each line has.
    lines: &'static [usize],
    /// How many bytes the sink takes a call; each call but the last takes as many.
    most: u32,
    /// How many calls take all.
    calls: u32,
}

const ROWS: [Row; 14] = [
    Row {
        lines: &[],
        most: 65_536,
        calls: 0,
    },
    Row {
        lines: &[0, 13],
        most: 65_536,
        calls: 1,
    },
    Row {
        lines: &[65_534],
        most: 65_536,
        calls: 1,
    },
    // lines that fill the buffer exactly
    Row {
        lines: &[65_535],
        most: 65_536,
        calls: 1,
    },
    Row {
        lines: &[32_767, 32_767],
        most: 65_536,
        calls: 1,
    },
    Row {
        lines: &[32_767, 32_767, 65_535],
        most: 65_536,
        calls: 2,
    },
    Row {
        lines: &[65_536],
        most: 65_536,
        calls: 2,
    },
    Row {
        lines: &[200_000],
        most: 65_536,
        calls: 4,
    },
    // one byte of the buffer is free
    Row {
        lines: &[65_534, 0],
        most: 65_536,
        calls: 1,
    },
    Row {
        lines: &[65_534, 65_535],
        most: 65_536,
        calls: 2,
    },
    Row {
        lines: &[65_534, 65_536],
        most: 65_536,
        calls: 2,
    },
    Row {
        lines: &[65_534, 200_000],
        most: 65_536,
        calls: 5,
    },
    // a sink that takes less than the writer hands to it
    Row {
        lines: &[65_534, 65_536],
        most: 16_384,
        calls: 8,
    },
    Row {
        lines: &[13, 2],
        most: 1,
        calls: 17,
    },
];

/// Letters for lines: no two of them that are less than 26 apart are the same.
fn letters(rt: &impl Abort, alloc: Global, count: usize) -> Vec<u8> {
    let mut letters = Vec::new(alloc);
    for place in 0..count {
        let letter = b'a' + (place % 26) as u8;
        letters.push(letter).expect(rt, "memory for a letter");
    }
    letters
}

/// The first letters.
fn line_of<'t>(letters: &'t [u8], count: usize) -> &'t [u8] {
    &letters[..count.min(letters.len())]
}

/// The lines one after another, each with its line feed.
fn text_of(rt: &impl Abort, alloc: Global, letters: &[u8], lines: &[usize]) -> Vec<u8> {
    let mut text = Vec::new(alloc);
    for count in lines {
        let added = text.extend_from_slice(line_of(letters, *count));
        added.expect(rt, "memory for a line");
        text.push(b'\n').expect(rt, "memory for a line feed");
    }
    text
}

/// A sink that takes so many bytes a call and fails in one call.
fn sink_of(rt: &impl Abort, alloc: Global, most: u32, call: u64) -> MemorySink {
    assert!(rt; 0 < most);
    let mut fails = Numbers::new(alloc);
    fails.push(call).expect(rt, "memory for a number");
    MemorySink::new(alloc, 400_000, most, fails).expect(rt, "memory for a sink")
}

/// Emits the lines and flushes.
fn write_lines(
    rt: &impl Abort,
    alloc: Global,
    letters: &[u8],
    lines: &[usize],
    out: &mut MemorySink,
) -> Result<(), WriteFailed> {
    let mut writer = Writer::new(alloc).expect(rt, "memory for a writer");
    for count in lines {
        let bytes = Vec::from_slice(alloc, line_of(letters, *count));
        let line = Line::new(bytes.expect(rt, "memory for a line"));
        writer.emit(&line, out)?;
    }
    writer.flush(out)
}

/// What the sink holds where the call after so many fails: what these took.
fn expect_torn(rt: &impl Abort, alloc: Global, letters: &[u8], row: &Row, calls: u32) {
    let text = text_of(rt, alloc, letters, row.lines);
    let mut out = sink_of(rt, alloc, row.most, calls as u64 + 1);
    let written = write_lines(rt, alloc, letters, row.lines, &mut out);
    assert!(rt; written.is_err() == (calls < row.calls), "{calls} calls");
    let taken = text
        .len()
        .min((calls as usize).saturating_mul(row.most as usize));
    assert!(rt; out.held() == &text[..taken], "{calls} calls");
}

/// Lets each call of the sink fail in turn, and then one more than there are.
fn expect_rows(rt: &impl Abort, alloc: Global, rows: &[Row]) {
    let letters = letters(rt, alloc, 200_000);
    for row in rows {
        for calls in 0..=row.calls {
            expect_torn(rt, alloc, &letters, row, calls);
        }
    }
}

#[test]
fn each_call_of_the_sink_takes_a_full_buffer(rt: HostRuntime) {
    expect_rows(&rt, rt.alloc(), &ROWS);
}
