//! What is answered and written when the outside fails at each of its calls.

use crate::made::Parts;
use crate::shared::{Output, expect_answer, files_of, numbers_of};
use crate::streamed::{Torn, expect_torn_runs};
use std::alloc::Global;
use std::process::Abort;
use widl_top::{MemoryFolder, Status};

const FRAGMENT: Parts = &[("namespace N { undefined f(octet a); };", 1)];

const TRACE: Parts = &[(
    "call #19 this #18 (300)\nop N.f#0 (44)\nret undefined\ndone\n",
    1,
)];

/// One operation, which takes and gives any value.
const ANY: Parts = &[("namespace N { any f(any a); };", 1)];

/// An operation that gives back its argument is called with an object of one property.
const GIVES_BACK: Parts = &[(
    "steps N.f#0\nreturn arg 0\nend\nlet o = object()\ndefine o.a = 1\ndo N.f(o)\n",
    1,
)];

/// What it prints.
const GIVEN_BACK: Parts = &[(
    "call #19 this #18 (#20)\nop N.f#0 (#20)\nret #20\ndone\n",
    1,
)];

/// An operation that takes a number of 32 bits.
const LONG: Parts = &[("namespace N { undefined f(long a); };", 1)];

/// A getter that calls the operation again with the object that is being converted, once.
const CALLS_AGAIN: Parts = &[(
    "function v()\nreturn 7\nend\nfunction g()\nif this.once is undefined\nset this.once = true\ndo N.f(this)\nend\nreturn v\nend\nlet o = object()\ndefine o.valueOf get g\ndo N.f(o)\n",
    1,
)];

/// What it prints.
const CALLED_AGAIN: Parts = &[(
    "call #19 this #18 (#22)\nget #22 @toPrimitive\nget #22 \"valueOf\"\ncall #21 this #22 ()\ncall #19 this #18 (#22)\nget #22 @toPrimitive\nget #22 \"valueOf\"\ncall #21 this #22 ()\nret #20\ncall #20 this #22 ()\nret 7\nop N.f#0 (7)\nret undefined\nret #20\ncall #20 this #22 ()\nret 7\nop N.f#0 (7)\nret undefined\ndone\n",
    1,
)];

/// An operation that takes a sequence of numbers.
const SEQUENCE: Parts = &[("namespace N { undefined f(sequence<long> q); };", 1)];

/// A method `next` that deletes `done` of its own result.
const STEP_DELETES: Parts = &[(
    "function start()\nreturn this\nend\nfunction step()\nlet r = this.turn\nset this.turn = last\ndelete first.done\nreturn r\nend\nlet last = object()\ndefine last.done = true\nlet first = object()\ndefine first.done = true\ndefine first.value = 7\nlet it = object()\ndefine it[@iterator] = start\ndefine it.next = step\ndefine it.turn = first\ndo N.f(it)\n",
    1,
)];

/// What it prints.
const STEP_DELETED: Parts = &[(
    "call #19 this #18 (#24)\nget #24 @iterator\ncall #20 this #24 ()\nret #24\nget #24 \"next\"\ncall #21 this #24 ()\nret #23\nget #23 \"done\"\nget #23 \"value\"\ncall #21 this #24 ()\nret #22\nget #22 \"done\"\nop N.f#0 ([7])\nret undefined\ndone\n",
    1,
)];

/// Two members, of which the second has a default.
const DICTIONARY: Parts = &[(
    "dictionary D { long a; long b = 9; }; namespace N { undefined f(optional D d = {}); };",
    1,
)];

/// A member's getter that calls the operation again with the dictionary's object.
const MEMBER_CALLS_AGAIN: Parts = &[(
    "function g()\ndefine this.a = 7\ndo N.f(this)\nreturn 1\nend\nlet o = object()\ndefine o.a get g\ndefine o.b = 2\ndo N.f(o)\n",
    1,
)];

/// What it prints.
const MEMBER_CALLED_AGAIN: Parts = &[(
    "call #19 this #18 (#21)\nget #21 \"a\"\ncall #20 this #21 ()\ncall #19 this #18 (#21)\nget #21 \"a\"\nget #21 \"b\"\nop N.f#0 (D{a: 7, b: 2})\nret undefined\nret 1\nget #21 \"b\"\nop N.f#0 (D{a: 1, b: 2})\nret undefined\ndone\n",
    1,
)];

/// An operation that takes a record of numbers.
const RECORD: Parts = &[(
    "namespace N { undefined f(record<DOMString, long> r); };",
    1,
)];

/// A getter of a record's value that calls the operation again with the record's object.
const VALUE_CALLS_AGAIN: Parts = &[(
    "function g()\ndefine this.a = 7\ndo N.f(this)\nreturn 1\nend\nlet o = object()\ndefine o.a get g\ndefine o.b = 2\ndo N.f(o)\n",
    1,
)];

/// What it prints.
const VALUE_CALLED_AGAIN: Parts = &[(
    "call #19 this #18 (#21)\nkeys #21\nown #21 \"a\"\nget #21 \"a\"\ncall #20 this #21 ()\ncall #19 this #18 (#21)\nkeys #21\nown #21 \"a\"\nget #21 \"a\"\nown #21 \"b\"\nget #21 \"b\"\nop N.f#0 ({\"a\": 7, \"b\": 2})\nret undefined\nret 1\nown #21 \"b\"\nget #21 \"b\"\nop N.f#0 ({\"a\": 1, \"b\": 2})\nret undefined\ndone\n",
    1,
)];

/// A run that converts a number, one that gives an object back, and one whose conversion waits while it is asked for again; and
/// such with a sequence, a dictionary and a record that change while they are read. The sinks take one byte, ten bytes and all at
/// once.
const RUNS: [Torn; 6] = [
    Torn {
        fragment: FRAGMENT,
        budget: "100000",
        script: &[("do N.f(300)\n", 1)],
        status: Status::Done,
        trace: TRACE,
        sinks: &[(1, 57), (10, 6), (4_096, 1)],
    },
    Torn {
        fragment: ANY,
        budget: "100000",
        script: GIVES_BACK,
        status: Status::Done,
        trace: GIVEN_BACK,
        sinks: &[(1, 52), (10, 6), (4_096, 1)],
    },
    Torn {
        fragment: LONG,
        budget: "100000",
        script: CALLS_AGAIN,
        status: Status::Done,
        trace: CALLED_AGAIN,
        sinks: &[(1, 297), (10, 30), (4_096, 1)],
    },
    Torn {
        fragment: SEQUENCE,
        budget: "100000",
        script: STEP_DELETES,
        status: Status::Done,
        trace: STEP_DELETED,
        sinks: &[(1, 224), (10, 23), (4_096, 1)],
    },
    Torn {
        fragment: DICTIONARY,
        budget: "100000",
        script: MEMBER_CALLS_AGAIN,
        status: Status::Done,
        trace: MEMBER_CALLED_AGAIN,
        sinks: &[(1, 206), (10, 21), (4_096, 1)],
    },
    Torn {
        fragment: RECORD,
        budget: "100000",
        script: VALUE_CALLS_AGAIN,
        status: Status::Done,
        trace: VALUE_CALLED_AGAIN,
        sinks: &[(1, 278), (10, 28), (4_096, 1)],
    },
];

/// The words of these runs.
const WORDS: [&str; 4] = ["run", "100000", "s", "n.idl"];

/// A run in which a call of the folder fails, or none where there are fewer.
fn expect_read(
    rt: &impl Abort,
    alloc: Global,
    run: &Torn,
    call: u64,
    status: Status,
    output: Parts,
) {
    let files = files_of(rt, alloc, run.script, run.fragment);
    let mut folder = MemoryFolder::new(files, numbers_of(rt, alloc, call));
    let output = Output::Whole(output);
    expect_answer(rt, alloc, &WORDS, &mut folder, status, output);
}

const NO_SCRIPT: Parts = &[("read fault s\n", 1)];

const NO_FRAGMENT: Parts = &[("read fault n.idl\n", 1)];

/// Runs with each call of the folder failing in turn, and with none: three calls read the script, and three the fragment.
fn expect_reads(rt: &impl Abort, alloc: Global, runs: &[Torn]) {
    for run in runs {
        for call in 1..7u64 {
            let output = if call < 4 { NO_SCRIPT } else { NO_FRAGMENT };
            expect_read(rt, alloc, run, call, Status::ReadFault, output);
        }
        expect_read(rt, alloc, run, 7, Status::Done, run.trace);
    }
}

#[test]
fn each_failed_read_names_its_file(rt: HostRuntime) {
    expect_reads(&rt, rt.alloc(), &RUNS);
}

#[test]
fn each_failed_write_leaves_a_prefix(rt: HostRuntime) {
    expect_torn_runs(&rt, rt.alloc(), &RUNS);
}
