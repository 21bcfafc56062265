//! Containers of many items and dictionaries of many members: an array and a record through and back, a sequence of a union, and long
//! lines of dictionaries.

use crate::made::Parts;
use crate::shared::{MOST, Output, Run, expect_runs};
use widl_top::Status;

/// A line of 25,000 dictionaries, each of which inherits from the one before.
const LINE: Parts = &[
    ("dictionary D0{};", 1),
    ("dictionary D`m`:D`n`{};", 24_999),
    ("namespace N{undefined f(optional D24999 d={});};", 1),
];

/// The same, where each but the first has a member.
const LINE_OF_MEMBERS: Parts = &[
    ("dictionary D0{};", 1),
    ("dictionary D`m`:D`n`{long a`m`;};", 24_999),
    ("namespace N{undefined f(optional D24999 d={});};", 1),
];

const READ: Parts = &[("let o = object()\ndo N.f(o)\n", 1)];

const MEMBERS: Parts = &[
    ("dictionary D { ", 1),
    ("long m`n`; ", 30_000),
    ("}; namespace N { undefined f(optional D d = {}); };", 1),
];

const TWO_CALLS: Parts = &[("do N.f()\nlet o = object()\ndo N.f(o)\n", 1)];

const DELETED: Parts = &[
    ("dictionary D { ", 1),
    ("long a`n` = `n`; ", 10),
    ("}; namespace N { undefined f(optional D d = {}); };", 1),
];

/// The first getter takes away all members.
const DELETES: Parts = &[
    ("function g()\n", 1),
    ("delete this.a`n`\n", 10),
    ("return 1\nend\nlet o = object()\n", 1),
    ("define o.a`n` get g\n", 10),
    ("do N.f(o)\n", 1),
];

const DICTIONARIES: [Run; 4] = [
    (
        LINE,
        READ,
        MOST,
        Status::Done,
        Output::End(&[(
            "call #19 this #18 (#20)\nop N.f#0 (D24999{})\nret undefined\ndone\n",
            1,
        )]),
    ),
    (
        LINE_OF_MEMBERS,
        READ,
        MOST,
        Status::Done,
        Output::End(&[(
            "get #20 \"a24998\"\nget #20 \"a24999\"\nop N.f#0 (D24999{})\nret undefined\ndone\n",
            1,
        )]),
    ),
    (
        MEMBERS,
        TWO_CALLS,
        MOST,
        Status::Done,
        Output::End(&[(
            "get #20 \"m9998\"\nget #20 \"m9999\"\nop N.f#0 (D{})\nret undefined\ndone\n",
            1,
        )]),
    ),
    (
        DELETED,
        DELETES,
        MOST,
        Status::Done,
        Output::End(&[
            ("ret 1\n", 1),
            ("get #21 \"a`m`\"\n", 9),
            ("op N.f#0 (D{a0: 1", 1),
            (", a`m`: `m`", 9),
            ("})\nret undefined\ndone\n", 1),
        ]),
    ),
];

#[test]
fn many_members_and_such_that_go_are_converted(rt: HostRuntime) {
    expect_runs(&rt, rt.alloc(), &DICTIONARIES);
}

/// An operation that gives back its array is called with one of 240,000 items. An item takes seven units on its way in, and one on its
/// way back. The iterator, the results of its turns and both arrays are new objects.
const LONG_ARRAY: Parts = &[
    ("steps N.f#0\nreturn arg 0\nend\nshow N.f(array(1", 1),
    (",1", 239_999),
    (")).length\n", 1),
];

const ARRAY: Parts = &[("namespace N { sequence<long> f(sequence<long> a); };", 1)];

const SCALARS: Parts = &[(
    "namespace N { undefined f(sequence<(boolean or long or DOMString or object)> a); };",
    1,
)];

/// A hundred thousand items, of five classes.
const CLASSES: Parts = &[
    ("do N.f(array(true,7,\"x\",N,null", 1),
    (",true,7,\"x\",N,null", 19_999),
    ("))\n", 1),
];

const RECORD: Parts = &[(
    "namespace N { record<DOMString, long> f(record<DOMString, long> a); };",
    1,
)];

/// An operation that gives back its record is called with an object of 65,536 properties.
const ENTRIES: Parts = &[
    ("steps N.f#0\nreturn arg 0\nend\nlet o=object()\n", 1),
    ("define o.`a`=7\n", 65_536),
    ("show N.f(o).sD1\n", 1),
];

const WIDE: [Run; 3] = [
    (
        ARRAY,
        LONG_ARRAY,
        MOST,
        Status::Done,
        Output::End(&[("1, 1, 1])\nret #240023\nshow 240000\ndone\n", 1)]),
    ),
    (
        SCALARS,
        CLASSES,
        MOST,
        Status::Done,
        Output::End(&[("true, 7, \"x\", #18, \"null\"])\nret undefined\ndone\n", 1)]),
    ),
    (
        RECORD,
        ENTRIES,
        MOST,
        Status::Done,
        Output::End(&[("\"sD0\": 7, \"sD1\": 7})\nret #21\nshow 7\ndone\n", 1)]),
    ),
];

#[test]
fn wide_containers_come_back(rt: HostRuntime) {
    expect_runs(&rt, rt.alloc(), &WIDE);
}
