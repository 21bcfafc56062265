//! Runs of hostile scripts whose operations take containers: deep ones, long ones, and such that change while they are read.

use crate::made::Parts;
use crate::shared::{MOST, Output, Run, expect_runs};
use widl_top::Status;

/// Dictionaries that nest as deep as they may, each in as many records as a type may have.
const DEEPEST_RECORDS: Parts = &[
    (
        "dictionary D`n` { record<DOMString, record<DOMString, record<DOMString, record<DOMString, record<DOMString, record<DOMString, record<DOMString, record<DOMString, record<DOMString, record<DOMString, record<DOMString, record<DOMString, record<DOMString, record<DOMString, record<DOMString, D`m`>>>>>>>>>>>>>>> m; };\n",
        255,
    ),
    (
        "dictionary D255 { long m; }; namespace N { undefined f(optional D0 d = {}); };",
        1,
    ),
];

/// An object that holds itself, and whose value calls the operation again.
const HOLDS_ITSELF: Parts = &[(
    "function t()\ndo N.f(o)\nend\nlet p = object()\ndefine p.valueOf = t\nlet o = object(p)\nset o.m = o\ndo N.f(o)\n",
    1,
)];

/// An operation that takes a sequence of numbers.
const SEQUENCE: Parts = &[("namespace N { undefined f(sequence<long> q); };", 1)];

/// An iterator whose `next` calls the operation again.
const CALLS_FROM_NEXT: Parts = &[(
    "function start()\nreturn this\nend\nfunction step()\ndo N.f(this)\nend\nlet o = object()\ndefine o[@iterator] = start\ndefine o.next = step\ndo N.f(o)\n",
    1,
)];

/// In each second one of a hundred open calls 4,096 levels wait, or an iterator.
const AGAIN: [Run; 2] = [
    (
        DEEPEST_RECORDS,
        HOLDS_ITSELF,
        MOST,
        Status::Stopped,
        Output::End(&[("get #22 \"valueOf\"\ncall #20 this #22 ()\nstop depth\n", 1)]),
    ),
    (
        SEQUENCE,
        CALLS_FROM_NEXT,
        MOST,
        Status::Stopped,
        Output::End(&[("get #22 \"next\"\ncall #21 this #22 ()\nstop depth\n", 1)]),
    ),
];

#[test]
fn conversions_wait_in_every_call(rt: HostRuntime) {
    expect_runs(&rt, rt.alloc(), &AGAIN);
}

/// An operation that takes a record of numbers.
const RECORD: Parts = &[(
    "namespace N { undefined f(record<DOMString, long> r); };",
    1,
)];

/// An array of 65,536 items as a record. A thousand items have getters, and one of the last deletes the item after it, hides the
/// next, puts another value in the place of the third, and adds a property.
const CHANGES: Parts = &[
    (
        "function h()\ndefine a.late = 1\ndelete a.late\nreturn 1\nend\nfunction g()\ndelete a[\"65531\"]\ndefine hidden a[\"65532\"] = 1\ndefine a[\"65533\"] = 7\ndefine a.late = 1\nreturn 1\nend\nlet a = array(1",
        1,
    ),
    (",1", 65_535),
    (")\n", 1),
    ("define a[\"`n`\"] get h\n", 1_000),
    ("define a[\"65530\"] get g\ndo N.f(a)\n", 1),
];

/// Each of 1,024 turns of an iterator hides 64 symbols in the object, of which a record is made then.
const SYMBOLS: Parts = &[
    (
        "function start()\nreturn this\nend\nfunction step()\nlet r = inner.next()\n",
        1,
    ),
    ("define hidden o[symbol()] = 1\n", 64),
    (
        "return r\nend\nlet o = object()\ndefine hidden o[@iterator] = start\ndefine hidden o.next = step\nlet inner = array(0",
        1,
    ),
    (",0", 1_022),
    (").values()\ndo N.f(o, o)\n", 1),
];

const BOTH: Parts = &[(
    "namespace N { undefined f(sequence<any> q, record<DOMString, long> r); };",
    1,
)];

const CHANGING: [Run; 2] = [
    (
        RECORD,
        CHANGES,
        MOST,
        Status::Done,
        Output::End(&[(
            "\"65529\": 1, \"65530\": 1, \"65533\": 7, \"65534\": 1, \"65535\": 1})\nret undefined\ndone\n",
            1,
        )]),
    ),
    (
        BOTH,
        SYMBOLS,
        MOST,
        Status::Done,
        Output::End(&[("0, 0], {})\nret undefined\ndone\n", 1)]),
    ),
];

#[test]
fn records_have_many_keys_that_change(rt: HostRuntime) {
    expect_runs(&rt, rt.alloc(), &CHANGING);
}

const MEMBERS: Parts = &[
    ("dictionary D { ", 1),
    ("long m`n`; ", 30_000),
    ("}; namespace N { undefined f(optional D d = {}); };", 1),
];

/// Nearly all units that there are, for members of nothing.
const NOTHING: Parts = &[("do N.f()\n", 60)];

/// A script of 1 MiB of one call's arguments.
const ARGUMENTS: Parts = &[("do N.f(1", 1), (",1", 524_283), (")\n", 1)];

const NUMBERS: Parts = &[("namespace N { undefined f(octet... a); };", 1)];

/// A script of 1 MiB with as many brackets in one another as a line may have, and 4,360 arrays in each but two.
const BRACKETS: Parts = &[
    ("do N.f(", 1),
    ("array(", 1),
    ("array(),", 4_360),
    ("array(", 1),
    ("array(),", 4_360),
    ("array(", 1),
    ("array(),", 4_360),
    ("array(", 1),
    ("array(),", 4_360),
    ("array(", 1),
    ("array(),", 4_360),
    ("array(", 1),
    ("array(),", 4_360),
    ("array(", 1),
    ("array(),", 4_360),
    ("array(", 1),
    ("array(),", 4_360),
    ("array(", 1),
    ("array(),", 4_360),
    ("array(", 1),
    ("array(),", 4_360),
    ("array(", 1),
    ("array(),", 4_360),
    ("array(", 1),
    ("array(),", 4_360),
    ("array(", 1),
    ("array(),", 4_360),
    ("array(", 1),
    ("array(),", 4_360),
    ("array(", 1),
    ("array(),", 4_360),
    ("array(", 1),
    ("array(),", 4_360),
    ("array(", 1),
    ("array(),", 4_360),
    ("array(", 1),
    ("array(),", 4_360),
    ("array(", 1),
    ("array(),", 4_360),
    ("array(", 1),
    ("array(),", 4_360),
    ("array(", 1),
    ("array(),", 4_360),
    ("array(", 1),
    ("array(),", 4_360),
    ("array(", 1),
    ("array(),", 4_360),
    ("array(", 1),
    ("array(),", 4_360),
    ("array(", 1),
    ("array(),", 4_360),
    ("array(", 1),
    ("array(),", 4_360),
    ("array(", 1),
    ("array(),", 4_360),
    ("array(", 1),
    ("array(),", 4_360),
    ("array(", 1),
    ("array(),", 4_360),
    ("array(", 1),
    ("array(),", 4_360),
    ("1", 1),
    (")", 31),
    ("\n", 1_957),
];

/// An operation that takes arrays in arrays, as many as may be.
const DEEP: Parts = &[
    ("namespace N { undefined f(", 1),
    ("sequence<", 15),
    ("any", 1),
    (">", 15),
    (" q); };", 1),
];

/// Sixteen levels of unions and sequences.
const UNIONS: Parts = &[
    ("namespace N { undefined f(", 1),
    ("(boolean or sequence<", 7),
    ("(boolean or octet)", 1),
    (">)", 7),
    (" u); };", 1),
];

/// Seven levels of arrays, each of which has the one below four times.
const SHARED: Parts = &[
    ("let a = array(300, 300, 300, 300)\n", 1),
    ("let a = array(a, a, a, a)\n", 6),
    ("do N.f(a)\n", 1),
];

const LONG: [Run; 4] = [
    (
        MEMBERS,
        NOTHING,
        MOST,
        Status::Done,
        Output::End(&[("op N.f#0 (D{})\nret undefined\ndone\n", 1)]),
    ),
    (
        NUMBERS,
        ARGUMENTS,
        MOST,
        Status::Done,
        Output::End(&[("1, 1, 1)\nret undefined\ndone\n", 1)]),
    ),
    (
        DEEP,
        BRACKETS,
        MOST,
        Status::Done,
        Output::End(&[("]]]]]]]]]]]]]]])\nret undefined\ndone\n", 1)]),
    ),
    (
        UNIONS,
        SHARED,
        MOST,
        Status::Done,
        Output::End(&[("44, 44]]]]]]])\nret undefined\ndone\n", 1)]),
    ),
];

#[test]
fn long_and_deep_values_are_converted(rt: HostRuntime) {
    expect_runs(&rt, rt.alloc(), &LONG);
}

/// As many overloads as a name may have, four of each length: these are told apart by a sequence, a record or a dictionary, a text
/// and a number.
const OVERLOADS: Parts = &[
    ("dictionary D { required long x; };\nnamespace N {\n", 1),
    (
        "undefined f(sequence<long> a`any 0+2`);
undefined f(record<DOMString, long> a`any 0+2`);
undefined f(DOMString a`any 0+2`);
undefined f(long a`any 0+2`);
undefined f(sequence<long> a`any 1+2`);
undefined f(D a`any 1+2`);
undefined f(DOMString a`any 1+2`);
undefined f(long a`any 1+2`);
",
        8,
    ),
    ("};", 1),
];

/// Calls of each of the overloads of 15 and of 16 arguments.
const OVERLOAD_CALLS: Parts = &[
    ("function g(a)\n", 1),
    ("do N.f(a, 1, 1, 1, 1, 1, 1, 1, 1, 1, 1, 1, 1, 1, 1)\n", 10),
    (
        "do N.f(a, 1, 1, 1, 1, 1, 1, 1, 1, 1, 1, 1, 1, 1, 1, 1)\n",
        10,
    ),
    (
        "end\nlet o = object()\ndefine o.x = 7\nlet a = array(7)\n",
        1,
    ),
    ("do g(a)\ndo g(o)\ndo g(\"a\")\ndo g(7)\n", 200),
];

const CALLED_OFTEN: [Run; 1] = [(
    OVERLOADS,
    OVERLOAD_CALLS,
    MOST,
    Status::Done,
    Output::End(&[(
        "op N.f#63 (7, 1, 1, 1, 1, 1, 1, 1, 1, 1, 1, 1, 1, 1, 1, 1)\nret undefined\nret undefined\ndone\n",
        1,
    )]),
)];

#[test]
fn overloads_of_containers_are_called_often(rt: HostRuntime) {
    expect_runs(&rt, rt.alloc(), &CALLED_OFTEN);
}
