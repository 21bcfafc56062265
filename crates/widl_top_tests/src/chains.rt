//! Chains of as many dictionaries as there may be, each the only member of the next, plain and in as many sequences as a type may
//! have: one is converted, copied, made again and let go, and some wait at once.

use crate::made::Parts;
use crate::shared::{MOST, Output, Run, expect_runs};
use widl_top::Status;

/// The dictionaries, each with the one before as its only member, and an operation that takes the last one.
const PLAIN: Parts = &[
    ("dictionary D0 { long v; };", 1),
    ("dictionary D`m` { D`n` v; };", 255),
    ("namespace N { undefined f(optional D255 d = {}); };", 1),
];

/// The same, where each member stands in 15 sequences.
const DEEP: Parts = &[
    ("dictionary D0 { long v; };", 1),
    (
        "dictionary D`m` { sequence<sequence<sequence<sequence<sequence<sequence<sequence<sequence<sequence<sequence<sequence<sequence<sequence<sequence<sequence<D`n`>>>>>>>>>>>>>>> v; };",
        255,
    ),
    ("namespace N { undefined f(optional D255 d = {}); };", 1),
];

/// Its operation gives back what it takes.
const GIVES_BACK: Parts = &[
    ("dictionary D0 { long v; };", 1),
    (
        "dictionary D`m` { sequence<sequence<sequence<sequence<sequence<sequence<sequence<sequence<sequence<sequence<sequence<sequence<sequence<sequence<sequence<D`n`>>>>>>>>>>>>>>> v; };",
        255,
    ),
    ("namespace N { D255 f(optional D255 d = {}); };", 1),
];

const HOLDS_ITSELF: Parts = &[("let o = object()\nset o.v = o\ndo N.f(o)\n", 1)];

const CONVERTED: Parts = &[
    ("call #19 this #18 (#20)\n", 1),
    ("get #20 \"v\"\n", 256),
    (
        "get #20 @toPrimitive\nget #20 \"valueOf\"\ncall #9 this #20 ()\nret #20\nget #20 \"toString\"\ncall #8 this #20 ()\nget #20 @toStringTag\nret \"[object Object]\"\n",
        1,
    ),
    ("op N.f#0 (", 1),
    ("D`255-1`{v: ", 255),
    ("D0{v: 0}", 1),
    ("}", 255),
    (")\nret undefined\ndone\n", 1),
];

/// An object that is its own member is converted to the plain chain.
const PLAIN_RUNS: [Run; 1] = [(
    PLAIN,
    HOLDS_ITSELF,
    "10000",
    Status::Done,
    Output::Whole(CONVERTED),
)];

#[test]
fn an_object_that_holds_itself_is_converted(rt: HostRuntime) {
    expect_runs(&rt, rt.alloc(), &PLAIN_RUNS);
}

/// An array whose only item and member it is itself, and whose number is 7.
const ITS_OWN_ITEM: Parts = &[(
    "steps N.f#0\nreturn arg 0\nend\nfunction seven()\nreturn 7\nend\nlet a = array()\nset a[\"0\"] = a\ndefine a.v = a\ndefine a.valueOf = seven\nshow N.f(a)\n",
    1,
)];

/// What is written from the last read on. 3,825 iterators wait, as many as the members of 255 dictionaries stand in sequences: their
/// last turns come from the innermost out, and each has a new object as its result.
const COMES_AND_GOES: Parts = &[
    (
        "get #21 \"v\"\nget #21 @toPrimitive\nget #21 \"valueOf\"\ncall #20 this #21 ()\nret 7\n",
        1,
    ),
    (
        "call #13 this #`7670-2` ()\nget #21 \"length\"\nret #`7672+1`\nget #`7672+1` \"done\"\n",
        3_825,
    ),
    ("op N.f#0 (", 1),
    ("D`255-1`{v: [[[[[[[[[[[[[[[", 255),
    ("D0{v: 7}", 1),
    ("]]]]]]]]]]]]]]]}", 255),
    (")\nret #15577\nshow #15577\ndone\n", 1),
];

/// The value has 4,081 levels. It comes back as so many objects, the first of them #11497.
const DEEPEST: [Run; 1] = [(
    GIVES_BACK,
    ITS_OWN_ITEM,
    MOST,
    Status::Done,
    Output::End(COMES_AND_GOES),
)];

#[test]
fn the_deepest_value_comes_and_goes(rt: HostRuntime) {
    expect_runs(&rt, rt.alloc(), &DEEPEST);
}

/// The value of the innermost member calls the operation again.
const CALLS_AGAIN: Parts = &[(
    "let o = object()\nset o.v = o\nfunction t()\ndo N.f(o)\nend\ndefine o.valueOf = t\ndo N.f(o)\n",
    1,
)];

/// The same with an object that is its own iterator and gives itself in every turn. The statements outside functions take 16 units, and
/// each conversion 38,511 with its calls: 10 for each sequence, one for each dictionary, and 5 for the lines of the two calls, the
/// statement in the second, and what is read in front of it.
const TURNS_AGAIN: Parts = &[(
    "function m()\nreturn this\nend\nfunction n()\nreturn r\nend\nfunction t()\ndo N.f(o)\nend\nlet r = object()\nlet o = object()\ndefine r.value = o\ndefine o[@iterator] = m\ndefine o.next = n\ndefine o.v = o\ndefine o.valueOf = t\ndo N.f(o)\n",
    1,
)];

/// Scripts over a chain that end where a hundred calls are open.
const WAITING: [Run; 2] = [
    (
        PLAIN,
        CALLS_AGAIN,
        MOST,
        Status::Stopped,
        Output::End(&[("get #20 \"valueOf\"\ncall #21 this #20 ()\nstop depth\n", 1)]),
    ),
    (
        DEEP,
        TURNS_AGAIN,
        "1925566",
        Status::Stopped,
        Output::End(&[("get #24 \"valueOf\"\ncall #22 this #24 ()\nstop depth\n", 1)]),
    ),
];

#[test]
fn chains_wait_in_fifty_calls(rt: HostRuntime) {
    expect_runs(&rt, rt.alloc(), &WAITING);
}
