//! Runs that end where a hundred calls are open.

use crate::made::Parts;
use crate::shared::{Output, Run, expect_runs};
use widl_top::Status;

/// An operation that takes a number of 32 bits.
const LONG: Parts = &[("namespace N { undefined f(long a); };", 1)];

/// An operation that takes a sequence of numbers.
const SEQUENCE: Parts = &[("namespace N { undefined f(sequence<long> q); };", 1)];

/// An operation that takes a record of numbers.
const RECORD: Parts = &[(
    "namespace N { undefined f(record<DOMString, long> r); };",
    1,
)];

/// A text or a sequence.
const CHOICE: Parts = &[(
    "namespace N { undefined f(DOMString s); undefined f(sequence<long> q); };",
    1,
)];

/// An operation that takes numbers or a dictionary.
const NUMBERS_OR_DICTIONARY: Parts = &[(
    "dictionary D { long x; }; namespace N { undefined f(optional (sequence<long> or D) u = {}); };",
    1,
)];

/// Of a hundred open calls every second one waits in a conversion, in one run each in its own steps, and in the last a getter reads itself.
const DEEP: [Run; 9] = [
    (
        LONG,
        &[(
            "function v()\nreturn N.f(this)\nend\nlet o = object()\nset o.valueOf = v\ndo N.f(o)\n",
            1,
        )],
        "100000",
        Status::Stopped,
        Output::Whole(&[
            (
                "call #19 this #18 (#21)\nget #21 @toPrimitive\nget #21 \"valueOf\"\ncall #20 this #21 ()\n",
                50,
            ),
            ("stop depth\n", 1),
        ]),
    ),
    (
        LONG,
        &[(
            "function g()\nreturn N.f(this)\nend\nlet o = object()\ndefine o.valueOf get g\ndo N.f(o)\n",
            1,
        )],
        "100000",
        Status::Stopped,
        Output::Whole(&[
            (
                "call #19 this #18 (#21)\nget #21 @toPrimitive\nget #21 \"valueOf\"\ncall #20 this #21 ()\n",
                50,
            ),
            ("stop depth\n", 1),
        ]),
    ),
    (
        &[],
        &[(
            "let o = object()\ndefine o[@toStringTag] get o.toString\ndo o.toString()\n",
            1,
        )],
        "100000",
        Status::Stopped,
        Output::Whole(&[
            ("call #8 this #18 ()\nget #18 @toStringTag\n", 100),
            ("stop depth\n", 1),
        ]),
    ),
    (
        SEQUENCE,
        &[(
            "function g()\nreturn N.f(this)\nend\nlet o = object()\ndefine o[@iterator] get g\ndo N.f(o)\n",
            1,
        )],
        "100000",
        Status::Stopped,
        Output::Whole(&[
            (
                "call #19 this #18 (#21)\nget #21 @iterator\ncall #20 this #21 ()\n",
                50,
            ),
            ("stop depth\n", 1),
        ]),
    ),
    (
        SEQUENCE,
        &[(
            "function m()\nreturn this\nend\nfunction n()\nreturn N.f(this)\nend\nlet o = object()\ndefine o[@iterator] = m\ndefine o.next = n\ndo N.f(o)\n",
            1,
        )],
        "100000",
        Status::Stopped,
        Output::Whole(&[
            (
                "call #19 this #18 (#22)\nget #22 @iterator\ncall #20 this #22 ()\nret #22\nget #22 \"next\"\ncall #21 this #22 ()\n",
                50,
            ),
            ("stop depth\n", 1),
        ]),
    ),
    (
        CHOICE,
        &[(
            "function m()\nreturn N.f(this)\nend\nlet o = object()\ndefine o[@iterator] = m\ndo N.f(o)\n",
            1,
        )],
        "100000",
        Status::Stopped,
        Output::Whole(&[
            (
                "call #19 this #18 (#21)\nget #21 @iterator\ncall #20 this #21 ()\n",
                50,
            ),
            ("stop depth\n", 1),
        ]),
    ),
    (
        RECORD,
        &[(
            "function g()\nreturn N.f(this)\nend\nlet o = object()\ndefine o.a get g\ndo N.f(o)\n",
            1,
        )],
        "100000",
        Status::Stopped,
        Output::Whole(&[
            (
                "call #19 this #18 (#21)\nkeys #21\nown #21 \"a\"\nget #21 \"a\"\ncall #20 this #21 ()\n",
                50,
            ),
            ("stop depth\n", 1),
        ]),
    ),
    (
        NUMBERS_OR_DICTIONARY,
        &[(
            "function g()\nreturn N.f(this)\nend\nlet o = object()\ndefine o.x get g\ndo N.f(o)\n",
            1,
        )],
        "100000",
        Status::Stopped,
        Output::Whole(&[
            (
                "call #19 this #18 (#21)\nget #21 @iterator\nget #21 \"x\"\ncall #20 this #21 ()\n",
                50,
            ),
            ("stop depth\n", 1),
        ]),
    ),
    (
        &[],
        &[(
            "function g()\nreturn o.x\nend\nlet o = object()\ndefine o.x get g\ndo o.x\n",
            1,
        )],
        "100000",
        Status::Stopped,
        Output::Whole(&[("call #18 this #19 ()\n", 100), ("stop depth\n", 1)]),
    ),
];

#[test]
fn conversions_wait_as_deep_as_calls_can_be(rt: HostRuntime) {
    expect_runs(&rt, rt.alloc(), &DEEP);
}
