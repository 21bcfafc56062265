//! Scripts of about the greatest length: each rule takes one walk over them.

use super::{accepted_set, expect_break};
use crate::made::{Parts, made};
use std::alloc::Global;
use std::process::Abort;

/// A fragment, a script over it, and the first rule that this breaks.
type Row = (Parts, Parts, &'static str);

const VARIADIC: Parts = &[(
    "callback C = undefined (unsigned long... a); namespace N { any f(C c); };",
    1,
)];

const LONG: [Row; 12] = [
    (
        VARIADIC,
        &[("do N.f(", 1), ("N,`n`,", 110_000), ("x)", 1)],
        "S5 1 878898",
    ),
    (
        VARIADIC,
        &[("do N.x`n`\n", 85_000), ("do x", 1)],
        "S5 85001 4",
    ),
    (VARIADIC, &[("do a", 1), ("`n`", 170_000)], "S5 1 4"),
    (
        VARIADIC,
        &[
            ("function f()\n", 1),
            ("let a`n`=1\n", 70_000),
            ("do a69999\nend\ndo a0", 1),
        ],
        "S5 70004 4",
    ),
    (
        VARIADIC,
        &[("function f()\nlet x = `n`\nend\n", 20_000)],
        "S8 4 10",
    ),
    (
        VARIADIC,
        &[
            ("function f`n`()\nend\n", 40_000),
            ("function f0()\nend", 1),
        ],
        "S8 80001 10",
    ),
    (
        VARIADIC,
        &[("function f(", 1), ("p`n`,", 70_000), ("p0)\nend", 1)],
        "S8 1 478902",
    ),
    (
        VARIADIC,
        &[("steps N.f#0\nthrow `n`\nend\n", 30_000)],
        "S10 4 7",
    ),
    (
        VARIADIC,
        &[
            ("steps N.f#0\n", 1),
            ("throw `n`\n", 80_000),
            ("return this\nend", 1),
        ],
        "S11 80002 8",
    ),
    (
        VARIADIC,
        &[
            ("steps N.f#0\n", 1),
            ("invoke arg 0 (literal `n`)\n", 35_000),
            ("clear\nend", 1),
        ],
        "S14 35002 1",
    ),
    (
        VARIADIC,
        &[
            ("steps N.f#0\ninvoke arg 0 (literal 0", 1),
            (",literal `n`", 70_000),
            (",literal -1)\nend", 1),
        ],
        "S13 2 968915",
    ),
    // a function of 75,000 parameters more than one, which are all arguments of one call, with one that is no name behind them
    (
        VARIADIC,
        &[
            ("function f(p", 1),
            (",p`n`", 75_000),
            (")\ndo N.f(p", 1),
            (",p`n`", 75_000),
            (",x)\nend", 1),
        ],
        "S5 2 513900",
    ),
];

const MANY_OPERATIONS: Parts = &[("namespace N { ", 1), ("any f`n`(); ", 40_000), ("};", 1)];

/// Blocks for each operation, and then one more for the first of them.
const BLOCKS: [Row; 2] = [
    (
        MANY_OPERATIONS,
        &[("steps N.f`n`#0\nend\n", 40_000)],
        "read",
    ),
    (
        MANY_OPERATIONS,
        &[
            ("steps N.f`n`#0\nend\n", 40_000),
            ("steps N.f0#0\nend\n", 1),
        ],
        "S10 80001 7",
    ),
];

/// A namespace whose name is an `a` and 92,000 numbers.
const LONG_NAME: Parts = &[
    ("namespace a", 1),
    ("`n`", 92_000),
    (" { any f(any a); };", 1),
];

/// The long name is that of a global variable, of an owner, and of an operation that isn't there.
const LONG_NAMES: [Row; 3] = [
    (
        LONG_NAME,
        &[
            ("do a", 1),
            ("`n`", 92_000),
            ("\nlet a", 1),
            ("`n`", 92_000),
            (" = 1", 1),
        ],
        "read",
    ),
    (
        LONG_NAME,
        &[
            ("do a", 1),
            ("`n`", 92_000),
            (".f\nsteps a", 1),
            ("`n`", 92_000),
            (".f#0\nend", 1),
        ],
        "read",
    ),
    (
        LONG_NAME,
        &[
            ("steps a", 1),
            ("`n`", 92_000),
            (".a", 1),
            ("`n`", 92_000),
            ("#0\nend", 1),
        ],
        "S9 1 7",
    ),
];

/// Reads scripts over sets of one file.
fn expect_long(rt: &impl Abort, alloc: Global, rows: &[Row]) {
    for (file, script, text) in rows {
        let list = accepted_set(rt, alloc, &made(rt, alloc, *file));
        expect_break(rt, alloc, &list, &made(rt, alloc, *script), text);
    }
}

#[test]
fn long_scripts_are_read(rt: HostRuntime) {
    expect_long(&rt, rt.alloc(), &LONG);
    expect_long(&rt, rt.alloc(), &BLOCKS);
    expect_long(&rt, rt.alloc(), &LONG_NAMES);
}
