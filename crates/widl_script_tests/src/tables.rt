//! The tables of scripts that aren't run yet, and of long ones.

use crate::built::{built_of, put, sure};
use crate::steps_rows::write_block;
use std::alloc::Global;
use std::mem;
use std::process::Abort;
use widl_script_tree::ScriptTables;

/// Adds a text, many times.
fn put_many(rt: &impl Abort, out: &mut String, count: usize, text: &str) {
    for _ in 0..count {
        put(rt, out, text);
    }
}

/// The steps blocks of a script, each with its lines, are these.
fn expect_blocks(rt: &impl Abort, alloc: Global, script: &str, text: &str) {
    let built = built_of(rt, alloc, script);
    let mut out = String::new(alloc);
    for number in 0..built.tables.steps_count() {
        if let Some(block) = built.tables.steps(number) {
            write_block(rt, &mut out, block);
            put(rt, &mut out, "\n");
        }
    }
    mem::forget(built);
    assert!(rt; out.as_str() == text, "{script}");
}

/// How many expressions, statements, functions, steps blocks and names there are.
type Counts = [u32; 5];

fn counts_of(tables: &ScriptTables) -> Counts {
    [
        tables.expression_count(),
        tables.statement_count(),
        tables.function_count(),
        tables.steps_count(),
        tables.name_count(),
    ]
}

/// Steps blocks of every kind, also for what isn't served.
const BLOCKS: [(&str, &str); 12] = [
    ("steps N.f#1\nend", "operation false 1 N.f\n"),
    ("steps I.static f#0\nend", "operation true 0 I.f\n"),
    (
        "steps I.static#2\nend\nsteps I.get#0\nend",
        "operation false 2 I.static\noperation false 0 I.get\n",
    ),
    (
        "steps I.toString # 4294967296\nend",
        "operation false 4294967295 I.toString\n",
    ),
    ("steps I.constructor#0\nend", "constructor 0 I\n"),
    ("steps I.get get\nend", "getter I.get\n"),
    ("steps N-a.set b-c\nend", "setter N-a.b-c\n"),
    ("steps I.toString\nend", "stringifier I\n"),
    (
        "steps N.f#0\nreturn arg 0\nreturn this\nreturn slot a-b\nclear\nend",
        "operation false 0 N.f / return arg 0 / return this / return slot a-b / clear\n",
    ),
    (
        "steps N.f#0\nslot a = arg 2\nslot arg = literal 0x1F\nappend slot slot literal 017\nend",
        "operation false 0 N.f / slot a = arg 2 / slot arg = 31 / append slot slot, 15\n",
    ),
    (
        "steps P.add#0\nappend arg 0 arg 1\nend\nlet p = new(P)\ndo p.add(\"a\", 1)",
        "operation false 0 P.add / append arg 0, arg 1\n",
    ),
    (
        "steps N.f#0\ninvoke arg 1 ()\nreturn invoke arg 0 (this, arg 1, literal 2)\nend\nsteps N.g#0\nthrow 1\nend",
        "operation false 0 N.f / invoke 1 / return invoke 0, this, arg 1, 2\noperation false 0 N.g / throw 1\n",
    ),
];

fn expect_all_blocks(rt: &impl Abort, alloc: Global, rows: &[(&str, &str)]) {
    for (script, text) in rows {
        expect_blocks(rt, alloc, script, text);
    }
}

/// Compares how much the tables of a script have.
fn expect_counts(rt: &impl Abort, alloc: Global, script: &str, counts: Counts) {
    let built = built_of(rt, alloc, script);
    let found = counts_of(&built.tables);
    mem::forget(built);
    assert!(rt; found == counts, "{found:?}");
}

/// Scripts of about 1 MiB, whose middle parts come so many times, and how much their tables have. What stands in a list is
/// counted twice, since it has an item there.
const LONG: [(&str, usize, &str, &str, Counts); 5] = [
    ("do o", 500_000, ".a", "", [500_001, 2, 0, 0, 2]),
    ("do f", 250_000, "()", "", [250_001, 2, 0, 0, 1]),
    ("do array(1", 499_999, ",1", ")", [1_000_001, 2, 0, 0, 0]),
    (
        "",
        50_000,
        "function f()\nend\n",
        "",
        [0, 100_000, 50_000, 0, 1],
    ),
    (
        "",
        65_000,
        "steps N.f#0\nend\n",
        "",
        [0, 130_000, 0, 65_000, 0],
    ),
];

/// A script of a head, a part that comes so many times, and a tail.
fn expect_long(rt: &impl Abort, alloc: Global, parts: (&str, usize, &str, &str), counts: Counts) {
    let (head, count, text, tail) = parts;
    let mut script = sure(rt, String::from_str(alloc, head));
    put_many(rt, &mut script, count, text);
    put(rt, &mut script, tail);
    expect_counts(rt, alloc, script.as_str(), counts);
}

type Long = (&'static str, usize, &'static str, &'static str, Counts);

fn expect_all_long(rt: &impl Abort, alloc: Global, rows: &[Long]) {
    for (head, count, text, tail, counts) in rows {
        expect_long(rt, alloc, (head, *count, text, tail), *counts);
    }
}

/// 32 open blocks with 200,000 lines.
fn expect_open_blocks(rt: &impl Abort, alloc: Global) {
    let mut script = String::new(alloc);
    put_many(rt, &mut script, 32, "if 1 is 1\n");
    put_many(rt, &mut script, 200_000, "do 1\n");
    put_many(rt, &mut script, 32, "end\n");
    expect_counts(rt, alloc, script.as_str(), [200_064, 400_064, 0, 0, 0]);
}

/// A function with so many parameters of different names.
fn many_parameters(rt: &impl Abort, alloc: Global, count: u32) -> String {
    let mut script = sure(rt, String::from_str(alloc, "function f(f"));
    for number in 0..count {
        put(rt, &mut script, ",");
        for letter in [number / 17_576, number / 676, number / 26, number] {
            sure(rt, script.push(char::from(b'A' + (letter % 26) as u8)));
        }
    }
    put(rt, &mut script, ")\nend");
    script
}

#[test]
fn blocks_have_targets_and_long_scripts_tables(rt: HostRuntime) {
    let alloc = rt.alloc();
    expect_all_blocks(&rt, alloc, &BLOCKS);
    expect_all_long(&rt, alloc, &LONG);
    expect_open_blocks(&rt, alloc);
    let script = many_parameters(&rt, alloc, 200_000);
    expect_counts(&rt, alloc, script.as_str(), [0, 2, 1, 0, 200_001]);
}
