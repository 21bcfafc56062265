//! How deep brackets and blocks nest: each kind of bracket and of block at 32 levels, which fit, and at 33, which are
//! one too many. The rows were worked by hand: where level 33 begins is the bracket, or the word that opens the block.

use std::alloc::Global;
use std::process::Abort;
use widl_lines::{ScriptFault, ScriptWords};

/// What comes first, what opens a level, what stands in the last one, and what closes a level.
type Parts = [&'static str; 4];

/// The parts of a script, how often a level is opened for 32 in all, how many lines with words the script then has, and
/// the line and the column where level 33 begins.
type Nest = (Parts, usize, usize, usize, usize);

const NESTS: &[Nest] = &[
    (["do ", "f(", "", ")"], 32, 1, 1, 69),
    (["do ", "f(1,", "1", ")"], 32, 1, 1, 133),
    (["do ", "f(1)(", "", ")"], 32, 1, 1, 165),
    (["do ", "o.f(", "", ")"], 32, 1, 1, 135),
    (["do ", "o[", "1", "]"], 32, 1, 1, 69),
    (["do ", "o.a[", "1", "]"], 32, 1, 1, 135),
    (["delete ", "o[", "1", "]"], 32, 1, 1, 73),
    (["do ", "array(", "", ")"], 32, 1, 1, 201),
    (["do ", "array(1,", "1", ")"], 32, 1, 1, 265),
    (["do ", "object(", "", ")"], 32, 1, 1, 234),
    (["do ", "call(", "1", ",1)"], 32, 1, 1, 168),
    (["do ", "call(1,", "1", ")"], 32, 1, 1, 232),
    (["do ", "call(1,1,", "1", ")"], 32, 1, 1, 296),
    (["do ", "new(", "1", ")"], 32, 1, 1, 135),
    (["do ", "new(1,", "1", ")"], 32, 1, 1, 199),
    (["do ", "f(", "symbol()", ")"], 31, 1, 1, 74),
    (["do ", "f(", "object()", ")"], 31, 1, 1, 74),
    (["", "try\n", "", "catch e\nend\n"], 32, 96, 33, 1),
    (["", "try\ncatch e\n", "", "end\n"], 32, 96, 65, 1),
    (["", "if 1 is 1\n", "", "end\n"], 32, 64, 33, 1),
    (["", "if 1 is 1\nelse\n", "", "end\n"], 32, 96, 65, 1),
    (["", "function f(a)\n", "", "end\n"], 32, 64, 33, 1),
    (["", "steps N.f#0\n", "", "end\n"], 32, 64, 33, 1),
];

fn push_times(rt: &impl Abort, script: &mut Vec<u8>, text: &str, times: usize) {
    for _ in 0..times {
        script
            .extend_from_slice(text.as_bytes())
            .expect(rt, "memory");
    }
}

fn script_of(rt: &impl Abort, alloc: Global, parts: &Parts, times: usize) -> Vec<u8> {
    let [head, opening, inner, closing] = parts;
    let mut script = Vec::new(alloc);
    push_times(rt, &mut script, head, 1);
    push_times(rt, &mut script, opening, times);
    push_times(rt, &mut script, inner, 1);
    push_times(rt, &mut script, closing, times);
    script
}

/// The rule that a script breaks first, its line and its column; rule 0 where it breaks none, and the number of its lines
/// with words.
fn read_of(rt: &impl Abort, alloc: Global, script: &[u8]) -> (u8, usize, usize) {
    assert!(rt; script.len() <= 10_000);
    match ScriptWords::read(alloc, script) {
        Ok(words) => (0, words.lines().len(), 1),
        Err(ScriptFault::Refused(place)) => (
            place.rule,
            place.line as usize,
            place.column as usize,
        ),
        Err(ScriptFault::Memory) => panic!(rt; "no memory"),
    }
}

/// Reads the script in which a level is opened so often.
fn expect_read(
    rt: &impl Abort,
    alloc: Global,
    parts: &Parts,
    times: usize,
    wanted: (u8, usize, usize),
) {
    let script = script_of(rt, alloc, parts, times);
    let (rule, line, column) = read_of(rt, alloc, &script);
    let (wanted_rule, wanted_line, wanted_column) = wanted;
    assert!(rt;
        rule == wanted_rule && line == wanted_line && column == wanted_column,
        "{script:?}"
    );
}

/// Reads the script of each row with 32 levels, and with one more.
fn expect_nests(rt: &impl Abort, alloc: Global, nests: &[Nest]) {
    for (parts, times, lines, line, column) in nests {
        assert!(rt; *times <= 32);
        expect_read(rt, alloc, parts, *times, (0, *lines, 1));
        expect_read(rt, alloc, parts, *times + 1, (3, *line, *column));
    }
}

#[test]
fn brackets_and_blocks_nest_32_levels(rt: HostRuntime) {
    expect_nests(&rt, rt.alloc(), NESTS);
}
