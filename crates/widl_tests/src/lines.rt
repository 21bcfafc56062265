//! What words are, the first breaks of small scripts, and hostile scripts of 1 MiB.

use crate::shared::{expect, sure};
use std::alloc::Global;
use std::process::Abort;
use widl_lines::{
    ScriptFault, ScriptWords, Terminal, WordForm, integer_of, is_large, terminal_of, units_of,
};

/// Words and their terminals.
const WORDS: [(&[u8], Terminal); 41] = [
    (b"let", Terminal::Let),
    (b"toString", Terminal::ToString),
    (b"@toPrimitive", Terminal::ToPrimitiveSymbol),
    (b"-Infinity", Terminal::MinusInfinity),
    (b"Infinity", Terminal::Infinity),
    (b"#", Terminal::NumberSign),
    (b"=", Terminal::Equals),
    (b"a", Terminal::Name),
    (b"lets", Terminal::Name),
    (b"a_1", Terminal::Name),
    (b"_", Terminal::UnderscoredName),
    (b"_let", Terminal::UnderscoredName),
    (b"__a1", Terminal::UnderscoredName),
    (b"a-b", Terminal::DashedName),
    (b"-x", Terminal::DashedName),
    (b"a--", Terminal::DashedName),
    (b"_a-b", Terminal::Unknown),
    (b"--a", Terminal::Unknown),
    (b"0-1", Terminal::Unknown),
    (b"0", Terminal::Natural),
    (b"10", Terminal::Natural),
    (b"-1", Terminal::Negative),
    (b"-10", Terminal::Negative),
    (b"-0", Terminal::OtherInteger),
    (b"00", Terminal::OtherInteger),
    (b"017", Terminal::OtherInteger),
    (b"-017", Terminal::OtherInteger),
    (b"0x1F", Terminal::OtherInteger),
    (b"-0Xff", Terminal::OtherInteger),
    (b"018", Terminal::Unknown),
    (b"0x", Terminal::Unknown),
    (b"0xg", Terminal::Unknown),
    (b"12ab", Terminal::Unknown),
    (b"1e3", Terminal::Unknown),
    (b"-", Terminal::Unknown),
    (b"@", Terminal::Unknown),
    (b"@foo", Terminal::Unknown),
    (b"\"", Terminal::Unknown),
    (b"+", Terminal::Unknown),
    (b"", Terminal::Unknown),
    (b"\xC3", Terminal::Unknown),
];

/// A word of a form has this terminal.
fn expect_terminal(rt: &impl Abort, form: WordForm, word: &[u8], terminal: Terminal) {
    assert!(rt; terminal_of(form, word) == terminal, "{word:?}");
}

fn expect_terminals(rt: &impl Abort, rows: &[(&[u8], Terminal)]) {
    for (word, terminal) in rows {
        expect_terminal(rt, WordForm::Bare, word, *terminal);
    }
}

/// Texts and their units.
const TEXTS: [(&[u8], &[u16]); 8] = [
    (b"\"\"", &[]),
    (b"\"ab\"", &[97, 98]),
    (b"\"\\\"\\\\\\n\"", &[34, 92, 10]),
    (b"\"\\u0041\\uD83d\"", &[0x41, 0xD83D]),
    (b"\"\\u00410\"", &[0x41, 48]),
    (b"\"\xC3\xA9\"", &[0xE9]),
    (b"\"\xE2\x82\xAC\"", &[0x20AC]),
    (b"\"\xF0\x9F\x98\x80\"", &[0xD83D, 0xDE00]),
];

const MALFORMED: [&[u8]; 6] = [
    b"\"\\q\"",
    b"\"\\u004\"",
    b"\"\\u004g\"",
    b"\"\\\"",
    b"\"\\u\"",
    b"\"\\N\"",
];

/// The units of a text are these, or it has none where it is malformed.
fn expect_units(
    rt: &impl Abort,
    alloc: Global,
    form: WordForm,
    word: &[u8],
    wanted: Option<&[u16]>,
) {
    let is_so = match (sure(rt, units_of(alloc, form, word)), wanted) {
        (Some(units), Some(wanted)) => units.as_slice() == wanted,
        (None, None) => true,
        _ => false,
    };
    assert!(rt; is_so, "{word:?}");
}

fn expect_texts(rt: &impl Abort, alloc: Global, rows: &[(&[u8], &[u16])]) {
    for (word, units) in rows {
        expect_terminal(rt, WordForm::Text, word, Terminal::Text);
        expect_units(rt, alloc, WordForm::Text, word, Some(units));
    }
    let raw = b"\"\\n\"";
    expect_units(rt, alloc, WordForm::RawText, raw, Some(&[92, 110]));
}

fn expect_malformed(rt: &impl Abort, alloc: Global, rows: &[&[u8]]) {
    for word in rows {
        expect_terminal(rt, WordForm::Text, word, Terminal::Unknown);
        expect_terminal(rt, WordForm::RawText, word, Terminal::Text);
        expect_units(rt, alloc, WordForm::Text, word, None);
    }
}

/// A word of this form is too large or not.
fn expect_large(rt: &impl Abort, form: WordForm, word: &[u8], large: bool) {
    assert!(rt; is_large(form, word) == large, "{form:?}");
}

/// Integers, their values, and whether they are too large.
const INTEGERS: [(&[u8], i128, bool); 6] = [
    (b"18446744073709551616", 18_446_744_073_709_551_616, false),
    (b"18446744073709551617", 18_446_744_073_709_551_617, true),
    (b"-18446744073709551617", -18_446_744_073_709_551_617, true),
    (b"0x10000000000000000", 18_446_744_073_709_551_616, false),
    (b"-0x10000000000000001", -18_446_744_073_709_551_617, true),
    (b"017", 15, false),
];

/// A text of 1,000 units is none too large, and one of a unit more is.
fn expect_large_texts(rt: &impl Abort, alloc: Global) {
    let longest = script_of(rt, alloc, b"\"", b"a", 1000, b"\"");
    expect_large(rt, WordForm::Text, &longest, false);
    let longer = script_of(rt, alloc, b"\"", b"a", 1000, b"\\u0061\"");
    expect_large(rt, WordForm::Text, &longer, true);
    expect_large(rt, WordForm::RawText, &longer, true);
    expect_large(rt, WordForm::Unclosed, &longer, false);
}

fn expect_integers(rt: &impl Abort, rows: &[(&[u8], i128, bool)]) {
    for (word, value, large) in rows {
        assert!(rt; integer_of(word) == *value, "{word:?}");
        expect_large(rt, WordForm::Bare, word, *large);
    }
}

#[test]
fn words_have_terminals_units_and_limits(rt: HostRuntime) {
    expect_terminals(&rt, &WORDS);
    expect_texts(&rt, rt.alloc(), &TEXTS);
    expect_malformed(&rt, rt.alloc(), &MALFORMED);
    expect_integers(&rt, &INTEGERS);
    expect_large_texts(&rt, rt.alloc());
}

/// The first break of a script as `S2 1 8`, the number of its lines with words where it has none.
fn answer(rt: &impl Abort, alloc: Global, script: &[u8]) -> String {
    assert!(rt; script.len() <= 1_048_576);
    let answer = match ScriptWords::read(alloc, script) {
        Ok(words) => {
            let count = words.lines().len();
            format!(in alloc; "fits {count}")
        }
        Err(ScriptFault::Refused(place)) => {
            let (rule, line, column) = (place.rule, place.line, place.column);
            format!(in alloc; "S{rule} {line} {column}")
        }
        Err(ScriptFault::Memory) => String::from_str(alloc, "memory"),
    };
    sure(rt, answer)
}

/// What is read of a script is this.
fn expect_answer(rt: &impl Abort, alloc: Global, script: &[u8], wanted: &str) {
    expect(rt, answer(rt, alloc, script).as_str() == wanted, wanted);
}

/// Scripts and what is read of them.
const FIRST_BREAKS: [(&[u8], &str); 45] = [
    (b"do 1\n\x80", "S1 2 1"),
    (b"do \"\xC3", "S1 1 6"),
    (b"", "fits 0"),
    (b"# a\n\n \t\r\n", "fits 0"),
    (b"do N.f(", "S2 1 8"),
    (b"do ", "S2 1 4"),
    (b"do", "S2 1 3"),
    (b"do\r\n", "S2 1 3"),
    (b"do\r", "S2 1 4"),
    (b"do N . f ( 1 )", "fits 1"),
    (b"do 01", "S2 1 4"),
    (b"do 1.5", "S2 1 6"),
    (b"do 1e3", "S2 1 4"),
    (b"do @foo", "S2 1 4"),
    (b"set f() = 1", "S2 1 9"),
    (b"set f().a = 1", "fits 1"),
    (b"do \"a", "S2 1 6"),
    (b"do 1 \"a", "S2 1 6"),
    (b"do \"\\q\"", "S2 1 4"),
    (b"do \"\\u00g0\"", "S2 1 4"),
    (b"do \"\\uD83d\\n\\\\\\\"\"", "fits 1"),
    (b" # x", "S2 1 2"),
    (b"do x.end", "fits 1"),
    (b"do 1 18446744073709551617", "S2 1 6"),
    (b"show 18446744073709551616", "fits 1"),
    (b"show -18446744073709551616", "fits 1"),
    (b"show 18446744073709551617", "S4 1 6"),
    (b"show f(18446744073709551617", "S4 1 8"),
    (b"do a-b", "S2 1 5"),
    (b"if slot is-1\nend", "fits 2"),
    (b"append arg 0 arg 0", "S2 1 1"),
    (b"steps N.f#0\ndo 1\nend", "S2 2 1"),
    (b"steps N.f#0-1\nend", "S2 1 11"),
    (b"steps _N.f#0\nend", "S2 1 7"),
    (
        b"steps N-a . f-b # 0\nappend arg 0 literal \"\\q\"\nreturn slot a-b\nend",
        "fits 4",
    ),
    (b"steps N.f#0\nreturn literal 1.5\nend", "S2 2 16"),
    (b"steps N.f#0\nreturn literal 0x1F.5\nend", "S2 2 20"),
    (b"steps N.f#0\nreturn literal true.5\nend", "S2 2 20"),
    (b"steps N.f#0\nreturn literal 0x1F\nend", "fits 3"),
    (b"end", "S6 1 1"),
    (b"try\nend", "S6 2 1"),
    (b"try\nelse", "S6 2 1"),
    (b"if 1 is 1\ncatch x", "S6 2 1"),
    (b"try\n\n", "S6 1 1"),
    (b"do x\nend", "S6 2 1"),
];

const FIRST_BREAKS_IN_BLOCKS: [(&[u8], &str); 3] = [
    (b"steps N.f#0\ncatch e", "S6 2 1"),
    (b"if 1 is 1\nelse\nelse", "S6 3 1"),
    (
        b"function f(a, b)\ntry\nreturn a\ncatch e\nif e is 1\nelse\nend\nend\nend",
        "fits 9",
    ),
];

fn expect_breaks(rt: &impl Abort, alloc: Global, rows: &[(&[u8], &str)]) {
    for (script, wanted) in rows {
        expect_answer(rt, alloc, script, wanted);
    }
}

/// The head, the body that many times, and the tail.
fn script_of(
    rt: &impl Abort,
    alloc: Global,
    head: &[u8],
    body: &[u8],
    count: usize,
    tail: &[u8],
) -> Vec<u8> {
    let mut script = Vec::new(alloc);
    sure(rt, script.extend_from_slice(head));
    for _ in 0..count {
        sure(rt, script.extend_from_slice(body));
    }
    sure(rt, script.extend_from_slice(tail));
    script
}

/// A head, a body and how often it stands there, a tail, and what is read of the script.
type Repeated = (
    &'static [u8],
    &'static [u8],
    usize,
    &'static [u8],
    &'static str,
);

const LIMITS: [Repeated; 8] = [
    (b"", b"try\n", 33, b"show 1", "S3 33 1"),
    (b"", b"try\n", 32, b"", "S6 32 1"),
    (b"do ", b"f(", 33, b"", "S3 1 69"),
    (b"do ", b"f(", 32, b"", "S2 1 68"),
    (b"show \"", b"a", 1000, b"\"", "fits 1"),
    (b"show \"", b"a", 1001, b"\"", "S4 1 6"),
    (b"show \"", b"\\u00e9", 1000, b"\"", "fits 1"),
    (b"show \"", b"a", 2000, b"", "S2 1 2007"),
];

const HOSTILE_LINES: [Repeated; 5] = [
    (b"", b"do 1\n", 209_715, b"", "fits 209715"),
    (b"", b"\n", 1_048_576, b"", "fits 0"),
    (b"", b"\r", 1_048_576, b"", "fits 0"),
    (b"", b" ", 1_048_576, b"", "fits 0"),
    (b"", b"#", 1_048_576, b"", "fits 0"),
];

const HOSTILE_WORDS: [Repeated; 6] = [
    (b"", b"a", 1_048_576, b"", "S2 1 1"),
    (b"", b"-", 1_048_576, b"", "S2 1 1"),
    (b"", b"@", 1_048_576, b"", "S2 1 1"),
    (b"", b"\"", 1_048_576, b"", "S2 1 1"),
    (b"", b"\"a\"", 349_525, b"", "S2 1 1"),
    (b"", b"(", 1_048_576, b"", "S2 1 1"),
];

const HOSTILE_EXPRESSIONS: [Repeated; 5] = [
    (b"do f(1", b",1", 524_284, b")", "fits 1"),
    (b"do o", b".a", 524_286, b"", "fits 1"),
    (b"do o", b"[1]", 349_524, b"", "fits 1"),
    (b"do ", b"9", 1_048_573, b"", "S4 1 4"),
    (b"do \"", b"\\u0000", 174_761, b"\"", "S4 1 4"),
];

fn expect_repeated(rt: &impl Abort, alloc: Global, rows: &[Repeated]) {
    for (head, body, count, tail, wanted) in rows {
        let script = script_of(rt, alloc, head, body, *count, tail);
        expect_answer(rt, alloc, &script, wanted);
    }
}

/// 32 open blocks, and 200,000 lines in them.
fn expect_blocks(rt: &impl Abort, alloc: Global) {
    let opened = script_of(rt, alloc, b"", b"if 1 is 1\n", 32, b"");
    let closed = script_of(rt, alloc, b"", b"end\n", 32, b"");
    let script = script_of(rt, alloc, &opened, b"do 1\n", 200_000, &closed);
    expect_answer(rt, alloc, &script, "fits 200064");
}

#[test]
fn first_breaks_of_small_and_hostile_scripts(rt: HostRuntime) {
    let alloc = rt.alloc();
    expect_breaks(&rt, alloc, &FIRST_BREAKS);
    expect_breaks(&rt, alloc, &FIRST_BREAKS_IN_BLOCKS);
    expect_repeated(&rt, alloc, &LIMITS);
    expect_repeated(&rt, alloc, &HOSTILE_LINES);
    expect_repeated(&rt, alloc, &HOSTILE_WORDS);
    expect_repeated(&rt, alloc, &HOSTILE_EXPRESSIONS);
    expect_blocks(&rt, alloc);
}
