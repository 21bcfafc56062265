//! The edges of the patterns, the ties, the places, and the law's function.

use crate::shared::{expect, sure};
use std::alloc::Global;
use std::fmt::Write;
use std::process::Abort;
use widl_lex::{LexFault, TokenKind, Tokens, each_text_has_one_cut};

/// A letter for each kind.
fn letter(kind: TokenKind) -> &'static str {
    match kind {
        TokenKind::Quoted => "q",
        TokenKind::Integer => "i",
        TokenKind::Decimal => "d",
        TokenKind::Identifier => "n",
        TokenKind::Text => "t",
        TokenKind::Other => "o",
    }
}

/// The tokens of a text, each as a letter, its offset and its length.
fn spelled(rt: &impl Abort, alloc: Global, text: &[u8]) -> String {
    let mut out = String::new(alloc);
    assert!(rt; text.len() <= 1000);
    let tokens = sure(rt, Tokens::read(alloc, 7, text));
    for place in 0..tokens.len() {
        let token = tokens.at(place);
        let (kind, offset, length) = (letter(token.kind), token.at.at, token.text.len());
        sure(rt, write!(out, "{kind}{offset}+{length} "));
    }
    out
}

/// Texts and their tokens.
const PATTERNS: [(&str, &str); 46] = [
    ("", ""),
    ("0", "i0+1 "),
    ("08", "i0+1 i1+1 "),
    ("017", "i0+3 "),
    ("0x", "i0+1 n1+1 "),
    ("0x1G", "i0+3 n3+1 "),
    ("-0x1F", "i0+5 "),
    ("-12", "i0+3 "),
    ("--1", "o0+1 i1+2 "),
    ("1.", "d0+2 "),
    ("1..2", "d0+2 d2+2 "),
    (".5e-3", "d0+5 "),
    ("08.5", "d0+4 "),
    ("1e3", "d0+3 "),
    ("1e+", "i0+1 n1+1 o2+1 "),
    ("1E-7x", "d0+4 n4+1 "),
    ("-.5", "d0+3 "),
    ("-Infinity", "q0+9 "),
    ("-Infinitys", "n0+10 "),
    ("Infinity", "q0+8 "),
    ("...", "q0+3 "),
    ("..", "o0+1 o1+1 "),
    ("....", "q0+3 o3+1 "),
    ("_", "o0+1 "),
    ("__a", "o0+1 n1+2 "),
    ("_interface", "n0+10 "),
    ("interface", "q0+9 "),
    ("interfaces", "n0+10 "),
    ("-a", "n0+2 "),
    ("string", "n0+6 "),
    ("async_iterable or", "q0+14 q15+2 "),
    (
        "(){}[]<>=?:;,*",
        "q0+1 q1+1 q2+1 q3+1 q4+1 q5+1 q6+1 q7+1 q8+1 q9+1 q10+1 q11+1 q12+1 q13+1 ",
    ),
    ("!/", "o0+1 o1+1 "),
    ("\"\"\"a b\"", "t0+2 t2+5 "),
    ("\"unclosed", "o0+1 n1+8 "),
    ("/* unclosed", "o0+1 q1+1 n3+8 "),
    ("/*/", "o0+1 q1+1 o2+1 "),
    ("/**/x", "n4+1 "),
    ("/* a **/b*/", "n8+1 q9+1 o10+1 "),
    ("a/*b*/c/*d*/e", "n0+1 n6+1 n12+1 "),
    ("/* /* */ /* /*", "o9+1 q10+1 o12+1 q13+1 "),
    ("//", ""),
    ("a//b\nc", "n0+1 n5+1 "),
    ("\t\r\n a", "n4+1 "),
    ("\u{FFFF}\u{E9}\u{1F600}", "o0+3 o3+2 o5+4 "),
    ("a\u{C}b", "n0+1 o1+1 n2+1 "),
];

fn expect_patterns(rt: &impl Abort, alloc: Global, rows: &[(&str, &str)]) {
    for (text, wanted) in rows {
        let found = spelled(rt, alloc, text.as_bytes());
        expect(rt, found.as_str() == *wanted, text);
    }
}

/// The place of the UTF-8 fault, or 99 where there is none.
fn fault_at(rt: &impl Abort, alloc: Global, text: &[u8]) -> u32 {
    assert!(rt; text.len() <= 1000);
    match Tokens::read(alloc, 7, text) {
        Err(LexFault::NotUtf8(place)) if place.file == 7 => place.at,
        _ => 99,
    }
}

/// Texts and the places of their faults.
const FAULTS: [(&[u8], u32); 14] = [
    (b"ab", 99),
    (b"ab\x80", 2),
    (b"\xC0\x80", 0),
    (b"a\xF5", 1),
    (b"a\xC2A", 2),
    (b"a\xC2", 2),
    (b"\xE0\x80\x80", 1),
    (b"\xED\xA0\x80", 1),
    (b"\xF0\x80\x80\x80", 1),
    (b"\xF4\x90\x80\x80", 1),
    (b"a\xE2\x82", 3),
    (b"\xE2\x82A", 2),
    (b"\xF0\x9F\x98A", 3),
    (b"\"\xEF\xBF\xBF\"\xFF", 5),
];

fn expect_faults(rt: &impl Abort, alloc: Global, rows: &[(&[u8], u32)]) {
    for (text, wanted) in rows {
        assert!(rt; fault_at(rt, alloc, text) == *wanted, "{text:?}");
    }
}

fn expect_places(rt: &impl Abort, alloc: Global) {
    let tokens = sure(rt, Tokens::read(alloc, 7, b"a // the end"));
    assert!(rt; tokens.len() == 1);
    let token = tokens.at(0);
    expect(
        rt,
        tokens.file() == 7 && tokens.end() == 12,
        "the file and the end",
    );
    expect(rt, token.at.file == 7, "the token's file");
    expect(rt, token.text == b"a".as_slice(), "the token's text");
}

#[test]
fn tokens_and_faults_have_places(rt: HostRuntime) {
    each_text_has_one_cut();
    expect_patterns(&rt, rt.alloc(), &PATTERNS);
    expect_faults(&rt, rt.alloc(), &FAULTS);
    expect_places(&rt, rt.alloc());
}
