//! The two calls that check syntax. What the grammar has and hasn't stands on the page `grammar.md` of `widl_rows`.

use crate::shared::{expect, sure};
use std::alloc::Global;
use std::process::Abort;
use widl_grammar::{SyntaxFault, Terminal, check_syntax, read_definitions};
use widl_lex::Tokens;
use widl_predictive::Fault;
use widl_text::Place;

/// The file number 3, of this text, has this answer.
fn expect_answer(rt: &impl Abort, alloc: Global, text: &str, answer: Result<(), SyntaxFault>) {
    assert!(rt; text.len() <= 1_048_576);
    let tokens = sure(rt, Tokens::read(alloc, 3, text.as_bytes()));
    expect(rt, check_syntax(alloc, &tokens) == answer, text);
}

const OPENING: [Terminal; 3] = [
    Terminal::OpenBracket,
    Terminal::Identifier,
    Terminal::OpenParen,
];

/// Extended attributes in the arguments of extended attributes have no limit, and need no stack of the program's.
fn expect_attribute_arguments(rt: &impl Abort, alloc: Global) {
    let mut terminals = Vec::new(alloc);
    for _ in 0..350_000u32 {
        sure(rt, terminals.extend_from_slice(&OPENING));
    }
    let found = read_definitions(alloc, &terminals);
    expect(rt, found == Err(Fault::Syntax(1_050_000)), "the end");
}

const SIGN: SyntaxFault = SyntaxFault::Syntax(Place { file: 3, at: 14 });

#[test]
fn syntax_is_checked(rt: HostRuntime) {
    expect_answer(&rt, rt.alloc(), "typedef long T;", Ok(()));
    expect_answer(&rt, rt.alloc(), "typedef long T!", Err(SIGN));
    expect_attribute_arguments(&rt, rt.alloc());
}
