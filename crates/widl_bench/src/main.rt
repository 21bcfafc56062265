//! Does one part of the work on what it is given, and prints how much that was. Its first argument says which
//! part: `tokens`, `syntax` and `tree` read files of Web IDL so far, `script` and `statements` read scripts so
//! far, `whole` reads scripts whole over a set of one file, `nodes` puts a million nodes into the tables of a
//! script, `lines`, `texts` and `text` write lines of a trace or make a text for one, `store` changes and reads
//! the properties of objects, `realm` makes the first store of a set of files and `compile` its tables, and `choice`
//! chooses overloads, members of unions and values of enumerations. Conversions and calls are measured in whole runs of
//! `widl`. It stands on the crates of these parts and serves to measure them: the programs in `bench/` run it.
//!
//! What a word makes of many forms, as a tree, a set, a script or a store, is left to the end of the program: the proof of a
//! drop of such a value takes longer than that of all else in its module.
#![tactic(auto)]

mod choices;
mod compiled;
mod files;
mod first;
mod lines;
mod nodes;
mod numbers;
mod realm;
mod script;
mod sets;
mod statements;
mod store;
mod syntax;
mod tokens;
mod tree;
mod whole;

use anyhow::{Result, bail};
use std::env;

/// A part of the work.
#[derive(Clone, Copy)]
enum Word {
    Tokens,
    Syntax,
    Tree,
    Script,
    Statements,
    Whole,
    Nodes,
    Lines,
    Texts,
    Text,
    Store,
    Realm,
    Compile,
    Choice,
}

/// How each part is asked for.
const WORDS: [(&str, Word); 14] = [
    ("tokens", Word::Tokens),
    ("syntax", Word::Syntax),
    ("tree", Word::Tree),
    ("script", Word::Script),
    ("statements", Word::Statements),
    ("whole", Word::Whole),
    ("nodes", Word::Nodes),
    ("lines", Word::Lines),
    ("texts", Word::Texts),
    ("text", Word::Text),
    ("store", Word::Store),
    ("realm", Word::Realm),
    ("compile", Word::Compile),
    ("choice", Word::Choice),
];

/// The part that a text asks for.
fn word_of(text: &str) -> Result<Word> {
    for (name, word) in &WORDS {
        if *name == text {
            return Ok(*word);
        }
    }
    bail!("{text} is no word of this program")
}

/// Does a part of the work.
fn run(rt: &HostRuntime, word: Word, args: &[String]) -> Result<()> {
    match word {
        Word::Tokens => tokens::run(rt, args),
        Word::Syntax => syntax::run(rt, args),
        Word::Tree => tree::run(rt, args),
        Word::Script => script::run(rt, args),
        Word::Statements => statements::run(rt, args),
        Word::Whole => whole::run(rt, args),
        Word::Nodes => nodes::run(rt),
        Word::Lines => lines::run(rt),
        Word::Texts => lines::run_text(rt, true),
        Word::Text => lines::run_text(rt, false),
        Word::Store => store::run(rt, args),
        Word::Realm => realm::run(rt, args),
        Word::Compile => compiled::run(rt, args),
        Word::Choice => choices::run(rt, args),
    }
}

fn main(rt: HostRuntime) -> Result<()> {
    let mut args = env::args(&rt)?.skip(1);
    let Some(first) = args.next() else {
        bail!("a word is wanted, and then what it is for");
    };
    let word = word_of(first.as_str())?;
    let mut rest = Vec::new(rt.alloc());
    for arg in args {
        rest.push(arg)?;
    }
    run(&rt, word, rest.as_slice())
}
