//! The tables of scripts, and texts, for tests.

use std::alloc::Global;
use std::mem;
use std::process::Abort;
use widl_lines::ScriptWords;
use widl_script::build::{Built, build};
use widl_text::limits::MOST_FILE_BYTES;

/// What a call made. The test ends where there is no memory.
pub fn sure<T, E>(rt: &impl Abort, made: Result<T, E>) -> T {
    match made {
        Ok(value) => value,
        Err(_) => panic!(rt; "no memory"),
    }
}

/// Adds a text.
pub fn put(rt: &impl Abort, out: &mut String, text: &str) {
    sure(rt, out.push_str(text));
}

/// The tables of a script, which breaks no rule on form. The words aren't given back, and the tables are to be forgotten too, since
/// the test ends soon, and a proof of their drops takes longer than all others here.
pub fn built_of(rt: &impl Abort, alloc: Global, script: &str) -> Built {
    let bytes = script.as_bytes();
    assert!(rt; bytes.len() <= MOST_FILE_BYTES);
    let Ok(words) = ScriptWords::read(alloc, bytes) else {
        panic!(rt; "a script breaks a rule on form")
    };
    let built = sure(rt, build(alloc, &words));
    mem::forget(words);
    built
}
