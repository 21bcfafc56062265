//! Words, files and answers.

use crate::made::{Parts, made};
use std::alloc::Global;
use std::process::Abort;
use widl_sink::{MemorySink, Numbers, Sink};
use widl_top::{Files, Folder, MemoryFolder, NamedFile, Status, Words, widl};

/// Adds a word.
pub fn add_word(rt: &impl Abort, alloc: Global, words: &mut Words, text: &str) {
    let word = String::from_str(alloc, text).expect(rt, "memory");
    words.push(word).expect(rt, "memory");
}

/// The words of a command line.
pub fn words_of(rt: &impl Abort, alloc: Global, texts: &[&str]) -> Words {
    let mut words = Words::new(alloc);
    for text in texts {
        add_word(rt, alloc, &mut words, text);
    }
    words
}

/// Adds a file of these bytes.
pub fn add_bytes(rt: &impl Abort, alloc: Global, files: &mut Files, name: &str, bytes: Vec<u8>) {
    let name = String::from_str(alloc, name).expect(rt, "memory");
    files.push(NamedFile::new(name, bytes)).expect(rt, "memory");
}

/// A script `s` and a fragment `n.idl`.
pub fn files_of(rt: &impl Abort, alloc: Global, script: Parts, fragment: Parts) -> Files {
    let mut files = Files::new(alloc);
    add_bytes(rt, alloc, &mut files, "s", made(rt, alloc, script));
    add_bytes(rt, alloc, &mut files, "n.idl", made(rt, alloc, fragment));
    files
}

/// A sink that takes so many bytes a call and fails in one call; in none where that is 0.
pub fn sink_of(rt: &impl Abort, alloc: Global, most: u32, call: u64) -> MemorySink {
    assert!(rt; 0 < most);
    MemorySink::new(alloc, 40_000_000, most, numbers_of(rt, alloc, call)).expect(rt, "memory")
}

/// The list of one number.
pub fn numbers_of(rt: &impl Abort, alloc: Global, number: u64) -> Numbers {
    let mut numbers = Numbers::new(alloc);
    numbers.push(number).expect(rt, "memory");
    numbers
}

/// [`widl`] without its contract, since no test needs it: where it is called, all that follows is proved beside what it promises.
pub fn answer<F: Folder, K: Sink>(
    alloc: Global,
    words: &Words,
    folder: &mut F,
    out: &mut K,
) -> Status {
    widl(alloc, words, folder, out)
}

/// What is to be written.
#[derive(Clone, Copy)]
pub enum Output {
    /// This and nothing else.
    Whole(Parts),
    /// This at the end.
    End(Parts),
}

/// Whether the bytes that a sink holds are those of an output.
fn is_output(rt: &impl Abort, alloc: Global, held: &[u8], output: Output) -> bool {
    match output {
        Output::Whole(parts) => held == made(rt, alloc, parts).as_slice(),
        Output::End(parts) => held.ends_with(made(rt, alloc, parts).as_slice()),
    }
}

/// Answers the words of a command line over a folder, and compares the status and the output.
pub fn expect_answer<F: Folder>(
    rt: &impl Abort,
    alloc: Global,
    words: &[&str],
    folder: &mut F,
    status: Status,
    output: Output,
) {
    let words = words_of(rt, alloc, words);
    let mut out = sink_of(rt, alloc, 4_096, 0);
    assert!(rt; answer(alloc, &words, folder, &mut out) == status);
    assert!(rt; is_output(rt, alloc, out.held(), output));
}

/// A run: its fragment, its script, its budget, its status and its output.
pub type Run = (Parts, Parts, &'static str, Status, Output);

/// The most units that a budget has.
pub const MOST: &str = "2000000";

/// Runs scripts over fragments.
pub fn expect_runs(rt: &impl Abort, alloc: Global, runs: &[Run]) {
    for (fragment, script, budget, status, output) in runs {
        let files = files_of(rt, alloc, *script, *fragment);
        let mut folder = MemoryFolder::new(files, Numbers::new(alloc));
        let words = ["run", *budget, "s", "n.idl"];
        expect_answer(rt, alloc, &words, &mut folder, *status, *output);
    }
}

/// A fragment, the status of its check and its answer.
pub type Check = (Parts, Status, Parts);

/// Checks fragments.
pub fn expect_checks(rt: &impl Abort, alloc: Global, checks: &[Check]) {
    for (fragment, status, answer) in checks {
        let files = files_of(rt, alloc, &[], *fragment);
        let mut folder = MemoryFolder::new(files, Numbers::new(alloc));
        let output = Output::Whole(*answer);
        expect_answer(rt, alloc, &["check", "n.idl"], &mut folder, *status, output);
    }
}
