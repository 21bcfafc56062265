//! How many files a run has, and how long they are.

use crate::shared::{Output, Run, add_word, answer, expect_runs, files_of, sink_of, words_of};
use std::alloc::Global;
use std::process::Abort;
use widl_sink::Numbers;
use widl_top::{MemoryFolder, Status};

/// How many times an empty file is named, and what the run of an empty script over it answers.
const COUNTS: [(usize, Status, &str); 4] = [
    (0, Status::Usage, "usage\n"),
    (1, Status::Done, "done\n"),
    (64, Status::Done, "done\n"),
    (65, Status::Usage, "usage\n"),
];

/// Runs an empty script over an empty file that is named many times.
fn expect_counts(rt: &impl Abort, alloc: Global, rows: &[(usize, Status, &str)]) {
    for (count, status, text) in rows {
        let mut words = words_of(rt, alloc, &["run", "5", "s"]);
        for _ in 0..*count {
            add_word(rt, alloc, &mut words, "n.idl");
        }
        let mut out = sink_of(rt, alloc, 100, 0);
        let mut folder = MemoryFolder::new(files_of(rt, alloc, &[], &[]), Numbers::new(alloc));
        assert!(rt;
            answer(alloc, &words, &mut folder, &mut out) == *status,
            "{text}"
        );
        assert!(rt; out.held() == text.as_bytes(), "{text}");
    }
}

#[test]
fn a_run_has_64_files_at_most(rt: HostRuntime) {
    expect_counts(&rt, rt.alloc(), &COUNTS);
}

/// A script of one long comment over a file of blanks that is as long; both of a byte more than they may have; and an empty script over such a
/// file.
const LENGTHS: [Run; 3] = [
    (
        &[(" ", 1_048_576)],
        &[("#", 1_048_576)],
        "5",
        Status::Done,
        Output::Whole(&[("done\n", 1)]),
    ),
    (
        &[(" ", 1_048_577)],
        &[("#", 1_048_577)],
        "5",
        Status::TooLong,
        Output::Whole(&[("too long s\n", 1)]),
    ),
    (
        &[(" ", 1_048_577)],
        &[],
        "5",
        Status::TooLong,
        Output::Whole(&[("too long n.idl\n", 1)]),
    ),
];

#[test]
fn a_script_and_a_file_have_a_mebibyte_at_most(rt: HostRuntime) {
    expect_runs(&rt, rt.alloc(), &LENGTHS);
}
