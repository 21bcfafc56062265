//! The command line, over folders and sinks in memory and over the disk.

use crate::made::Parts;
use crate::shared::{Output, add_bytes, answer, expect_answer, files_of, sink_of, words_of};
use std::alloc::Global;
use std::fs;
use std::process::Abort;
use widl_sink::{Numbers, SureSink};
use widl_top::{DiskFolder, Files, MemoryFolder, Status, SureFolder, widl_surely};

const SCRIPT: Parts = &[("do N.f(300)\n", 1)];

const FRAGMENT: Parts = &[("namespace N { undefined f(octet a); };", 1)];

/// A run whose second write fails.
fn expect_failed_write(rt: &impl Abort, alloc: Global) {
    let words = words_of(rt, alloc, &["run", "5", "s", "n.idl"]);
    let mut out = sink_of(rt, alloc, 10, 2);
    let mut folder = SureFolder::new(files_of(rt, alloc, SCRIPT, FRAGMENT));
    assert!(rt; answer(alloc, &words, &mut folder, &mut out) == Status::WriteFault);
    assert!(rt; out.held() == b"call #19 t".as_slice());
}

/// Asks for the version.
fn expect_version(rt: &impl Abort, alloc: Global) {
    let words = words_of(rt, alloc, &["--version"]);
    let mut folder = SureFolder::new(Files::new(alloc));
    let mut out = SureSink::new();
    assert!(rt; widl_surely(alloc, &words, &mut folder, &mut out) == Status::Done);
}

#[test]
fn a_failed_write_leaves_what_was_taken_and_the_version_is_answered_surely(rt: HostRuntime) {
    expect_failed_write(&rt, rt.alloc());
    expect_version(&rt, rt.alloc());
}

/// Checks these files, of which the second isn't UTF-8.
fn expect_encoding(rt: &impl Abort, alloc: Global, words: &[&str], output: Parts) {
    let mut files = Files::new(alloc);
    let first = Vec::from_slice(alloc, b"namespace").expect(rt, "memory");
    add_bytes(rt, alloc, &mut files, "a.idl", first);
    let second = Vec::from_slice(alloc, b"\x80").expect(rt, "memory");
    add_bytes(rt, alloc, &mut files, "b.idl", second);
    let mut folder = MemoryFolder::new(files, Numbers::new(alloc));
    let output = Output::Whole(output);
    expect_answer(rt, alloc, words, &mut folder, Status::Refused, output);
}

const NOT_UTF8: Parts = &[("refused utf8 1 0\n", 1)];

const NO_SYNTAX: Parts = &[("refused syntax 0 9\n", 1)];

#[test]
fn the_encoding_of_all_files_comes_before_their_grammar(rt: HostRuntime) {
    let alloc = rt.alloc();
    expect_encoding(&rt, alloc, &["check", "a.idl", "b.idl"], NOT_UTF8);
    expect_encoding(&rt, alloc, &["check", "a.idl"], NO_SYNTAX);
}

const TRACE: Parts = &[(
    "call #19 this #18 (300)\nop N.f#0 (44)\nret undefined\ndone\n",
    1,
)];

#[test]
fn the_disk_is_read(rt: HostRuntime) {
    fs::write(&rt, "script.txt", "do N.f(300)\n").expect(&rt, "the script is written");
    fs::write(
        &rt,
        "fragment.idl",
        "namespace N { undefined f(octet a); };",
    )
    .expect(&rt, "the fragment is written");
    let mut folder = DiskFolder::new(&rt);
    let words = ["run", "5", "script.txt", "fragment.idl"];
    let output = Output::Whole(TRACE);
    expect_answer(&rt, rt.alloc(), &words, &mut folder, Status::Done, output);
}
