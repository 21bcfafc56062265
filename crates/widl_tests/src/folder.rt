//! What no clause says: that memory is found where there is some, and what the disk gives.

use crate::shared::{expect, sure};
use std::alloc::Global;
use std::fs;
use std::mem::ManuallyDrop;
use std::process::Abort;
use widl_folder::{
    DiskFolder, FetchError, Files, Folder, MemoryFolder, NamedFile, Started, SureFolder, fetch,
};
use widl_sink::Numbers;

fn file_of(rt: &impl Abort, alloc: Global, name: &str, text: &str) -> NamedFile {
    let name = sure(rt, String::from_str(alloc, name));
    NamedFile::new(name, sure(rt, Vec::from_slice(alloc, text.as_bytes())))
}

/// Files of these names, the first and the second.
fn files_of(rt: &impl Abort, alloc: Global) -> Files {
    let mut files = Files::new(alloc);
    sure(rt, files.push(file_of(rt, alloc, "a", "first")));
    sure(rt, files.push(file_of(rt, alloc, "a", "second")));
    files
}

/// The two files, of which the second has another name and other bytes.
fn two_names(rt: &impl Abort, alloc: Global) -> Files {
    let mut files = files_of(rt, alloc);
    assert!(rt; files.len() == 2);
    let former = files.replace(1, file_of(rt, alloc, "b", "third"));
    expect(
        rt,
        former.bytes() == b"second".as_slice(),
        "the former file",
    );
    expect(rt, files.at(1).name() == "b", "the new name");
    files
}

/// What a fetch gives: the bytes of a file, or why there are none.
fn expect_fetch<F: Folder>(rt: &impl Abort, alloc: Global, folder: &mut F, name: &str, want: &str) {
    let fetched = ManuallyDrop::new(fetch(alloc, folder, name));
    let found = match &*fetched {
        Ok(bytes) => bytes.as_slice(),
        Err(FetchError::Missing) => b"(missing)".as_slice(),
        Err(FetchError::Failed) => b"(failed)".as_slice(),
        Err(_) => b"(other)".as_slice(),
    };
    expect(rt, found == want.as_bytes(), name);
}

/// What the start of a file answers.
fn expect_start<F: Folder>(rt: &impl Abort, folder: &mut F, name: &str, want: Started) {
    expect(rt, folder.start(name) == want, name);
}

fn fetch_surely(rt: &impl Abort, alloc: Global) {
    let mut folder = ManuallyDrop::new(SureFolder::new(files_of(rt, alloc)));
    expect_fetch(rt, alloc, &mut *folder, "a", "first");
    let mut folder = ManuallyDrop::new(SureFolder::new(two_names(rt, alloc)));
    for (name, want) in &[("a", "first"), ("b", "third"), ("c", "(missing)")] {
        expect_fetch(rt, alloc, &mut *folder, name, want);
    }
}

fn fetch_with_failures(rt: &impl Abort, alloc: Global) {
    let mut fails = Numbers::new(alloc);
    for call in &[2, 4] {
        sure(rt, fails.push(*call));
    }
    let mut folder = ManuallyDrop::new(MemoryFolder::new(files_of(rt, alloc), fails));
    expect_fetch(rt, alloc, &mut *folder, "a", "(failed)");
    expect_start(rt, &mut *folder, "b", Started::Missing);
    expect_start(rt, &mut *folder, "a", Started::Failed);
}

#[test]
fn the_first_file_counts_a_listed_call_fails_and_the_disk_gives_a_file(rt: HostRuntime) {
    fetch_surely(&rt, rt.alloc());
    fetch_with_failures(&rt, rt.alloc());
    sure(&rt, fs::write(&rt, "greeting.txt", "hello\n"));
    let mut folder = DiskFolder::new(&rt);
    expect_fetch(&rt, rt.alloc(), &mut folder, "greeting.txt", "hello\n");
    expect_fetch(&rt, rt.alloc(), &mut folder, ".", "(failed)");
    expect_start(&rt, &mut folder, "no such file", Started::Missing);
}
