//! A folder in memory that fails where it is told to.

ghost use Rattle.std.specs.Prelude.{◌≡◌, ◌+◌, ◌-◌, ◌^◌, ◌↔◌, min, Contains, IsTrue, None};
ghost use Rattle.widl_folder.specs.Readings.{MemoryFolderState};

use crate::reading::{Reading, find, give};
use crate::{Files, Folder, ReadFailed, Started};
use std::marker::Model;
use widl_sink::Numbers;

/// Files in memory. The calls of `start` and `read` are counted together from 1, and those whose
/// numbers are listed fail.
#[derive(Drop)]
pub struct MemoryFolder {
    files: Files,
    fails: Numbers,
    reading: Option<Reading>,
    calls: u64,
    misses: u64,
    faults: u64,
    given: u32,
    starts: u64,
}

impl Model for MemoryFolder {
    ghost Value = { MemoryFolderState };

    ghost view = { λ f. record { files = f.files; fails = f.fails; reading = f.reading; calls = f.calls; misses = f.misses; faults = f.faults; given = f.given; starts = f.starts } };
}

impl MemoryFolder {
    /// A folder of these files that fails in these calls.
    pub fn new(files: Files, fails: Numbers) -> MemoryFolder
        ensures { result ≡ record { files = files; fails = fails; reading = None; calls = 0; misses = 0; faults = 0; given = 0; starts = 0 } }
    {
        MemoryFolder {
            files,
            fails,
            reading: None,
            calls: 0,
            misses: 0,
            faults: 0,
            given: 0,
            starts: 0,
        }
    }

    /// Counts a call, and tells whether it is to fail.
    fn fails_now(calls: &mut u64, fails: &Numbers) -> bool
        ensures counted { calls.new ≡ min (calls.old + 1) (2 ^ 64 - 1) }
        ensures failed { IsTrue result ↔ Contains fails.now calls.new }
    {
        *calls = calls.saturating_add(1);
        fails.has(*calls)
    }
}

impl Folder for MemoryFolder {
    ghost use Rattle.std.specs.Prelude.{Some, is_some};
    ghost use Rattle.widl_folder.specs.Readings.{MemoryReads, MemoryStarts, left_of};

    ghost files = { λ f. Some f.files };

    ghost left = { λ f. Some (left_of f.files f.reading) };

    ghost is_started = { λ f. is_some f.reading };

    ghost misses = { λ f. f.misses };

    ghost faults = { λ f. f.faults };

    ghost given = { λ f. f.given };

    ghost starts = { λ f. f.starts };

    ghost Starts = { MemoryStarts };

    ghost Reads = { MemoryReads };

    fn start(&mut self, name: &str) -> Started {
        self.given = 0;
        self.starts = self.starts.saturating_add(1);
        self.reading = None;
        if MemoryFolder::fails_now(&mut self.calls, &self.fails) {
            self.faults = self.faults.saturating_add(1);
            return Started::Failed;
        }
        match find(&self.files, name) {
            Some(place) => {
                self.reading = Some(Reading { place, offset: 0 });
                Started::Ready
            }
            None => {
                self.misses = self.misses.saturating_add(1);
                Started::Missing
            }
        }
    }

    fn read(&mut self, into: &mut [u8]) -> Result<u32, ReadFailed> {
        if MemoryFolder::fails_now(&mut self.calls, &self.fails) {
            self.faults = self.faults.saturating_add(1);
            return Err(ReadFailed);
        }
        let Some(reading) = self.reading else {
            return Ok(0);
        };
        let (next, count) = give(&self.files, reading, into);
        self.reading = Some(next);
        self.given += count;
        Ok(count)
    }
}
