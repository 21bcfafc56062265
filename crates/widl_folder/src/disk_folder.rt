//! The files of the disk as a folder.

ghost use Rattle.std.specs.Prelude.{◌≡◌, None, is_some, ⊤};

use crate::{Folder, ReadFailed, Started};
use std::io::Read;
use std::rt::Files;
use std::{fs, io};

/// The files of the disk: it counts each error, and tells no content.
///
/// A name that isn't there is missing; any other failed opening is a fault, and so is a read of a
/// folder. What the disk holds is not a thing that a contract can say, so this adapter is part of the
/// trusted edge.
#[derive(Drop)]
pub struct DiskFolder<'a, R: Files> {
    rt: &'a R,
    file: Option<R::File>,
    misses: u64,
    faults: u64,
    given: u32,
    starts: u64,
}

impl<'a, R: Files> DiskFolder<'a, R> {
    /// The files that the runtime reaches, with all counts at 0.
    pub fn new(rt: &'a R) -> DiskFolder<'a, R>
        ensures misses { ⟦<DiskFolder<'a, R> as Folder>⟧.misses result ≡ 0 }
        ensures faults { ⟦<DiskFolder<'a, R> as Folder>⟧.faults result ≡ 0 }
        ensures given { ⟦<DiskFolder<'a, R> as Folder>⟧.given result ≡ 0 }
        ensures starts { ⟦<DiskFolder<'a, R> as Folder>⟧.starts result ≡ 0 }
    {
        DiskFolder {
            rt,
            file: None,
            misses: 0,
            faults: 0,
            given: 0,
            starts: 0,
        }
    }
}

impl<'a, R: Files> Folder for DiskFolder<'a, R> {
    ghost files = { λ _. None };

    ghost left = { λ _. None };

    ghost is_started = { λ f. is_some f.file };

    ghost misses = { λ f. f.misses };

    ghost faults = { λ f. f.faults };

    ghost given = { λ f. f.given };

    ghost starts = { λ f. f.starts };

    ghost Starts = { λ old answer new. ⊤ };

    ghost Reads = { λ old room result new. ⊤ };

    fn start(&mut self, name: &str) -> Started {
        self.given = 0;
        self.starts = self.starts.saturating_add(1);
        self.file = None;
        match fs::open(self.rt, name) {
            Ok(file) => {
                self.file = Some(file);
                Started::Ready
            }
            Err(e) if e.kind() == io::ErrorKind::NotFound => {
                self.misses = self.misses.saturating_add(1);
                Started::Missing
            }
            Err(_) => {
                self.faults = self.faults.saturating_add(1);
                Started::Failed
            }
        }
    }

    fn read(&mut self, into: &mut [u8]) -> Result<u32, ReadFailed> {
        let result = match &mut self.file {
            Some(file) => file.read(into),
            None => Ok(0),
        };
        match result {
            Ok(count) => {
                self.given += count as u32;
                Ok(count as u32)
            }
            Err(_) => {
                self.faults = self.faults.saturating_add(1);
                Err(ReadFailed)
            }
        }
    }
}
