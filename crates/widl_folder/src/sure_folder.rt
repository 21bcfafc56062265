//! A folder in memory that never fails.

ghost use Rattle.std.specs.Prelude.{◌≡◌, None};
ghost use Rattle.widl_folder.specs.Readings.{SureFolderState};

use crate::reading::{Reading, find, give};
use crate::{Files, Folder, ReadFailed, Started};
use std::marker::Model;

/// Files in memory that never fail: the count of faults is always 0.
#[derive(Drop)]
pub struct SureFolder {
    files: Files,
    reading: Option<Reading>,
    misses: u64,
    given: u32,
    starts: u64,
}

impl Model for SureFolder {
    ghost Value = { SureFolderState };

    ghost view = { λ f. record { files = f.files; reading = f.reading; misses = f.misses; given = f.given; starts = f.starts } };
}

impl SureFolder {
    /// A folder of these files.
    pub fn new(files: Files) -> SureFolder
        ensures { result ≡ record { files = files; reading = None; misses = 0; given = 0; starts = 0 } }
    {
        SureFolder {
            files,
            reading: None,
            misses: 0,
            given: 0,
            starts: 0,
        }
    }
}

impl Folder for SureFolder {
    ghost use Rattle.std.specs.Prelude.{Some, is_some};
    ghost use Rattle.widl_folder.specs.Readings.{SureReads, SureStarts, left_of};

    ghost files = { λ f. Some f.files };

    ghost left = { λ f. Some (left_of f.files f.reading) };

    ghost is_started = { λ f. is_some f.reading };

    ghost misses = { λ f. f.misses };

    ghost faults = { λ _. 0 };

    ghost given = { λ f. f.given };

    ghost starts = { λ f. f.starts };

    ghost Starts = { λ old answer new. SureStarts answer };

    ghost Reads = { λ old room result new. SureReads old room result };

    fn start(&mut self, name: &str) -> Started {
        self.given = 0;
        self.starts = self.starts.saturating_add(1);
        self.reading = None;
        match find(&self.files, name) {
            Some(place) => {
                self.reading = Some(Reading { place, offset: 0 });
                Started::Ready
            }
            None => {
                self.misses = self.misses.saturating_add(1);
                Started::Missing
            }
        }
    }

    fn read(&mut self, into: &mut [u8]) -> Result<u32, ReadFailed> {
        let Some(reading) = self.reading else {
            return Ok(0);
        };
        let (next, count) = give(&self.files, reading, into);
        self.reading = Some(next);
        self.given += count;
        Ok(count)
    }
}
