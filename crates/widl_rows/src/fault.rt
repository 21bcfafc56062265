//! Why a page isn't read.

use std::alloc::{AllocError, AllocFailed};
use std::num::ParseIntError;
use thiserror::Error;

/// Why a page isn't read.
#[derive(Clone, Copy, Debug, Error)]
pub enum Fault {
    /// There is no memory.
    #[error("out of memory")]
    Memory,
    /// The page isn't written as pages are; this says what is wrong.
    #[error("{0}")]
    Page(&'static str),
}

impl From<AllocError> for Fault {
    fn from(_error: AllocError) -> Fault {
        Fault::Memory
    }
}

impl<T: Drop> From<AllocFailed<T>> for Fault {
    fn from(_error: AllocFailed<T>) -> Fault {
        Fault::Memory
    }
}

impl From<ParseIntError> for Fault {
    fn from(_error: ParseIntError) -> Fault {
        Fault::Page("a number is wanted")
    }
}
