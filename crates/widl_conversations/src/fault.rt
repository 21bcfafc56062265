//! Why a line isn't told.

use std::alloc::{AllocError, AllocFailed};
use std::num::ParseIntError;
use thiserror::Error;

/// Why a line isn't told.
#[derive(Clone, Copy, Debug, Error)]
pub enum Fault {
    /// There is no memory.
    #[error("out of memory")]
    Memory,
    /// The line isn't written as lines are; this says what is wrong.
    #[error("{0}")]
    Line(&'static str),
}

impl From<AllocError> for Fault {
    fn from(_error: AllocError) -> Fault {
        Fault::Memory
    }
}

impl<T: Drop> From<AllocFailed<T>> for Fault {
    fn from(_error: AllocFailed<T>) -> Fault {
        Fault::Memory
    }
}

impl From<ParseIntError> for Fault {
    fn from(_error: ParseIntError) -> Fault {
        Fault::Line("a number is wanted")
    }
}
