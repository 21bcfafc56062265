//! The fault of a list of tokens.

ghost use Rattle.std.specs.Prelude.{◌≡◌};
ghost use Rattle.widl_predictive.specs.declared.fault.Fault.TheVariants.{Memory};

use std::alloc::{AllocError, AllocFailed};
use thiserror::Error;

/// Why a list of tokens is not accepted. A place is the number of a token, from 0, or the length of
/// the list.
#[derive(Clone, Copy, Debug, PartialEq, Eq, Error)]
pub enum Fault {
    /// No sentence begins with the tokens up to and including this one, and one begins with the
    /// tokens before it; or, at the list's length, the list begins a sentence and is none.
    #[error("no sentence goes on at token {0}")]
    Syntax(usize),
    /// The tokens up to and including this one begin a sentence, in which a part begins at this token
    /// that is nested too deep.
    #[error("token {0} begins a part that is nested too deep")]
    TooDeep(usize),
    /// The machine's stack could not grow. It says nothing of the list.
    #[error("out of memory")]
    Memory,
}

impl From<AllocError> for Fault {
    ghost from_gives = { λ _ e. e ≡ Memory };

    fn from(_error: AllocError) -> Fault {
        Fault::Memory
    }
}

impl<T: Drop> From<AllocFailed<T>> for Fault {
    ghost from_gives = { λ _ e. e ≡ Memory };

    fn from(_error: AllocFailed<T>) -> Fault {
        Fault::Memory
    }
}
