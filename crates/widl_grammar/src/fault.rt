//! The fault of a file of Web IDL.

use std::alloc::AllocFailed;
use thiserror::Error;
use widl_text::Place;

/// Why a file is no file of Web IDL.
#[derive(Clone, Copy, Debug, PartialEq, Eq, Error)]
pub enum SyntaxFault {
    /// No sentence of the grammar begins with the tokens up to and including the one here; or, at the
    /// file's length, the file ends too early.
    #[error("no Web IDL goes on here")]
    Syntax(Place),
    /// The token here begins a type that lies in sixteen others.
    #[error("the type that begins here is nested too deep")]
    TooDeep(Place),
    /// There was no memory for the work. It says nothing of the file.
    #[error("out of memory")]
    Memory,
}

impl<T: Drop> From<AllocFailed<T>> for SyntaxFault {
    ghost use Rattle.std.specs.Prelude.{◌≡◌};
    ghost use Rattle.widl_grammar.specs.declared.fault.SyntaxFault.TheVariants.{Memory};

    ghost from_gives = { λ _ fault. fault ≡ Memory };

    fn from(_error: AllocFailed<T>) -> SyntaxFault {
        SyntaxFault::Memory
    }
}
