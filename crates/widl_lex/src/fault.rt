//! Why a file has no tokens.

use std::alloc::AllocFailed;
use thiserror::Error;
use widl_text::Place;

/// Why a file has no tokens.
#[derive(Debug, Drop, Error)]
pub enum LexFault {
    /// The file is not UTF-8: the first byte that no UTF-8 text continues, or the file's length where it ends
    /// inside a character.
    #[error("no UTF-8 text goes on here")]
    NotUtf8(Place),
    /// There is no memory for the list.
    #[error("out of memory")]
    Memory,
}

impl<T: Drop> From<AllocFailed<T>> for LexFault {
    ghost use Rattle.std.specs.Prelude.{◌≡◌};
    ghost use Rattle.widl_lex.specs.declared.fault.LexFault.TheVariants.{Memory};

    ghost from_gives = { λ _ fault. fault ≡ Memory };

    fn from(_error: AllocFailed<T>) -> LexFault {
        LexFault::Memory
    }
}
