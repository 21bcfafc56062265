//! Why a line is not written to its end.

use std::alloc::{AllocError, AllocFailed};

/// Why a line was not written to its end.
#[derive(Debug, Drop)]
pub enum Cut {
    /// It has more bytes than it may have.
    TooLong,
    /// There was no memory.
    Memory,
}

impl From<AllocError> for Cut {
    ghost use Rattle.std.specs.Prelude.{◌≡◌};
    ghost use Rattle.widl_trace.specs.declared.cut.Cut.TheVariants.{Memory};

    ghost from_gives = { λ _ cut. cut ≡ Memory };

    fn from(_error: AllocError) -> Cut {
        Cut::Memory
    }
}

impl<T: Drop> From<AllocFailed<T>> for Cut {
    ghost use Rattle.std.specs.Prelude.{◌≡◌};
    ghost use Rattle.widl_trace.specs.declared.cut.Cut.TheVariants.{Memory};

    ghost from_gives = { λ _ cut. cut ≡ Memory };

    fn from(_error: AllocFailed<T>) -> Cut {
        Cut::Memory
    }
}
