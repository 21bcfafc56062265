//! Where a script breaks a rule.

use std::alloc::{AllocError, AllocFailed};

/// The place of a broken rule.
#[derive(Clone, Copy, Debug, PartialEq, Eq)]
pub struct ScriptPlace {
    /// The number of the rule, from 1.
    pub rule: u8,
    /// The number of the line, from 1.
    pub line: u32,
    /// The column in the line, in bytes, from 1.
    pub column: u32,
}

/// Why a script is not read.
#[derive(Clone, Copy, Debug, PartialEq, Eq)]
pub enum ScriptFault {
    /// The first rule that the script breaks, and its place.
    Refused(ScriptPlace),
    /// Out of memory.
    Memory,
}

impl From<AllocError> for ScriptFault {
    ghost use Rattle.std.specs.Prelude.{◌≡◌};
    ghost use Rattle.widl_lines.specs.declared.script_place.ScriptFault.TheVariants.{Memory};

    ghost from_gives = { λ _ fault. fault ≡ Memory };

    fn from(_error: AllocError) -> ScriptFault {
        ScriptFault::Memory
    }
}

impl<T: Drop> From<AllocFailed<T>> for ScriptFault {
    ghost use Rattle.std.specs.Prelude.{◌≡◌};
    ghost use Rattle.widl_lines.specs.declared.script_place.ScriptFault.TheVariants.{Memory};

    ghost from_gives = { λ _ fault. fault ≡ Memory };

    fn from(_error: AllocFailed<T>) -> ScriptFault {
        ScriptFault::Memory
    }
}
