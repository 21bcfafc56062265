//! Validity: from a set of files with its merged list to an accepted set, or to its refusal.

ghost use Rattle.std.specs.Prelude.{◌≡◌, IfOk, IsErrOf, Some};
ghost use Rattle.widl_idl.specs.MergedSets.{IsMerged};
ghost use Rattle.widl_idl.specs.declared.refusal.Refusal.{Refusal as RefusalType};
ghost use Rattle.widl_overload.specs.rules.Validity.{IsValid};
ghost use Rattle.widl_valid.specs.Invalidity.{IsInvalidity};

use crate::invalidity::find_invalid;
use std::alloc::{AllocError, Global};
use thiserror::Error;
use widl_idl::{Merged, Refusal};
use widl_names::{Scope, list_definitions};
use widl_overload::Accepted;

/// Why a set of files is not accepted.
#[derive(Clone, Copy, Debug, PartialEq, Eq, Error)]
pub enum ValidFault {
    /// It breaks a rule of validity, and this is the first refusal.
    #[error("the files break a rule of validity")]
    Refused(Refusal),
    /// There was no memory for the work, or its types mean more than the work on them allows. It says
    /// nothing of the files.
    #[error("out of memory")]
    Memory,
}

impl From<AllocError> for ValidFault {
    ghost use Rattle.std.specs.Prelude.{◌≡◌};
    ghost use Rattle.widl_valid.specs.declared.acceptance.ValidFault.TheVariants.{Memory};

    ghost from_gives = { λ _ fault. fault ≡ Memory };

    fn from(_error: AllocError) -> ValidFault {
        ValidFault::Memory
    }
}

/// Accepts a set of files that breaks no rule of validity, with its merged list.
///
/// # Errors
///
/// `Refused` with the first refusal where a rule of validity is broken. `Memory` where there is no
/// memory, and where [`find_invalid`] fails.
pub fn validate(alloc: Global, merged: Merged) -> Result<Accepted, ValidFault>
    ensures same { IfOk result (λ accepted. accepted ≡ merged) }
    ensures merged { IfOk result (λ accepted. IsMerged accepted.defs accepted.fragments) }
    ensures valid { IfOk result (λ accepted. IsValid accepted) }
    ensures refused { (refusal : RefusalType) → IsErrOf result (ValidFault.Refused refusal) → IsInvalidity merged (Some refusal) }
{
    match find_in_merged(alloc, &merged)? {
        Some(refusal) => Err(ValidFault::Refused(refusal)),
        None => Ok(Accepted::new(merged)),
    }
}

/// The first refusal of a set of files by the rules of validity, or none where all of them are kept.
fn find_in_merged(alloc: Global, merged: &Merged) -> Result<Option<Refusal>, AllocError>
    ensures { IfOk result (λ refusal. IsInvalidity merged.now refusal) }
{
    let definitions = list_definitions(alloc, merged.fragments().as_slice())?;
    let scope = Scope::of(alloc, &definitions)?;
    find_invalid(alloc, &scope, merged.defs())
}
