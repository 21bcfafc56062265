//! Merging: from the trees of a set of files to its merged list, or to its refusal.

ghost use Rattle.std.specs.Prelude.{◌≡◌, IfOk, IsErrOf, None, Some};
ghost use Rattle.widl_idl.specs.declared.refusal.Refusal.{Refusal as RefusalType};
ghost use Rattle.widl_idl.specs.MergedSets.{AreFiles, IsMerged};
ghost use Rattle.widl_idl.specs.Meanings.{definitions_of};
ghost use Rattle.widl_idl.specs.PlainTrees.{plain_definitions};
ghost use Rattle.widl_merge.specs.Countable.{IsCountable};
ghost use Rattle.widl_merge.specs.MergedLists.{IsListOf};
ghost use Rattle.widl_merge.specs.Refusals.{IsRefusal};

use crate::defs::merge_definitions;
use crate::refusals::find_refusal;
use std::alloc::{AllocError, Global};
use thiserror::Error;
use widl_idl::{Defs, Fragment, Fragments, Merged, Refusal};
use widl_names::{MOST_TYPES, Scope, list_definitions};

/// Why a set of files has no merged list.
#[derive(Clone, Copy, Debug, PartialEq, Eq, Error)]
pub enum MergeFault {
    /// It breaks a rule of the profile or of merging, and this is the first refusal.
    #[error("the files break a rule")]
    Refused(Refusal),
    /// There was no memory for the work, or its types mean more than the work on them allows. It says
    /// nothing of the files.
    #[error("out of memory")]
    Memory,
}

impl From<AllocError> for MergeFault {
    ghost use Rattle.std.specs.Prelude.{◌≡◌};
    ghost use Rattle.widl_merge.specs.declared.merged_set.MergeFault.TheVariants.{Memory};

    ghost from_gives = { λ _ fault. fault ≡ Memory };

    fn from(_error: AllocError) -> MergeFault {
        MergeFault::Memory
    }
}

/// The merged list of a set of files, in which partials and mixins are put together and types are
/// resolved (Web IDL, "Partial definitions", "Interface mixins" and "Typedefs").
///
/// # Errors
///
/// Those of [`merge_scope`].
pub fn merge(alloc: Global, fragments: Fragments) -> Result<Merged, MergeFault>
    requires files { AreFiles fragments }
    requires countable { IsCountable (definitions_of fragments) }
    ensures fragments { IfOk result (λ m. m.fragments ≡ fragments) }
    ensures merged { IfOk result (λ m. IsMerged m.defs m.fragments) }
    ensures refused { (refusal : RefusalType) → IsErrOf result (MergeFault.Refused refusal) → IsRefusal (definitions_of fragments) (Some refusal) }
{
    let defs = merge_files(alloc, fragments.as_slice())?;
    Ok(Merged::new(defs, fragments))
}

/// The merged list alone.
fn merge_files(alloc: Global, fragments: &[Fragment]) -> Result<Defs, MergeFault>
    requires files { AreFiles fragments.now }
    requires countable { IsCountable (definitions_of fragments.now) }
    ensures merged { IfOk result (λ defs. IsMerged defs fragments.now) }
    ensures refused { (refusal : RefusalType) → IsErrOf result (MergeFault.Refused refusal) → IsRefusal (definitions_of fragments.now) (Some refusal) }
{
    let definitions = list_definitions(alloc, fragments)?;
    let scope = Scope::of(alloc, &definitions)?;
    merge_scope(alloc, &scope)
}

/// The merged list of files whose definitions are in scope.
///
/// # Errors
///
/// `Refused` with the first refusal: by the rules of the profile, or, where none of these is broken, by
/// the rules of merging. `Memory` where there is no memory, also where more than [`MOST_TYPES`] types
/// stand in the types of its typedefs.
pub fn merge_scope(alloc: Global, scope: &Scope<'_, '_>) -> Result<Defs, MergeFault>
    requires { IsCountable (plain_definitions scope.now) }
    ensures merged { IfOk result (IsListOf (plain_definitions scope.now)) }
    ensures refused { (refusal : RefusalType) → IsErrOf result (MergeFault.Refused refusal) → IsRefusal (plain_definitions scope.now) (Some refusal) }
{
    match find_refusal(alloc, scope)? {
        Some(refusal) => Err(MergeFault::Refused(refusal)),
        None => Ok(merge_unbroken(alloc, scope)?),
    }
}

/// The merged list of definitions that break no rule.
fn merge_unbroken(alloc: Global, scope: &Scope<'_, '_>) -> Result<Defs, AllocError>
    requires countable { IsCountable (plain_definitions scope.now) }
    requires unbroken { IsRefusal (plain_definitions scope.now) None }
    ensures { IfOk result (IsListOf (plain_definitions scope.now)) }
{
    let mut left = MOST_TYPES;
    merge_definitions(alloc, scope, &mut left)
}
