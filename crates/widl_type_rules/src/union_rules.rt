//! The rule on unions with two flattened members that aren't distinguishable.

ghost use Rattle.std.specs.Prelude.{◌≡◌, Ok, true, false, IfOk};
ghost use Rattle.widl_idl.specs.DefinitionTerms.{defs_term};
ghost use Rattle.widl_idl.specs.First.{FirstWhere};
ghost use Rattle.widl_idl.specs.Terms.{type_term};
ghost use Rattle.widl_overload.specs.rules.TypeRules.{HaveIndistinguishableMembers, OfUnion, members_of_union};
ghost use Rattle.widl_type_rules.specs.Lineages.{TellRelated};
ghost use Rattle.widl_type_rules.specs.UsesListed.{resolved_use};

use crate::indistinguishable_members::have_indistinguishable;
use crate::lineages::Lineages;
use crate::nullable_rules::is_union;
use crate::resolved_uses::ResolvedUse;
use std::alloc::{AllocError, Global};
use widl_idl::{Defs, IdlType, Violation, flattened};

/// The place of a type that is written as a union of which two flattened members aren't distinguishable.
///
/// # Errors
///
/// `AllocError` where there is no memory.
pub fn indistinguishable_union(
    alloc: Global,
    defs: &Defs,
    lineages: &Lineages,
    ty: &ResolvedUse<'_>,
) -> Result<Option<Violation>, AllocError>
    requires { TellRelated (defs_term defs.now).ifaces lineages.now.spans.items }
    ensures { IfOk result (λ found. FirstWhere (OfUnion (HaveIndistinguishableMembers (defs_term defs.now).ifaces) (resolved_use ty.now).meaning (resolved_use ty.now).written) found) }
{
    if is_union(&ty.written.ty.form)
        && has_indistinguishable_members(alloc, defs, lineages, &ty.meaning)?
    {
        Ok(Some(Violation::at(ty.written.ty.at)))
    } else {
        Ok(None)
    }
}

/// Whether two flattened members of a union, with or without a `?`, aren't distinguishable.
#[cycle(indistinguishable)]
fn has_indistinguishable_members(
    alloc: Global,
    defs: &Defs,
    lineages: &Lineages,
    t: &IdlType,
) -> Result<bool, AllocError>
    requires { TellRelated (defs_term defs.now).ifaces lineages.now.spans.items }
    ensures yes { result ≡ Ok true → HaveIndistinguishableMembers (defs_term defs.now).ifaces (members_of_union (type_term t.now)) }
    ensures no { result ≡ Ok false → HaveIndistinguishableMembers (defs_term defs.now).ifaces (members_of_union (type_term t.now)) → ⊥ }
{
    match t {
        IdlType::Nullable(inner) => has_indistinguishable_members(alloc, defs, lineages, inner),
        IdlType::Union(_) => {
            let members = flattened(alloc, t)?;
            have_indistinguishable(alloc, defs, lineages, &members)
        }
        _ => Ok(false),
    }
}
