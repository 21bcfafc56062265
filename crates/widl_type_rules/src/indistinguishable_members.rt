//! Flattened members of a union that aren't distinguishable.

ghost use Rattle.std.specs.Prelude.{◌≡◌, ◌++◌, Ok, true, false, IfOk, OnOk, map};
ghost use Rattle.std.specs.List.{All, filter_map};
ghost use Rattle.widl_idl.specs.DefinitionTerms.{defs_term};
ghost use Rattle.widl_idl.specs.Terms.{type_terms};
ghost use Rattle.widl_overload.specs.sets.Distinct.{category};
ghost use Rattle.widl_overload.specs.rules.TypeRules.{HaveIndistinguishablePair};
ghost use Rattle.widl_type_rules.specs.Lineages.{TellRelated};
ghost use Rattle.widl_type_rules.specs.IndistinguishablePairs.{IsFlat, any_pair, are_related, clash, interface_number, listed};

use crate::kinds_seen::KindsSeen;
use crate::lineages::Lineages;
use crate::related_interfaces::any_related;
use std::alloc::{AllocError, Global};
use widl_idl::{Defs, IdlTypes};
use widl_overload::{Category, category_of};

/// Whether two of the types, which are the flattened members of a union, aren't distinguishable (Web IDL,
/// "distinguishable").
///
/// # Errors
///
/// `AllocError` where there is no memory.
pub fn have_indistinguishable(
    alloc: Global,
    defs: &Defs,
    lineages: &Lineages,
    types: &IdlTypes,
) -> Result<bool, AllocError>
    requires told { TellRelated (defs_term defs.now).ifaces lineages.now.spans.items }
    requires flat { All IsFlat (type_terms types.now) }
    ensures yes { result ≡ Ok true → HaveIndistinguishablePair (defs_term defs.now).ifaces (type_terms types.now) }
    ensures no { result ≡ Ok false → HaveIndistinguishablePair (defs_term defs.now).ifaces (type_terms types.now) → ⊥ }
{
    if any_clash(types) {
        return Ok(true);
    }
    let numbers = interface_numbers(alloc, types)?;
    any_related(alloc, defs.ifaces.as_slice(), lineages, &numbers)
}

/// Whether two of the types aren't distinguishable by their kinds, where two interfaces don't count.
fn any_clash(types: &IdlTypes) -> bool
    ensures { result ≡ any_pair clash (map category (type_terms types.now)) }
{
    let mut seen = KindsSeen::nothing();
    for t in types.as_slice() {
        let kind = category_of(t);
        if seen.meets(kind) {
            return true;
        }
        seen = seen.with(kind);
    }
    false
}

/// The numbers of the interfaces among the types.
fn interface_numbers(alloc: Global, types: &IdlTypes) -> Result<Vec<u32>, AllocError>
    ensures { IfOk result (λ numbers. numbers.items ≡ filter_map interface_number (map category (type_terms types.now))) }
{
    let mut numbers = Vec::new(alloc);
    for t in types.as_slice() {
        push_number(&mut numbers, category_of(t))?;
    }
    Ok(numbers)
}

/// Adds the number of an interface.
fn push_number(numbers: &mut Vec<u32>, kind: Category) -> Result<(), AllocError>
    ensures { OnOk result (numbers.new.items ≡ numbers.old.items ++ listed (interface_number kind)) }
{
    if let Category::Interface(number) = kind {
        numbers.push(number)?;
    }
    Ok(())
}
