//! The rule on default values: each fits its type (Web IDL, "Default values").

ghost use Rattle.std.specs.Prelude.{◌≡◌, map, IfOk};
ghost use Rattle.widl_idl.specs.DefinitionTerms.{DefsTerm, defs_term};
ghost use Rattle.widl_idl.specs.First.{FirstWhere, Somewhere};
ghost use Rattle.widl_idl.specs.PlainTrees.{plain_definitions};
ghost use Rattle.widl_fits.specs.Fitting.{Knows};
ghost use Rattle.widl_fits.specs.Hierarchies.{IsHierarchy};
ghost use Rattle.widl_inheritance.specs.WrittenDefaults.{defaulted_of, listed_defaults};
ghost use Rattle.widl_overload.specs.rules.DefaultRules.{HasOtherDefault, IsOtherDefault};
ghost use Rattle.widl_overload.specs.rules.Dictionaries.{dictionary_terms};

use crate::defaulted::{Defaulted, list_defaults};
use crate::fitting::fits;
use crate::written_fitting::fits_as_written;
use std::alloc::{AllocError, Global};
use widl_fits::Tables;
use widl_idl::{Defs, Violation, earlier_violation};
use widl_names::{MOST_TYPES, Resolver, Scope};

/// The first place of a default value that doesn't fit its type.
///
/// # Errors
///
/// `AllocError` where there is no memory, also where typedefs make more types of one that is written than
/// [`MOST_TYPES`].
pub fn first_other_default(
    alloc: Global,
    defs: &Defs,
    scope: &Scope<'_, '_>,
) -> Result<Option<Violation>, AllocError>
    requires { IsHierarchy (dictionary_terms defs.now) }
    ensures { IfOk result (λ found. FirstWhere (HasOtherDefault (defs_term defs.now) (plain_definitions scope.now)) found) }
{
    let defaults = list_defaults(alloc, scope.all())?;
    let tables = Tables::of(alloc, defs)?;
    first_other(alloc, &tables, scope.resolver(), defaults.as_slice())
}

/// The first place of one of these default values that doesn't fit its type.
fn first_other<'a>(
    alloc: Global,
    tables: &Tables<'_>,
    resolver: &Resolver<'_, 'a>,
    defaults: &[Defaulted<'a>],
) -> Result<Option<Violation>, AllocError>
    ensures { IfOk result (λ found. (list : DefsTerm) → Knows list tables.now → FirstWhere (Somewhere (IsOtherDefault list (plain_definitions resolver.now)) (listed_defaults defaults.now)) found) }
{
    let mut best = None;
    for defaulted in defaults {
        let found = other_default(alloc, tables, resolver, defaulted)?;
        best = earlier_violation(best, found);
    }
    Ok(best)
}

/// The place of a default value, if it doesn't fit its type. Most fit as they are written, and resolving a
/// type is slow.
fn other_default<'a>(
    alloc: Global,
    tables: &Tables<'_>,
    resolver: &Resolver<'_, 'a>,
    defaulted: &Defaulted<'a>,
) -> Result<Option<Violation>, AllocError>
    ensures { IfOk result (λ found. (list : DefsTerm) → Knows list tables.now → FirstWhere (IsOtherDefault list (plain_definitions resolver.now) (defaulted_of defaulted.now)) found) }
{
    if fits_as_written(&defaulted.ty.ty, &defaulted.value.value) {
        return Ok(None);
    }
    let attributes = defaulted.attributes.as_slice();
    let mut room = MOST_TYPES;
    let ty = resolver.resolve_with(alloc, &mut room, attributes, defaulted.ty)?;
    if fits(alloc, tables, &ty, &defaulted.value.value)? {
        Ok(None)
    } else {
        Ok(Some(Violation::at(defaulted.value.at)))
    }
}
