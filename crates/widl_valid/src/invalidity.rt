//! The first refusal by all rules of validity, from the first ones by some of them.

ghost use Rattle.std.specs.Prelude.{◌≡◌, IfOk};
ghost use Rattle.widl_idl.specs.DefinitionTerms.{defs_term};
ghost use Rattle.widl_idl.specs.PlainTrees.{plain_definitions};
ghost use Rattle.widl_overload.specs.rules.Validity.{validity_rules};
ghost use Rattle.widl_refusals.specs.Refusals.{IsFirstOver};
ghost use Rattle.widl_valid.specs.Invalidity.{IsListOfFiles};

use crate::inherited_refusals::{
    find_in_defaults, find_in_dictionaries, find_in_iterables, find_in_overloads,
};
use std::alloc::{AllocError, Global};
use widl_definition_rules::find_in_definitions;
use widl_idl::{Defs, Refusal};
use widl_member_rules::find_in_members;
use widl_names::Scope;
use widl_refusals::earlier_refusal;
use widl_type_rules::find_in_types;

/// The first refusal by the rules of validity, or none where all of them are kept, of files whose definitions are in
/// scope and have this merged list.
///
/// # Errors
///
/// `AllocError` where there is no memory, also where typedefs make more types of one that is written than
/// [`widl_names::MOST_TYPES`].
pub fn find_invalid(
    alloc: Global,
    scope: &Scope<'_, '_>,
    defs: &Defs,
) -> Result<Option<Refusal>, AllocError>
    requires { IsListOfFiles (plain_definitions scope.now) defs.now }
    ensures { IfOk result (λ refusal. IsFirstOver (defs_term defs.now) (plain_definitions scope.now) validity_rules refusal) }
{
    let best = find_in_overloads(alloc, defs)?;
    let found = find_in_iterables(alloc, scope)?;
    let best = earlier_refusal(best, found);
    let found = find_in_dictionaries(alloc, defs)?;
    let best = earlier_refusal(best, found);
    let found = find_in_defaults(alloc, defs, scope)?;
    let best = earlier_refusal(best, found);
    let found = find_in_members(alloc, scope)?;
    let best = earlier_refusal(best, found);
    let found = find_in_types(alloc, defs, scope)?;
    let best = earlier_refusal(best, found);
    let found = find_in_definitions(alloc, scope.all())?;
    Ok(earlier_refusal(best, found))
}
