//! The first refusal by the rules on members.

ghost use Rattle.std.specs.Prelude.{◌≡◌, IfOk};
ghost use Rattle.widl_idl.specs.DefinitionTerms.{DefsTerm};
ghost use Rattle.widl_idl.specs.PlainTrees.{plain_definitions};
ghost use Rattle.widl_overload.specs.rules.OnMembers.{member_rules};
ghost use Rattle.widl_refusals.specs.Refusals.{IsFirstOver};

use crate::member_types::find_in_member_types;
use crate::owners::find_in_owners;
use std::alloc::{AllocError, Global};
use widl_idl::Refusal;
use widl_names::Scope;
use widl_refusals::earlier_refusal;

/// The first refusal by the rules on members, among those of their owner and with what their types mean.
///
/// # Errors
///
/// `AllocError` where there is no memory, and the errors of [`widl_names::Resolver::resolve`].
pub fn find_in_members(alloc: Global, scope: &Scope<'_, '_>) -> Result<Option<Refusal>, AllocError>
    ensures { IfOk result (λ found. (list : DefsTerm) → IsFirstOver list (plain_definitions scope.now) member_rules found) }
{
    let owners = find_in_owners(alloc, scope)?;
    let types = find_in_member_types(alloc, scope.resolver(), scope.all())?;
    Ok(earlier_refusal(owners, types))
}
