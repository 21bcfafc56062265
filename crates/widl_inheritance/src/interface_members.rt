//! The members of an interface with those of its partials and its mixins, by the number of its definition.

ghost use Rattle.std.specs.Prelude.{◌≡◌, Some, option_map, slice_get, IfOk};
ghost use Rattle.widl_idl.specs.PlainTrees.{definition_kind_of, plain_definitions};
ghost use Rattle.widl_inheritance.specs.InterfaceMembers.{is_meant_interface, members_at};
ghost use Rattle.widl_overload.specs.rules.MemberRules.{is_interface_kind};
ghost use Rattle.widl_names.specs.Listings.{listed_members};

use std::alloc::{AllocError, Global};
use widl_idl::Kind;
use widl_idl::tree::{DefinitionKind, Member};
use widl_names::{Meanings, Scope, kind_at, kind_of, list_members, means_itself};

/// The members in merged order of the interface of this number; none where the definition of the number
/// is no interface, or its name means another.
///
/// # Errors
///
/// `AllocError` where there is no memory.
pub fn interface_members<'a>(
    alloc: Global,
    scope: &Scope<'_, 'a>,
    number: usize,
) -> Result<Vec<&'a Member>, AllocError>
    ensures { IfOk result (λ list. listed_members list.items ≡ members_at (plain_definitions scope.now) number) }
{
    match kind_at(scope.all(), number) {
        None => Ok(Vec::new(alloc)),
        Some(kind) => members_of_kind(alloc, scope, number, kind),
    }
}

/// The same of a definition that is at hand.
fn members_of_kind<'a>(
    alloc: Global,
    scope: &Scope<'_, 'a>,
    number: usize,
    kind: &DefinitionKind,
) -> Result<Vec<&'a Member>, AllocError>
    requires { option_map (λ d. d.kind) (slice_get (plain_definitions scope.now) number) ≡ Some (definition_kind_of kind.now) }
    ensures { IfOk result (λ list. listed_members list.items ≡ members_at (plain_definitions scope.now) number) }
{
    if is_meant_interface(scope.meanings(), number, kind) {
        let list = scope.parts().list(alloc, number)?;
        list_members(alloc, &list)
    } else {
        Ok(Vec::new(alloc))
    }
}

/// Whether a definition of this number is an interface that its name means.
fn is_meant_interface(meanings: &Meanings<'_, '_>, number: usize, kind: &DefinitionKind) -> bool
    ensures { result ≡ is_meant_interface (plain_definitions meanings.now) number (definition_kind_of kind.now) }
{
    is_interface(kind_of(kind)) && means_itself(meanings, number, kind)
}

fn is_interface(kind: Kind) -> bool
    ensures { result ≡ is_interface_kind kind }
{
    match kind {
        Kind::Interface => true,
        _ => false,
    }
}
