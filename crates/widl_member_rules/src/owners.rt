//! The first refusal by the rules on the members of interfaces and namespaces in merged order.

ghost use Rattle.std.specs.Prelude.{◌≡◌, true, if◌then◌else◌, List, [], None, Some, option_map, slice_get, IfOk};
ghost use Rattle.widl_idl.specs.First.{AtOne, FirstWhere};
ghost use Rattle.widl_idl.specs.Meanings.{kind_of};
ghost use Rattle.widl_idl.specs.PlainTrees.{PlainDefinition, definition_kind_of, plain_definitions};
ghost use Rattle.widl_overload.specs.rules.MemberRules.{has_members_of_its_own, is_interface_kind};
ghost use Rattle.widl_names.specs.Listings.{listed_members};
ghost use Rattle.widl_member_rules.specs.ApartMembers.{SharesLabel};
ghost use Rattle.widl_overload.specs.rules.OnMembers.{ByOwner, member_rules};
ghost use Rattle.widl_member_rules.specs.Owners.{MembersBreak, OwnerBreaks, is_owner};
ghost use Rattle.widl_refusals.specs.Refusals.{IsFirst};

use crate::apart_members::are_apart;
use crate::kept_names::first_kept_name;
use crate::overload_counts::first_overload_past_limit;
use crate::promise_overloads::first_mixing_promises;
use crate::repeated_members::first_repeated_member;
use crate::stringifiers::first_second_stringifier;
use std::alloc::{AllocError, Global};
use widl_idl::tree::{DefinitionKind, Member};
use widl_idl::{Kind, Refusal};
use widl_names::{Meanings, Resolver, Scope, kind_of, list_members, means_itself};
use widl_overload::ValidityRule;
use widl_refusals::{earlier_refusal, first};

/// The first refusal by the rules on members, in all interfaces and namespaces.
///
/// # Errors
///
/// `AllocError` where there is no memory, and the errors of [`Resolver::resolve`].
pub fn find_in_owners(alloc: Global, scope: &Scope<'_, '_>) -> Result<Option<Refusal>, AllocError>
    ensures { IfOk result (λ found. IsFirst (ByOwner (plain_definitions scope.now)) member_rules found) }
{
    let mut best = None;
    let definitions = scope.all();
    for (number, definition) in definitions.iter().enumerate() {
        let found = find_in_owner(alloc, scope, number, &definition.kind)?;
        best = earlier_refusal(best, found);
    }
    Ok(best)
}

/// The first refusal in the definition of this number, if it is an interface or a namespace that its name
/// means.
fn find_in_owner(
    alloc: Global,
    scope: &Scope<'_, '_>,
    number: usize,
    kind: &DefinitionKind,
) -> Result<Option<Refusal>, AllocError>
    requires { option_map (λ d. d.kind) (slice_get (plain_definitions scope.now) number) ≡ Some (definition_kind_of kind.now) }
    ensures { IfOk result (λ found. IsFirst (OwnerBreaks (plain_definitions scope.now) number (definition_kind_of kind.now)) member_rules found) }
{
    if is_owner(scope.meanings(), number, kind) {
        let list = scope.parts().list(alloc, number)?;
        let members = list_members(alloc, &list)?;
        find_in_members(alloc, scope.resolver(), kind_of(kind), &members)
    } else {
        Ok(None)
    }
}

/// Whether a definition of this number is an interface or a namespace that its name means.
fn is_owner(meanings: &Meanings, number: usize, kind: &DefinitionKind) -> bool
    ensures { result ≡ is_owner (plain_definitions meanings.now) number (definition_kind_of kind.now) }
{
    has_members_of_its_own(kind_of(kind)) && means_itself(meanings, number, kind)
}

fn has_members_of_its_own(kind: Kind) -> bool
    ensures { result ≡ has_members_of_its_own kind }
{
    match kind {
        Kind::Interface | Kind::Namespace => true,
        _ => false,
    }
}

/// The first refusal among these members of an interface or a namespace; each rule asks its kinds alone.
fn find_in_members<'a>(
    alloc: Global,
    resolver: &Resolver<'_, 'a>,
    kind: Kind,
    members: &[&'a Member],
) -> Result<Option<Refusal>, AllocError>
    requires { has_members_of_its_own kind ≡ true }
    ensures { IfOk result (λ found. IsFirst (MembersBreak (plain_definitions resolver.now) kind (listed_members members.now)) member_rules found) }
{
    if are_apart(members) {
        return Ok(find_in_apart(kind, members));
    }
    let of_interface = members_of_interface(kind, members);
    let found = first_overload_past_limit(alloc, members)?;
    let best = first(None, ValidityRule::TooManyOverloads, found);
    let best = first(best, ValidityRule::KeptName, first_kept_name(of_interface));
    let found = first_repeated_member(alloc, members)?;
    let best = first(best, ValidityRule::RepeatedMember, found);
    let found = first_mixing_promises(alloc, resolver, members)?;
    let best = first(best, ValidityRule::PromisesAndOthers, found);
    Ok(first(
        best,
        ValidityRule::Stringifiers,
        first_second_stringifier(of_interface),
    ))
}

/// The same among members of which none has the name of an earlier one.
fn find_in_apart(kind: Kind, members: &[&Member]) -> Option<Refusal>
    requires kind { has_members_of_its_own kind ≡ true }
    requires apart { FirstWhere (AtOne SharesLabel (listed_members members.now)) None }
    ensures { (definitions : List PlainDefinition) → IsFirst (MembersBreak definitions kind (listed_members members.now)) member_rules result }
{
    let of_interface = members_of_interface(kind, members);
    let best = first(None, ValidityRule::KeptName, first_kept_name(of_interface));
    first(
        best,
        ValidityRule::Stringifiers,
        first_second_stringifier(of_interface),
    )
}

/// The members of an interface; none of a namespace.
fn members_of_interface<'m, 'a>(kind: Kind, members: &'m [&'a Member]) -> &'m [&'a Member]
    ensures { listed_members result.now ≡ (if is_interface_kind kind then listed_members members.now else []) }
{
    match kind {
        Kind::Interface => members,
        _ => &[],
    }
}
