//! The first refusal by the rules on a constant's value and an attribute's type.

ghost use Rattle.std.specs.Prelude.{◌≡◌, [], IfOk};
ghost use Rattle.widl_idl.specs.First.{FirstWhere};
ghost use Rattle.widl_idl.specs.PlainTrees.{AttributeMember, attribute_member_of, definition_kind_of, member_kind_of, members_of, plain_definitions};
ghost use Rattle.widl_idl.specs.PlainTypes.{annotated_of};
ghost use Rattle.widl_idl.specs.Terms.{type_term};
ghost use Rattle.widl_idl.specs.Nodes.{MemberNode, nodes_of};
ghost use Rattle.widl_idl.specs.WrittenTypes.{meaning_of_annotated};
ghost use Rattle.widl_names.specs.Listings.{listed_definitions};
ghost use Rattle.widl_overload.specs.rules.MemberRules.{is_promise};
ghost use Rattle.widl_overload.specs.rules.OnMembers.{BreaksNode, NodesBreak, member_rules};
ghost use Rattle.widl_idl.specs.StringTypes.{is_unit_string};
ghost use Rattle.widl_overload.specs.rules.TypeRules.{IsOtherStringifier, IsWritablePromise};
ghost use Rattle.widl_member_rules.specs.MemberTypes.{member_nodes, own_members};
ghost use Rattle.widl_refusals.specs.Refusals.{IsFirst};

use crate::constant_values::other_constant_value;
use crate::promise_overloads::is_promise;
use std::alloc::{AllocError, Global};
use widl_idl::tree::{Attribute, AttributeKind, Definition, DefinitionKind, Member, MemberKind};
use widl_idl::{IdlType, Refusal, Violation, is_unit_string};
use widl_names::Resolver;
use widl_overload::ValidityRule;
use widl_refusals::{earlier_refusal, first};

/// The first refusal by these rules, in all these definitions.
///
/// # Errors
///
/// Those of [`Resolver::outline`].
pub fn find_in_member_types<'a>(
    alloc: Global,
    resolver: &Resolver<'_, 'a>,
    definitions: &[&'a Definition],
) -> Result<Option<Refusal>, AllocError>
    ensures { IfOk result (λ found. IsFirst (NodesBreak (plain_definitions resolver.now) (nodes_of (listed_definitions definitions.now))) member_rules found) }
{
    let mut best = None;
    for definition in definitions {
        let members = own_members(&definition.kind);
        let found = find_in_members(alloc, resolver, members)?;
        best = earlier_refusal(best, found);
    }
    Ok(best)
}

/// The members of an interface, a mixin or a namespace.
fn own_members(kind: &DefinitionKind) -> &[Member]
    ensures { members_of result.now ≡ own_members (definition_kind_of kind.now) }
{
    match kind {
        DefinitionKind::Interface(interface) => interface.members.as_slice(),
        DefinitionKind::Mixin(mixin) => mixin.members.as_slice(),
        DefinitionKind::Namespace(namespace) => namespace.members.as_slice(),
        _ => &[],
    }
}

/// The first refusal among members.
fn find_in_members<'a>(
    alloc: Global,
    resolver: &Resolver<'_, 'a>,
    members: &'a [Member],
) -> Result<Option<Refusal>, AllocError>
    ensures { IfOk result (λ found. IsFirst (NodesBreak (plain_definitions resolver.now) (member_nodes (members_of members.now))) member_rules found) }
{
    let mut best = None;
    for member in members {
        let found = find_in_member(alloc, resolver, &member.kind)?;
        best = earlier_refusal(best, found);
    }
    Ok(best)
}

/// The first refusal by one member.
fn find_in_member<'a>(
    alloc: Global,
    resolver: &Resolver<'_, 'a>,
    member: &'a MemberKind,
) -> Result<Option<Refusal>, AllocError>
    ensures { IfOk result (λ found. IsFirst (λ which. BreaksNode (plain_definitions resolver.now) which (MemberNode (member_kind_of member.now))) member_rules found) }
{
    match member {
        MemberKind::Constant(constant) => {
            let found = other_constant_value(alloc, resolver, constant)?;
            Ok(first(None, ValidityRule::OtherConstantValue, found))
        }
        MemberKind::Attribute(attribute) => find_in_attribute(alloc, resolver, attribute),
        MemberKind::Operation(_)
        | MemberKind::Constructor(_)
        | MemberKind::Stringifier(_)
        | MemberKind::Iterable(_)
        | MemberKind::AsyncIterable(_)
        | MemberKind::Maplike(_)
        | MemberKind::Setlike(_) => Ok(None),
    }
}

/// The first refusal by one attribute.
fn find_in_attribute<'a>(
    alloc: Global,
    resolver: &Resolver<'_, 'a>,
    attribute: &'a Attribute,
) -> Result<Option<Refusal>, AllocError>
    ensures { IfOk result (λ found. IsFirst (λ which. BreaksNode (plain_definitions resolver.now) which (MemberNode (AttributeMember (attribute_member_of attribute.now)))) member_rules found) }
{
    let found = other_stringifier(alloc, resolver, attribute)?;
    let best = first(None, ValidityRule::Stringifiers, found);
    let found = writable_promise(alloc, resolver, attribute)?;
    Ok(first(best, ValidityRule::WritablePromise, found))
}

/// The place of the name of an attribute, if its type is a promise and it isn't read only.
fn writable_promise<'a>(
    alloc: Global,
    resolver: &Resolver<'_, 'a>,
    attribute: &'a Attribute,
) -> Result<Option<Violation>, AllocError>
    ensures { IfOk result (λ found. FirstWhere (IsWritablePromise (plain_definitions resolver.now) (MemberNode (AttributeMember (attribute_member_of attribute.now)))) found) }
{
    if attribute.readonly {
        return Ok(None);
    }
    let ty = own_type(alloc, resolver, attribute)?;
    if is_promise(&ty) {
        Ok(Some(Violation::at(attribute.name.at)))
    } else {
        Ok(None)
    }
}

/// The place of the word `stringifier` before an attribute that is neither a DOMString nor a USVString.
fn other_stringifier<'a>(
    alloc: Global,
    resolver: &Resolver<'_, 'a>,
    attribute: &'a Attribute,
) -> Result<Option<Violation>, AllocError>
    ensures { IfOk result (λ found. FirstWhere (IsOtherStringifier (plain_definitions resolver.now) (MemberNode (AttributeMember (attribute_member_of attribute.now)))) found) }
{
    let AttributeKind::Stringifier(word) = attribute.kind else {
        return Ok(None);
    };
    let ty = own_type(alloc, resolver, attribute)?;
    if is_unit_string(&ty) {
        Ok(None)
    } else {
        Ok(Some(Violation::at(word)))
    }
}

/// The outline of what an attribute's type means after its own annotations alone. It tells whether that is a
/// promise, and whether it is a string.
fn own_type<'a>(
    alloc: Global,
    resolver: &Resolver<'_, 'a>,
    attribute: &'a Attribute,
) -> Result<IdlType, AllocError>
    ensures promise { IfOk result (λ t. is_promise (type_term t) ≡ is_promise (meaning_of_annotated (plain_definitions resolver.now) [] (annotated_of attribute.now.ty))) }
    ensures string { IfOk result (λ t. is_unit_string (type_term t) ≡ is_unit_string (meaning_of_annotated (plain_definitions resolver.now) [] (annotated_of attribute.now.ty))) }
{
    resolver.outline_annotated(alloc, &attribute.ty)
}
