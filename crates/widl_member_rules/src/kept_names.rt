//! Names that static members and constants of an interface may not have, since the interface object has
//! properties of these names.

ghost use Rattle.std.specs.Prelude.{◌≡◌};
ghost use Rattle.widl_idl.specs.First.{AtOne, FirstWhere};
ghost use Rattle.widl_idl.specs.MergedMembers.{is_static_attribute};
ghost use Rattle.widl_idl.specs.PlainTrees.{member_kind_of};
ghost use Rattle.widl_overload.specs.rules.MemberRules.{HasKeptName, identifier, is_constant, is_kept_name, is_static_member};
ghost use Rattle.widl_member_rules.specs.MemberTables.{violation_of_name};
ghost use Rattle.widl_names.specs.Listings.{listed_members};

use crate::owner_members::identifier;
use widl_idl::tree::{AttributeKind, Member, MemberKind};
use widl_idl::{Violation, earlier_violation};
use widl_names::is_static;

/// The first place of the name of a static member or a constant that it may not have.
pub fn first_kept_name(members: &[&Member]) -> Option<Violation>
    ensures { FirstWhere (AtOne HasKeptName (listed_members members.now)) result }
{
    let mut best = None;
    for member in members {
        let found = kept_name(&member.kind);
        best = earlier_violation(best, found);
    }
    best
}

/// The place of the name of a member, where it may not have it.
fn kept_name(kind: &MemberKind) -> Option<Violation>
    ensures { result ≡ violation_of_name (identifier (member_kind_of kind.now)) (is_kept_name (member_kind_of kind.now)) }
{
    let name = identifier(kind)?;
    if is_kept_name(kind, name.text.as_str()) {
        Some(Violation::at(name.at))
    } else {
        None
    }
}

fn is_kept_name(kind: &MemberKind, text: &str) -> bool
    ensures { result ≡ is_kept_name (member_kind_of kind.now) text.now }
{
    let constant = is_constant(kind);
    text == "prototype" && (is_static_member(kind) || constant)
        || constant && (text == "length" || text == "name")
}

fn is_constant(kind: &MemberKind) -> bool
    ensures { result ≡ is_constant (member_kind_of kind.now) }
{
    match kind {
        MemberKind::Constant(_) => true,
        _ => false,
    }
}

fn is_static_member(kind: &MemberKind) -> bool
    ensures { result ≡ is_static_member (member_kind_of kind.now) }
{
    match kind {
        MemberKind::Attribute(attribute) => is_static_attribute(attribute.kind),
        MemberKind::Operation(operation) => is_static(operation.kind),
        _ => false,
    }
}

fn is_static_attribute(kind: AttributeKind) -> bool
    ensures { result ≡ is_static_attribute kind }
{
    match kind {
        AttributeKind::Static => true,
        _ => false,
    }
}
