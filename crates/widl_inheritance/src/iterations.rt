//! The iterables of an interface, and its members that are named as the methods that an iterable brings
//! (Web IDL, "Iterable declarations").

ghost use Rattle.std.specs.Prelude.{◌≡◌, ◌||◌, option_map};
ghost use Rattle.widl_idl.specs.First.{AtOne, FirstWhere};
ghost use Rattle.widl_idl.specs.PlainTrees.{member_kind_of};
ghost use Rattle.widl_idl.specs.PlainTypes.{name_of};
ghost use Rattle.widl_names.specs.Listings.{listed_members};
ghost use Rattle.widl_inheritance.specs.Iterations.{FollowsIterable, IsHiding, iterable_place, violation_if};
ghost use Rattle.widl_overload.specs.rules.IterableRules.{has_iterable, has_iteration_name, is_iterable, is_iteration_method, is_iteration_name};
ghost use Rattle.widl_overload.specs.rules.MemberRules.{identifier};

use widl_idl::tree::{Member, MemberKind, Name};
use widl_idl::{Violation, earlier_violation};
use widl_text::Place;

/// Whether one of the members is an iterable.
pub fn has_iterable(members: &[&Member]) -> bool
    ensures { result ≡ has_iterable (listed_members members.now) }
{
    let mut found = false;
    for member in members {
        found = either(found, is_iterable(&member.kind));
    }
    found
}

/// Whether one of the members, static or not, is named as a method that an iterable brings.
pub fn has_iteration_name(members: &[&Member]) -> bool
    ensures { result ≡ has_iteration_name (listed_members members.now) }
{
    let mut found = false;
    for member in members {
        found = either(found, is_iteration_name(&member.kind));
    }
    found
}

/// The first place of the word of an iterable that follows another one, or of any where one is inherited.
pub fn first_second_iterable(members: &[&Member], inherited: bool) -> Option<Violation>
    ensures { FirstWhere (AtOne (FollowsIterable inherited) (listed_members members.now)) result }
{
    let mut seen = inherited;
    let mut best = None;
    for member in members {
        let found = violation_if(seen, iterable_place(&member.kind));
        best = earlier_violation(best, found);
        seen = either(seen, is_iterable(&member.kind));
    }
    best
}

/// The first place of the word of an iterable, if one of its methods is hidden by a member's name.
pub fn first_hiding_iterable(members: &[&Member], named: bool) -> Option<Violation>
    ensures { FirstWhere (IsHiding named (listed_members members.now)) result }
{
    let mut best = None;
    for member in members {
        let found = violation_if(named, iterable_place(&member.kind));
        best = earlier_violation(best, found);
    }
    best
}

fn either(a: bool, b: bool) -> bool
    ensures { result ≡ (a || b) }
{
    a || b
}

/// Where the word `iterable` of an iterable stands.
fn iterable_place(kind: &MemberKind) -> Option<Place>
    ensures { result ≡ iterable_place (member_kind_of kind.now) }
{
    match kind {
        MemberKind::Iterable(iterable) => Some(iterable.at),
        _ => None,
    }
}

fn is_iterable(kind: &MemberKind) -> bool
    ensures { result ≡ is_iterable (member_kind_of kind.now) }
{
    match kind {
        MemberKind::Iterable(_) => true,
        _ => false,
    }
}

/// The violation at a place, where there is one and the test holds.
fn violation_if(holds: bool, place: Option<Place>) -> Option<Violation>
    ensures { result ≡ violation_if holds place }
{
    match place {
        None => None,
        Some(place) => if holds {
            Some(Violation::at(place))
        } else {
            None
        },
    }
}

/// Whether a member is named as a method that an iterable brings.
fn is_iteration_name(kind: &MemberKind) -> bool
    ensures { result ≡ is_iteration_name (identifier (member_kind_of kind.now)) }
{
    match identifier(kind) {
        None => false,
        Some(name) => is_iteration_method(name.text.as_str()),
    }
}

fn is_iteration_method(text: &str) -> bool
    ensures { result ≡ is_iteration_method text.now }
{
    text == "entries" || text == "forEach" || text == "keys" || text == "values"
}

/// The name of a constant, an attribute or an operation.
fn identifier(kind: &MemberKind) -> Option<&Name>
    ensures { option_map (λ name. name_of name.now) result ≡ identifier (member_kind_of kind.now) }
{
    match kind {
        MemberKind::Constant(constant) => Some(&constant.name),
        MemberKind::Attribute(attribute) => Some(&attribute.name),
        MemberKind::Operation(operation) => operation.name.as_ref(),
        _ => None,
    }
}
