//! Second stringifiers.

ghost use Rattle.std.specs.Prelude.{◌≡◌, ◌||◌, is_some};
ghost use Rattle.widl_idl.specs.First.{AtOne, FirstWhere};
ghost use Rattle.widl_idl.specs.PlainTrees.{member_kind_of};
ghost use Rattle.widl_overload.specs.rules.MemberRules.{IsSecondStringifier, stringifier_place, word_of_attribute};
ghost use Rattle.widl_member_rules.specs.MemberTables.{violation_after};
ghost use Rattle.widl_names.specs.Listings.{listed_members};

use widl_idl::tree::{AttributeKind, Member, MemberKind};
use widl_idl::{Violation, earlier_violation};
use widl_text::Place;

/// The first place of the word of a stringifier that follows another.
pub fn first_second_stringifier(members: &[&Member]) -> Option<Violation>
    ensures { FirstWhere (AtOne IsSecondStringifier (listed_members members.now)) result }
{
    let mut seen = false;
    let mut best = None;
    for member in members {
        let place = stringifier_place(&member.kind);
        let found = violation_after(seen, place);
        best = earlier_violation(best, found);
        seen = either(seen, place);
    }
    best
}

/// Where the word `stringifier` of a member stands.
fn stringifier_place(kind: &MemberKind) -> Option<Place>
    ensures { result ≡ stringifier_place (member_kind_of kind.now) }
{
    match kind {
        MemberKind::Stringifier(stringifier) => Some(stringifier.at),
        MemberKind::Attribute(attribute) => word_of_attribute(attribute.kind),
        _ => None,
    }
}

fn word_of_attribute(kind: AttributeKind) -> Option<Place>
    ensures { result ≡ word_of_attribute kind }
{
    match kind {
        AttributeKind::Stringifier(place) => Some(place),
        _ => None,
    }
}

fn violation_after(seen: bool, place: Option<Place>) -> Option<Violation>
    ensures { result ≡ violation_after seen place }
{
    match place {
        None => None,
        Some(place) => if seen {
            Some(Violation::at(place))
        } else {
            None
        },
    }
}

fn either(seen: bool, place: Option<Place>) -> bool
    ensures { result ≡ (seen || is_some place) }
{
    seen || place.is_some()
}
