//! Members of which no two have one name. Most owners have only such, and keep the rules on members of one name.

ghost use Rattle.std.specs.Prelude.{◌≡◌, true, None, option_map};
ghost use Rattle.std.specs.List.{list_any};
ghost use Rattle.widl_idl.specs.First.{AtOne, FirstWhere};
ghost use Rattle.widl_idl.specs.PlainTrees.{member_kind_of, member_of};
ghost use Rattle.widl_names.specs.Listings.{listed_members};
ghost use Rattle.widl_member_rules.specs.ApartMembers.{SharesLabel, any_labeled, has_label, label};

use crate::owner_members::operation_text;
use widl_idl::tree::{Member, MemberKind};

/// The most members that are compared with one another. More of them take tables.
const MOST_COMPARED: usize = 24;

/// Whether members are few, and none has the name of an earlier one. Constructors count as of one name, and so do
/// operations without a name.
pub fn are_apart(members: &[&Member]) -> bool
    ensures { result ≡ true → FirstWhere (AtOne SharesLabel (listed_members members.now)) None }
{
    if members.len() > MOST_COMPARED {
        return false;
    }
    for (place, member) in members.iter().enumerate() {
        if any_labeled(&members[..place], label(&member.kind)) {
            return false;
        }
    }
    true
}

/// The name of a member; empty where an operation has none, and of a constructor.
fn label(kind: &MemberKind) -> Option<&str>
    ensures { option_map (λ text. text.now) result ≡ label (member_kind_of kind.now) }
{
    match kind {
        MemberKind::Constant(constant) => Some(constant.name.text.as_str()),
        MemberKind::Attribute(attribute) => Some(attribute.name.text.as_str()),
        MemberKind::Operation(operation) => Some(operation_text(operation)),
        MemberKind::Constructor(_) => Some(""),
        MemberKind::Stringifier(_)
        | MemberKind::Iterable(_)
        | MemberKind::AsyncIterable(_)
        | MemberKind::Maplike(_)
        | MemberKind::Setlike(_) => None,
    }
}

/// Whether one of the members has this label, if there is one.
fn any_labeled(members: &[&Member], sought: Option<&str>) -> bool
    ensures { result ≡ any_labeled (listed_members members.now) (option_map (λ text. text.now) sought.entry) }
{
    match sought {
        None => false,
        Some(text) => any_with(members, text),
    }
}

fn any_with(members: &[&Member], text: &str) -> bool
    ensures { result ≡ list_any (has_label text.now) (listed_members members.now) }
{
    for member in members {
        if has_label(member, text) {
            return true;
        }
    }
    false
}

fn has_label(member: &Member, text: &str) -> bool
    ensures { result ≡ has_label text.now (member_of member.now) }
{
    match label(&member.kind) {
        None => false,
        Some(other) => other == text,
    }
}
