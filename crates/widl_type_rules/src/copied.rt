//! Types whose values are copied when they are read, among those that a type is flattened to.

ghost use Rattle.std.specs.Prelude.{◌≡◌};
ghost use Rattle.std.specs.List.{list_any};
ghost use Rattle.widl_idl.specs.Flattened.{flattened_member, flattened_members};
ghost use Rattle.widl_idl.specs.Terms.{packed, type_term, type_terms};
ghost use Rattle.widl_overload.specs.rules.TypeRules.{is_copied};

use widl_idl::{IdlType, IdlTypes};

/// Whether values of one of the types that this one is flattened to are copied when they are read: whether it
/// is a sequence, a dictionary or a record.
#[cycle(flattened)]
pub fn any_copied(t: &IdlType) -> bool
    ensures { result ≡ list_any is_copied (flattened_member (type_term t.now)) }
{
    match t {
        IdlType::Nullable(inner) => any_copied(inner),
        IdlType::Union(members) => any_member_copied(members),
        IdlType::Seq(_) | IdlType::Dict(_) | IdlType::Rec(_, _) => true,
        _ => false,
    }
}

#[cycle(flattened)]
fn any_member_copied(members: &IdlTypes) -> bool
    ensures { result ≡ list_any is_copied (flattened_members (packed (type_terms members.now))) }
{
    for member in members.as_slice() {
        if any_copied(member) {
            return true;
        }
    }
    false
}
