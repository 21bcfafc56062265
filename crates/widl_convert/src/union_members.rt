//! The flattened members of unions, where they stand: nothing is copied.
//!
//! A type of a list of definitions nests at most 16 levels, which bounds the recursion; the members of a
//! union are walked by a loop.

ghost use Rattle.std.specs.Prelude.{◌≡◌, ◌-◌, ◌∷◌, [], length, option_map, slice_get};
ghost use Rattle.std.specs.Option.{option_and_then};
ghost use Rattle.widl_idl.specs.Flattened.{flattened_member, flattened_members, unannotated};
ghost use Rattle.widl_idl.specs.Terms.{packed, type_term, type_terms};
ghost use Rattle.widl_steps.specs.Sequences.{element_of};

use widl_idl::{IdlType, IdlTypes};

/// How far a walk came.
#[derive(Clone, Copy)]
struct Walk<'t> {
    /// The member at the place that is looked for, where it was reached. It may be annotated.
    member: Option<&'t IdlType>,
    /// How many members still come before it, where it wasn't.
    left: u32,
}

/// The flattened member of a union at a place, which may be annotated where it stands (Web IDL,
/// "flattened member types").
pub(crate) fn member_at(members: &IdlTypes, place: u32) -> Option<&IdlType>
    ensures { option_map (λ t. unannotated (type_term t.now)) result ≡ slice_get (flattened_members (packed (type_terms members.now))) place }
{
    walk_among(members, place).member
}

/// The type of the elements of the flattened member at a place, where that is a sequence type.
pub(crate) fn element_at(members: &IdlTypes, place: u32) -> Option<&IdlType>
    ensures { option_map (λ t. type_term t.now) result ≡ option_and_then element_of (slice_get (flattened_members (packed (type_terms members.now))) place) }
{
    match member_at(members, place) {
        None => None,
        Some(member) => element_of(member),
    }
}

/// The type of the elements of a sequence type.
fn element_of(ty: &IdlType) -> Option<&IdlType>
    ensures { option_map (λ t. type_term t.now) result ≡ element_of (unannotated (type_term ty.now)) }
{
    match ty {
        IdlType::Seq(element) => Some(element),
        IdlType::Any
        | IdlType::Undefined
        | IdlType::Boolean
        | IdlType::Int(_, _)
        | IdlType::Text { .. }
        | IdlType::Choice(_)
        | IdlType::Interface(_)
        | IdlType::CallbackFn(_)
        | IdlType::CallbackIface(_)
        | IdlType::Dict(_)
        | IdlType::Object
        | IdlType::Rec(_, _)
        | IdlType::Promise(_)
        | IdlType::Nullable(_)
        | IdlType::Union(_) => None,
    }
}

/// Walks over what a type is flattened to; so many members come before the one that is looked for.
#[cycle(walk)]
fn walk_in(t: &IdlType, left: u32) -> Walk<'_>
    ensures member { option_map (λ t. unannotated (type_term t.now)) result.member ≡ slice_get (flattened_member (type_term t.now)) left }
    ensures left { result.left ≡ left - length (flattened_member (type_term t.now)) }
{
    match t {
        IdlType::Nullable(inner) => walk_in(inner, left),
        IdlType::Union(members) => walk_among(members, left),
        _ => walk_here(t, left),
    }
}

#[cycle(walk)]
fn walk_among(members: &IdlTypes, left: u32) -> Walk<'_>
    ensures member { option_map (λ t. unannotated (type_term t.now)) result.member ≡ slice_get (flattened_members (packed (type_terms members.now))) left }
    ensures left { result.left ≡ left - length (flattened_members (packed (type_terms members.now))) }
{
    let mut still = left;
    for member in members.as_slice() {
        let walk = walk_in(member, still);
        if walk.member.is_some() {
            return walk;
        }
        still = walk.left;
    }
    Walk {
        member: None,
        left: still,
    }
}

fn walk_here(t: &IdlType, left: u32) -> Walk<'_>
    ensures member { option_map (λ t. unannotated (type_term t.now)) result.member ≡ slice_get (unannotated (type_term t.now) ∷ []) left }
    ensures left { result.left ≡ left - 1 }
{
    if left == 0 {
        Walk {
            member: Some(t),
            left: 0,
        }
    } else {
        Walk {
            member: None,
            left: left - 1,
        }
    }
}
