//! The rules on nullable types: where a `?` may stand, and how many members of a union may have one.

ghost use Rattle.std.specs.Prelude.{◌≡◌, min};
ghost use Rattle.std.specs.List.{list_any};
ghost use Rattle.widl_idl.specs.Flattened.{flattened_members, nullable_members};
ghost use Rattle.widl_idl.specs.First.{FirstWhere};
ghost use Rattle.widl_idl.specs.PlainTypes.{form_term};
ghost use Rattle.widl_idl.specs.Terms.{type_term};
ghost use Rattle.widl_overload.specs.sets.Distinct.{is_dictionary};
ghost use Rattle.widl_overload.specs.rules.TypeRules.{HaveNullableAndDictionary, HaveSeveralNullable, IsNullableDictionary, IsWronglyNullable, OfUnion, is_argument_or_member_role, is_never_nullable, is_nullable_dictionary, is_union_form, is_wrongly_nullable, members_of_union};
ghost use Rattle.widl_type_rules.specs.UsesListed.{resolved_use};

use crate::resolved_uses::ResolvedUse;
use widl_idl::tree::TypeForm;
use widl_idl::{IdlType, Violation, includes_nullable, nullable_count};
use widl_overload::{TypeRole, any_dictionary};

/// The place of the `?` of a type that may not have one.
pub fn wrongly_nullable(ty: &ResolvedUse<'_>) -> Option<Violation>
    ensures { FirstWhere (IsWronglyNullable (resolved_use ty.now).meaning (resolved_use ty.now).written) result }
{
    match ty.written.ty.question {
        None => None,
        Some(question) => if is_wrongly_nullable(&ty.meaning) {
            Some(Violation::at(question))
        } else {
            None
        },
    }
}

fn is_wrongly_nullable(t: &IdlType) -> bool
    ensures { result ≡ is_wrongly_nullable (type_term t.now) }
{
    match t {
        IdlType::Nullable(inner) => is_never_nullable(inner),
        _ => false,
    }
}

/// Whether a type may not stand before a `?`.
fn is_never_nullable(t: &IdlType) -> bool
    ensures { result ≡ is_never_nullable (type_term t.now) }
{
    match t {
        IdlType::Any | IdlType::Promise(_) | IdlType::Nullable(_) => true,
        IdlType::Union(_) => includes_nullable(t) || any_dictionary(t),
        _ => false,
    }
}

/// The place of a union with more than one nullable member.
pub fn several_nullable(ty: &ResolvedUse<'_>) -> Option<Violation>
    ensures { FirstWhere (OfUnion HaveSeveralNullable (resolved_use ty.now).meaning (resolved_use ty.now).written) result }
{
    if is_union(&ty.written.ty.form) && count_nullable(&ty.meaning) > 1 {
        Some(Violation::at(ty.written.ty.at))
    } else {
        None
    }
}

/// The place of a union that includes a nullable type, and has a dictionary among its flattened members.
pub fn nullable_beside_dictionary(ty: &ResolvedUse<'_>) -> Option<Violation>
    ensures { FirstWhere (OfUnion HaveNullableAndDictionary (resolved_use ty.now).meaning (resolved_use ty.now).written) result }
{
    if is_union(&ty.written.ty.form)
        && count_nullable(&ty.meaning) == 1
        && has_dictionary_member(&ty.meaning)
    {
        Some(Violation::at(ty.written.ty.at))
    } else {
        None
    }
}

/// Whether a type without its `?` is written as a union.
pub fn is_union(form: &TypeForm) -> bool
    ensures { result ≡ is_union_form (form_term form.now) }
{
    match form {
        TypeForm::Union(_) => true,
        TypeForm::Any
        | TypeForm::Undefined
        | TypeForm::Boolean
        | TypeForm::Object
        | TypeForm::Symbol
        | TypeForm::BigInt
        | TypeForm::Integer(_)
        | TypeForm::Float(_)
        | TypeForm::Text(_)
        | TypeForm::Buffer(_)
        | TypeForm::Named(_)
        | TypeForm::Container(_, _)
        | TypeForm::Record(_, _)
        | TypeForm::Promise(_) => false,
    }
}

/// How many members of a union, with or without a `?`, are nullable, or 4,294,967,295 if they are more;
/// 0 for any other type.
fn count_nullable(t: &IdlType) -> u32
    ensures { result ≡ min (nullable_members (members_of_union (type_term t.now))) 4294967295 }
{
    match t {
        IdlType::Nullable(inner) => count_nullable(inner),
        IdlType::Union(_) => nullable_count(t),
        _ => 0,
    }
}

/// Whether a union, with or without a `?`, has a dictionary among its flattened members.
fn has_dictionary_member(t: &IdlType) -> bool
    ensures { result ≡ list_any is_dictionary (flattened_members (members_of_union (type_term t.now))) }
{
    match t {
        IdlType::Nullable(inner) => has_dictionary_member(inner),
        IdlType::Union(_) => any_dictionary(t),
        _ => false,
    }
}

/// The place of an argument's or a dictionary member's type that is a nullable dictionary.
pub fn nullable_dictionary(ty: &ResolvedUse<'_>) -> Option<Violation>
    ensures { FirstWhere (IsNullableDictionary (resolved_use ty.now).meaning (resolved_use ty.now).written) result }
{
    if is_argument_or_member(ty.written.role) && is_nullable_dictionary(&ty.meaning) {
        Some(Violation::at(ty.written.ty.at))
    } else {
        None
    }
}

fn is_argument_or_member(role: TypeRole) -> bool
    ensures { result ≡ is_argument_or_member_role role }
{
    matches!(role, TypeRole::Argument | TypeRole::DictionaryMember)
}

fn is_nullable_dictionary(t: &IdlType) -> bool
    ensures { result ≡ is_nullable_dictionary (type_term t.now) }
{
    match t {
        IdlType::Nullable(inner) => is_dictionary(inner),
        _ => false,
    }
}

fn is_dictionary(t: &IdlType) -> bool
    ensures { result ≡ is_dictionary (type_term t.now) }
{
    matches!(t, IdlType::Dict(_))
}
