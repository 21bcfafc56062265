//! The rules on annotated types: which types an annotation applies to, and which may not be annotated.

ghost use Rattle.std.specs.Prelude.{◌≡◌, map};
ghost use Rattle.widl_idl.specs.First.{FirstWhere, Somewhere};
ghost use Rattle.widl_idl.specs.PlainTypes.{attribute_of};
ghost use Rattle.widl_idl.specs.Terms.{type_term};
ghost use Rattle.widl_idl.specs.WrittenTypes.{annotation_of};
ghost use Rattle.widl_overload.specs.rules.TypeRules.{HasMisplacedAnnotation, IsAnnotatedMember, is_annotated, is_integer, is_member_role, is_misplaced, without_nullable};
ghost use Rattle.widl_type_rules.specs.Misplaced.{IsMisplacedOn};
ghost use Rattle.widl_type_rules.specs.UsesListed.{resolved_use};

use crate::resolved_uses::ResolvedUse;
use widl_idl::tree::ExtendedAttribute;
use widl_idl::{IdlType, Mode, Violation, earlier_violation, is_unit_string};
use widl_overload::TypeRole;

/// The place of a union's member type that is annotated, also by a typedef.
pub fn annotated_member(ty: &ResolvedUse<'_>) -> Option<Violation>
    ensures { FirstWhere (IsAnnotatedMember (resolved_use ty.now).meaning (resolved_use ty.now).written) result }
{
    if is_member_role(ty.written.role) && is_annotated(&ty.meaning) {
        Some(Violation::at(ty.written.first))
    } else {
        None
    }
}

fn is_member_role(role: TypeRole) -> bool
    ensures { result ≡ is_member_role role }
{
    matches!(role, TypeRole::UnionMember)
}

/// Whether a type, with or without a `?`, is annotated.
fn is_annotated(t: &IdlType) -> bool
    ensures { result ≡ is_annotated (type_term t.now) }
{
    match t {
        IdlType::Int(_, mode) => !matches!(mode, Mode::Wrap),
        IdlType::Text { null_empty, .. } => *null_empty,
        IdlType::Nullable(inner) => is_annotated(inner),
        _ => false,
    }
}

/// The first place of an annotation's name that doesn't apply to the type after it.
pub fn misplaced_annotation(ty: &ResolvedUse<'_>) -> Option<Violation>
    ensures { FirstWhere (HasMisplacedAnnotation (resolved_use ty.now).meaning (resolved_use ty.now).written) result }
{
    let inner = without_nullable(&ty.meaning);
    let outer = first_misplaced(inner, ty.written.outer);
    let own = first_misplaced(inner, ty.written.own);
    earlier_violation(outer, own)
}

/// The type without its `?`s.
fn without_nullable<'t>(t: &'t IdlType) -> &'t IdlType
    ensures { type_term result.now ≡ without_nullable (type_term t.now) }
{
    match t {
        IdlType::Nullable(inner) => without_nullable(inner),
        _ => t,
    }
}

/// The first place among these extended attributes of an annotation that doesn't apply to a type without
/// its `?`s.
fn first_misplaced(inner: &IdlType, attributes: &[ExtendedAttribute]) -> Option<Violation>
    ensures { FirstWhere (Somewhere (IsMisplacedOn (type_term inner.now)) (map attribute_of attributes.now)) result }
{
    let mut best = None;
    for attribute in attributes {
        let found = misplaced(inner, attribute);
        best = earlier_violation(best, found);
    }
    best
}

fn misplaced(inner: &IdlType, attribute: &ExtendedAttribute) -> Option<Violation>
    ensures { FirstWhere (IsMisplacedOn (type_term inner.now) (attribute_of attribute.now)) result }
{
    if is_misplaced(inner, attribute.name.text.as_str()) {
        Some(Violation::at(attribute.name.at))
    } else {
        None
    }
}

/// Whether the extended attribute of this name is an annotation that doesn't apply to a type.
fn is_misplaced(t: &IdlType, name: &str) -> bool
    ensures { result ≡ is_misplaced (type_term t.now) (annotation_of name.now) }
{
    if name == "Clamp" || name == "EnforceRange" {
        !is_integer(t)
    } else {
        name == "LegacyNullToEmptyString" && !is_unit_string(t)
    }
}

fn is_integer(t: &IdlType) -> bool
    ensures { result ≡ is_integer (type_term t.now) }
{
    matches!(t, IdlType::Int(_, _))
}
