//! The rules on what a type may be by what it is the type of: a constant's type, an attribute's type, and
//! where `undefined` may stand.

ghost use Rattle.std.specs.Prelude.{◌≡◌};
ghost use Rattle.widl_idl.specs.First.{FirstWhere};
ghost use Rattle.widl_idl.specs.PlainTypes.{form_term};
ghost use Rattle.widl_idl.specs.Terms.{type_term};
ghost use Rattle.widl_overload.specs.rules.TypeRules.{IsCopiedAttribute, IsOtherConstantType, IsUndefinedInside, is_attribute_role, is_constant_role, is_constant_type, is_undefined_form, takes_undefined};
ghost use Rattle.widl_type_rules.specs.UsesListed.{resolved_use};

use crate::copied::any_copied;
use crate::resolved_uses::ResolvedUse;
use widl_idl::tree::TypeForm;
use widl_idl::{IdlType, Violation};
use widl_overload::TypeRole;

/// The place of a constant's type that is neither boolean nor an integer type.
pub fn other_constant_type(ty: &ResolvedUse<'_>) -> Option<Violation>
    ensures { FirstWhere (IsOtherConstantType (resolved_use ty.now).meaning (resolved_use ty.now).written) result }
{
    if is_constant_role(ty.written.role) && !is_constant_type(&ty.meaning) {
        Some(Violation::at(ty.written.ty.at))
    } else {
        None
    }
}

/// Whether a type is that of a constant.
pub fn is_constant_role(role: TypeRole) -> bool
    ensures { result ≡ is_constant_role role }
{
    matches!(role, TypeRole::Constant)
}

fn is_constant_type(t: &IdlType) -> bool
    ensures { result ≡ is_constant_type (type_term t.now) }
{
    matches!(t, IdlType::Boolean | IdlType::Int(_, _))
}

/// The place of an attribute's type whose values are copied when they are read.
pub fn copied_attribute(ty: &ResolvedUse<'_>) -> Option<Violation>
    ensures { FirstWhere (IsCopiedAttribute (resolved_use ty.now).meaning (resolved_use ty.now).written) result }
{
    if is_attribute_role(ty.written.role) && any_copied(&ty.meaning) {
        Some(Violation::at(ty.written.ty.at))
    } else {
        None
    }
}

/// Whether a type is that of an attribute.
pub fn is_attribute_role(role: TypeRole) -> bool
    ensures { result ≡ is_attribute_role role }
{
    matches!(role, TypeRole::Attribute)
}

/// The place of `undefined` elsewhere than as a whole return type or the whole type of a promise.
pub fn undefined_inside(ty: &ResolvedUse<'_>) -> Option<Violation>
    ensures { FirstWhere (IsUndefinedInside (resolved_use ty.now).written) result }
{
    let written = ty.written.ty;
    if is_undefined(&written.form)
        && (!takes_undefined(ty.written.role) || written.question.is_some())
    {
        Some(Violation::at(written.at))
    } else {
        None
    }
}

fn is_undefined(form: &TypeForm) -> bool
    ensures { result ≡ is_undefined_form (form_term form.now) }
{
    matches!(form, TypeForm::Undefined)
}

/// Whether `undefined` may be the whole type.
pub fn takes_undefined(role: TypeRole) -> bool
    ensures { result ≡ takes_undefined role }
{
    matches!(role, TypeRole::Returned | TypeRole::Promised)
}
