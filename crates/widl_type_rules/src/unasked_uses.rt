//! Types of which no rule on types asks what they mean: they stand inside another type, or are a whole return type, and
//! have no annotation and no `?`. They may name a typedef of a large union, and each of many such types may name the same.

ghost use Rattle.std.specs.Prelude.{◌≡◌, true, List};
ghost use Rattle.widl_idl.specs.DefinitionTerms.{IfaceTerm};
ghost use Rattle.widl_idl.specs.PlainTrees.{plain_definitions};
ghost use Rattle.widl_idl.specs.PlainTypes.{form_term, type_of};
ghost use Rattle.widl_overload.specs.rules.OnTypes.{BreaksUse, type_rules};
ghost use Rattle.widl_refusals.specs.Refusals.{IsFirst};
ghost use Rattle.widl_type_rules.specs.UnaskedUses.{is_bare, is_bare_form, is_inner_role, is_unasked};
ghost use Rattle.widl_type_rules.specs.UsesListed.{use_of};

use crate::clamp_rules::clamp_and_enforce;
use crate::resolved_uses::are_none;
use crate::type_uses::TypeUse;
use widl_idl::Refusal;
use widl_idl::tree::{TypeForm, WrittenType};
use widl_names::Resolver;
use widl_overload::{TypeRole, ValidityRule};
use widl_refusals::first;

/// Whether no rule on types asks what a type means.
pub fn is_unasked(written: &TypeUse<'_>) -> bool
    ensures { result ≡ is_unasked (use_of written.now) }
{
    is_inner_role(written.role) && are_none(written.outer, written.own) && is_bare(written.ty)
}

fn is_inner_role(role: TypeRole) -> bool
    ensures { result ≡ is_inner_role role }
{
    matches!(
        role,
        TypeRole::Returned | TypeRole::Promised | TypeRole::Inner
    )
}

fn is_bare(ty: &WrittenType) -> bool
    ensures { result ≡ is_bare (type_of ty.now) }
{
    match ty.question {
        None => is_bare_form(&ty.form),
        Some(_) => false,
    }
}

/// Whether a type without its `?` is neither `undefined` nor a union.
fn is_bare_form(form: &TypeForm) -> bool
    ensures { result ≡ is_bare_form (form_term form.now) }
{
    match form {
        TypeForm::Undefined | TypeForm::Union(_) => false,
        TypeForm::Any
        | TypeForm::Boolean
        | TypeForm::Object
        | TypeForm::Symbol
        | TypeForm::BigInt
        | TypeForm::Integer(_)
        | TypeForm::Float(_)
        | TypeForm::Text(_)
        | TypeForm::Buffer(_)
        | TypeForm::Named(_)
        | TypeForm::Container(_, _)
        | TypeForm::Record(_, _)
        | TypeForm::Promise(_) => true,
    }
}

/// The first refusal by such a type, which can break one rule alone: the annotations of the typedefs that it names may be
/// both `[Clamp]` and `[EnforceRange]`.
pub fn find_unasked<'a>(resolver: &Resolver<'_, 'a>, written: &TypeUse<'a>) -> Option<Refusal>
    requires { is_unasked (use_of written.now) ≡ true }
    ensures { (ifaces : List IfaceTerm) → IsFirst (λ which. BreaksUse ifaces (plain_definitions resolver.now) which (use_of written.now)) type_rules result }
{
    let found = clamp_and_enforce(resolver, written);
    first(None, ValidityRule::ClampAndEnforceRange, found)
}
