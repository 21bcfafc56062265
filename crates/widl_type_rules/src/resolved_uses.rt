//! What a type that is written means, and which types break no rule on types, as is seen without that.

ghost use Rattle.std.specs.Prelude.{◌≡◌, ◌++◌, map, IfOk};
ghost use Rattle.widl_idl.specs.PlainTrees.{plain_definitions};
ghost use Rattle.widl_idl.specs.PlainTypes.{attribute_of, form_term, type_of};
ghost use Rattle.widl_type_rules.specs.SettledUses.{are_none, is_settled, is_settled_form, is_settled_kind, is_settled_type};
ghost use Rattle.widl_overload.specs.rules.OnTypes.{with_meaning};
ghost use Rattle.widl_type_rules.specs.UsesListed.{outlined, resolved_use, use_of};

use crate::role_rules::{is_attribute_role, is_constant_role, takes_undefined};
use crate::type_uses::TypeUse;
use std::alloc::{AllocError, Global};
use widl_idl::tree::{ExtendedAttribute, TypeForm, WrittenType};
use widl_idl::{IdlType, Kind};
use widl_names::{Annotations, Meanings, Resolver};
use widl_overload::TypeRole;

/// A type as it is written, with what it means there.
#[derive(Drop)]
pub struct ResolvedUse<'a> {
    /// The type as it is written.
    pub written: TypeUse<'a>,
    /// The outline of what it means, which is all that the rules look into.
    pub meaning: IdlType,
}

/// Whether a type breaks no rule on types, as is seen without what it means: it is one word that no rule speaks of, or the
/// name of a definition that is no typedef, with no annotation and no `?`.
pub fn is_settled(meanings: &Meanings<'_, '_>, written: &TypeUse<'_>) -> bool
    ensures { result ≡ is_settled (plain_definitions meanings.now) (use_of written.now) }
{
    !is_constant_role(written.role)
        && are_none(written.outer, written.own)
        && is_settled_type(meanings, written.role, written.ty)
}

/// Whether there are no extended attributes.
pub fn are_none(outer: &[ExtendedAttribute], own: &[ExtendedAttribute]) -> bool
    ensures { result ≡ are_none (map attribute_of outer.now ++ map attribute_of own.now) }
{
    if outer.is_empty() {
        own.is_empty()
    } else {
        false
    }
}

fn is_settled_type(meanings: &Meanings<'_, '_>, role: TypeRole, ty: &WrittenType) -> bool
    ensures { result ≡ is_settled_type (plain_definitions meanings.now) role (type_of ty.now) }
{
    match ty.question {
        None => is_settled_form(meanings, role, &ty.form),
        Some(_) => false,
    }
}

fn is_settled_form(meanings: &Meanings<'_, '_>, role: TypeRole, form: &TypeForm) -> bool
    ensures { result ≡ is_settled_form (plain_definitions meanings.now) role (form_term form.now) }
{
    match form {
        TypeForm::Any
        | TypeForm::Boolean
        | TypeForm::Object
        | TypeForm::Integer(_)
        | TypeForm::Text(_) => true,
        TypeForm::Undefined => takes_undefined(role),
        TypeForm::Named(name) => is_settled_kind(role, meanings.kind(name.text.as_str())),
        TypeForm::Symbol
        | TypeForm::BigInt
        | TypeForm::Float(_)
        | TypeForm::Buffer(_)
        | TypeForm::Container(_, _)
        | TypeForm::Record(_, _)
        | TypeForm::Promise(_)
        | TypeForm::Union(_) => false,
    }
}

/// Whether the name of a definition of this kind breaks none of these rules. The types of attributes may be no dictionaries.
fn is_settled_kind(role: TypeRole, kind: Option<Kind>) -> bool
    ensures { result ≡ is_settled_kind role kind }
{
    match kind {
        None | Some(Kind::Typedef) => false,
        Some(Kind::Dictionary) => !is_attribute_role(role),
        Some(_) => true,
    }
}

/// A type with the outline of what it means.
///
/// # Errors
///
/// Those of [`Resolver::outline`].
pub fn resolve_use<'a>(
    alloc: Global,
    resolver: &Resolver<'_, 'a>,
    written: &TypeUse<'a>,
) -> Result<ResolvedUse<'a>, AllocError>
    ensures { IfOk result (λ resolved. resolved_use resolved ≡ outlined (with_meaning (plain_definitions resolver.now) (use_of written.now))) }
{
    let outer = Annotations::of(written.outer);
    let own = Annotations::of(written.own);
    let meaning = resolver.outline(alloc, outer.followed_by(own), written.ty)?;
    Ok(ResolvedUse {
        written: *written,
        meaning,
    })
}
