//! Attributes, constants, pair iterables and members of dictionaries, with their types resolved.

ghost use Rattle.std.specs.Prelude.{◌≡◌, IfOk, map, option_map};
ghost use Rattle.widl_idl.specs.DefinitionTerms.{attr_term, constant_term, member_term, pair_term};
ghost use Rattle.widl_idl.specs.MergedMembers.{attr_of, is_static_attribute, pair_of};
ghost use Rattle.widl_idl.specs.MergedMembers as MergedMembers;
ghost use Rattle.widl_idl.specs.PlainTrees.{attribute_member_of, dictionary_member_of, plain_definitions};
ghost use Rattle.widl_idl.specs.PlainTrees as PlainTrees;
ghost use Rattle.widl_idl.specs.PlainTypes.{annotated_of, attribute_of};

use crate::long_texts::LongTexts;
use crate::name_units::name_units;
use std::alloc::{AllocError, Global};
use widl_idl::tree::{
    self, AnnotatedType, Attribute, AttributeKind, DictionaryMember, ExtendedAttribute, Iterable,
};
use widl_idl::{Attr, Constant, Member, Pair};
use widl_names::{Resolver, default_meant, value_meant};

/// An attribute, by the extended attributes before it.
///
/// # Errors
///
/// `AllocError` where there is no memory or there are no more steps.
pub fn attribute_meant<'a>(
    alloc: Global,
    resolver: &Resolver<'_, 'a>,
    steps: &mut usize,
    texts: &mut LongTexts<'a>,
    attributes: &'a [ExtendedAttribute],
    attribute: &'a Attribute,
) -> Result<Attr, AllocError>
    ensures { IfOk result (λ a. attr_term a ≡ attr_of (plain_definitions resolver.now) (record { attributes = map attribute_of attributes.now; attribute = attribute_member_of attribute.now })) }
{
    let name = texts.units_of(alloc, attribute.name.text.as_str())?;
    let ty = resolver.resolve_with(alloc, steps, attributes, &attribute.ty)?;
    Ok(Attr {
        at: attribute.name.at,
        name,
        ty,
        readonly: attribute.readonly,
        fixed: is_static_attribute(attribute.kind),
    })
}

fn is_static_attribute(kind: AttributeKind) -> bool
    ensures { result ≡ is_static_attribute kind }
{
    match kind {
        AttributeKind::Static => true,
        AttributeKind::Regular | AttributeKind::Inherited(_) | AttributeKind::Stringifier(_) => {
            false
        }
    }
}

/// A constant.
///
/// # Errors
///
/// Those of [`attribute_meant`].
pub fn constant_meant<'a>(
    alloc: Global,
    resolver: &Resolver<'_, 'a>,
    steps: &mut usize,
    texts: &mut LongTexts<'a>,
    constant: &'a tree::Constant,
) -> Result<Constant, AllocError>
    ensures { IfOk result (λ k. constant_term k ≡ MergedMembers.constant_of (plain_definitions resolver.now) (PlainTrees.constant_of constant.now)) }
{
    let name = texts.units_of(alloc, constant.name.text.as_str())?;
    let ty = resolver.resolve_alone(alloc, steps, &constant.ty)?;
    let value = value_meant(alloc, &constant.value.value)?;
    Ok(Constant {
        at: constant.name.at,
        name,
        ty,
        value,
    })
}

/// The types of an iterable declaration, if it is one of pairs.
///
/// # Errors
///
/// Those of [`attribute_meant`].
pub fn pair_meant<'a>(
    alloc: Global,
    resolver: &Resolver<'_, 'a>,
    steps: &mut usize,
    iterable: &'a Iterable,
) -> Result<Option<Pair>, AllocError>
    ensures { IfOk result (λ p. option_map pair_term p ≡ pair_of (plain_definitions resolver.now) (annotated_of iterable.now.first) (option_map annotated_of iterable.now.second)) }
{
    match &iterable.second {
        None => Ok(None),
        Some(second) => {
            let key = resolver.resolve_with(alloc, steps, &[], &iterable.first)?;
            let value = resolver.resolve_with(alloc, steps, &[], second)?;
            Ok(Some(Pair { key, value }))
        }
    }
}

/// A member of a dictionary.
///
/// # Errors
///
/// Those of [`attribute_meant`].
pub fn dictionary_member_meant<'a>(
    alloc: Global,
    resolver: &Resolver<'_, 'a>,
    steps: &mut usize,
    member: &'a DictionaryMember,
) -> Result<Member, AllocError>
    ensures { IfOk result (λ m. member_term m ≡ MergedMembers.member_of (plain_definitions resolver.now) (dictionary_member_of member.now)) }
{
    let name = name_units(alloc, &member.name)?;
    let attributes = member.attributes.as_slice();
    let ty = resolver.resolve_with(alloc, steps, attributes, &member.ty)?;
    let value = default_meant(alloc, &member.default)?;
    Ok(Member {
        at: member.name.at,
        name,
        ty,
        required: member.required,
        value,
    })
}
