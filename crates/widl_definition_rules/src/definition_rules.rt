//! The rules on enumerations, annotations and the operations of one definition.

ghost use Rattle.std.specs.Prelude.{◌≡◌, map, is_some, length, IfOk};
ghost use Rattle.std.specs.List.{list_any};
ghost use Rattle.widl_idl.specs.First.{AtOne, FirstWhere, Somewhere};
ghost use Rattle.widl_idl.specs.MergedMembers.{operation_in, operations_in};
ghost use Rattle.widl_idl.specs.PlainTrees.{argument_kind_of, arguments_of, definition_kind_of, definition_of, enumeration_value_of, member_kind_of, member_of, members_of};
ghost use Rattle.widl_idl.specs.PlainTypes.{attribute_of};
ghost use Rattle.widl_idl.specs.WrittenTypes.{annotation_of};
ghost use Rattle.widl_definition_rules.specs.WrittenLists.{has_ellipsis};
ghost use Rattle.widl_overload.specs.rules.DefinitionRules.{AnnotatesNoType, HasMisformed, HasNameless, HasOtherThanOne, HasValueTwice, IsAnnotation, IsMisformed, IsNameless, RepeatsValue, attributes_of_no_type, has_early_ellipsis, is_variadic, members_written};

use crate::known_texts::note_text;
use indexmap::IndexSet;
use std::alloc::{AllocError, Global};
use widl_idl::tree::{
    Argument, ArgumentKind, Definition, DefinitionKind, EnumerationValue, ExtendedAttribute,
    Member, MemberKind,
};
use widl_idl::{Violation, earlier_violation};

/// The first place of a value of a definition, if it is an enumeration, that is an earlier value of it too.
///
/// # Errors
///
/// `AllocError` where there is no memory.
pub fn first_repeated_value(
    alloc: Global,
    kind: &DefinitionKind,
) -> Result<Option<Violation>, AllocError>
    ensures { IfOk result (λ found. FirstWhere (HasValueTwice (definition_kind_of kind.now)) found) }
{
    match kind {
        DefinitionKind::Enumeration(enumeration) => {
            repeated_among(alloc, enumeration.values.as_slice())
        }
        _ => Ok(None),
    }
}

/// The same among values.
fn repeated_among(
    alloc: Global,
    values: &[EnumerationValue],
) -> Result<Option<Violation>, AllocError>
    ensures { IfOk result (λ found. FirstWhere (AtOne RepeatsValue (map enumeration_value_of values.now)) found) }
{
    let mut known = IndexSet::new(alloc);
    let mut best = None;
    for value in values {
        let found = note_text(&mut known, value.text.as_str(), value.at)?;
        best = earlier_violation(best, found);
    }
    Ok(best)
}

/// The first place of the name of an annotation of types that stands before what is no type: a definition
/// or one of its members.
pub fn first_annotation_of_no_type(definition: &Definition) -> Option<Violation>
    ensures { FirstWhere (AnnotatesNoType (definition_of definition.now)) result }
{
    let own = first_annotation(definition.attributes.as_slice());
    let inner = annotation_in_members(members_written(&definition.kind));
    earlier_violation(own, inner)
}

/// The same before members.
fn annotation_in_members(members: &[Member]) -> Option<Violation>
    ensures { FirstWhere (Somewhere (λ m. Somewhere IsAnnotation (attributes_of_no_type m.attributes m.kind)) (members_of members.now)) result }
{
    let mut best = None;
    for member in members {
        let found = first_annotation(attributes_of_no_type(member));
        best = earlier_violation(best, found);
    }
    best
}

/// The extended attributes before a member that belong to no type: what stands before an attribute
/// belongs to its type.
fn attributes_of_no_type(member: &Member) -> &[ExtendedAttribute]
    ensures { map attribute_of result.now ≡ attributes_of_no_type (map attribute_of member.now.attributes) (member_kind_of member.now.kind) }
{
    match &member.kind {
        MemberKind::Attribute(_) => &[],
        _ => member.attributes.as_slice(),
    }
}

/// The first place of the name of an annotation among extended attributes.
fn first_annotation(attributes: &[ExtendedAttribute]) -> Option<Violation>
    ensures { FirstWhere (Somewhere IsAnnotation (map attribute_of attributes.now)) result }
{
    let mut best = None;
    for attribute in attributes {
        let found = annotation_at(attribute);
        best = earlier_violation(best, found);
    }
    best
}

/// The place of the name of an extended attribute, if it is an annotation.
fn annotation_at(attribute: &ExtendedAttribute) -> Option<Violation>
    ensures { FirstWhere (IsAnnotation (attribute_of attribute.now)) result }
{
    if is_annotation(attribute.name.text.as_str()) {
        Some(Violation::at(attribute.name.at))
    } else {
        None
    }
}

fn is_annotation(text: &str) -> bool
    ensures { result ≡ is_some (annotation_of text.now) }
{
    text == "Clamp" || text == "EnforceRange" || text == "LegacyNullToEmptyString"
}

/// The place of the name of a definition, if it is a callback interface that hasn't exactly one operation.
pub fn other_than_one_operation(kind: &DefinitionKind) -> Option<Violation>
    ensures { FirstWhere (HasOtherThanOne (definition_kind_of kind.now)) result }
{
    match kind {
        DefinitionKind::CallbackInterface(callback) => {
            if count_operations(callback.members.as_slice()) == 1 {
                None
            } else {
                Some(Violation::at(callback.name.at))
            }
        }
        _ => None,
    }
}

fn count_operations(members: &[Member]) -> usize
    ensures { result ≡ length (operations_in (members_of members.now)) }
{
    let mut count = 0;
    for member in members {
        if is_operation(&member.kind) {
            count += 1;
        }
    }
    count
}

fn is_operation(kind: &MemberKind) -> bool
    ensures { result ≡ is_some (operation_in (member_kind_of kind.now)) }
{
    match kind {
        MemberKind::Operation(_) => true,
        _ => false,
    }
}

/// The first place of the `(` of an operation without a name in a definition.
pub fn first_nameless_operation(kind: &DefinitionKind) -> Option<Violation>
    ensures { FirstWhere (HasNameless (definition_kind_of kind.now)) result }
{
    nameless_in(members_written(kind))
}

/// The same among members.
fn nameless_in(members: &[Member]) -> Option<Violation>
    ensures { FirstWhere (Somewhere (λ m. IsNameless m.kind) (members_of members.now)) result }
{
    let mut best = None;
    for member in members {
        let found = nameless_operation(&member.kind);
        best = earlier_violation(best, found);
    }
    best
}

/// The place of the `(` of an operation that has no name.
fn nameless_operation(kind: &MemberKind) -> Option<Violation>
    ensures { FirstWhere (IsNameless (member_kind_of kind.now)) result }
{
    match kind {
        MemberKind::Operation(operation) => if operation.name.is_none() {
            Some(Violation::at(operation.open))
        } else {
            None
        },
        _ => None,
    }
}

/// The first place of the `(` of an operation that has no name, or an ellipsis in a place other than the
/// last, in a definition that is a callback interface.
pub fn first_misformed_operation(kind: &DefinitionKind) -> Option<Violation>
    ensures { FirstWhere (HasMisformed (definition_kind_of kind.now)) result }
{
    match kind {
        DefinitionKind::CallbackInterface(callback) => misformed_in(callback.members.as_slice()),
        _ => None,
    }
}

/// The same among members.
fn misformed_in(members: &[Member]) -> Option<Violation>
    ensures { FirstWhere (Somewhere (λ m. IsMisformed m.kind) (members_of members.now)) result }
{
    let mut best = None;
    for member in members {
        let found = misformed_operation(&member.kind);
        best = earlier_violation(best, found);
    }
    best
}

/// The same of one member.
fn misformed_operation(kind: &MemberKind) -> Option<Violation>
    ensures { FirstWhere (IsMisformed (member_kind_of kind.now)) result }
{
    match kind {
        MemberKind::Operation(operation) => {
            if operation.name.is_none() || has_early_ellipsis(operation.arguments.as_slice()) {
                Some(Violation::at(operation.open))
            } else {
                None
            }
        }
        _ => None,
    }
}

/// Whether an argument other than the last has an ellipsis.
fn has_early_ellipsis(arguments: &[Argument]) -> bool
    ensures { result ≡ has_early_ellipsis (arguments_of arguments.now) }
{
    match arguments.split_last() {
        None => false,
        Some((_, others)) => has_ellipsis(others),
    }
}

fn has_ellipsis(arguments: &[Argument]) -> bool
    ensures { result ≡ list_any has_ellipsis arguments.now }
{
    arguments.iter().any(|argument| is_variadic(&argument.kind))
}

fn is_variadic(kind: &ArgumentKind) -> bool
    ensures { result ≡ is_variadic (argument_kind_of kind.now) }
{
    match kind {
        ArgumentKind::Variadic(_) => true,
        ArgumentKind::Required | ArgumentKind::Optional(_) => false,
    }
}

/// The members that stand in a definition.
fn members_written(kind: &DefinitionKind) -> &[Member]
    ensures { members_of result.now ≡ members_written (definition_kind_of kind.now) }
{
    match kind {
        DefinitionKind::CallbackInterface(callback) => callback.members.as_slice(),
        DefinitionKind::Interface(interface) => interface.members.as_slice(),
        DefinitionKind::Mixin(mixin) => mixin.members.as_slice(),
        DefinitionKind::Namespace(namespace) => namespace.members.as_slice(),
        _ => &[],
    }
}
