//! The default values that are written in a set of files, each with its type.

ghost use Rattle.std.specs.Prelude.{◌≡◌, ◌++◌, flat_map, map, IfOk, OnOk};
ghost use Rattle.widl_idl.specs.PlainTrees.{argument_of, arguments_of, definition_kind_of, dictionary_member_of};
ghost use Rattle.widl_idl.specs.PlainTypes.{annotated_of, attribute_of, written_default};
ghost use Rattle.widl_inheritance.specs.WrittenDefaults.{default_of_member, default_of_argument, defaults_in, listed_defaults};
ghost use Rattle.widl_inheritance.specs.WrittenLists.{listed_arguments};
ghost use Rattle.widl_names.specs.Listings.{listed_definitions};
ghost use Rattle.widl_overload.specs.rules.DefaultRules.{defaulted, defaults_of, defaults_of_arguments, defaults_of_members};

use crate::argument_lists::list_arguments;
use std::alloc::{AllocError, Global};
use widl_idl::tree::{
    AnnotatedType, Argument, ArgumentKind, Definition, DefinitionKind, DictionaryMember,
    ExtendedAttributes, Literal,
};

/// A type with its default value, as they are written.
#[derive(Clone, Copy)]
pub struct Defaulted<'a> {
    /// The extended attributes of the argument or of the member.
    pub attributes: &'a ExtendedAttributes,
    /// The type.
    pub ty: &'a AnnotatedType,
    /// The default value.
    pub value: &'a Literal,
}

/// The default values of arguments, then those of dictionary members.
///
/// # Errors
///
/// `AllocError` where there is no memory.
pub fn list_defaults<'a>(
    alloc: Global,
    definitions: &[&'a Definition],
) -> Result<Vec<Defaulted<'a>>, AllocError>
    ensures { IfOk result (λ list. listed_defaults list.items ≡ defaults_of (listed_definitions definitions.now)) }
{
    let mut defaults = Vec::new(alloc);
    let lists = list_arguments(alloc, definitions, true)?;
    add_lists(&mut defaults, lists.as_slice())?;
    add_definitions(&mut defaults, definitions)?;
    Ok(defaults)
}

/// Adds those of lists of arguments.
fn add_lists<'a>(
    defaults: &mut Vec<Defaulted<'a>>,
    lists: &[&'a [Argument]],
) -> Result<(), AllocError>
    ensures { OnOk result (listed_defaults defaults.new.items ≡ listed_defaults defaults.old.items ++ flat_map defaults_of_arguments (listed_arguments lists.now)) }
{
    for list in lists {
        add_arguments(defaults, list)?;
    }
    Ok(())
}

/// Adds those of arguments.
fn add_arguments<'a>(
    defaults: &mut Vec<Defaulted<'a>>,
    arguments: &'a [Argument],
) -> Result<(), AllocError>
    ensures { OnOk result (listed_defaults defaults.new.items ≡ listed_defaults defaults.old.items ++ defaults_of_arguments (arguments_of arguments.now)) }
{
    for argument in arguments {
        add_argument(defaults, argument)?;
    }
    Ok(())
}

/// Adds that of an argument, if it has one.
fn add_argument<'a>(
    defaults: &mut Vec<Defaulted<'a>>,
    argument: &'a Argument,
) -> Result<(), AllocError>
    ensures { OnOk result (listed_defaults defaults.new.items ≡ listed_defaults defaults.old.items ++ default_of_argument (argument_of argument.now)) }
{
    match &argument.kind {
        ArgumentKind::Optional(default) => {
            add_default(defaults, &argument.attributes, &argument.ty, default)
        }
        ArgumentKind::Required | ArgumentKind::Variadic(_) => Ok(()),
    }
}

/// Adds those of the members of dictionaries.
fn add_definitions<'a>(
    defaults: &mut Vec<Defaulted<'a>>,
    definitions: &[&'a Definition],
) -> Result<(), AllocError>
    ensures { OnOk result (listed_defaults defaults.new.items ≡ listed_defaults defaults.old.items ++ flat_map defaults_in (listed_definitions definitions.now)) }
{
    for definition in definitions {
        add_definition(defaults, &definition.kind)?;
    }
    Ok(())
}

/// Adds those of a dictionary's members.
fn add_definition<'a>(
    defaults: &mut Vec<Defaulted<'a>>,
    kind: &'a DefinitionKind,
) -> Result<(), AllocError>
    ensures { OnOk result (listed_defaults defaults.new.items ≡ listed_defaults defaults.old.items ++ defaults_of_members (definition_kind_of kind.now)) }
{
    match kind {
        DefinitionKind::Dictionary(dictionary) => {
            add_members(defaults, dictionary.members.as_slice())
        }
        DefinitionKind::Callback(_)
        | DefinitionKind::CallbackInterface(_)
        | DefinitionKind::Interface(_)
        | DefinitionKind::Mixin(_)
        | DefinitionKind::Namespace(_)
        | DefinitionKind::Enumeration(_)
        | DefinitionKind::Typedef(_)
        | DefinitionKind::Includes(_) => Ok(()),
    }
}

/// Adds those of members.
fn add_members<'a>(
    defaults: &mut Vec<Defaulted<'a>>,
    members: &'a [DictionaryMember],
) -> Result<(), AllocError>
    ensures { OnOk result (listed_defaults defaults.new.items ≡ listed_defaults defaults.old.items ++ flat_map default_of_member (map dictionary_member_of members.now)) }
{
    for member in members {
        add_default(defaults, &member.attributes, &member.ty, &member.default)?;
    }
    Ok(())
}

/// Adds a default value, if there is one.
fn add_default<'a>(
    defaults: &mut Vec<Defaulted<'a>>,
    attributes: &'a ExtendedAttributes,
    ty: &'a AnnotatedType,
    default: &'a Option<Box<Literal>>,
) -> Result<(), AllocError>
    ensures { OnOk result (listed_defaults defaults.new.items ≡ listed_defaults defaults.old.items ++ defaulted (map attribute_of attributes.now) (annotated_of ty.now) (written_default default.now)) }
{
    match default {
        None => Ok(()),
        Some(value) => {
            defaults.push(Defaulted {
                attributes,
                ty,
                value,
            })?;
            Ok(())
        }
    }
}
