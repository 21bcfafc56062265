//! The lists of arguments that are written in a set of files.

ghost use Rattle.std.specs.Prelude.{◌≡◌, ◌++◌, ◌∷◌, [], option_map, option_to_list, true, IfOk, OnOk};
ghost use Rattle.widl_idl.specs.PlainTrees.{arguments_of, definition_kind_of, member_kind_of, members_of};
ghost use Rattle.widl_names.specs.Listings.{listed_definitions};
ghost use Rattle.widl_overload.specs.rules.ArgumentRules.{argument_lists_of, lists_in_definition, lists_in_member, lists_in_members};
ghost use Rattle.widl_inheritance.specs.WrittenLists.{listed_arguments};

use std::alloc::{AllocError, Global};
use widl_idl::tree::{Argument, Arguments, Definition, DefinitionKind, Member, MemberKind};
use widl_names::members_in;

/// The lists of arguments of operations and constructors, in the order of the source; where `all` are
/// asked for, those of callbacks and of asynchronous iterables, too.
///
/// # Errors
///
/// `AllocError` where there is no memory.
pub fn list_arguments<'a>(
    alloc: Global,
    definitions: &[&'a Definition],
    all: bool,
) -> Result<Vec<&'a [Argument]>, AllocError>
    ensures { IfOk result (λ lists. listed_arguments lists.items ≡ argument_lists_of all (listed_definitions definitions.now)) }
{
    let mut lists = Vec::new(alloc);
    for definition in definitions {
        add_definition(&mut lists, &definition.kind, all)?;
    }
    Ok(lists)
}

/// All lists of arguments of one definition, in the order of the source.
///
/// # Errors
///
/// `AllocError` where there is no memory.
pub fn arguments_in<'a>(
    alloc: Global,
    kind: &'a DefinitionKind,
) -> Result<Vec<&'a [Argument]>, AllocError>
    ensures { IfOk result (λ lists. listed_arguments lists.items ≡ lists_in_definition true (definition_kind_of kind.now)) }
{
    let mut lists = Vec::new(alloc);
    add_definition(&mut lists, kind, true)?;
    Ok(lists)
}

/// Adds the lists of a definition.
fn add_definition<'a>(
    lists: &mut Vec<&'a [Argument]>,
    kind: &'a DefinitionKind,
    all: bool,
) -> Result<(), AllocError>
    ensures { OnOk result (listed_arguments lists.new.items ≡ listed_arguments lists.old.items ++ lists_in_definition all (definition_kind_of kind.now)) }
{
    match kind {
        DefinitionKind::Callback(callback) if all => add_list(lists, &callback.arguments),
        DefinitionKind::CallbackInterface(callback) if all => {
            add_members(lists, callback.members.as_slice(), true)
        }
        _ => add_members(lists, members_in(kind), all),
    }
}

/// Adds the lists of members.
fn add_members<'a>(
    lists: &mut Vec<&'a [Argument]>,
    members: &'a [Member],
    all: bool,
) -> Result<(), AllocError>
    ensures { OnOk result (listed_arguments lists.new.items ≡ listed_arguments lists.old.items ++ lists_in_members all (members_of members.now)) }
{
    for member in members {
        add_member(lists, &member.kind, all)?;
    }
    Ok(())
}

/// Adds the list of a member, if it has one.
fn add_member<'a>(
    lists: &mut Vec<&'a [Argument]>,
    kind: &'a MemberKind,
    all: bool,
) -> Result<(), AllocError>
    ensures { OnOk result (listed_arguments lists.new.items ≡ listed_arguments lists.old.items ++ lists_in_member all (member_kind_of kind.now)) }
{
    match kind {
        MemberKind::Operation(operation) => add_list(lists, &operation.arguments),
        MemberKind::Constructor(constructor) => add_list(lists, &constructor.arguments),
        MemberKind::AsyncIterable(iterable) if all => {
            add_optional_list(lists, &iterable.arguments)
        }
        _ => Ok(()),
    }
}

/// Adds a list, if there is one.
fn add_optional_list<'a>(
    lists: &mut Vec<&'a [Argument]>,
    arguments: &'a Option<Arguments>,
) -> Result<(), AllocError>
    ensures { OnOk result (listed_arguments lists.new.items ≡ listed_arguments lists.old.items ++ option_to_list (option_map arguments_of arguments.now)) }
{
    match arguments {
        None => Ok(()),
        Some(arguments) => add_list(lists, arguments),
    }
}

/// Adds a list.
fn add_list<'a>(lists: &mut Vec<&'a [Argument]>, arguments: &'a Arguments) -> Result<(), AllocError>
    ensures { OnOk result (listed_arguments lists.new.items ≡ listed_arguments lists.old.items ++ arguments_of arguments.now ∷ []) }
{
    lists.push(arguments.as_slice())?;
    Ok(())
}
