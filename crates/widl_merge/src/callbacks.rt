//! Callback functions and callback interfaces, with their types resolved.

ghost use Rattle.std.specs.Prelude.{◌≡◌, [], None, Some, IfOk, option_map};
ghost use Rattle.widl_idl.specs.DefinitionTerms.{callback_term};
ghost use Rattle.widl_idl.specs.MergedList.{callback_by, callback_interface_of, callback_of};
ghost use Rattle.widl_idl.specs.MergedMembers.{first_in, operations_in};
ghost use Rattle.widl_idl.specs.PlainTrees.{arguments_of, members_of, operation_of, plain_definitions};
ghost use Rattle.widl_idl.specs.PlainTypes.{name_of, type_of};

use crate::long_texts::LongTexts;
use crate::name_units::{name_units, operation_units};
use crate::signatures::{args_meant, operation_sig};
use std::alloc::{AllocError, Global};
use widl_idl::tree::{self, CallbackInterface, Member, MemberKind, Name, Operation};
use widl_idl::{Args, Callback, IdlType, Sig};
use widl_names::Resolver;
use widl_text::Units;

/// A callback function.
///
/// # Errors
///
/// `AllocError` where there is no memory or there are no more steps.
pub fn callback_meant<'a>(
    alloc: Global,
    resolver: &Resolver<'_, 'a>,
    steps: &mut usize,
    texts: &mut LongTexts<'a>,
    callback: &'a tree::Callback,
) -> Result<Callback, AllocError>
    ensures { IfOk result (λ c. callback_term c ≡ callback_of (plain_definitions resolver.now) (record { name = name_of callback.now.name; returned = type_of callback.now.result; arguments = arguments_of callback.now.arguments })) }
{
    let at = callback.name.at;
    let name = name_units(alloc, &callback.name)?;
    let args = args_meant(alloc, resolver, steps, texts, callback.arguments.as_slice())?;
    let result = resolver.resolve_alone(alloc, steps, &callback.result)?;
    Ok(Callback {
        at,
        name,
        op: Units::new(alloc),
        sig: Sig { at, args, result },
    })
}

/// A callback interface, by its first operation.
///
/// # Errors
///
/// Those of [`callback_meant`].
pub fn callback_interface_meant<'a>(
    alloc: Global,
    resolver: &Resolver<'_, 'a>,
    steps: &mut usize,
    texts: &mut LongTexts<'a>,
    callback: &'a CallbackInterface,
) -> Result<Callback, AllocError>
    ensures { IfOk result (λ c. callback_term c ≡ callback_interface_of (plain_definitions resolver.now) (record { name = name_of callback.now.name; members = members_of callback.now.members })) }
{
    match first_operation(callback.members.as_slice()) {
        None => callback_without_operation(alloc, &callback.name),
        Some(operation) => callback_by(alloc, resolver, steps, texts, &callback.name, operation),
    }
}

/// The first operation among members.
fn first_operation(members: &[Member]) -> Option<&Operation>
    ensures { option_map (λ o. operation_of o.now) result ≡ first_in (operations_in (members_of members.now)) }
{
    for member in members {
        if let MemberKind::Operation(operation) = &member.kind {
            return Some(operation);
        }
    }
    None
}

/// A callback interface of this name that declares no operation: it is called without arguments, and
/// returns `undefined`.
fn callback_without_operation(alloc: Global, name: &Name) -> Result<Callback, AllocError>
    ensures { IfOk result (λ c. callback_term c ≡ callback_by [] (name_of name.now) None) }
{
    let at = name.at;
    Ok(Callback {
        at,
        name: name_units(alloc, name)?,
        op: Units::new(alloc),
        sig: Sig {
            at,
            args: Args::new(alloc),
            result: IdlType::Undefined,
        },
    })
}

/// A callback interface of this name with this operation.
fn callback_by<'a>(
    alloc: Global,
    resolver: &Resolver<'_, 'a>,
    steps: &mut usize,
    texts: &mut LongTexts<'a>,
    name: &Name,
    operation: &'a Operation,
) -> Result<Callback, AllocError>
    ensures { IfOk result (λ c. callback_term c ≡ callback_by (plain_definitions resolver.now) (name_of name.now) (Some (operation_of operation.now))) }
{
    let units = name_units(alloc, name)?;
    let op = operation_units(alloc, &operation.name)?;
    let sig = operation_sig(alloc, resolver, steps, texts, operation)?;
    Ok(Callback {
        at: name.at,
        name: units,
        op,
        sig,
    })
}
