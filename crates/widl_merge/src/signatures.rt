//! The signatures of operations and constructors, with their types resolved.

ghost use Rattle.std.specs.Prelude.{◌≡◌, Some, IfOk, map, option_map};
ghost use Rattle.widl_idl.specs.DefinitionTerms.{arg_term, sig_term};
ghost use Rattle.widl_idl.specs.MergedMembers.{arg_of, constructor_in, default_in, operation_place, optionality_of, sig_of_operation};
ghost use Rattle.widl_idl.specs.PlainTrees.{ConstructorMember, argument_kind_of, argument_of, arguments_of, constructor_of, operation_of, plain_definitions};
ghost use Rattle.widl_idl.specs.PlainTypes.{name_of};

use crate::long_texts::LongTexts;
use std::alloc::{AllocError, Global};
use widl_idl::tree::{Argument, ArgumentKind, Constructor, Operation};
use widl_idl::{Arg, Args, IdlType, Literal, Optionality, Sig};
use widl_names::Resolver;
use widl_text::Place;

/// The signature of an operation.
///
/// # Errors
///
/// `AllocError` where there is no memory or there are no more steps.
pub fn operation_sig<'a>(
    alloc: Global,
    resolver: &Resolver<'_, 'a>,
    steps: &mut usize,
    texts: &mut LongTexts<'a>,
    operation: &'a Operation,
) -> Result<Sig, AllocError>
    ensures { IfOk result (λ sig. sig_term sig ≡ sig_of_operation (plain_definitions resolver.now) (operation_of operation.now)) }
{
    let args = args_meant(
        alloc,
        resolver,
        steps,
        texts,
        operation.arguments.as_slice(),
    )?;
    let result = resolver.resolve_alone(alloc, steps, &operation.result)?;
    Ok(Sig {
        at: operation_place(operation),
        args,
        result,
    })
}

/// Where an operation's name stands, or else the parenthesis that follows.
fn operation_place(operation: &Operation) -> Place
    ensures { result ≡ operation_place (option_map name_of operation.now.name) operation.now.open }
{
    match &operation.name {
        None => operation.open,
        Some(name) => name.at,
    }
}

/// The signature of a constructor, which returns `undefined`.
///
/// # Errors
///
/// Those of [`operation_sig`].
pub fn constructor_sig<'a>(
    alloc: Global,
    resolver: &Resolver<'_, 'a>,
    steps: &mut usize,
    texts: &mut LongTexts<'a>,
    constructor: &'a Constructor,
) -> Result<Sig, AllocError>
    ensures { IfOk result (λ sig. Some (sig_term sig) ≡ constructor_in (plain_definitions resolver.now) (ConstructorMember (constructor_of constructor.now))) }
{
    let args = args_meant(
        alloc,
        resolver,
        steps,
        texts,
        constructor.arguments.as_slice(),
    )?;
    Ok(Sig {
        at: constructor.at,
        args,
        result: IdlType::Undefined,
    })
}

/// The arguments of an operation, a constructor or a callback function.
///
/// # Errors
///
/// Those of [`operation_sig`].
pub fn args_meant<'a>(
    alloc: Global,
    resolver: &Resolver<'_, 'a>,
    steps: &mut usize,
    texts: &mut LongTexts<'a>,
    arguments: &'a [Argument],
) -> Result<Args, AllocError>
    ensures { IfOk result (λ args. map arg_term args ≡ map (arg_of (plain_definitions resolver.now)) (arguments_of arguments.now)) }
{
    let mut args = Args::with_room(alloc, arguments.len())?;
    for argument in arguments {
        let arg = arg_meant(alloc, resolver, steps, texts, argument)?;
        args.push(arg)?;
    }
    Ok(args)
}

fn arg_meant<'a>(
    alloc: Global,
    resolver: &Resolver<'_, 'a>,
    steps: &mut usize,
    texts: &mut LongTexts<'a>,
    argument: &'a Argument,
) -> Result<Arg, AllocError>
    ensures { IfOk result (λ arg. arg_term arg ≡ arg_of (plain_definitions resolver.now) (argument_of argument.now)) }
{
    let name = texts.units_of(alloc, argument.name.text.as_str())?;
    let attributes = argument.attributes.as_slice();
    let ty = resolver.resolve_with(alloc, steps, attributes, &argument.ty)?;
    let value = default_in(alloc, texts, &argument.kind)?;
    Ok(Arg {
        name,
        ty,
        opt: optionality_of(&argument.kind),
        value,
    })
}

fn optionality_of(kind: &ArgumentKind) -> Optionality
    ensures { result ≡ optionality_of (argument_kind_of kind.now) }
{
    match kind {
        ArgumentKind::Required => Optionality::Required,
        ArgumentKind::Optional(_) => Optionality::Optional,
        ArgumentKind::Variadic(_) => Optionality::Variadic,
    }
}

/// The default value of an argument, if it has one.
fn default_in<'a>(
    alloc: Global,
    texts: &mut LongTexts<'a>,
    kind: &'a ArgumentKind,
) -> Result<Option<Literal>, AllocError>
    ensures { IfOk result (λ value. value ≡ default_in (argument_kind_of kind.now)) }
{
    match kind {
        ArgumentKind::Optional(default) => texts.default_of(alloc, default),
        ArgumentKind::Required | ArgumentKind::Variadic(_) => Ok(None),
    }
}
