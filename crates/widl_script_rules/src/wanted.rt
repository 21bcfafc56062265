//! The types that step lines want of their sources, and those of the sources themselves.

ghost use Rattle.std.specs.Prelude.{◌≡◌, ℕ, find, map, option_map, slice_get};
ghost use Rattle.std.specs.Option.{option_and_then};
ghost use Rattle.widl_idl.specs.DefinitionTerms.{ArgTerm, AttrTerm, arg_term, callback_term, defs_term};
ghost use Rattle.widl_idl.specs.Terms.{type_term};
ghost use Rattle.widl_script_rules.specs.Arguments.{argument_named, argument_of, is_variadic};
ghost use Rattle.widl_script_rules.specs.CallbacksAndPairs.{callback_of};
ghost use Rattle.widl_script_rules.specs.Fits.{parameter_type, source_type, wanted};
ghost use Rattle.widl_script_rules.specs.Lookups.{overload_term};
ghost use Rattle.widl_script_rules.specs.Slots.{attribute_named};

use crate::arguments::{argument_named, argument_of};
use crate::overloads::Overload;
use crate::slots::attribute_named;
use crate::step_uses::Used;
use widl_idl::{Arg, Callback, Defs, IdlType, Optionality};
use widl_script_tree::{Source, StepLine};

/// The type of the attribute that `slot A` stands for.
fn attribute_type<'d>(overload: Overload<'d>, name: &[u16]) -> Option<&'d IdlType>
    ensures { option_map (λ t. type_term t.now) result ≡ option_map (λ (a : AttrTerm). a.ty) (attribute_named (overload_term overload.entry) name.now) }
{
    match attribute_named(overload, name) {
        Some(attribute) => Some(&attribute.ty),
        None => None,
    }
}

/// The type of the argument that `arg K` stands for.
fn argument_type<'d>(overload: Overload<'d>, number: u32) -> Option<&'d IdlType>
    ensures { option_map (λ t. type_term t.now) result ≡ option_map (λ (a : ArgTerm). a.ty) (argument_named (overload_term overload.entry) number) }
{
    match argument_named(overload, number) {
        Some(arg) => Some(&arg.ty),
        None => None,
    }
}

/// The type of a source that is no literal, where what it names is there.
pub(crate) fn source_type<'d>(overload: Overload<'d>, source: &Source) -> Option<&'d IdlType>
    ensures { option_map (λ t. type_term t.now) result ≡ source_type (overload_term overload.entry) source.now }
{
    match source {
        Source::Arg(number) => argument_type(overload, *number),
        Source::Slot(name) => attribute_type(overload, name.as_slice()),
        Source::This => None,
        Source::Literal(_) => None,
    }
}

/// Whether an argument takes any number of values.
fn is_variadic(arg: &Arg) -> bool
    ensures { result ≡ is_variadic (arg_term arg.now).opt }
{
    match arg.opt {
        Optionality::Variadic => true,
        Optionality::Required | Optionality::Optional => false,
    }
}

/// The first argument that takes any number of values.
fn variadic_argument(args: &[Arg]) -> Option<&Arg>
    ensures { option_map (λ a. arg_term a.now) result ≡ find (λ (a : ArgTerm). is_variadic a.opt) (map arg_term args.now) }
{
    for arg in args {
        if is_variadic(arg) {
            return Some(arg);
        }
    }
    None
}

/// The type of a callback's argument of this number; past the last one that of a variadic one.
fn parameter_type(callback: &Callback, number: usize) -> Option<&IdlType>
    ensures { option_map (λ t. type_term t.now) result ≡ parameter_type (callback_term callback.now) number }
{
    let args = callback.sig.args.as_slice();
    match args.get(number) {
        Some(arg) => Some(&arg.ty),
        None => match variadic_argument(args) {
            Some(arg) => Some(&arg.ty),
            None => None,
        },
    }
}

fn callback_at(callbacks: &[Callback], number: u32) -> Option<&Callback>
    ensures { option_map (λ c. callback_term c.now) result ≡ slice_get (map callback_term callbacks.now) number }
{
    callbacks.get(number as usize)
}

/// The callback function or callback interface that a type is itself.
fn callback_of<'d>(list: &'d Defs, t: &IdlType) -> Option<&'d Callback>
    ensures { option_map (λ c. callback_term c.now) result ≡ callback_of (defs_term list.now) (type_term t.now) }
{
    match t {
        IdlType::CallbackFn(number) => callback_at(list.callback_fns.as_slice(), *number),
        IdlType::CallbackIface(number) => callback_at(list.callback_ifaces.as_slice(), *number),
        _ => None,
    }
}

/// What `invoke arg K` calls, where the argument is a callback.
pub(crate) fn callback_called<'d>(
    list: &'d Defs,
    overload: Overload<'_>,
    number: u32,
) -> Option<&'d Callback>
    ensures { option_map (λ c. callback_term c.now) result ≡ option_and_then (λ (a : ArgTerm). callback_of (defs_term list.now) a.ty) (argument_of (overload_term overload.entry) number) }
{
    match argument_of(overload, number) {
        Some(arg) => callback_of(list, &arg.ty),
        None => None,
    }
}

fn parameter_wanted<'d>(
    list: &'d Defs,
    overload: Overload<'_>,
    called: u32,
    number: usize,
) -> Option<&'d IdlType>
    ensures { option_map (λ t. type_term t.now) result ≡ option_and_then (λ c. parameter_type c number) (option_and_then (λ (a : ArgTerm). callback_of (defs_term list.now) a.ty) (argument_of (overload_term overload.entry) called)) }
{
    match callback_called(list, overload, called) {
        Some(callback) => parameter_type(callback, number),
        None => None,
    }
}

/// The type that a line wants of its source of this number, where it wants one.
pub(crate) fn wanted<'d>(
    list: &'d Defs,
    overload: Overload<'d>,
    step: &StepLine,
    used: Used<'_>,
) -> Option<&'d IdlType>
    ensures { (word : ℕ) → option_map (λ t. type_term t.now) result ≡ wanted (defs_term list.now) (overload_term overload.entry) step.now (record { word = word; source = used.entry.source.now; number = used.entry.number }) }
{
    match step {
        StepLine::Return(_) => Some(&overload.signature.result),
        StepLine::SetSlot { slot, .. } => attribute_type(overload, slot.as_slice()),
        StepLine::Invoke(call) => parameter_wanted(list, overload, call.arg, used.number),
        StepLine::ReturnInvoke(call) => parameter_wanted(list, overload, call.arg, used.number),
        StepLine::Append(_, _) => None,
        StepLine::Clear => None,
        StepLine::Throw(_) => None,
    }
}
