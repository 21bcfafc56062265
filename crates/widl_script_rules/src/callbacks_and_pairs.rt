//! Which callbacks step lines may call, with how many sources, and where they may change a list of pairs.

ghost use Rattle.std.specs.Prelude.{◌≡◌, ◌≤◌, ◌∷◌, [], count_by, flat_map, map, slice_get, IfOk, if◌then◌else◌};
ghost use Rattle.std.specs.List.{list_any};
ghost use Rattle.widl_idl.specs.declared.argument.Arg.{Arg};
ghost use Rattle.widl_idl.specs.DefinitionTerms.{DefsTerm, arg_term, callback_term, defs_term};
ghost use Rattle.widl_idl.specs.Terms.{type_term};
ghost use Rattle.widl_script_rules.specs.CallbacksAndPairs.{is_required, pair_words, refused_call, refused_words};
ghost use Rattle.widl_script_rules.specs.Arguments.{is_variadic};
ghost use Rattle.widl_script_rules.specs.StepUses.{invoked_in};
ghost use Rattle.widl_script_rules.specs.Lookups.{overload_term};
ghost use Rattle.widl_script_rules.specs.Surroundings.{plain_line};
ghost use Rattle.widl_script_rules.specs.Takes.{AreTakes, all_takes, is_taken, taken_in, takes_of};
ghost use Rattle.widl_script_rules.specs.UsedPlaces.{FirstAt};

use crate::arguments::argument_of;
use crate::overloads::Overload;
use crate::places::{first_of, place_near};
use std::alloc::{AllocError, Global};
use widl_idl::{Arg, Callbacks, Defs, IdlType, Optionality};
use widl_lines::{LineWords, ScriptPlace};
use widl_script_tree::{Invoke, StepLine};

/// How many sources a callback takes.
#[derive(Clone, Copy)]
pub(crate) struct Takes {
    /// How many of its arguments are required.
    required: usize,
    /// How many arguments it has.
    declared: usize,
    /// Whether one of them takes any number of sources.
    variadic: bool,
}

/// How many sources each callback of a list takes.
#[derive(Drop)]
pub(crate) struct CallbackTakes {
    functions: Vec<Takes>,
    interfaces: Vec<Takes>,
}

/// How many of the arguments are required.
fn required_count(args: &[Arg]) -> usize
    ensures { result ≡ count_by (λ (a : Arg). is_required a.opt) args.now }
{
    args.iter()
        .filter(|arg| matches!(arg.opt, Optionality::Required))
        .count()
}

/// Whether one of the arguments takes any number of values.
fn has_variadic(args: &[Arg]) -> bool
    ensures { result ≡ list_any (λ (a : Arg). is_variadic a.opt) args.now }
{
    args.iter()
        .any(|arg| matches!(arg.opt, Optionality::Variadic))
}

/// How many sources arguments take.
fn takes_of(args: &[Arg]) -> Takes
    ensures { result ≡ takes_of (map arg_term args.now) }
{
    Takes {
        required: required_count(args),
        declared: args.len(),
        variadic: has_variadic(args),
    }
}

/// How many sources each of the callbacks takes.
fn all_takes(alloc: Global, callbacks: &Callbacks) -> Result<Vec<Takes>, AllocError>
    ensures { IfOk result (λ all. all.items ≡ all_takes (map callback_term callbacks.now)) }
{
    let mut all = Vec::with_capacity(alloc, callbacks.len())?;
    'callbacks: for callback in callbacks.as_slice() {
        all.push(takes_of(callback.sig.args.as_slice()))?;
    }
    Ok(all)
}

/// Those of a number.
fn takes_at(all: &[Takes], number: u32) -> Option<Takes>
    ensures { result ≡ slice_get all.now number }
{
    all.get(number as usize).copied()
}

impl Takes {
    /// Whether so many sources are enough, and not too many.
    fn takes(self, count: usize) -> bool
        ensures { result ≡ is_taken self count }
    {
        self.required <= count && (count <= self.declared || self.variadic)
    }
}

impl CallbackTakes {
    /// Those of a list.
    pub(crate) fn of(alloc: Global, list: &Defs) -> Result<CallbackTakes, AllocError>
        ensures { IfOk result (AreTakes (defs_term list.now)) }
    {
        let functions = all_takes(alloc, &list.callback_fns)?;
        let interfaces = all_takes(alloc, &list.callback_ifaces)?;
        Ok(CallbackTakes {
            functions,
            interfaces,
        })
    }

    /// How many sources a callback of the type takes, where the type is a callback itself.
    fn takes(&self, of: &IdlType) -> Option<Takes>
        ensures { result ≡ taken_in self.now (type_term of.now) }
    {
        match of {
            IdlType::CallbackFn(number) => takes_at(&self.functions, *number),
            IdlType::CallbackIface(number) => takes_at(&self.interfaces, *number),
            _ => None,
        }
    }
}

/// Whether a line changes a list of pairs.
fn changes_pairs(step: &StepLine) -> bool
    ensures { pair_words step.now ≡ (if result then 0 ∷ [] else []) }
{
    matches!(step, StepLine::Append(_, _) | StepLine::Clear)
}

/// What a call breaks whose word `invoke` is this one.
fn refused_call(
    callbacks: &CallbackTakes,
    overload: Overload<'_>,
    line: &LineWords<'_>,
    word: usize,
    call: &Invoke,
) -> Option<ScriptPlace>
    requires { word ≤ 1 }
    ensures { (list : DefsTerm) → AreTakes list callbacks.now → FirstAt 14 (plain_line line.now) (refused_call list (overload_term overload.entry) (record { word = word; call = call.now })) result }
{
    match argument_of(overload, call.arg) {
        None => None,
        Some(arg) => match callbacks.takes(&arg.ty) {
            Some(takes) => {
                if takes.takes(call.sources.len()) {
                    None
                } else {
                    place_near(14, line, word)
                }
            }
            None => place_near(14, line, word),
        },
    }
}

/// What a line breaks by changing a list of pairs, if it does.
fn refused_pairs(line: &LineWords<'_>, step: &StepLine) -> Option<ScriptPlace>
    ensures { FirstAt 14 (plain_line line.now) (pair_words step.now) result }
{
    if changes_pairs(step) {
        place_near(14, line, 0)
    } else {
        None
    }
}

/// What a line breaks by what it calls, if it is a call.
fn refused_invoke(
    callbacks: &CallbackTakes,
    overload: Overload<'_>,
    line: &LineWords<'_>,
    step: &StepLine,
) -> Option<ScriptPlace>
    ensures { (list : DefsTerm) → AreTakes list callbacks.now → FirstAt 14 (plain_line line.now) (flat_map (refused_call list (overload_term overload.entry)) (invoked_in step.now)) result }
{
    match step {
        StepLine::Invoke(call) => refused_call(callbacks, overload, line, 0, call),
        StepLine::ReturnInvoke(call) => refused_call(callbacks, overload, line, 1, call),
        _ => None,
    }
}

/// Rule 14 in a line: `append` or `clear` in a namespace, or `invoke` of what is no callback that takes the sources.
pub(crate) fn first_refused_step(
    callbacks: &CallbackTakes,
    overload: Overload<'_>,
    line: &LineWords<'_>,
    step: &StepLine,
) -> Option<ScriptPlace>
    ensures { (list : DefsTerm) → AreTakes list callbacks.now → FirstAt 14 (plain_line line.now) (refused_words list (overload_term overload.entry) step.now) result }
{
    let pairs = refused_pairs(line, step);
    let invoke = refused_invoke(callbacks, overload, line, step);
    first_of(pairs, invoke)
}
