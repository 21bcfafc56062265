//! Which arguments step lines may name, and where they may say `this`.

ghost use Rattle.std.specs.Prelude.{◌≡◌, ℕ, flat_map, option_map};
ghost use Rattle.widl_idl.specs.DefinitionTerms.{arg_term};
ghost use Rattle.widl_script_rules.specs.Arguments.{argument_named, argument_of, is_lost, lost_call, lost_source, lost_words};
ghost use Rattle.widl_script_rules.specs.Lookups.{overload_term};
ghost use Rattle.widl_script_rules.specs.StepUses.{invoked_in};
ghost use Rattle.widl_script_rules.specs.Surroundings.{plain_line};
ghost use Rattle.widl_script_rules.specs.UsedPlaces.{AreListed, FirstAt, capped};

use crate::overloads::Overload;
use crate::places::{first_of, place_near};
use crate::step_uses::Used;
use widl_idl::{Arg, Optionality};
use widl_lines::{LineWords, ScriptPlace};
use widl_script_tree::{Source, StepLine};

/// The argument of a number.
pub(crate) fn argument_of<'d>(overload: Overload<'d>, number: u32) -> Option<&'d Arg>
    ensures { option_map (λ a. arg_term a.now) result ≡ argument_of (overload_term overload.entry) number }
{
    overload.signature.args.as_slice().get(number as usize)
}

/// The argument that `arg K` stands for: one that is declared and takes one value.
pub(crate) fn argument_named<'d>(overload: Overload<'d>, number: u32) -> Option<&'d Arg>
    ensures { option_map (λ a. arg_term a.now) result ≡ argument_named (overload_term overload.entry) number }
{
    match argument_of(overload, number) {
        Some(arg) => match arg.opt {
            Optionality::Variadic => None,
            Optionality::Required | Optionality::Optional => Some(arg),
        },
        None => None,
    }
}

/// Whether there is no such argument.
fn is_lost(overload: Overload<'_>, number: u32) -> bool
    ensures { result ≡ is_lost (overload_term overload.entry) number }
{
    argument_named(overload, number).is_none()
}

/// What a source breaks.
fn lost_source(overload: Overload<'_>, line: &LineWords<'_>, used: Used<'_>) -> Option<ScriptPlace>
    ensures { (word : ℕ) → used.entry.word ≡ capped word → FirstAt 11 (plain_line line.now) (lost_source (overload_term overload.entry) word used.entry.source.now) result }
{
    match used.source {
        Source::Arg(number) => {
            if is_lost(overload, *number) {
                place_near(11, line, used.word)
            } else {
                None
            }
        }
        Source::This => place_near(11, line, used.word),
        Source::Slot(_) | Source::Literal(_) => None,
    }
}

/// What a line breaks by what it calls, if it is a call.
fn lost_call(overload: Overload<'_>, line: &LineWords<'_>, step: &StepLine) -> Option<ScriptPlace>
    ensures { FirstAt 11 (plain_line line.now) (flat_map (lost_call (overload_term overload.entry)) (invoked_in step.now)) result }
{
    match step {
        StepLine::Invoke(call) => {
            if is_lost(overload, call.arg) {
                place_near(11, line, 1)
            } else {
                None
            }
        }
        StepLine::ReturnInvoke(call) => {
            if is_lost(overload, call.arg) {
                place_near(11, line, 2)
            } else {
                None
            }
        }
        _ => None,
    }
}

/// Rule 11 in a line: the first word `arg` or `this` that names what isn't there.
pub(crate) fn first_lost_argument(
    overload: Overload<'_>,
    line: &LineWords<'_>,
    step: &StepLine,
    used: &[Used<'_>],
) -> Option<ScriptPlace>
    requires { AreListed used.now step.now }
    ensures { FirstAt 11 (plain_line line.now) (lost_words (overload_term overload.entry) step.now) result }
{
    let mut first = lost_call(overload, line, step);
    'used: for each in used {
        first = first_of(first, lost_source(overload, line, *each));
    }
    first
}
