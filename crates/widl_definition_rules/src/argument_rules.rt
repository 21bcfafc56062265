//! The rules on lists of arguments.

ghost use Rattle.std.specs.Prelude.{◌≡◌, ◌&&◌, Bool, None, Some, if◌then◌else◌, IfOk, bytes_eq};
ghost use Rattle.std.specs.List.{list_any};
ghost use Rattle.widl_idl.specs.First.{AtOne, FirstWhere, Somewhere, violation_at};
ghost use Rattle.widl_idl.specs.PlainTrees.{PlainArgument, argument_kind_of, argument_of, arguments_of};
ghost use Rattle.widl_overload.specs.rules.ArgumentRules.{AtEllipsis, FollowsEllipsis, FollowsOptional, IsArgumentPastLimit, RepeatsArgument, is_optional, is_required};
ghost use Rattle.widl_inheritance.specs.WrittenLists.{listed_arguments};

use crate::known_texts::note_text;
use indexmap::IndexSet;
use std::alloc::{AllocError, Global};
use widl_idl::tree::{Argument, ArgumentKind};
use widl_idl::{Violation, earlier_violation};
use widl_text::limits::MOST_ARGUMENTS;

/// Up to how many arguments it is faster to compare their names with each other than to keep them.
const FEW: usize = 8;

/// The first place of the name of an argument that an earlier argument of its list has too.
///
/// # Errors
///
/// `AllocError` where there is no memory.
pub fn first_repeated_argument(
    alloc: Global,
    lists: &[&[Argument]],
) -> Result<Option<Violation>, AllocError>
    ensures { IfOk result (λ found. FirstWhere (Somewhere (AtOne RepeatsArgument) (listed_arguments lists.now)) found) }
{
    let mut best = None;
    for list in lists {
        let found = repeated_in(alloc, list)?;
        best = earlier_violation(best, found);
    }
    Ok(best)
}

/// The same in one list.
fn repeated_in(alloc: Global, arguments: &[Argument]) -> Result<Option<Violation>, AllocError>
    ensures { IfOk result (λ found. FirstWhere (AtOne RepeatsArgument (arguments_of arguments.now)) found) }
{
    if arguments.len() <= FEW {
        Ok(repeated_among_few(arguments))
    } else {
        repeated_among_many(alloc, arguments)
    }
}

/// The same in a short list, whose names are compared with each other.
fn repeated_among_few(arguments: &[Argument]) -> Option<Violation>
    ensures { FirstWhere (AtOne RepeatsArgument (arguments_of arguments.now)) result }
{
    let mut best = None;
    for (index, argument) in arguments.iter().enumerate() {
        let found = repeating(&arguments[..index], argument);
        best = earlier_violation(best, found);
    }
    best
}

/// The place of the name of an argument that one of those before has too.
fn repeating(before: &[Argument], argument: &Argument) -> Option<Violation>
    ensures { FirstWhere (RepeatsArgument (arguments_of before.now) (argument_of argument.now)) result }
{
    if is_used(before, argument.name.text.as_str()) {
        Some(Violation::at(argument.name.at))
    } else {
        None
    }
}

/// Whether one of the arguments has the name.
fn is_used(arguments: &[Argument], text: &str) -> bool
    ensures { result ≡ list_any (λ (a : PlainArgument). bytes_eq a.name.text text.now) (arguments_of arguments.now) }
{
    for argument in arguments {
        if argument.name.text.as_str() == text {
            return true;
        }
    }
    false
}

/// The same in a long list, whose names are kept.
fn repeated_among_many(
    alloc: Global,
    arguments: &[Argument],
) -> Result<Option<Violation>, AllocError>
    ensures { IfOk result (λ found. FirstWhere (AtOne RepeatsArgument (arguments_of arguments.now)) found) }
{
    let mut known = IndexSet::new(alloc);
    let mut best = None;
    for argument in arguments {
        let found = note_text(&mut known, argument.name.text.as_str(), argument.name.at)?;
        best = earlier_violation(best, found);
    }
    Ok(best)
}

/// The first place of an ellipsis that another argument of its list follows.
pub fn first_after_ellipsis(lists: &[&[Argument]]) -> Option<Violation>
    ensures { FirstWhere (Somewhere (AtOne FollowsEllipsis) (listed_arguments lists.now)) result }
{
    let mut best = None;
    for list in lists {
        let found = ellipsis_in(list);
        best = earlier_violation(best, found);
    }
    best
}

/// The same in one list.
fn ellipsis_in(arguments: &[Argument]) -> Option<Violation>
    ensures { FirstWhere (AtOne FollowsEllipsis (arguments_of arguments.now)) result }
{
    let mut best = None;
    // The first ellipsis of the arguments before.
    let mut before = None;
    for argument in arguments {
        best = earlier_violation(best, before);
        before = earlier_violation(before, ellipsis_of(&argument.kind));
    }
    best
}

/// The place of an argument's ellipsis, if it has one.
fn ellipsis_of(kind: &ArgumentKind) -> Option<Violation>
    ensures { FirstWhere (AtEllipsis (argument_kind_of kind.now)) result }
{
    match kind {
        ArgumentKind::Variadic(at) => Some(Violation::at(*at)),
        ArgumentKind::Required | ArgumentKind::Optional(_) => None,
    }
}

/// The first place of the name of a required argument that follows an optional one of its list.
pub fn first_required_after_optional(lists: &[&[Argument]]) -> Option<Violation>
    ensures { FirstWhere (Somewhere (AtOne FollowsOptional) (listed_arguments lists.now)) result }
{
    let mut best = None;
    for list in lists {
        let found = required_in(list);
        best = earlier_violation(best, found);
    }
    best
}

/// The same in one list.
fn required_in(arguments: &[Argument]) -> Option<Violation>
    ensures { FirstWhere (AtOne FollowsOptional (arguments_of arguments.now)) result }
{
    let mut best = None;
    // Whether one of the arguments before is optional.
    let mut optional = false;
    for argument in arguments {
        let found = required_after(optional, argument);
        best = earlier_violation(best, found);
        optional |= is_optional(&argument.kind);
    }
    best
}

/// The place of the name of a required argument, if one before it is optional.
fn required_after(optional: bool, argument: &Argument) -> Option<Violation>
    ensures { result ≡ (if is_required (argument_kind_of argument.now.kind) && optional then Some (violation_at argument.now.name.at) else None) }
{
    if is_required(&argument.kind) && optional {
        Some(Violation::at(argument.name.at))
    } else {
        None
    }
}

fn is_required(kind: &ArgumentKind) -> bool
    ensures { result ≡ is_required (argument_kind_of kind.now) }
{
    match kind {
        ArgumentKind::Required => true,
        ArgumentKind::Optional(_) | ArgumentKind::Variadic(_) => false,
    }
}

fn is_optional(kind: &ArgumentKind) -> bool
    ensures { result ≡ is_optional (argument_kind_of kind.now) }
{
    match kind {
        ArgumentKind::Optional(_) => true,
        ArgumentKind::Required | ArgumentKind::Variadic(_) => false,
    }
}

/// The first place of the name of an argument that 64 others of its list stand before.
pub fn first_argument_past_limit(lists: &[&[Argument]]) -> Option<Violation>
    ensures { FirstWhere (Somewhere (AtOne IsArgumentPastLimit) (listed_arguments lists.now)) result }
{
    let mut best = None;
    for list in lists {
        let found = argument_past_limit(list);
        best = earlier_violation(best, found);
    }
    best
}

/// The same in one list.
fn argument_past_limit(arguments: &[Argument]) -> Option<Violation>
    ensures { FirstWhere (AtOne IsArgumentPastLimit (arguments_of arguments.now)) result }
{
    match arguments.get(MOST_ARGUMENTS) {
        None => None,
        Some(argument) => Some(Violation::at(argument.name.at)),
    }
}
