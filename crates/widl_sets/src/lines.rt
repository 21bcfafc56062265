//! The lines of an effective overload set.

ghost use Rattle.std.specs.Prelude.{◌≡◌, ◌++◌, ◌+◌, ◌<◌, All, OnOk, codes, decimal, length, slice_get};
ghost use Rattle.std.specs.Option.{option_copied, option_map};
ghost use Rattle.widl_idl.specs.DefinitionTerms.{defs_term};
ghost use Rattle.widl_idl.specs.Terms.{type_term};
ghost use Rattle.widl_overload.specs.sets.Sets.{tuple_term, tuples_in};
ghost use Rattle.widl_sets.specs.Lines.{IsTuple, argument_text, argument_texts, after, front, index_line, index_of, is_last_of_length, line_of_index, lines_of_set, optionality_text, tuple_line};
ghost use Rattle.widl_spell.specs.Names.{separated};

use itoa::Buffer;
use std::alloc::{AllocError, Global};
use widl_idl::{Defs, IdlType, Optionality};
use widl_overload::{OverloadSet, Tuple, distinguishing_index};
use widl_spell::{push_type, sign_before};

/// Adds the lines of a set: one for each tuple, and after the last tuple of each length one for the
/// distinguishing argument index, if there is one.
#[tactic(auto, unfolding(crate::specs::Lines::lines_of_set))]
pub fn push_set(
    alloc: Global,
    text: &mut Vec<u8>,
    defs: &Defs,
    callee: &[u8],
    set: &OverloadSet,
) -> Result<(), AllocError>
    requires { All IsTuple (tuples_in set.now) }
    ensures { OnOk result (text.new.items ≡ text.old.items ++ lines_of_set (defs_term defs.now) callee.now (tuples_in set.now)) }
{
    for place in 0..set.len() {
        let tuple = set.at(place);
        push_tuple(alloc, text, defs, callee, tuple)?;
        push_after(text, defs, callee, set, tuple, next_tuple(set, place))?;
    }
    Ok(())
}

/// The tuple after that at a place.
fn next_tuple(set: &OverloadSet, place: usize) -> Option<&Tuple>
    requires { place < length (tuples_in set.now) }
    ensures { option_map tuple_term (option_copied result) ≡ slice_get (tuples_in set.now) (place + 1) }
{
    if place + 1 < set.len() {
        Some(set.at(place + 1))
    } else {
        None
    }
}

/// Adds the line of a tuple.
#[tactic(auto, unfolding(crate::specs::Lines::tuple_line))]
fn push_tuple(
    alloc: Global,
    text: &mut Vec<u8>,
    defs: &Defs,
    callee: &[u8],
    tuple: &Tuple,
) -> Result<(), AllocError>
    requires { IsTuple (tuple_term tuple.now) }
    ensures { OnOk result (text.new.items ≡ text.old.items ++ tuple_line (defs_term defs.now) callee.now (tuple_term tuple.now)) }
{
    let mut overload = Buffer::new();
    push_front(text, callee, tuple.types.len())?;
    text.extend_from_slice(b" #")?;
    text.extend_from_slice(overload.format(tuple.overload).as_bytes())?;
    text.extend_from_slice(b" (")?;
    push_arguments(alloc, text, defs, tuple)?;
    text.extend_from_slice(b")\n")?;
    Ok(())
}

/// Adds what a line begins with: the callee, and how many arguments a call has.
fn push_front(text: &mut Vec<u8>, callee: &[u8], len: usize) -> Result<(), AllocError>
    ensures { OnOk result (text.new.items ≡ text.old.items ++ front callee.now len) }
{
    let mut number = Buffer::new();
    text.extend_from_slice(callee)?;
    text.extend_from_slice(b" ")?;
    text.extend_from_slice(number.format(len).as_bytes())?;
    Ok(())
}

/// Adds the arguments of a tuple.
fn push_arguments(
    alloc: Global,
    text: &mut Vec<u8>,
    defs: &Defs,
    tuple: &Tuple,
) -> Result<(), AllocError>
    requires { IsTuple (tuple_term tuple.now) }
    ensures { OnOk result (text.new.items ≡ text.old.items ++ separated (codes ", ") (argument_texts (defs_term defs.now) (tuple_term tuple.now).types (tuple_term tuple.now).opts)) }
{
    for place in 0..tuple.types.len() {
        text.extend_from_slice(sign_before(b", ", place))?;
        push_argument(
            alloc,
            text,
            defs,
            tuple.types.at(place),
            *tuple.opts.at(place),
        )?;
    }
    Ok(())
}

/// Adds an argument: its type and its optionality value.
fn push_argument(
    alloc: Global,
    text: &mut Vec<u8>,
    defs: &Defs,
    t: &IdlType,
    opt: Optionality,
) -> Result<(), AllocError>
    ensures { OnOk result (text.new.items ≡ text.old.items ++ argument_text (defs_term defs.now) (type_term t.now) opt) }
{
    push_type(alloc, text, defs, t)?;
    text.extend_from_slice(b" ")?;
    text.extend_from_slice(optionality_text(opt))?;
    Ok(())
}

fn optionality_text(opt: Optionality) -> &'static [u8]
    ensures { result.now ≡ optionality_text opt }
{
    match opt {
        Optionality::Required => b"required",
        Optionality::Optional => b"optional",
        Optionality::Variadic => b"variadic",
    }
}

/// Adds what stands after the line of a tuple: after the last of its length the line of the index.
fn push_after(
    text: &mut Vec<u8>,
    defs: &Defs,
    callee: &[u8],
    set: &OverloadSet,
    tuple: &Tuple,
    next: Option<&Tuple>,
) -> Result<(), AllocError>
    requires { IsTuple (tuple_term tuple.now) }
    ensures { OnOk result (text.new.items ≡ text.old.items ++ after (defs_term defs.now).ifaces callee.now (tuples_in set.now) (tuple_term tuple.now) (option_map tuple_term (option_copied next.entry))) }
{
    if is_last_of_length(tuple, next) {
        push_index(text, defs, callee, set, tuple.types.len() as u32)
    } else {
        Ok(())
    }
}

/// Whether a tuple is the last of its length, by the tuple after it.
fn is_last_of_length(tuple: &Tuple, next: Option<&Tuple>) -> bool
    ensures { result ≡ is_last_of_length (tuple_term tuple.now) (option_map tuple_term (option_copied next.entry)) }
{
    match next {
        None => true,
        Some(next) => next.types.len() != tuple.types.len(),
    }
}

/// Adds the line of the distinguishing argument index of a length, if there is one.
fn push_index(
    text: &mut Vec<u8>,
    defs: &Defs,
    callee: &[u8],
    set: &OverloadSet,
    len: u32,
) -> Result<(), AllocError>
    ensures { OnOk result (text.new.items ≡ text.old.items ++ index_line (defs_term defs.now).ifaces callee.now (tuples_in set.now) len) }
{
    match index_of(defs, set, len) {
        None => Ok(()),
        Some(place) => push_line_of_index(text, callee, len, place),
    }
}

fn index_of(defs: &Defs, set: &OverloadSet, len: u32) -> Option<u32>
    ensures { result ≡ index_of (defs_term defs.now).ifaces (tuples_in set.now) len }
{
    distinguishing_index(defs, set, len)
}

/// Adds the line of an index.
fn push_line_of_index(
    text: &mut Vec<u8>,
    callee: &[u8],
    len: u32,
    place: u32,
) -> Result<(), AllocError>
    ensures { OnOk result (text.new.items ≡ text.old.items ++ front callee.now len ++ codes " index " ++ decimal place ++ codes "\n") }
{
    let mut number = Buffer::new();
    push_front(text, callee, len as usize)?;
    text.extend_from_slice(b" index ")?;
    text.extend_from_slice(number.format(place).as_bytes())?;
    text.extend_from_slice(b"\n")?;
    Ok(())
}
