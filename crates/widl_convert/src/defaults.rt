//! Default values, and the declared arguments that a call doesn't have.

ghost use Rattle.std.specs.Prelude.{◌≡◌, ◌≤◌, ◌<◌, length, IfOk};
ghost use Rattle.widl_dialog.specs.Dialog.{End};
ghost use Rattle.widl_idl.specs.DefinitionTerms.{DefsTerm, defs_term};
ghost use Rattle.widl_idl.specs.Flattened.{flattened_member, flattened_members};
ghost use Rattle.widl_idl.specs.Terms.{packed, type_term, type_terms};
ghost use Rattle.widl_value.specs.IdlTerms.{idl_term, idl_terms};
ghost use Rattle.widl_steps.specs.Defaults.{default, defaults, enumeration_among, literal_value, null_of, text_of};
ghost use Rattle.widl_steps.specs.Resolution.{default_at};
ghost use Rattle.widl_steps.specs.Tasks.{Picks};
ghost use Rattle.widl_convert.specs.Entries.{after_arguments, declared_type};
ghost use Rattle.widl_convert.specs.Frames.{idl_to, move_dialog};
ghost use Rattle.widl_convert.specs.Loads.{default_load, defaults_load, idl_frame_load, room, weight};

use crate::convert::gives;
use crate::entry::declared;
use crate::frames::{Frame, IdlFrame};
use crate::jobs::{ArgumentPlace, Beginning, Job};
use crate::literals::literal_value as literal_of;
use crate::moves::{Ending, Move};
use crate::nullable::inner_type;
use crate::outcome::Outcome;
use crate::resolution::Resolution;
use std::alloc::{AllocError, Global};
use widl_idl::{IdlType, IdlTypes, Literal, Optionality};
use widl_tables::Tables;
use widl_text::Units;
use widl_trace::Code;
use widl_value::{IdlValue, IdlValues, Value};

/// The move after the last argument: where one entry is left, to the declared arguments beyond it.
pub(crate) fn after_last(resolution: Box<Resolution>) -> Move
    ensures dialog { (list : DefsTerm) → move_dialog list result ≡ after_arguments resolution.value.kept.callee resolution.value.overload (idl_terms resolution.value.made) }
    ensures weight { (list : DefsTerm) → weight list result ≤ room list resolution.value.kept.callee }
{
    after_taken(Box::into_inner(resolution))
}

/// The same, of a choice all of whose arguments were taken.
fn after_taken(resolution: Resolution) -> Move
    ensures dialog { (list : DefsTerm) → move_dialog list result ≡ after_arguments resolution.kept.callee resolution.overload (idl_terms resolution.made) }
    ensures weight { (list : DefsTerm) → weight list result ≤ room list resolution.kept.callee }
{
    match resolution.overload {
        None => Move::Gives(Ending::Throw(Code::NoMatch)),
        Some(overload) => Move::Goes(Job::Defaults(Beginning {
            callee: resolution.kept.callee,
            overload,
            made: resolution.made,
        })),
    }
}

/// The move to the next of the declared arguments that a call doesn't have. A variadic one, the last,
/// gives nothing.
pub(crate) fn defaults(tables: &Tables, beginning: Beginning) -> Move
    ensures dialog { move_dialog (defs_term tables.now.defs) result ≡ defaults (defs_term tables.now.defs) beginning.callee beginning.overload (idl_terms beginning.made) }
    ensures weight { weight (defs_term tables.now.defs) result ≤ defaults_load (defs_term tables.now.defs) beginning.callee beginning.overload (length (idl_terms beginning.made)) }
{
    let at = ArgumentPlace {
        callee: beginning.callee,
        overload: beginning.overload,
        place: beginning.made.len(),
    };
    match declared(tables.list().defs(), at) {
        None => picks(beginning),
        Some(arg) => if arg.opt == Optionality::Variadic {
            picks(beginning)
        } else {
            Move::Steps(Frame::Idl(IdlFrame::Defaulted(beginning)), Job::Default(at))
        },
    }
}

/// The end with an overload.
fn picks(beginning: Beginning) -> Move
    ensures dialog { (list : DefsTerm) → move_dialog list result ≡ End (Picks beginning.overload (idl_terms beginning.made)) }
    ensures weight { (list : DefsTerm) → weight list result ≡ 0 }
{
    Move::Gives(Ending::Done(Outcome::Chosen {
        overload: beginning.overload,
        values: beginning.made,
    }))
}

/// The move after the value of a declared argument that a call doesn't have.
///
/// # Errors
///
/// `AllocError` where there is no memory.
pub(crate) fn with_default(beginning: Beginning, value: IdlValue) -> Result<Move, AllocError>
    ensures dialog { IfOk result (λ m. (list : DefsTerm) → move_dialog list m ≡ idl_to list (IdlFrame.Defaulted beginning) (idl_term value)) }
    ensures weight { IfOk result (λ m. (list : DefsTerm) → weight list m < idl_frame_load list (IdlFrame.Defaulted beginning)) }
{
    let mut beginning = beginning;
    beginning.made.push(value)?;
    Ok(Move::Goes(Job::Defaults(beginning)))
}

/// The first move to the default value of an argument. Without one it is missing.
///
/// # Errors
///
/// `AllocError` where there is no memory.
pub(crate) fn default(alloc: Global, tables: &Tables, at: ArgumentPlace) -> Result<Move, AllocError>
    ensures dialog { IfOk result (λ m. move_dialog (defs_term tables.now.defs) m ≡ default (defs_term tables.now.defs) (declared_type (defs_term tables.now.defs) at.callee at.overload at.place) (default_at (defs_term tables.now.defs) at.callee at.overload at.place)) }
    ensures weight { IfOk result (λ m. weight (defs_term tables.now.defs) m ≤ default_load) }
{
    match declared(tables.list().defs(), at) {
        None => Ok(gives(IdlValue::Missing)),
        Some(arg) => default_of(alloc, tables, &arg.ty, &arg.value),
    }
}

/// The first move to a default value of a type, if there is one.
///
/// # Errors
///
/// `AllocError` where there is no memory.
pub(crate) fn default_of(
    alloc: Global,
    tables: &Tables,
    ty: &IdlType,
    value: &Option<Literal>,
) -> Result<Move, AllocError>
    ensures dialog { IfOk result (λ m. move_dialog (defs_term tables.now.defs) m ≡ default (defs_term tables.now.defs) (type_term ty.now) value.now) }
    ensures weight { IfOk result (λ m. weight (defs_term tables.now.defs) m ≤ default_load) }
{
    match value {
        None => Ok(gives(IdlValue::Missing)),
        Some(literal) => with_literal(alloc, tables, ty, literal),
    }
}

/// The move to the IDL value that a literal is in a type that it fits; `{}` is the dictionary that
/// `undefined` is converted to, also where the type is that dictionary's nullable one.
///
/// # Errors
///
/// `AllocError` where there is no memory.
#[tactic(auto, using(crate::proofs::GivenLoads::literal_costs_nothing))]
fn with_literal(
    alloc: Global,
    tables: &Tables,
    ty: &IdlType,
    literal: &Literal,
) -> Result<Move, AllocError>
    ensures dialog { IfOk result (λ m. move_dialog (defs_term tables.now.defs) m ≡ literal_value (defs_term tables.now.defs) (type_term ty.now) literal.now) }
    ensures weight { IfOk result (λ m. weight (defs_term tables.now.defs) m ≤ default_load) }
{
    match literal_of(alloc, tables, ty, literal)? {
        Some(value) => Ok(gives(value)),
        None => Ok(Move::Goes(Job::Convert {
            ty: inner_type(ty).copy(alloc)?,
            value: Value::Undefined,
        })),
    }
}

/// `null` as a value of a type.
pub(crate) fn null_of(ty: &IdlType) -> IdlValue
    ensures { idl_term result ≡ null_of (type_term ty.now) }
{
    match ty {
        IdlType::Any => IdlValue::Any(Value::Null),
        _ => IdlValue::Null,
    }
}

/// A text as a value of a type: of an enumeration where the type is one, or has one inside.
///
/// # Errors
///
/// `AllocError` where there is no memory.
pub(crate) fn text_of(tables: &Tables, ty: &IdlType, text: &Units) -> Result<IdlValue, AllocError>
    ensures { IfOk result (λ value. idl_term value ≡ text_of (defs_term tables.now.defs) (type_term ty.now) text.now) }
{
    match enumeration_in(ty) {
        None => Ok(IdlValue::Text(text.copy()?)),
        Some(number) => Ok(IdlValue::Choice {
            of: number,
            index: tables.enum_at(number, text).unwrap_or(0),
        }),
    }
}

/// The first enumeration of those that a type is flattened to.
///
/// A type of a list of definitions nests at most 16 levels, which bounds the recursion.
#[cycle(enumeration)]
fn enumeration_in(ty: &IdlType) -> Option<u32>
    ensures { result ≡ enumeration_among (flattened_member (type_term ty.now)) }
{
    match ty {
        IdlType::Choice(number) => Some(*number),
        IdlType::Nullable(inner) => enumeration_in(inner),
        IdlType::Union(members) => enumeration_among(members),
        _ => None,
    }
}

/// The first enumeration of those that the members of a union are flattened to.
#[cycle(enumeration)]
fn enumeration_among(members: &IdlTypes) -> Option<u32>
    ensures { result ≡ enumeration_among (flattened_members (packed (type_terms members.now))) }
{
    for member in members.as_slice() {
        if let Some(number) = enumeration_in(member) {
            return Some(number);
        }
    }
    None
}
