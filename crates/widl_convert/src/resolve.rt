//! The choice of an overload, with the conversion of the arguments.

ghost use Rattle.std.specs.Prelude.{◌≡◌, ◌≤◌, ◌<◌, ◌+◌, ◌∷◌, [], length, false, true, option_map, slice_get, IfNone, IfOk, IfSome, None, Some};
ghost use Rattle.widl_dialog.specs.Dialog.{Steps};
ghost use Rattle.widl_idl.specs.DefinitionTerms.{DefsTerm, defs_term};
ghost use Rattle.widl_idl.specs.Terms.{type_term};
ghost use Rattle.widl_value.specs.Classes.{class_of};
ghost use Rattle.widl_value.specs.IdlTerms.{idl_term, idl_terms};
ghost use Rattle.widl_overload.specs.sets.Entries.{declared_args, entry_for, optionality_at, type_at};
ghost use Rattle.widl_tables.specs.Kept.{entries_for, entry_alone};
ghost use Rattle.widl_tables.specs.Picks.{pick_kept, pick_of};
ghost use Rattle.widl_tables.specs.Tests.{is_optional};
ghost use Rattle.widl_steps.specs.Built.{built_today};
ghost use Rattle.widl_steps.specs.Sequences.{element_within};
ghost use Rattle.widl_steps.specs.Resolution.{argument, arguments, argument_given, argument_task, by_entry, by_pick, from_method, kept, of_several, resolve};
ghost use Rattle.widl_steps.specs.Rules.{rule};
ghost use Rattle.widl_steps.specs.Tasks.{Resolve};
ghost use Rattle.widl_convert.specs.Entries.{IsAtPlace, is_among, entries_left, entry_in, left_from, place_in, sole};
ghost use Rattle.widl_convert.specs.Frames.{entries_of, idl_to, job_of, later_pick, move_dialog, probe_to, taken};
ghost use Rattle.widl_convert.specs.Loads.{default_load, idl_frame_load, load, taken_load, weight};

use crate::convert::throws;
use crate::defaults::after_last;
use crate::entry::standing;
use crate::frames::{Frame, IdlFrame};
use crate::jobs::{ArgumentPlace, Job};
use crate::moves::{Asking, Move};
use crate::resolution::{Call, Probe, Resolution};
use crate::sequence::{ITERATOR, Iterable, element_within};
use crate::waits::{ValueWait, Wait};
use std::alloc::{AllocError, Global};
use widl_idl::{IdlType, Optionality};
use widl_steps::Ask;
use widl_tables::{Pick, Tables, kept, pick_overload};
use widl_text::Key;
use widl_trace::Code;
use widl_value::{Class, IdlValue, IdlValues, ObjRef, Shape, Value};

/// The first move of the choice of an overload.
///
/// # Errors
///
/// `AllocError` where there is no memory.
pub(crate) fn resolve(alloc: Global, tables: &Tables, call: Call) -> Result<Move, AllocError>
    ensures dialog { IfOk result (λ m. move_dialog (defs_term tables.now.defs) m ≡ resolve (defs_term tables.now.defs) call.callee call.args) }
    ensures weight { IfOk result (λ m. weight (defs_term tables.now.defs) m ≤ load (defs_term tables.now.defs) (Resolve call.callee call.args)) }
{
    let Call { callee, args } = call;
    let kept = kept(alloc, tables.list().defs(), &callee, args.len() as u32)?;
    if kept.overloads.len() == 0 {
        return Ok(throws(Code::NoOverload));
    }
    let overload = sole(kept.overloads.as_slice());
    let resolution = Resolution {
        kept,
        overload,
        args,
        made: IdlValues::new(alloc),
    };
    Ok(Move::Goes(Job::Arguments(Box::new(alloc, resolution)?)))
}

/// The one of the overloads, where there is one alone.
fn sole(overloads: &[u32]) -> Option<u32>
    ensures { result ≡ sole overloads.now }
{
    match overloads {
        [overload] => Some(*overload),
        _ => None,
    }
}

/// The move from one argument to the next.
pub(crate) fn arguments(tables: &Tables, resolution: Box<Resolution>) -> Move
    ensures dialog { move_dialog (defs_term tables.now.defs) result ≡ rule built_today (defs_term tables.now.defs) (job_of (defs_term tables.now.defs) (Job.Arguments resolution)) }
    ensures weight { weight (defs_term tables.now.defs) result ≤ load (defs_term tables.now.defs) (job_of (defs_term tables.now.defs) (Job.Arguments resolution)) }
{
    let mut resolution = resolution;
    match take_argument(&mut resolution) {
        None => after_last(resolution),
        Some(value) => with_taken(tables, resolution, value),
    }
}

/// Takes the next argument, if there is one that counts.
fn take_argument(resolution: &mut Resolution) -> Option<Value>
    ensures kept { resolution.new.kept ≡ resolution.old.kept }
    ensures overload { resolution.new.overload ≡ resolution.old.overload }
    ensures made { resolution.new.made ≡ resolution.old.made }
    ensures none { IfNone result (left_from (length (idl_terms resolution.old.made)) resolution.old.kept resolution.old.args ≡ []) }
    ensures some { IfSome result (λ value. left_from (length (idl_terms resolution.old.made)) resolution.old.kept resolution.old.args ≡ value ∷ left_from (length (idl_terms resolution.old.made) + 1) resolution.old.kept resolution.new.args) }
{
    let place = resolution.made.len();
    let count = resolution.args.len().min(resolution.kept.argcount as usize);
    if place >= count {
        return None;
    }
    Some(resolution.args.replace(place, Value::Undefined))
}

/// The move to an argument that was taken.
fn with_taken(tables: &Tables, resolution: Box<Resolution>, value: Value) -> Move
    ensures dialog { move_dialog (defs_term tables.now.defs) result ≡ arguments built_today (defs_term tables.now.defs) resolution.value.kept.callee (entries_left (defs_term tables.now.defs) resolution.value.kept resolution.value.overload) (place_in resolution.value.kept) (value ∷ left_from (length (idl_terms resolution.value.made) + 1) resolution.value.kept resolution.value.args) (idl_terms resolution.value.made) }
    ensures weight { weight (defs_term tables.now.defs) result ≤ taken_load (defs_term tables.now.defs) resolution.value }
{
    match resolution.overload {
        Some(overload) => argument(tables, resolution, overload, value),
        None => of_several(tables, resolution, value),
    }
}

/// The move to an argument that was taken, by the entry of an overload.
fn argument(tables: &Tables, resolution: Box<Resolution>, overload: u32, value: Value) -> Move
    ensures dialog { move_dialog (defs_term tables.now.defs) result ≡ Steps (argument_task (defs_term tables.now.defs) resolution.value.kept.callee (entry_in (defs_term tables.now.defs) resolution.value.kept overload) (length (idl_terms resolution.value.made)) value) (taken argument_given (defs_term tables.now.defs) resolution.value (entries_of (defs_term tables.now.defs) resolution.value)) }
    ensures weight { weight (defs_term tables.now.defs) result ≤ taken_load (defs_term tables.now.defs) resolution.value }
{
    let job = argument_job(tables, &resolution, overload, value);
    Move::Steps(Frame::Idl(IdlFrame::Argument(resolution)), job)
}

/// What is done with an argument: where it is undefined, an optional one gives its default value.
fn argument_job(tables: &Tables, resolution: &Resolution, overload: u32, value: Value) -> Job
    ensures task { job_of (defs_term tables.now.defs) result ≡ argument_task (defs_term tables.now.defs) resolution.now.kept.callee (entry_in (defs_term tables.now.defs) resolution.now.kept overload) (length (idl_terms resolution.now.made)) value }
    ensures load { load (defs_term tables.now.defs) (job_of (defs_term tables.now.defs) result) ≤ default_load }
{
    let kept = &resolution.kept;
    let at = ArgumentPlace {
        callee: kept.callee,
        overload,
        place: resolution.made.len(),
    };
    match value {
        Value::Undefined => if is_optional(tables, at, kept.argcount) {
            Job::Default(at)
        } else {
            Job::Argument {
                at,
                length: kept.argcount,
                value: Value::Undefined,
            }
        },
        value => Job::Argument {
            at,
            length: kept.argcount,
            value,
        },
    }
}

/// Whether the argument at a place of an entry of a length is optional.
fn is_optional(tables: &Tables, at: ArgumentPlace, length: u32) -> bool
    ensures { result ≡ is_optional (optionality_at (entry_for at.overload (declared_args (defs_term tables.now.defs) at.callee at.overload) length) at.place) }
{
    match standing(tables.list().defs(), at, length) {
        None => false,
        Some(standing) => standing.opt == Optionality::Optional,
    }
}

/// The move to an argument that was taken where several entries are left.
fn of_several(tables: &Tables, resolution: Box<Resolution>, value: Value) -> Move
    requires { resolution.value.overload ≡ None }
    ensures dialog { move_dialog (defs_term tables.now.defs) result ≡ taken (of_several built_today) (defs_term tables.now.defs) resolution.value value (entries_of (defs_term tables.now.defs) resolution.value) }
    ensures weight { weight (defs_term tables.now.defs) result ≤ taken_load (defs_term tables.now.defs) resolution.value }
{
    if resolution.made.len() == resolution.kept.place.unwrap_or(0) as usize {
        picked(tables, resolution, value)
    } else {
        by_first(tables, resolution, value)
    }
}

/// The move to an argument below the place that tells the entries apart: they agree there, and the first
/// of them takes it.
fn by_first(tables: &Tables, resolution: Box<Resolution>, value: Value) -> Move
    requires { resolution.value.overload ≡ None }
    ensures dialog { move_dialog (defs_term tables.now.defs) result ≡ taken argument (defs_term tables.now.defs) resolution.value value (entries_of (defs_term tables.now.defs) resolution.value) }
    ensures weight { weight (defs_term tables.now.defs) result ≤ taken_load (defs_term tables.now.defs) resolution.value }
{
    let first = first_overload(&resolution);
    argument(tables, resolution, first, value)
}

/// The first of several overloads that are kept.
fn first_overload(resolution: &Resolution) -> u32
    requires { resolution.now.overload ≡ None }
    ensures { slice_get resolution.now.kept.overloads 0 ≡ Some result }
{
    *resolution.kept.overloads.at(0)
}

/// The move to the argument at the place that tells the entries apart.
fn picked(tables: &Tables, resolution: Box<Resolution>, value: Value) -> Move
    requires { IsAtPlace resolution.value.kept resolution.value.overload (length (idl_terms resolution.value.made)) }
    ensures dialog { move_dialog (defs_term tables.now.defs) result ≡ by_pick built_today (defs_term tables.now.defs) (place_in resolution.value.kept) value (taken kept (defs_term tables.now.defs) resolution.value value) (entries_of (defs_term tables.now.defs) resolution.value) (pick_of (defs_term tables.now.defs) (entries_of (defs_term tables.now.defs) resolution.value) (place_in resolution.value.kept) (class_of value) false) }
    ensures weight { weight (defs_term tables.now.defs) result ≤ taken_load (defs_term tables.now.defs) resolution.value }
{
    match pick(tables, &resolution, value.class(), false) {
        Pick::Entry(overload) => by_alone(tables, resolution, overload, value),
        Pick::Probe(overload) => probe(resolution, overload, value),
        Pick::Refuse => throws(Code::NoMatch),
    }
}

/// The pick of a value of this class among the overloads that are kept.
fn pick(tables: &Tables, resolution: &Resolution, class: Class, probed: bool) -> Pick
    ensures { result ≡ pick_kept (defs_term tables.now.defs) (entries_for (defs_term tables.now.defs) resolution.now.kept.callee resolution.now.kept.argcount resolution.now.kept.overloads) resolution.now.kept.place class probed }
{
    pick_overload(tables.list().defs(), &resolution.kept, class, probed)
}

/// The move to an argument that was taken, by the entry of an overload that is left alone.
fn by_alone(tables: &Tables, resolution: Box<Resolution>, overload: u32, value: Value) -> Move
    ensures dialog { move_dialog (defs_term tables.now.defs) result ≡ taken argument (defs_term tables.now.defs) resolution.value value (entry_in (defs_term tables.now.defs) resolution.value.kept overload ∷ []) }
    ensures weight { weight (defs_term tables.now.defs) result ≤ taken_load (defs_term tables.now.defs) resolution.value }
{
    argument(tables, alone(resolution, overload), overload, value)
}

/// The same choice, with an overload alone.
fn alone(resolution: Box<Resolution>, overload: u32) -> Box<Resolution>
    ensures kept { result.value.kept ≡ resolution.value.kept }
    ensures overload { result.value.overload ≡ Some overload }
    ensures args { result.value.args ≡ resolution.value.args }
    ensures made { result.value.made ≡ resolution.value.made }
{
    let mut resolution = resolution;
    leave_alone(&mut resolution, overload);
    resolution
}

/// An overload is left alone.
fn leave_alone(resolution: &mut Resolution, overload: u32)
    ensures kept { resolution.new.kept ≡ resolution.old.kept }
    ensures overload { resolution.new.overload ≡ Some overload }
    ensures args { resolution.new.args ≡ resolution.old.args }
    ensures made { resolution.new.made ≡ resolution.old.made }
{
    resolution.overload = Some(overload);
}

/// The ask for the method `@iterator` of the argument, for the sequence type of the overload that it picked.
fn probe(resolution: Box<Resolution>, overload: u32, value: Value) -> Move
    requires at_place { IsAtPlace resolution.value.kept resolution.value.overload (length (idl_terms resolution.value.made)) }
    requires among { is_among resolution.value.kept overload ≡ true }
    ensures dialog { (list : DefsTerm) → move_dialog list result ≡ by_pick built_today list (place_in resolution.value.kept) value (taken kept list resolution.value value) (entries_of list resolution.value) (Pick.Probe overload) }
    ensures weight { (list : DefsTerm) → weight list result ≡ 0 }
{
    match value {
        Value::Obj(obj) => Move::Asks(Asking {
            ask: Ask::Get {
                obj,
                key: Key::Sym(ITERATOR),
            },
            wait: Wait::Value(ValueWait::Probe(Probe {
                resolution,
                obj,
                overload,
            })),
        }),
        _ => throws(Code::NoMatch),
    }
}

/// The move after the method `@iterator` of the argument was read.
///
/// # Errors
///
/// `AllocError` where there is no memory.
pub(crate) fn probed(
    alloc: Global,
    tables: &Tables,
    probe: Probe,
    found: Value,
) -> Result<Move, AllocError>
    ensures { IfOk result (λ m. move_dialog (defs_term tables.now.defs) m ≡ probe_to (defs_term tables.now.defs) probe found) }
{
    match found {
        Value::Undefined => Ok(without_method(tables, probe)),
        Value::Null => Ok(without_method(tables, probe)),
        Value::Obj(f) => match f.shape {
            Shape::Callable => with_method(alloc, tables, probe, f),
            _ => Ok(throws(Code::NotCallable)),
        },
        _ => Ok(throws(Code::NotCallable)),
    }
}

/// The move where the argument has such a method: to the sequence, for the entry for whose type it was
/// looked. The method isn't read again.
fn with_method(
    alloc: Global,
    tables: &Tables,
    probe: Probe,
    method: ObjRef,
) -> Result<Move, AllocError>
    ensures { IfOk result (λ m. move_dialog (defs_term tables.now.defs) m ≡ taken kept (defs_term tables.now.defs) probe.resolution.value (Value.Obj probe.obj) (Some (probe.obj, method)) (entry_alone probe.overload (entries_of (defs_term tables.now.defs) probe.resolution.value))) }
{
    let Probe {
        resolution,
        obj,
        overload,
    } = probe;
    from_method(alloc, tables, resolution, overload, obj, method)
}

/// The move from an argument with its method `@iterator` to the sequence in the type of an overload's
/// entry, which is left alone.
fn from_method(
    alloc: Global,
    tables: &Tables,
    resolution: Box<Resolution>,
    overload: u32,
    obj: ObjRef,
    method: ObjRef,
) -> Result<Move, AllocError>
    ensures { IfOk result (λ m. move_dialog (defs_term tables.now.defs) m ≡ taken from_method (defs_term tables.now.defs) resolution.value obj method (entry_in (defs_term tables.now.defs) resolution.value.kept overload ∷ [])) }
{
    let kept = &resolution.kept;
    let at = ArgumentPlace {
        callee: kept.callee,
        overload,
        place: resolution.made.len(),
    };
    match sequence_element(alloc, tables, at, kept.argcount)? {
        None => Ok(throws(Code::NoMatch)),
        Some(element) => Ok(Move::Steps(
            Frame::Idl(IdlFrame::Argument(alone(resolution, overload))),
            Job::SequenceFrom(Iterable {
                element,
                obj,
                method,
            }),
        )),
    }
}

/// The type of the elements of the sequence type at a place of an entry of a length, or inside its type.
fn sequence_element(
    alloc: Global,
    tables: &Tables,
    at: ArgumentPlace,
    length: u32,
) -> Result<Option<IdlType>, AllocError>
    ensures { IfOk result (λ element. option_map type_term element ≡ element_within (type_at (entry_for at.overload (declared_args (defs_term tables.now.defs) at.callee at.overload) length) at.place)) }
{
    match standing(tables.list().defs(), at, length) {
        None => Ok(None),
        Some(standing) => match element_within(standing.ty) {
            None => Ok(None),
            Some(element) => Ok(Some(element.copy(alloc)?)),
        },
    }
}

/// The move where the argument has no such method: the later tests decide.
fn without_method(tables: &Tables, probe: Probe) -> Move
    ensures { move_dialog (defs_term tables.now.defs) result ≡ by_entry (taken kept (defs_term tables.now.defs) probe.resolution.value (Value.Obj probe.obj) None) (entries_of (defs_term tables.now.defs) probe.resolution.value) (later_pick (defs_term tables.now.defs) probe.resolution.value probe.obj) }
{
    let Probe {
        resolution,
        obj,
        overload: _,
    } = probe;
    let value = Value::Obj(obj);
    match pick(tables, &resolution, value.class(), true) {
        Pick::Entry(overload) => by_alone(tables, resolution, overload, value),
        _ => throws(Code::NoMatch),
    }
}

/// The move after the IDL value of the argument that was taken last.
///
/// # Errors
///
/// `AllocError` where there is no memory.
pub(crate) fn with_argument(
    resolution: Box<Resolution>,
    value: IdlValue,
) -> Result<Move, AllocError>
    ensures dialog { IfOk result (λ m. (list : DefsTerm) → move_dialog list m ≡ idl_to list (IdlFrame.Argument resolution) (idl_term value)) }
    ensures weight { IfOk result (λ m. (list : DefsTerm) → weight list m < idl_frame_load list (IdlFrame.Argument resolution)) }
{
    let mut resolution = resolution;
    resolution.made.push(value)?;
    Ok(Move::Goes(Job::Arguments(resolution)))
}
