//! Values to unions.

ghost use Rattle.std.specs.Prelude.{◌≡◌, ◌≤◌, ◌&&◌, IfOk, false, option_map, true};
ghost use Rattle.widl_dialog.specs.Dialog.{Say};
ghost use Rattle.widl_idl.specs.DefinitionTerms.{DefsTerm, defs_term};
ghost use Rattle.widl_idl.specs.Flattened.{includes_nullable_type, unannotated};
ghost use Rattle.widl_idl.specs.Terms.{TypeTerm, packed, type_term, type_terms};
ghost use Rattle.widl_tables.specs.Picks.{pick_member_of};
ghost use Rattle.widl_tables.specs.Tests.{is_null_or_undefined};
ghost use Rattle.widl_value.specs.Classes.{class_of};
ghost use Rattle.widl_steps.specs.AskTerms.{GetAsk};
ghost use Rattle.widl_steps.specs.Built.{built_today};
ghost use Rattle.widl_steps.specs.Scalars.{convert_plain};
ghost use Rattle.widl_steps.specs.Sequences.{iterator_symbol};
ghost use Rattle.widl_steps.specs.Tasks.{Talk};
ghost use Rattle.widl_steps.specs.Unions.{member_from, member_picked, member_probed, to_member, without_iterator};
ghost use Rattle.widl_steps.specs.Words.{normal};
ghost use Rattle.widl_convert.specs.Frames.{move_dialog, union_to};
ghost use Rattle.widl_convert.specs.Loads.{conversion_load, weight};

use crate::convert::{by_number, convert_plain, null_or_string, throws};
use crate::frames::NumberFrame;
use crate::jobs::Job;
use crate::moves::{Asking, Move};
use crate::sequence::{ITERATOR, Iterable};
use crate::union_members::{element_at, member_at};
use crate::waits::{ValueWait, Wait};
use std::alloc::{AllocError, Global};
use widl_idl::{IdlType, IdlTypes, Mode, includes_nullable};
use widl_steps::Ask;
use widl_tables::{Pick, Tables, pick_member};
use widl_text::Key;
use widl_trace::Code;
use widl_value::{Class, ObjRef, Shape, Value};

/// A conversion to a union that waits for the method `@iterator` of an object.
#[derive(Drop)]
pub struct UnionProbe {
    /// The object.
    pub obj: ObjRef,
    /// The type of the elements of the sequence that is made by the method.
    pub element: Option<IdlType>,
    /// The member that takes an object without such a method, if there is one.
    pub otherwise: Option<IdlType>,
}

/// Whether a value is null where it is converted to a type that includes a nullable one (Web IDL,
/// "Union types", JavaScript binding, step 1).
pub(crate) fn is_null_of(ty: &IdlType, value: &Value) -> bool
    ensures { result ≡ (includes_nullable_type (type_term ty.now) && is_null_or_undefined (class_of value.now)) }
{
    match value {
        Value::Undefined | Value::Null => includes_nullable(ty),
        _ => false,
    }
}

/// The first move of a value's conversion to a union with these members, of which the value is no null
/// (Web IDL, "Union types", JavaScript binding, from step 2 on). The members stand in the definitions
/// and are picked there.
///
/// # Errors
///
/// `AllocError` where there is no memory.
pub(crate) fn by_member(
    alloc: Global,
    tables: &Tables,
    members: &IdlTypes,
    value: Value,
) -> Result<Move, AllocError>
    ensures dialog { IfOk result (λ m. move_dialog (defs_term tables.now.defs) m ≡ member_picked (convert_plain built_today (defs_term tables.now.defs)) built_today (defs_term tables.now.defs) (packed (type_terms members.now)) value (pick_member_of (defs_term tables.now.defs) (packed (type_terms members.now)) (class_of value) false)) }
    ensures weight { IfOk result (λ m. weight (defs_term tables.now.defs) m ≤ conversion_load) }
{
    match pick(tables, members, value.class(), false) {
        Pick::Entry(place) => to_member(alloc, member_at(members, place), value),
        Pick::Probe(place) => probe(alloc, tables, members, place, value),
        Pick::Refuse => Ok(throws(Code::Union)),
    }
}

/// The pick of a value of this class among the members of a union.
fn pick(tables: &Tables, members: &IdlTypes, class: Class, probed: bool) -> Pick
    ensures { result ≡ pick_member_of (defs_term tables.now.defs) (packed (type_terms members.now)) class probed }
{
    pick_member(tables.list().defs(), members, class, probed)
}

/// The first move of a value's conversion to a flattened member, which the pick names.
///
/// # Errors
///
/// `AllocError` where there is no memory.
fn to_member(alloc: Global, member: Option<&IdlType>, value: Value) -> Result<Move, AllocError>
    ensures dialog { IfOk result (λ m. (list : DefsTerm) → move_dialog list m ≡ to_member (convert_plain built_today list) (option_map (λ t. unannotated (type_term t.now)) member.entry) value) }
    ensures weight { IfOk result (λ m. (list : DefsTerm) → weight list m ≤ conversion_load) }
{
    match member {
        Some(member) => to_unannotated(alloc, member, value),
        None => Ok(throws(Code::Union)),
    }
}

/// The first move of a value's conversion to a type without its annotation.
///
/// # Errors
///
/// `AllocError` where there is no memory.
fn to_unannotated(alloc: Global, ty: &IdlType, value: Value) -> Result<Move, AllocError>
    ensures dialog { IfOk result (λ m. (list : DefsTerm) → move_dialog list m ≡ convert_plain built_today list (unannotated (type_term ty.now)) value) }
    ensures weight { IfOk result (λ m. (list : DefsTerm) → weight list m ≤ conversion_load) }
{
    match ty {
        IdlType::Int(kind, _) => Ok(by_number(NumberFrame::Integer(*kind, Mode::Wrap), value)),
        IdlType::Text { kind, .. } => Ok(null_or_string(alloc, false, *kind, value)),
        IdlType::Any
        | IdlType::Undefined
        | IdlType::Boolean
        | IdlType::Choice(_)
        | IdlType::Interface(_)
        | IdlType::CallbackFn(_)
        | IdlType::CallbackIface(_)
        | IdlType::Dict(_)
        | IdlType::Object
        | IdlType::Seq(_)
        | IdlType::Rec(_, _)
        | IdlType::Promise(_)
        | IdlType::Nullable(_)
        | IdlType::Union(_) => convert_plain(alloc, ty, value),
    }
}

/// The ask for the method `@iterator` of a value that picked the sequence type at a place.
///
/// # Errors
///
/// `AllocError` where there is no memory.
fn probe(
    alloc: Global,
    tables: &Tables,
    members: &IdlTypes,
    place: u32,
    value: Value,
) -> Result<Move, AllocError>
    ensures dialog { IfOk result (λ m. move_dialog (defs_term tables.now.defs) m ≡ member_picked (convert_plain built_today (defs_term tables.now.defs)) built_today (defs_term tables.now.defs) (packed (type_terms members.now)) value (Pick.Probe place)) }
    ensures weight { IfOk result (λ m. weight (defs_term tables.now.defs) m ≡ 0) }
{
    match value {
        Value::Obj(obj) => probe_object(alloc, tables, members, place, obj),
        _ => Ok(throws(Code::Union)),
    }
}

/// The same of an object. Copies of the two types that may be needed after the ask are kept over it.
///
/// # Errors
///
/// `AllocError` where there is no memory.
fn probe_object(
    alloc: Global,
    tables: &Tables,
    members: &IdlTypes,
    place: u32,
    obj: ObjRef,
) -> Result<Move, AllocError>
    ensures dialog { IfOk result (λ m. move_dialog (defs_term tables.now.defs) m ≡ Say (GetAsk obj (Key.Sym iterator_symbol)) (normal (member_probed (convert_plain built_today (defs_term tables.now.defs)) built_today (defs_term tables.now.defs) (packed (type_terms members.now)) place obj))) }
    ensures weight { IfOk result (λ m. weight (defs_term tables.now.defs) m ≡ 0) }
{
    let element = copy_of(alloc, element_at(members, place))?;
    let otherwise = copy_of(
        alloc,
        later_member(tables, members, Value::Obj(obj).class()),
    )?;
    let probe = UnionProbe {
        obj,
        element,
        otherwise,
    };
    Ok(asks(Box::new(alloc, probe)?))
}

/// The ask for the method.
fn asks(probe: Box<UnionProbe>) -> Move
    ensures dialog { (list : DefsTerm) → move_dialog list result ≡ Say (GetAsk probe.value.obj (Key.Sym iterator_symbol)) (normal (union_to list probe.value)) }
    ensures weight { (list : DefsTerm) → weight list result ≡ 0 }
{
    Move::Asks(Asking {
        ask: Ask::Get {
            obj: probe.obj,
            key: Key::Sym(ITERATOR),
        },
        wait: Wait::Value(ValueWait::UnionProbe(probe)),
    })
}

/// The member that a value of this class picks where it has no method `@iterator`.
fn later_member<'t>(tables: &Tables, members: &'t IdlTypes, class: Class) -> Option<&'t IdlType>
    ensures { (to_plain : TypeTerm → Value → Talk) (value : Value) → without_iterator to_plain (packed (type_terms members.now)) value (pick_member_of (defs_term tables.now.defs) (packed (type_terms members.now)) class true) ≡ to_member to_plain (option_map (λ t. unannotated (type_term t.now)) result) value }
{
    match pick(tables, members, class, true) {
        Pick::Entry(place) => member_at(members, place),
        Pick::Probe(_) => None,
        Pick::Refuse => None,
    }
}

/// A copy of a type, if there is one.
///
/// # Errors
///
/// `AllocError` where there is no memory.
fn copy_of(alloc: Global, ty: Option<&IdlType>) -> Result<Option<IdlType>, AllocError>
    ensures whole { IfOk result (λ copy. option_map type_term copy ≡ option_map (λ t. type_term t.now) ty.entry) }
    ensures unannotated { IfOk result (λ copy. option_map (λ t. unannotated (type_term t)) copy ≡ option_map (λ t. unannotated (type_term t.now)) ty.entry) }
{
    match ty {
        None => Ok(None),
        Some(ty) => Ok(Some(ty.copy(alloc)?)),
    }
}

/// The move after the method `@iterator` of an object was read.
///
/// # Errors
///
/// `AllocError` where there is no memory.
pub(crate) fn probed(
    alloc: Global,
    probe: Box<UnionProbe>,
    found: Value,
) -> Result<Move, AllocError>
    ensures { IfOk result (λ m. (list : DefsTerm) → move_dialog list m ≡ union_to list probe.value found) }
{
    match found {
        Value::Undefined => without_method(alloc, Box::into_inner(probe)),
        Value::Null => without_method(alloc, Box::into_inner(probe)),
        Value::Obj(method) => match method.shape {
            Shape::Callable => Ok(from_method(Box::into_inner(probe), method)),
            Shape::Plain | Shape::Platform(_) => Ok(throws(Code::NotCallable)),
        },
        _ => Ok(throws(Code::NotCallable)),
    }
}

/// The move where there is no such method: the later members are tried.
///
/// # Errors
///
/// `AllocError` where there is no memory.
fn without_method(alloc: Global, probe: UnionProbe) -> Result<Move, AllocError>
    ensures { IfOk result (λ m. (list : DefsTerm) → move_dialog list m ≡ to_member (convert_plain built_today list) (option_map (λ t. unannotated (type_term t)) probe.otherwise) (Value.Obj probe.obj)) }
{
    let value = Value::Obj(probe.obj);
    match &probe.otherwise {
        Some(member) => to_unannotated(alloc, member, value),
        None => Ok(throws(Code::Union)),
    }
}

/// The move to the sequence that is made from an object by its method.
fn from_method(probe: UnionProbe, method: ObjRef) -> Move
    ensures { (list : DefsTerm) → move_dialog list result ≡ member_from probe.obj method (option_map type_term probe.element) }
{
    let UnionProbe {
        obj,
        element,
        otherwise: _,
    } = probe;
    match element {
        Some(element) => Move::Goes(Job::SequenceFrom(Iterable {
            element,
            obj,
            method,
        })),
        None => throws(Code::Union),
    }
}
