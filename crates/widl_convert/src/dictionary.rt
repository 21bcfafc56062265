//! Values of the script to dictionaries.

ghost use Rattle.std.specs.Prelude.{◌≡◌, ◌≤◌, ◌<◌, ◌+◌, [], ◌∷◌, option_map, slice_get, IfNone, IfOk, IfSome};
ghost use Rattle.std.specs.Option.{option_and_then};
ghost use Rattle.widl_dialog.specs.Dialog.{End, Steps};
ghost use Rattle.widl_idl.specs.DefinitionTerms.{DefsTerm, defs_term, member_term};
ghost use Rattle.widl_tables.specs.MemberOrder.{members_in_order};
ghost use Rattle.widl_value.specs.IdlTerms.{idl_term, member_terms};
ghost use Rattle.widl_steps.specs.Built.{built_today};
ghost use Rattle.widl_steps.specs.Defaults.{default};
ghost use Rattle.widl_steps.specs.Dictionaries.{dictionary_of, member, member_given, member_value, members, to_dictionary, undefined_member};
ghost use Rattle.widl_steps.specs.Scalars.{convert};
ghost use Rattle.widl_steps.specs.Tasks.{Default, Members};
ghost use Rattle.widl_convert.specs.Frames.{idl_to, move_dialog};
ghost use Rattle.widl_convert.specs.Loads.{conversion_load, default_load, idl_frame_load, made_members_load, type_load, value_load, weight};
ghost use Rattle.widl_convert.specs.Members.{declared_at, member_at, members_left};
ghost use Rattle.widl_convert.specs.Stack.{Leads};

use crate::convert::{convert_at_once, gives, throws};
use crate::defaults::default_of;
use crate::frames::{Frame, IdlFrame};
use crate::jobs::{Filling, Job};
use crate::members_left::{MemberPlace, MembersLeft};
use crate::moves::{Asking, Move};
use crate::waits::{MemberWait, ValueWait, Wait};
use std::alloc::{AllocError, Global};
use widl_idl::{Defs, Member};
use widl_steps::Ask;
use widl_tables::Tables;
use widl_text::{Key, Units};
use widl_trace::Code;
use widl_value::{IdlMembers, IdlValue, ObjRef, Value};

/// The first move of a value's conversion to a dictionary.
pub(crate) fn to_dictionary(dictionary: u32, value: Value) -> Move
    ensures dialog { (list : DefsTerm) → move_dialog list result ≡ to_dictionary list dictionary value }
    ensures weight { (list : DefsTerm) → weight list result ≤ conversion_load }
{
    match value {
        Value::Undefined => dictionary_of(dictionary, None),
        Value::Null => dictionary_of(dictionary, None),
        Value::Obj(obj) => dictionary_of(dictionary, Some(obj)),
        _ => throws(Code::Dictionary),
    }
}

/// The move to a dictionary's members, of an object or of none.
fn dictionary_of(dictionary: u32, object: Option<ObjRef>) -> Move
    ensures dialog { (list : DefsTerm) → move_dialog list result ≡ dictionary_of list dictionary object }
    ensures weight { (list : DefsTerm) → weight list result ≡ 1 }
{
    Move::Goes(Job::Dictionary { dictionary, object })
}

/// The move to the first of a dictionary's members.
///
/// # Errors
///
/// `AllocError` where there is no memory.
pub(crate) fn first_member(
    alloc: Global,
    tables: &Tables,
    dictionary: u32,
    object: Option<ObjRef>,
) -> Result<Move, AllocError>
    ensures dialog { IfOk result (λ m. move_dialog (defs_term tables.now.defs) m ≡ members dictionary object (members_in_order (defs_term tables.now.defs) dictionary) []) }
    ensures weight { IfOk result (λ m. weight (defs_term tables.now.defs) m ≤ 0) }
{
    let left = MembersLeft::of(alloc, tables, dictionary)?;
    let filling = Filling {
        dictionary,
        object,
        left,
        made: IdlMembers::new(alloc),
    };
    next_member(alloc, tables, Box::new(alloc, filling)?)
}

/// The move to the next of a dictionary's members.
///
/// # Errors
///
/// `AllocError` where there is no memory.
pub(crate) fn next_member(
    alloc: Global,
    tables: &Tables,
    filling: Box<Filling>,
) -> Result<Move, AllocError>
    ensures dialog { IfOk result (λ m. move_dialog (defs_term tables.now.defs) m ≡ members filling.value.dictionary filling.value.object (members_left (defs_term tables.now.defs) filling.value.left) (member_terms filling.value.made)) }
    ensures weight { IfOk result (λ m. weight (defs_term tables.now.defs) m ≤ made_members_load (member_terms filling.value.made)) }
{
    let mut filling = filling;
    match take_member(&mut filling, tables) {
        None => Ok(finished(Box::into_inner(filling))),
        Some(at) => read_member(alloc, tables, MemberWait { at, filling }),
    }
}

/// Takes the next member.
fn take_member(filling: &mut Filling, tables: &Tables) -> Option<MemberPlace>
    ensures none { IfNone result (members_left (defs_term tables.now.defs) filling.old.left ≡ []) }
    ensures some { IfSome result (λ at. members_left (defs_term tables.now.defs) filling.old.left ≡ declared_at (defs_term tables.now.defs) at ∷ members_left (defs_term tables.now.defs) filling.new.left) }
    ensures dictionary { filling.new.dictionary ≡ filling.old.dictionary }
    ensures object { filling.new.object ≡ filling.old.object }
    ensures made { filling.new.made ≡ filling.old.made }
{
    filling.left.next(tables)
}

/// The end with a dictionary.
fn finished(filling: Filling) -> Move
    ensures dialog { (list : DefsTerm) → move_dialog list result ≡ members filling.dictionary filling.object [] (member_terms filling.made) }
    ensures weight { (list : DefsTerm) → weight list result ≡ made_members_load (member_terms filling.made) }
{
    gives(IdlValue::Dict {
        of: filling.dictionary,
        members: filling.made,
    })
}

/// The ask for a member: for its value of the object, or for the unit that it takes where there is none.
///
/// # Errors
///
/// `AllocError` where there is no memory.
fn read_member(alloc: Global, tables: &Tables, wait: MemberWait) -> Result<Move, AllocError>
    ensures dialog { IfOk result (λ m. move_dialog (defs_term tables.now.defs) m ≡ member wait.filling.value.dictionary wait.filling.value.object (declared_at (defs_term tables.now.defs) wait.at) (members_left (defs_term tables.now.defs) wait.filling.value.left) (member_terms wait.filling.value.made)) }
    ensures weight { IfOk result (λ m. weight (defs_term tables.now.defs) m ≡ 0) }
{
    match wait.filling.object {
        None => Ok(Move::Asks(Asking {
            ask: Ask::Unit,
            wait: Wait::Unit(wait),
        })),
        Some(obj) => {
            let name = name_of(alloc, tables, wait.at)?;
            Ok(Move::Asks(Asking {
                ask: Ask::Get {
                    obj,
                    key: Key::Name(name),
                },
                wait: Wait::Value(ValueWait::Member(wait)),
            }))
        }
    }
}

/// The name of a member.
///
/// # Errors
///
/// `AllocError` where there is no memory.
fn name_of(alloc: Global, tables: &Tables, at: MemberPlace) -> Result<Units, AllocError>
    ensures { IfOk result (λ name. name ≡ (member_at (defs_term tables.now.defs) at).name) }
{
    match declared_member(tables.list().defs(), at) {
        None => Ok(Units::new(alloc)),
        Some(member) => member.name.copy(),
    }
}

/// The member at a place.
pub(crate) fn declared_member(defs: &Defs, at: MemberPlace) -> Option<&Member>
    ensures { option_map (λ m. member_term m.now) result ≡ option_and_then (λ d. slice_get d.members at.number) (slice_get (defs_term defs.now).dicts at.dictionary) }
{
    match defs.dicts.as_slice().get(at.dictionary as usize) {
        None => None,
        Some(dict) => dict.members.as_slice().get(at.number as usize),
    }
}

/// The move after the value of a member. Undefined gives way to the default value.
pub(crate) fn with_member_value(tables: &Tables, wait: MemberWait, value: Value) -> Move
    ensures { move_dialog (defs_term tables.now.defs) result ≡ member_value wait.filling.value.dictionary wait.filling.value.object (declared_at (defs_term tables.now.defs) wait.at) (members_left (defs_term tables.now.defs) wait.filling.value.left) (member_terms wait.filling.value.made) value }
{
    match value {
        Value::Undefined => undefined_member(tables, wait),
        value => {
            let at = wait.at;
            Move::Steps(
                Frame::Idl(IdlFrame::Member(wait)),
                Job::Member { at, value },
            )
        }
    }
}

/// The move where a member is undefined: to its default value. Without one a required member throws, and
/// any other is left out.
pub(crate) fn undefined_member(tables: &Tables, wait: MemberWait) -> Move
    ensures { move_dialog (defs_term tables.now.defs) result ≡ undefined_member wait.filling.value.dictionary wait.filling.value.object (declared_at (defs_term tables.now.defs) wait.at) (members_left (defs_term tables.now.defs) wait.filling.value.left) (member_terms wait.filling.value.made) (member_at (defs_term tables.now.defs) wait.at).value }
{
    match declared_member(tables.list().defs(), wait.at) {
        None => leave_out(wait),
        Some(member) => match &member.value {
            Some(_) => by_default(wait),
            None => if member.required {
                throws(Code::Required)
            } else {
                leave_out(wait)
            },
        },
    }
}

/// The move to the default value of a member.
fn by_default(wait: MemberWait) -> Move
    ensures { (list : DefsTerm) → move_dialog list result ≡ Steps (Default (member_at list wait.at).ty (member_at list wait.at).value) (member_given wait.filling.value.dictionary wait.filling.value.object (declared_at list wait.at) (members_left list wait.filling.value.left) (member_terms wait.filling.value.made)) }
{
    let at = wait.at;
    Move::Steps(Frame::Idl(IdlFrame::Member(wait)), Job::MemberDefault(at))
}

/// The move to the next member, without this one.
fn leave_out(wait: MemberWait) -> Move
    ensures { (list : DefsTerm) → move_dialog list result ≡ Steps (Members wait.filling.value.dictionary wait.filling.value.object (members_left list wait.filling.value.left) (member_terms wait.filling.value.made)) End }
{
    Move::Goes(Job::Members(wait.filling))
}

/// The first move of a value's conversion to the type of a member.
///
/// # Errors
///
/// `AllocError` where there is no memory.
#[tactic(auto, using(crate::proofs::Suspending::led))]
pub(crate) fn convert_member(
    alloc: Global,
    tables: &Tables,
    at: MemberPlace,
    value: Value,
) -> Result<Move, AllocError>
    ensures leads { IfOk result (λ m. Leads (defs_term tables.now.defs) (convert built_today (defs_term tables.now.defs) (member_at (defs_term tables.now.defs) at).ty value) (move_dialog (defs_term tables.now.defs) m)) }
    ensures weight { IfOk result (λ m. weight (defs_term tables.now.defs) m ≤ type_load (member_at (defs_term tables.now.defs) at).ty) }
{
    match declared_member(tables.list().defs(), at) {
        None => Ok(gives(IdlValue::Any(value))),
        Some(member) => convert_at_once(alloc, tables, &member.ty, value),
    }
}

/// The first move to the default value of a member.
///
/// # Errors
///
/// `AllocError` where there is no memory.
pub(crate) fn member_default(
    alloc: Global,
    tables: &Tables,
    at: MemberPlace,
) -> Result<Move, AllocError>
    ensures dialog { IfOk result (λ m. move_dialog (defs_term tables.now.defs) m ≡ default (defs_term tables.now.defs) (member_at (defs_term tables.now.defs) at).ty (member_at (defs_term tables.now.defs) at).value) }
    ensures weight { IfOk result (λ m. weight (defs_term tables.now.defs) m ≤ default_load) }
{
    match declared_member(tables.list().defs(), at) {
        None => Ok(gives(IdlValue::Missing)),
        Some(member) => default_of(alloc, tables, &member.ty, &member.value),
    }
}

/// The move after the IDL value of a member.
///
/// # Errors
///
/// `AllocError` where there is no memory.
#[tactic(auto, using(crate::proofs::GivenLoads::member_put))]
pub(crate) fn with_member(wait: MemberWait, value: IdlValue) -> Result<Move, AllocError>
    ensures dialog { IfOk result (λ m. (list : DefsTerm) → move_dialog list m ≡ idl_to list (IdlFrame.Member wait) (idl_term value)) }
    ensures weight { IfOk result (λ m. (list : DefsTerm) → weight list m < idl_frame_load list (IdlFrame.Member wait) + value_load (idl_term value)) }
{
    let MemberWait { at, filling } = wait;
    let mut filling = filling;
    filling.made.push((at.dictionary, at.number, value))?;
    Ok(Move::Goes(Job::Members(filling)))
}
