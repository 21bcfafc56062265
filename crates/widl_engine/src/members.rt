//! Members.

ghost use Rattle.std.specs.Prelude.{◌≡◌, IfOk, Option, Some, None};
ghost use Rattle.widl_text.specs.declared.key.Key.{Key};
ghost use Rattle.widl_value.specs.declared.object.ObjRef.{ObjRef};
ghost use Rattle.widl_script_tree.specs.Tables.{Tables, expression_tree};
ghost use Rattle.widl_dialog.specs.Dialog.{End, Steps};
ghost use Rattle.widl_runs.specs.Jobs.{Computed, DefineAccessor, Doing, Program};
ghost use Rattle.widl_runs.specs.Members.{define_accessor, define_member, delete_member, accessor_flags, key_of, plain_flags, read_member, set_member, tested, tests_parts, text_key, uses, with_getter};
ghost use Rattle.std.specs.Prelude.{option_map};
ghost use Rattle.widl_engine.specs.Frames.{key_part_of, member_use_of, move_of};
ghost use Rattle.widl_engine.specs.Tested.{tested_by};

use crate::calls::callable;
use crate::due::Due;
use crate::errors::fails;
use crate::frames::{Frame, ValueFrame};
use crate::jobs::{AccessorParts, Job, KeyPart, Member, MemberUse};
use crate::moves::{Move, reaches};
use crate::statements::evaluates;
use std::alloc::{AllocError, Global};
use widl_scalar::{ValueText, text_in_value};
use widl_script_tree::Script;
use widl_store::Prop;
use widl_text::Key;
use widl_trace::Code;
use widl_value::{Flags, ObjRef, Value};

/// The flags of an accessor that a script defines.
const ACCESSOR_FLAGS: Flags = Flags {
    writable: false,
    enumerable: true,
    configurable: true,
};

/// What the tests of a member give.
#[derive(Drop)]
pub enum Tested {
    /// It is one of this object, with this key.
    Member(ObjRef, Key),
    /// A TypeError is thrown.
    Refused(Code),
    /// The run stops: members of other values aren't run.
    Stops,
}

/// What a member is used for, once the value before it and its key are there.
#[inline(always)]
pub(crate) fn uses(
    alloc: Global,
    script: &Script,
    what: MemberUse,
    of: Value,
    key: KeyPart,
) -> Result<Move, AllocError>
    ensures { IfOk result (λ m. (p : Program) → move_of p script.now m ≡ uses (member_use_of script.now what) of (key_part_of script.now key)) }
{
    match what {
        MemberUse::Read => Ok(Move::Goes(Job::Read { of, key })),
        MemberUse::Call(args) => {
            let this = of.copy()?;
            let frame = ValueFrame::Calls { this, args };
            Ok(Move::Steps(Frame::Value(frame), Job::Read { of, key }))
        }
        MemberUse::Set(place) => {
            let member = Box::new(alloc, Member { of, key })?;
            Ok(evaluates(ValueFrame::Sets(member), place))
        }
        MemberUse::Define { value, hidden } => {
            let member = Box::new(alloc, Member { of, key })?;
            Ok(evaluates(ValueFrame::Defines { member, hidden }, value))
        }
        MemberUse::Accessor { getter, setter } => {
            let member = Box::new(alloc, Member { of, key })?;
            Ok(evaluates(ValueFrame::Getter { member, setter }, getter))
        }
        MemberUse::Delete => Ok(Move::Goes(Job::Delete { of, key })),
    }
}

/// A computed key.
#[inline(always)]
pub(crate) fn computed(alloc: Global, value: Value) -> Result<KeyPart, AllocError>
    ensures { IfOk result (λ k. (s : Tables) → key_part_of s k ≡ Computed value) }
{
    Ok(KeyPart::Computed(Box::new(alloc, value)?))
}

/// A member is defined by these parts.
#[inline(always)]
pub(crate) fn defines_accessor(
    alloc: Global,
    member: Box<Member>,
    getter: Value,
    setter: Option<Value>,
) -> Result<Move, AllocError>
    ensures { IfOk result (λ m. (p : Program) (s : Tables) → move_of p s m ≡ Steps (DefineAccessor member.value.of (key_part_of s member.value.key) getter setter) End) }
{
    let parts = Box::new(alloc, AccessorParts { getter, setter })?;
    Ok(Move::Goes(Job::Accessor { member, parts }))
}

/// The setter comes after the getter, where there is one.
#[inline(always)]
pub(crate) fn with_getter(
    alloc: Global,
    script: &Script,
    member: Box<Member>,
    setter: Option<u32>,
    getter: Value,
) -> Result<Move, AllocError>
    ensures { IfOk result (λ m. (p : Program) → move_of p script.now m ≡ with_getter member.value.of (key_part_of script.now member.value.key) (option_map (expression_tree script.now) setter) getter) }
{
    match setter {
        None => defines_accessor(alloc, member, getter, None),
        Some(place) => Ok(evaluates(ValueFrame::Setter { member, getter }, place)),
    }
}

/// The key that a text is.
#[inline(always)]
fn text_key(text: ValueText) -> Option<Key>
    ensures { result ≡ text_key text }
{
    match text {
        ValueText::Text(text) => Some(Key::Name(text)),
        ValueText::Symbol => None,
        ValueText::Object => None,
    }
}

/// The key that a value is.
#[inline(always)]
fn value_key(alloc: Global, value: Value) -> Result<Option<Key>, AllocError>
    ensures { IfOk result (λ k. k ≡ key_of (Computed value)) }
{
    match value {
        Value::Sym(id) => Ok(Some(Key::Sym(id))),
        Value::Str(text) => Ok(Some(Key::Name(text))),
        other => Ok(text_key(text_in_value(alloc, &other)?)),
    }
}

/// The key of a member.
#[inline(always)]
fn key_of(alloc: Global, script: &Script, key: KeyPart) -> Result<Option<Key>, AllocError>
    ensures { IfOk result (λ k. k ≡ key_of (key_part_of script.now key)) }
{
    match key {
        KeyPart::Named(name) => Ok(Some(Key::Name(script.name(name).copy()?))),
        KeyPart::Computed(value) => value_key(alloc, Box::into_inner(value)),
    }
}

/// The tests of a member: the value before it, then the key.
#[inline(always)]
fn test_member(
    alloc: Global,
    script: &Script,
    of: Value,
    key: KeyPart,
) -> Result<Tested, AllocError>
    ensures { IfOk result (λ t. (k : ObjRef → Key → Doing) → tested k of (key_part_of script.now key) ≡ tested_by k t) }
{
    match of {
        Value::Undefined | Value::Null => Ok(Tested::Refused(Code::Member)),
        Value::Obj(obj) => match key_of(alloc, script, key)? {
            None => Ok(Tested::Refused(Code::Key)),
            Some(key) => Ok(Tested::Member(obj, key)),
        },
        _ => Ok(Tested::Stops),
    }
}

/// The tests of a member in a box.
#[inline(always)]
fn test_boxed(alloc: Global, script: &Script, member: Box<Member>) -> Result<Tested, AllocError>
    ensures { IfOk result (λ t. (k : ObjRef → Key → Doing) → tested k member.value.of (key_part_of script.now member.value.key) ≡ tested_by k t) }
{
    let Member { of, key } = Box::into_inner(member);
    test_member(alloc, script, of, key)
}

/// A member is read.
#[inline(always)]
pub(crate) fn read_member(
    alloc: Global,
    script: &Script,
    of: Value,
    key: KeyPart,
) -> Result<Move, AllocError>
    ensures { IfOk result (λ m. (p : Program) → move_of p script.now m ≡ read_member of (key_part_of script.now key)) }
{
    match test_member(alloc, script, of, key)? {
        Tested::Member(obj, key) => Ok(Move::Acts(Due::Find { obj, key })),
        Tested::Refused(code) => Ok(fails(code)),
        Tested::Stops => Ok(reaches(4)),
    }
}

/// A member is set.
#[inline(always)]
pub(crate) fn set_member(
    alloc: Global,
    script: &Script,
    member: Box<Member>,
    value: Value,
) -> Result<Move, AllocError>
    ensures { IfOk result (λ m. (p : Program) → move_of p script.now m ≡ set_member member.value.of (key_part_of script.now member.value.key) value) }
{
    match test_boxed(alloc, script, member)? {
        Tested::Member(obj, key) => Ok(Move::Acts(Due::Put { obj, key, value })),
        Tested::Refused(code) => Ok(fails(code)),
        Tested::Stops => Ok(reaches(4)),
    }
}

/// The flags of a property that a script defines.
#[inline(always)]
fn plain_flags(hidden: bool) -> Flags
    ensures { result ≡ plain_flags hidden }
{
    Flags {
        writable: true,
        enumerable: !hidden,
        configurable: true,
    }
}

/// A member is defined.
#[inline(always)]
pub(crate) fn define_member(
    alloc: Global,
    script: &Script,
    member: Box<Member>,
    value: Value,
    hidden: bool,
) -> Result<Move, AllocError>
    ensures { IfOk result (λ m. (p : Program) → move_of p script.now m ≡ define_member member.value.of (key_part_of script.now member.value.key) value hidden) }
{
    match test_boxed(alloc, script, member)? {
        Tested::Member(obj, key) => Ok(Move::Acts(Due::Define {
            obj,
            key,
            prop: Prop::Plain {
                value,
                flags: plain_flags(hidden),
            },
        })),
        Tested::Refused(code) => Ok(fails(code)),
        Tested::Stops => Ok(reaches(4)),
    }
}

/// An accessor with these parts.
#[inline(always)]
fn accessor(obj: ObjRef, key: Key, get: ObjRef, set: Option<ObjRef>) -> Move
    ensures { result ≡ Move.Acts (Due.Define obj key (Prop.Accessor (Some get) set accessor_flags)) }
{
    Move::Acts(Due::Define {
        obj,
        key,
        prop: Prop::Accessor {
            get: Some(get),
            set,
            flags: ACCESSOR_FLAGS,
        },
    })
}

/// The parts of an accessor are tested, the getter first.
#[inline(always)]
fn tests_parts(obj: ObjRef, key: Key, parts: Box<AccessorParts>) -> Move
    ensures { (p : Program) (s : Tables) → move_of p s result ≡ tests_parts parts.value.getter parts.value.setter obj key }
{
    let AccessorParts { getter, setter } = Box::into_inner(parts);
    match callable(&getter) {
        None => fails(Code::NotCallable),
        Some(getter) => match setter {
            None => accessor(obj, key, getter, None),
            Some(setter) => match callable(&setter) {
                None => fails(Code::NotCallable),
                Some(setter) => accessor(obj, key, getter, Some(setter)),
            },
        },
    }
}

/// A member is defined as an accessor.
#[inline(always)]
pub(crate) fn define_accessor(
    alloc: Global,
    script: &Script,
    member: Box<Member>,
    parts: Box<AccessorParts>,
) -> Result<Move, AllocError>
    ensures { IfOk result (λ m. (p : Program) → move_of p script.now m ≡ define_accessor member.value.of (key_part_of script.now member.value.key) parts.value.getter parts.value.setter) }
{
    match test_boxed(alloc, script, member)? {
        Tested::Member(obj, key) => Ok(tests_parts(obj, key, parts)),
        Tested::Refused(code) => Ok(fails(code)),
        Tested::Stops => Ok(reaches(4)),
    }
}

/// A member is deleted.
#[inline(always)]
pub(crate) fn delete_member(
    alloc: Global,
    script: &Script,
    of: Value,
    key: KeyPart,
) -> Result<Move, AllocError>
    ensures { IfOk result (λ m. (p : Program) → move_of p script.now m ≡ delete_member of (key_part_of script.now key)) }
{
    match test_member(alloc, script, of, key)? {
        Tested::Member(obj, key) => Ok(Move::Acts(Due::Delete { obj, key })),
        Tested::Refused(code) => Ok(fails(code)),
        Tested::Stops => Ok(reaches(4)),
    }
}
