//! Values of the script to records.

ghost use Rattle.std.specs.Prelude.{◌≡◌, ◌≤◌, ◌<◌, ◌+◌, ◌*◌, [], ◌∷◌, length, IfNone, IfOk, IfSome};
ghost use Rattle.widl_idl.specs.DefinitionTerms.{DefsTerm};
ghost use Rattle.widl_idl.specs.Terms.{type_term};
ghost use Rattle.widl_value.specs.IdlTerms.{StringValue, idl_term};
ghost use Rattle.widl_steps.specs.AskTerms.{answer_term};
ghost use Rattle.widl_steps.specs.Records.{entries, flags_in, is_enumerable, key_value, keys_in, to_record};
ghost use Rattle.widl_steps.specs.Tasks.{Gives};
ghost use Rattle.widl_convert.specs.Frames.{after, entries_in, enumerable_to, idl_to, keys_left, move_dialog, named_to, property_to};
ghost use Rattle.widl_convert.specs.Loads.{conversion_load, entry_load, idl_frame_load, made_entries_load, patience, value_load, weight};

use crate::convert::{gives, throws};
use crate::entry_map::EntryMap;
use crate::frames::{Frame, IdlFrame};
use crate::jobs::Job;
use crate::moves::{Asking, Move};
use crate::waits::{ValueWait, Wait};
use std::alloc::{AllocError, Global};
use widl_idl::{IdlType, TextKind};
use widl_steps::{Answer, Ask};
use widl_text::{Key, Units};
use widl_trace::Code;
use widl_value::{IdlValue, Keys, ObjRef, Value};

/// An object of whose properties a record is made.
#[derive(Drop)]
pub struct Recorded {
    /// The string type of the keys.
    pub kind: TextKind,
    /// The type of the values.
    pub ty: IdlType,
    /// The object.
    pub obj: ObjRef,
}

/// The own properties of an object on their way to a record, as far as they have come.
#[derive(Drop)]
pub struct Properties {
    /// The object, with the types.
    pub of: Recorded,
    /// Its keys. In the place of one that was taken stands another.
    pub keys: Keys,
    /// The place of the next key.
    pub next: usize,
    /// The entries of those before it.
    pub made: EntryMap,
}

/// An own property that was taken, with those that are left.
#[derive(Drop)]
pub struct Property {
    /// Those that are left.
    pub left: Box<Properties>,
    /// The key of this one.
    pub key: Key,
}

/// A property that has the key of its entry, with those that are left.
#[derive(Drop)]
pub struct NamedProperty {
    /// Those that are left.
    pub left: Box<Properties>,
    /// The key of the entry.
    pub name: Units,
}

/// The first move of a value's conversion to a record with keys of a string type and values of a type.
///
/// # Errors
///
/// `AllocError` where there is no memory.
pub(crate) fn to_record(
    alloc: Global,
    kind: TextKind,
    ty: &IdlType,
    value: Value,
) -> Result<Move, AllocError>
    ensures dialog { IfOk result (λ m. (list : DefsTerm) → move_dialog list m ≡ to_record kind (type_term ty.now) value) }
    ensures weight { IfOk result (λ m. (list : DefsTerm) → weight list m ≤ conversion_load) }
{
    match value {
        Value::Obj(obj) => {
            let ty = ty.copy(alloc)?;
            Ok(Move::Asks(Asking {
                ask: Ask::OwnKeys(obj),
                wait: Wait::Keys(Recorded { kind, ty, obj }),
            }))
        }
        _ => Ok(throws(Code::NotObject)),
    }
}

/// The move with the own keys of an object.
///
/// # Errors
///
/// `AllocError` where there is no memory.
pub(crate) fn with_keys(alloc: Global, of: Recorded, answer: Answer) -> Result<Move, AllocError>
    ensures dialog { IfOk result (λ m. (list : DefsTerm) → move_dialog list m ≡ after list (Wait.Keys of) (answer_term answer)) }
    ensures weight { IfOk result (λ m. (list : DefsTerm) → weight list m < patience (Wait.Keys of)) }
{
    let properties = Properties {
        of,
        keys: keys_in(alloc, answer),
        next: 0,
        made: EntryMap::new(alloc),
    };
    Ok(Move::Goes(Job::Entries(Box::new(alloc, properties)?)))
}

/// The keys that an answer has.
fn keys_in(alloc: Global, answer: Answer) -> Keys
    ensures { result ≡ keys_in (answer_term answer) }
{
    match answer {
        Answer::Keys(keys) => keys,
        _ => Keys::new(alloc),
    }
}

/// The move to the next property: whether it is enumerable is asked.
///
/// # Errors
///
/// `AllocError` where there is no memory.
pub(crate) fn entries(alloc: Global, properties: Box<Properties>) -> Result<Move, AllocError>
    ensures dialog { IfOk result (λ m. (list : DefsTerm) → move_dialog list m ≡ entries properties.value.of.kind (type_term properties.value.of.ty) properties.value.of.obj (keys_left properties.value) (entries_in properties.value.made)) }
    ensures weight { IfOk result (λ m. (list : DefsTerm) → weight list m ≤ entry_load * length (keys_left properties.value) + made_entries_load (entries_in properties.value.made)) }
{
    let mut left = properties;
    match take_key(&mut left) {
        None => finished(alloc, Box::into_inner(left)),
        Some(key) => own(left, key),
    }
}

/// Takes the next key, if there is one.
fn take_key(properties: &mut Properties) -> Option<Key>
    ensures some { IfSome result (λ key. keys_left properties.old ≡ key ∷ keys_left properties.new) }
    ensures none { IfNone result (keys_left properties.old ≡ []) }
    ensures of { properties.new.of ≡ properties.old.of }
    ensures made { properties.new.made ≡ properties.old.made }
{
    let next = properties.next;
    if next < properties.keys.len() {
        properties.next = next + 1;
        Some(properties.keys.replace(next, Key::Sym(0)))
    } else {
        None
    }
}

/// The ask for the flags of a property.
fn own(left: Box<Properties>, key: Key) -> Result<Move, AllocError>
    ensures dialog { IfOk result (λ m. (list : DefsTerm) → move_dialog list m ≡ entries left.value.of.kind (type_term left.value.of.ty) left.value.of.obj (key ∷ keys_left left.value) (entries_in left.value.made)) }
    ensures weight { IfOk result (λ m. (list : DefsTerm) → weight list m ≡ entry_load * length (key ∷ keys_left left.value) + made_entries_load (entries_in left.value.made)) }
{
    let asked = key.copy()?;
    Ok(Move::Asks(Asking {
        ask: Ask::Own {
            obj: left.of.obj,
            key: asked,
        },
        wait: Wait::Own(Property { left, key }),
    }))
}

/// The end with a record.
fn finished(alloc: Global, properties: Properties) -> Result<Move, AllocError>
    ensures dialog { IfOk result (λ m. (list : DefsTerm) → move_dialog list m ≡ entries properties.of.kind (type_term properties.of.ty) properties.of.obj [] (entries_in properties.made)) }
    ensures weight { IfOk result (λ m. (list : DefsTerm) → weight list m ≡ made_entries_load (entries_in properties.made)) }
{
    let entries = properties.made.into_entries(alloc)?;
    Ok(gives(IdlValue::Entries(entries)))
}

/// The move with the flags of a property: it is passed over where it isn't there any more or isn't
/// enumerable.
///
/// # Errors
///
/// `AllocError` where there is no memory.
pub(crate) fn with_own(property: Property, answer: Answer) -> Result<Move, AllocError>
    ensures dialog { IfOk result (λ m. (list : DefsTerm) → move_dialog list m ≡ after list (Wait.Own property) (answer_term answer)) }
    ensures weight { IfOk result (λ m. (list : DefsTerm) → weight list m < patience (Wait.Own property)) }
{
    if is_enumerable(answer) {
        with_enumerable(property)
    } else {
        Ok(Move::Goes(Job::Entries(property.left)))
    }
}

/// Whether an answer has the flags of an enumerable property.
fn is_enumerable(answer: Answer) -> bool
    ensures { result ≡ is_enumerable (flags_in (answer_term answer)) }
{
    match answer {
        Answer::Own(Some(flags)) => flags.enumerable,
        _ => false,
    }
}

/// The move to an enumerable property: its key becomes the key of an entry.
fn with_enumerable(property: Property) -> Result<Move, AllocError>
    ensures dialog { IfOk result (λ m. (list : DefsTerm) → move_dialog list m ≡ enumerable_to property) }
    ensures weight { IfOk result (λ m. (list : DefsTerm) → weight list m < patience (Wait.Own property)) }
{
    let ty = IdlType::Text {
        kind: property.left.of.kind,
        null_empty: false,
    };
    let value = key_value(&property.key)?;
    Ok(Move::Steps(Frame::Key(property), Job::Convert { ty, value }))
}

/// A key as a value of the script.
fn key_value(key: &Key) -> Result<Value, AllocError>
    ensures { IfOk result (λ value. value ≡ key_value key.now) }
{
    match key {
        Key::Name(name) => Ok(Value::Str(name.copy()?)),
        Key::Sym(number) => Ok(Value::Sym(*number)),
    }
}

/// The move after the key of an entry: the property is read, by its own key.
pub(crate) fn with_name(property: Property, value: IdlValue) -> Move
    ensures dialog { (list : DefsTerm) → move_dialog list result ≡ named_to property (Gives (idl_term value)) }
    ensures weight { (list : DefsTerm) → weight list result ≤ value_load (idl_term value) }
{
    match value {
        IdlValue::Text(name) => read(property, name),
        value => gives(value),
    }
}

/// The read of a property that has the key of its entry.
fn read(property: Property, name: Units) -> Move
    ensures dialog { (list : DefsTerm) → move_dialog list result ≡ named_to property (Gives (StringValue name)) }
    ensures weight { (list : DefsTerm) → weight list result ≡ 0 }
{
    let Property { left, key } = property;
    Move::Asks(Asking {
        ask: Ask::Get {
            obj: left.of.obj,
            key,
        },
        wait: Wait::Value(ValueWait::Property(NamedProperty { left, name })),
    })
}

/// The move with the value of a property, which becomes that of the entry.
///
/// # Errors
///
/// `AllocError` where there is no memory.
pub(crate) fn with_value(
    alloc: Global,
    property: NamedProperty,
    value: Value,
) -> Result<Move, AllocError>
    ensures { IfOk result (λ m. (list : DefsTerm) → move_dialog list m ≡ property_to property value) }
{
    let ty = property.left.of.ty.copy(alloc)?;
    Ok(Move::Steps(
        Frame::Idl(IdlFrame::Property(property)),
        Job::Convert { ty, value },
    ))
}

/// The move after the value of an entry: the next property.
///
/// # Errors
///
/// `AllocError` where there is no memory.
#[tactic(auto, using(crate::proofs::GivenLoads::entry_put))]
pub(crate) fn after_entry(property: NamedProperty, value: IdlValue) -> Result<Move, AllocError>
    ensures dialog { IfOk result (λ m. (list : DefsTerm) → move_dialog list m ≡ idl_to list (IdlFrame.Property property) (idl_term value)) }
    ensures weight { IfOk result (λ m. (list : DefsTerm) → weight list m < idl_frame_load list (IdlFrame.Property property) + value_load (idl_term value)) }
{
    let NamedProperty { left, name } = property;
    let mut left = left;
    left.made.set(name, value)?;
    Ok(Move::Goes(Job::Entries(left)))
}
