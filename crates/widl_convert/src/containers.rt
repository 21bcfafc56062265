//! Sequences, records and dictionaries on their way to script: their items are converted in order, then
//! a unit is taken for each, and then the array or the object is made.

ghost use Rattle.std.specs.Prelude.{◌≡◌, ◌≤◌, ◌<◌, ◌+◌, [], length, IfNone, IfOk, IfSome};
ghost use Rattle.std.specs.Option.{option_copied, unwrap_or};
ghost use Rattle.widl_dialog.specs.Dialog.{End, Steps};
ghost use Rattle.widl_idl.specs.DefinitionTerms.{DefsTerm, defs_term, dict_term};
ghost use Rattle.widl_trace.specs.IdlValueTexts.{member_name, member_name_in};
ghost use Rattle.widl_value.specs.IdlTerms.{DictionaryValue, RecordValue, SequenceValue, entry_terms, idl_term, idl_terms, member_terms, more_values, no_values, packed_entries, packed_members, packed_values};
ghost use Rattle.widl_steps.specs.Results.{entry_items, entry_names, member_items, member_names, out_items, out_units, properties, to_script};
ghost use Rattle.widl_steps.specs.Tasks.{OutItems, OutUnits};
ghost use Rattle.widl_convert.specs.Frames.{container_term, items_left, move_dialog, plain_to};
ghost use Rattle.widl_convert.specs.Loads.{items_load, made_entries_load, made_members_load, value_frame_load, weight};

use crate::frames::{Frame, ValueFrame};
use crate::jobs::Job;
use crate::moves::{Asking, Move};
use crate::waits::{ValueWait, Wait};
use std::alloc::{AllocError, Global};
use widl_idl::{Defs, Dict, IdlType, Texts};
use widl_steps::{Ask, ScriptEntries};
use widl_tables::Tables;
use widl_text::{Key, Units};
use widl_value::{IdlEntries, IdlMembers, IdlValue, IdlValues, Value, Values};

/// What is made of the items of a container.
#[derive(Drop)]
pub enum Container {
    /// An array of them.
    Array,
    /// An object with properties of these names.
    Object(Texts),
}

/// A container on its way to script, as far as its items have come.
#[derive(Drop)]
pub struct Outgoing {
    /// What is made of the items.
    pub container: Container,
    /// The items. In the place of one that was taken stands another.
    pub items: IdlValues,
    /// The place of the next item.
    pub next: usize,
    /// The values of those before it.
    pub made: Values,
}

impl Outgoing {
    /// Takes the next item.
    #[tactic(auto, using(crate::proofs::OutgoingItems::item_taken))]
    fn next_item(&mut self) -> Option<IdlValue>
        ensures container { self.new.container ≡ self.old.container }
        ensures made { self.new.made ≡ self.old.made }
        ensures none { IfNone result (items_left self.old ≡ no_values) }
        ensures some { IfSome result (λ value. items_left self.old ≡ more_values (idl_term value) (items_left self.new)) }
    {
        if self.next >= self.items.len() {
            return None;
        }
        let value = self.items.replace(self.next, IdlValue::Missing);
        self.next += 1;
        Some(value)
    }
}

/// A container all of whose items have come.
#[derive(Drop)]
pub struct Filled {
    /// How many units are left to be taken.
    pub left: usize,
    /// What is made of the values.
    pub container: Container,
    /// The values of its items.
    pub made: Values,
}

/// Names of properties, each with the item of the same place.
struct NamedItems {
    names: Texts,
    items: IdlValues,
}

/// The first move of a sequence's way to script.
///
/// # Errors
///
/// `AllocError` where there is no memory.
pub(crate) fn array_of(alloc: Global, values: IdlValues) -> Result<Move, AllocError>
    ensures dialog { IfOk result (λ m. (list : DefsTerm) → move_dialog list m ≡ to_script list (SequenceValue (packed_values (idl_terms values)))) }
    ensures weight { IfOk result (λ m. (list : DefsTerm) → weight list m ≤ 2 + items_load (packed_values (idl_terms values))) }
{
    container_of(alloc, Container::Array, values)
}

/// The first move of a record's way to script.
///
/// # Errors
///
/// `AllocError` where there is no memory.
pub(crate) fn object_of_entries(alloc: Global, entries: IdlEntries) -> Result<Move, AllocError>
    ensures dialog { IfOk result (λ m. (list : DefsTerm) → move_dialog list m ≡ to_script list (RecordValue (packed_entries (entry_terms entries)))) }
    ensures weight { IfOk result (λ m. (list : DefsTerm) → weight list m ≤ 2 + made_entries_load (entry_terms entries)) }
{
    let NamedItems { names, items } = named_entries(alloc, entries)?;
    container_of(alloc, Container::Object(names), items)
}

/// The first move of a dictionary's way to script, by the members that are present.
///
/// # Errors
///
/// `AllocError` where there is no memory.
pub(crate) fn object_of_members(
    alloc: Global,
    defs: &Defs,
    dictionary: u32,
    members: IdlMembers,
) -> Result<Move, AllocError>
    ensures dialog { IfOk result (λ m. move_dialog (defs_term defs.now) m ≡ to_script (defs_term defs.now) (DictionaryValue dictionary (packed_members (member_terms members)))) }
    ensures weight { IfOk result (λ m. (list : DefsTerm) → weight list m ≤ 2 + made_members_load (member_terms members)) }
{
    let NamedItems { names, items } = named_members(alloc, defs, members)?;
    container_of(alloc, Container::Object(names), items)
}

/// The move to the first item of a container.
///
/// # Errors
///
/// `AllocError` where there is no memory.
fn container_of(alloc: Global, container: Container, items: IdlValues) -> Result<Move, AllocError>
    ensures dialog { IfOk result (λ m. (list : DefsTerm) → move_dialog list m ≡ Steps (OutItems (container_term container) (packed_values (idl_terms items)) []) End) }
    ensures weight { IfOk result (λ m. (list : DefsTerm) → weight list m ≡ 2 + items_load (packed_values (idl_terms items))) }
{
    let outgoing = Outgoing {
        container,
        items,
        next: 0,
        made: Values::new(alloc),
    };
    Ok(Move::Goes(Job::OutItems(Box::new(alloc, outgoing)?)))
}

/// The keys of a record's entries, and their values.
///
/// # Errors
///
/// `AllocError` where there is no memory.
fn named_entries(alloc: Global, entries: IdlEntries) -> Result<NamedItems, AllocError>
    ensures names { IfOk result (λ named. named.names ≡ entry_names (packed_entries (entry_terms entries))) }
    ensures items { IfOk result (λ named. packed_values (idl_terms named.items) ≡ entry_items (packed_entries (entry_terms entries))) }
{
    let mut entries = entries;
    let mut names = Texts::new(alloc);
    let mut items = IdlValues::new(alloc);
    let mut place = 0;
    while place < entries.len() {
        let (name, value) = entries.replace(place, (Units::new(alloc), IdlValue::Missing));
        names.push(name)?;
        items.push(value)?;
        place += 1;
    }
    Ok(NamedItems { names, items })
}

/// The names of a dictionary's members, and their values.
///
/// # Errors
///
/// `AllocError` where there is no memory.
fn named_members(alloc: Global, defs: &Defs, members: IdlMembers) -> Result<NamedItems, AllocError>
    ensures names { IfOk result (λ named. named.names ≡ member_names (defs_term defs.now) (packed_members (member_terms members))) }
    ensures items { IfOk result (λ named. packed_values (idl_terms named.items) ≡ member_items (packed_members (member_terms members))) }
{
    let mut members = members;
    let mut names = Texts::new(alloc);
    let mut items = IdlValues::new(alloc);
    let mut place = 0;
    while place < members.len() {
        let (dictionary, number, value) = members.replace(place, (0, 0, IdlValue::Missing));
        names.push(copy_of_name(alloc, defs, dictionary, number)?)?;
        items.push(value)?;
        place += 1;
    }
    Ok(NamedItems { names, items })
}

/// A copy of the name of a member, by the dictionary that declares it and its number there.
///
/// # Errors
///
/// `AllocError` where there is no memory.
fn copy_of_name(
    alloc: Global,
    defs: &Defs,
    dictionary: u32,
    number: u32,
) -> Result<Units, AllocError>
    ensures { IfOk result (λ name. name ≡ unwrap_or (member_name (defs_term defs.now) dictionary number) []) }
{
    match name_of(defs, dictionary, number) {
        None => Ok(Units::new(alloc)),
        Some(name) => name.copy(),
    }
}

/// The name of a member.
fn name_of(defs: &Defs, dictionary: u32, number: u32) -> Option<&Units>
    ensures { option_copied result ≡ member_name (defs_term defs.now) dictionary number }
{
    match defs.dicts.as_slice().get(dictionary as usize) {
        None => None,
        Some(dict) => name_in(dict, number),
    }
}

/// The name of a member of one dictionary.
fn name_in(dict: &Dict, number: u32) -> Option<&Units>
    ensures { option_copied result ≡ member_name_in (dict_term dict.now) number }
{
    match dict.members.as_slice().get(number as usize) {
        None => None,
        Some(member) => Some(&member.name),
    }
}

/// The move to the next item, or to the units where there is none left.
pub(crate) fn out_items(outgoing: Box<Outgoing>) -> Move
    ensures dialog { (list : DefsTerm) → move_dialog list result ≡ out_items (container_term outgoing.value.container) (items_left outgoing.value) outgoing.value.made }
    ensures weight { (list : DefsTerm) → weight list result ≤ 1 + items_load (items_left outgoing.value) }
{
    let mut left = outgoing;
    match left.next_item() {
        None => to_units(Box::into_inner(left)),
        Some(value) => Move::Steps(
            Frame::Value(ValueFrame::Item(left)),
            Job::Out {
                ty: IdlType::Any,
                value,
            },
        ),
    }
}

/// The move to the units of a container all of whose items have come.
fn to_units(outgoing: Outgoing) -> Move
    ensures dialog { (list : DefsTerm) → move_dialog list result ≡ Steps (OutUnits (length outgoing.made) (container_term outgoing.container) outgoing.made) End }
    ensures weight { (list : DefsTerm) → weight list result ≡ 1 }
{
    let Outgoing {
        container,
        items: _,
        next: _,
        made,
    } = outgoing;
    Move::Goes(Job::OutUnits(Filled {
        left: made.len(),
        container,
        made,
    }))
}

/// The move after the value of an item.
///
/// # Errors
///
/// `AllocError` where there is no memory.
pub(crate) fn with_item(outgoing: Box<Outgoing>, value: Value) -> Result<Move, AllocError>
    ensures dialog { IfOk result (λ m. (list : DefsTerm) → move_dialog list m ≡ plain_to (ValueFrame.Item outgoing) value) }
    ensures weight { IfOk result (λ m. (list : DefsTerm) → weight list m < value_frame_load (ValueFrame.Item outgoing)) }
{
    let mut left = outgoing;
    left.made.push(value)?;
    Ok(Move::Goes(Job::OutItems(left)))
}

/// The move to the next unit, or to the ask for the container where none is left.
///
/// # Errors
///
/// `AllocError` where there is no memory.
pub(crate) fn out_units(alloc: Global, filled: Filled) -> Result<Move, AllocError>
    ensures dialog { IfOk result (λ m. (list : DefsTerm) → move_dialog list m ≡ out_units filled.left (container_term filled.container) filled.made) }
    ensures weight { IfOk result (λ m. (list : DefsTerm) → weight list m ≡ 0) }
{
    if filled.left == 0 {
        let Filled {
            left: _,
            container,
            made,
        } = filled;
        return made_of(alloc, container, made);
    }
    let mut filled = filled;
    filled.left -= 1;
    Ok(Move::Asks(Asking {
        ask: Ask::Unit,
        wait: Wait::Item(filled),
    }))
}

/// The ask for a new array or object.
///
/// # Errors
///
/// `AllocError` where there is no memory.
fn made_of(alloc: Global, container: Container, made: Values) -> Result<Move, AllocError>
    ensures dialog { IfOk result (λ m. (list : DefsTerm) → move_dialog list m ≡ out_units 0 (container_term container) made) }
    ensures weight { IfOk result (λ m. (list : DefsTerm) → weight list m ≡ 0) }
{
    match container {
        Container::Array => Ok(Move::Asks(Asking {
            ask: Ask::NewArray(made),
            wait: Wait::Value(ValueWait::NewArray),
        })),
        Container::Object(names) => Ok(Move::Asks(Asking {
            ask: Ask::NewObject(properties(alloc, names, made)?),
            wait: Wait::Value(ValueWait::NewObject),
        })),
    }
}

/// Properties of these names with these values, each a plain one.
///
/// # Errors
///
/// `AllocError` where there is no memory.
#[tactic(auto, using(crate::proofs::OutgoingItems::no_names_left))]
fn properties(alloc: Global, names: Texts, made: Values) -> Result<ScriptEntries, AllocError>
    ensures { IfOk result (λ entries. entries ≡ properties names made) }
{
    let mut names = names;
    let mut made = made;
    let mut entries = ScriptEntries::new(alloc);
    let mut place = 0;
    while place < names.len() {
        if place >= made.len() {
            return Ok(entries);
        }
        let name = names.replace(place, Units::new(alloc));
        let value = made.replace(place, Value::Undefined);
        entries.push((Key::Name(name), value))?;
        place += 1;
    }
    Ok(entries)
}
