//! IDL values in lines.
//!
//! A value that has others in it waits in a list while one of these is written: no nesting takes native stack.

ghost use Rattle.std.specs.Prelude.{◌≡◌, ◌<◌, ◌++◌, codes, map, None, IsSome, IfOk, length, slice_get, option_map};
ghost use Rattle.std.specs.Option.{option_copied};
ghost use Rattle.widl_idl.specs.DefinitionTerms.{defs_term, dict_term};
ghost use Rattle.widl_spell.specs.Names.{separated};
ghost use Rattle.widl_trace.specs.CalleeTexts.{name_or_nothing};
ghost use Rattle.widl_trace.specs.Drafts.{Adds};
ghost use Rattle.widl_trace.specs.IdlValueTexts.{dictionary_name, enumeration_value, idl_value_text, member_name, member_name_in, quoted_or_nothing};
ghost use Rattle.widl_trace.specs.Unfinished.{AddsFront, all_left, end_text, front_text, head_text, label_text, labelled, left_or_nothing, left_text};
ghost use Rattle.widl_trace.specs.ValueTexts.{object_text, quoted};
ghost use Rattle.widl_value.specs.IdlTerms.{entry_terms, idl_term, idl_terms, member_terms};

use crate::callee_text::push_name_of;
use crate::cut::Cut;
use crate::draft::Draft;
use crate::unfinished::{Contents, Unfinished};
use crate::value_text::{boolean_text, push_object, push_quoted, push_value, push_whole};
use widl_idl::{Defs, Dict};
use widl_spell::sign_before;
use widl_text::Units;
use widl_value::{IdlEntries, IdlMembers, IdlValue, IdlValues, ObjRef};

/// Adds IDL values with a comma and a space between each two.
pub fn push_idl_values(draft: &mut Draft, defs: &Defs, values: &IdlValues) -> Result<(), Cut>
    ensures { Adds draft.old draft.new (separated (codes ", ") (map (idl_value_text (defs_term defs.now)) (idl_terms values.now))) result }
{
    for place in 0..values.len() {
        let value = values.at(place);
        draft.push(sign_before(b", ", place))?;
        push_idl_value(draft, defs, value)?;
    }
    Ok(())
}

/// Adds an IDL value.
fn push_idl_value(draft: &mut Draft, defs: &Defs, value: &IdlValue) -> Result<(), Cut>
    ensures { Adds draft.old draft.new (idl_value_text (defs_term defs.now) (idl_term value.now)) result }
{
    push_head(draft, defs, value)?;
    match Unfinished::of(value) {
        None => Ok(()),
        Some(begun) => push_rest(draft, defs, begun),
    }
}

/// Adds what stands before the values in a value, or all of a value that has none.
fn push_head(draft: &mut Draft, defs: &Defs, value: &IdlValue) -> Result<(), Cut>
    ensures { Adds draft.old draft.new (head_text (defs_term defs.now) (idl_term value.now)) result }
{
    match value {
        IdlValue::Undefined => draft.push(b"undefined"),
        IdlValue::Null => draft.push(b"null"),
        IdlValue::Missing => draft.push(b"missing"),
        IdlValue::Bool(b) => draft.push(boolean_text(*b)),
        IdlValue::Int(n) => push_whole(draft, *n),
        IdlValue::Text(text) => push_quoted(draft, text.as_slice()),
        IdlValue::Choice {
            of: enumeration,
            index,
        } => push_quoted_text(draft, enumeration_value(defs, *enumeration, *index)),
        IdlValue::Object(obj) => push_object(draft, *obj),
        IdlValue::Any(value) => push_value(draft, value),
        IdlValue::List(_) => draft.push(b"["),
        IdlValue::Entries(_) => draft.push(b"{"),
        IdlValue::Dict { of: dictionary, .. } => push_dictionary_head(draft, defs, *dictionary),
        IdlValue::Promise(promise) => push_promise(draft, *promise),
    }
}

/// Adds the name of a dictionary and the brace behind it.
fn push_dictionary_head(draft: &mut Draft, defs: &Defs, dictionary: u32) -> Result<(), Cut>
    ensures { Adds draft.old draft.new (name_or_nothing (dictionary_name (defs_term defs.now) dictionary) ++ codes "{") result }
{
    push_name_of(draft, dictionary_name(defs, dictionary))?;
    draft.push(b"{")
}

/// Adds what is left of a value that was begun.
fn push_rest(draft: &mut Draft, defs: &Defs, begun: Unfinished<'_>) -> Result<(), Cut>
    ensures { Adds draft.old draft.new (left_text (defs_term defs.now) begun.entry) result }
{
    let mut outer = Vec::new(*draft.bytes.allocator());
    push_nested(draft, defs, begun, &mut outer)
}

/// Adds what is left of a value and of those that it stands in, of which the list is empty at first.
#[tactic(auto, unfolding(crate::specs::Drafts::least))]
fn push_nested<'v>(
    draft: &mut Draft,
    defs: &Defs,
    begun: Unfinished<'v>,
    outer: &mut Vec<Unfinished<'v>>,
) -> Result<(), Cut>
    ensures { Adds draft.old draft.new (left_text (defs_term defs.now) begun.entry ++ all_left (defs_term defs.now) outer.old.items) result }
{
    let mut inmost = begun;
    loop {
        match push_items(draft, defs, &mut inmost)? {
            Some(inner) => {
                outer.push(inmost)?;
                inmost = inner;
            }
            None => {
                draft.push(inmost.contents.end())?;
                let Some(next) = outer.pop() else {
                    return Ok(());
                };
                inmost = next;
            }
        }
    }
}

/// Adds the next values in a value that was begun, up to the first that has others in it, whose front is added and which is
/// answered.
fn push_items<'v>(
    draft: &mut Draft,
    defs: &Defs,
    begun: &mut Unfinished<'v>,
) -> Result<Option<Unfinished<'v>>, Cut>
    ensures front { AddsFront draft.old draft.new (left_text (defs_term defs.now) begun.old) (λ inner. left_or_nothing (defs_term defs.now) inner ++ left_text (defs_term defs.now) begun.new) result }
    ensures longer { IfOk result (λ inner. IsSome inner → length draft.old.bytes.items < length draft.new.bytes.items) }
    ensures ended { IfOk result (λ inner. inner ≡ None → left_text (defs_term defs.now) begun.new ≡ end_text begun.new.contents) }
{
    while let Some(value) = begun.contents.value(begun.place) {
        push_front(draft, defs, begun)?;
        push_head(draft, defs, value)?;
        begun.place += 1;
        let inner = Unfinished::of(value);
        if inner.is_some() {
            return Ok(inner);
        }
    }
    Ok(None)
}

/// Adds what stands before the next value: a comma and a space, and a key or a name.
fn push_front(draft: &mut Draft, defs: &Defs, begun: &Unfinished<'_>) -> Result<(), Cut>
    requires { begun.now.place < length (labelled (defs_term defs.now) begun.now.contents) }
    ensures { Adds draft.old draft.new (front_text (defs_term defs.now) begun.now) result }
{
    draft.push(sign_before(b", ", begun.place))?;
    match begun.contents {
        Contents::Values(_) => Ok(()),
        Contents::Entries(entries) => push_key_at(draft, entries, begun.place),
        Contents::Members(members) => push_name_at(draft, defs, members, begun.place),
    }
}

/// Adds the key of an entry of a record.
fn push_key_at(draft: &mut Draft, entries: &IdlEntries, place: usize) -> Result<(), Cut>
    requires { place < length (entry_terms entries.now) }
    ensures { Adds draft.old draft.new (label_text (option_map (λ entry. quoted entry.0) (slice_get (entry_terms entries.now) place))) result }
{
    push_quoted(draft, entries.at(place).0.as_slice())?;
    draft.push(b": ")
}

/// Adds the name of a member of a dictionary.
fn push_name_at(
    draft: &mut Draft,
    defs: &Defs,
    members: &IdlMembers,
    place: usize,
) -> Result<(), Cut>
    requires { place < length (member_terms members.now) }
    ensures { Adds draft.old draft.new (label_text (option_map (λ member. name_or_nothing (member_name (defs_term defs.now) member.0 member.1)) (slice_get (member_terms members.now) place))) result }
{
    let member = members.at(place);
    push_name_of(draft, member_name(defs, member.0, member.1))?;
    draft.push(b": ")
}

/// Adds a promise.
fn push_promise(draft: &mut Draft, promise: ObjRef) -> Result<(), Cut>
    ensures { Adds draft.old draft.new (codes "promise " ++ object_text promise) result }
{
    draft.push(b"promise ")?;
    push_object(draft, promise)
}

/// Adds a text in quotes, if there is one.
fn push_quoted_text(draft: &mut Draft, text: Option<&Units>) -> Result<(), Cut>
    ensures { Adds draft.old draft.new (quoted_or_nothing (option_copied text.entry)) result }
{
    match text {
        None => Ok(()),
        Some(text) => push_quoted(draft, text.as_slice()),
    }
}

/// The text of a value of an enumeration.
fn enumeration_value(defs: &Defs, enumeration: u32, index: u32) -> Option<&Units>
    ensures { option_copied result ≡ enumeration_value (defs_term defs.now) enumeration index }
{
    match defs.choices.as_slice().get(enumeration as usize) {
        None => None,
        Some(choice) => choice.values.as_slice().get(index as usize),
    }
}

fn dictionary_name(defs: &Defs, dictionary: u32) -> Option<&Units>
    ensures { option_copied result ≡ dictionary_name (defs_term defs.now) dictionary }
{
    match defs.dicts.as_slice().get(dictionary as usize) {
        None => None,
        Some(dict) => Some(&dict.name),
    }
}

/// The name of a member, by the dictionary that declares it and its number there.
fn member_name(defs: &Defs, dictionary: u32, number: u32) -> Option<&Units>
    ensures { option_copied result ≡ member_name (defs_term defs.now) dictionary number }
{
    match defs.dicts.as_slice().get(dictionary as usize) {
        None => None,
        Some(dict) => member_name_in(dict, number),
    }
}

fn member_name_in(dict: &Dict, number: u32) -> Option<&Units>
    ensures { option_copied result ≡ member_name_in (dict_term dict.now) number }
{
    match dict.members.as_slice().get(number as usize) {
        None => None,
        Some(member) => Some(&member.name),
    }
}
