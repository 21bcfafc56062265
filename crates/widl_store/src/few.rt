//! The properties of objects that have few: entries in the order of their creation, without an index.

ghost use Rattle.std.specs.Prelude.{◌≡◌, ◌<◌, ◌∷◌, [], ◌++◌, IfOk, IfNone, IfSome, None, OnErr, OnOk, length, map, slice_index_or, true};
ghost use Rattle.std.specs.List.{remove};
ghost use Rattle.std.specs.Map.{keys_of};
ghost use Rattle.std.specs.Option.{option_map};
ghost use Rattle.widl_store.specs.Created.{prop_of};
ghost use Rattle.widl_store.specs.declared.property.Prop as props;
ghost use Rattle.widl_store.specs.Objects.{prop_at, replaced, same_key, without_prop};
ghost use Rattle.widl_store.specs.PropertyForms.{HasEachOnce};
ghost use Rattle.widl_text.specs.declared.key.Key as keys;

use crate::label::Label;
use crate::numbered_map::NumberedMap;
use crate::property::{Prop, PropRef};
use std::alloc::{AllocError, Global};
use widl_text::Key;

/// The property at the key.
pub(crate) fn get_few<'a>(entries: &'a [(Label, Prop)], key: &Key) -> Option<PropRef<'a>>
    requires { HasEachOnce entries.now }
    ensures { option_map prop_of result ≡ prop_at entries.now key.now }
{
    match place_of(entries, key) {
        None => None,
        Some(place) => Some(entries[place].1.parts()),
    }
}

/// Puts the property in the place of that which the key has.
#[tactic(auto, using(crate::proofs::FewProperties::set_found, crate::proofs::FewProperties::replaced_absent, crate::proofs::FewProperties::replaced_once))]
pub(crate) fn set_few(entries: &mut Vec<(Label, Prop)>, key: &Key, prop: Prop)
    requires { HasEachOnce entries.old.items }
    ensures set { entries.new.items ≡ map (replaced key.now prop) entries.old.items }
    ensures once { HasEachOnce entries.new.items }
{
    if let Some(place) = place_of(entries.as_slice(), key) {
        entries[place].1 = prop;
    }
}

/// Puts the property last, at a key that has none.
///
/// # Errors
///
/// `AllocError` where there is no memory; the properties are unchanged.
pub(crate) fn push_few(
    entries: &mut Vec<(Label, Prop)>,
    key: Key,
    prop: Prop,
) -> Result<(), AllocError>
    requires once { HasEachOnce entries.old.items }
    requires absent { prop_at entries.old.items key ≡ None }
    ensures ok { OnOk result (entries.new.items ≡ entries.old.items ++ (key, prop) ∷ []) }
    ensures err { OnErr result (entries.new.items ≡ entries.old.items) }
    ensures once { HasEachOnce entries.new.items }
{
    match push_last(entries, key, prop) {
        Ok(()) => Ok(()),
        Err(error) => Err(error),
    }
}

/// Puts an entry last. There is first room for two, as a function needs it, and then for one more at a time.
fn push_last(entries: &mut Vec<(Label, Prop)>, key: Key, prop: Prop) -> Result<(), AllocError>
    ensures ok { OnOk result (entries.new.items ≡ entries.old.items ++ (key, prop) ∷ []) }
    ensures err { OnErr result (entries.new.items ≡ entries.old.items) }
{
    let Ok(label) = Label::new(*entries.allocator(), key) else {
        drop(prop);
        return Err(AllocError);
    };
    let more = if entries.is_empty() { 2 } else { 1 };
    let Ok(()) = entries.reserve_exact(more) else {
        drop(label);
        drop(prop);
        return Err(AllocError);
    };
    entries.push_reserved((label, prop));
    Ok(())
}

/// Removes the property at the key.
#[tactic(auto, using(crate::proofs::FewProperties::removed_absent))]
pub(crate) fn remove_few(entries: &mut Vec<(Label, Prop)>, key: &Key)
    requires { HasEachOnce entries.old.items }
    ensures removed { entries.new.items ≡ without_prop entries.old.items key.now }
    ensures once { HasEachOnce entries.new.items }
{
    if let Some(place) = place_of(entries.as_slice(), key) {
        cut(entries, place);
    }
}

/// Removes the entry at a place.
fn cut(entries: &mut Vec<(Label, Prop)>, place: usize)
    requires { place < length entries.old.items }
    ensures { entries.new.items ≡ remove entries.old.items place }
{
    let _removed = entries.remove(place);
}

/// The keys.
pub(crate) fn keys_of_few(alloc: Global, entries: &[(Label, Prop)]) -> Result<Vec<Key>, AllocError>
    ensures { IfOk result (λ v. v.items ≡ keys_of entries.now) }
{
    let mut keys = Vec::with_capacity(alloc, entries.len())?;
    for (label, _) in entries {
        keys.push(label.key(alloc)?)?;
    }
    Ok(keys)
}

/// The same properties in a map with an index.
pub(crate) fn numbered(alloc: Global, entries: &[(Label, Prop)]) -> Result<NumberedMap, AllocError>
    requires { HasEachOnce entries.now }
    ensures { IfOk result (λ map. map ≡ entries.now) }
{
    let mut map = NumberedMap::new(alloc);
    match add_copies(alloc, entries, &mut map) {
        Ok(()) => Ok(map),
        Err(error) => {
            drop(map);
            Err(error)
        }
    }
}

/// Adds copies of the properties to an empty map.
fn add_copies(
    alloc: Global,
    entries: &[(Label, Prop)],
    map: &mut NumberedMap,
) -> Result<(), AllocError>
    requires once { HasEachOnce entries.now }
    requires empty { map.old ≡ [] }
    ensures { OnOk result (map.new ≡ entries.now) }
{
    for (label, prop) in entries {
        let key = label.key(alloc)?;
        let Ok(copy) = prop.copy() else {
            drop(key);
            return Err(AllocError);
        };
        map.create(key, copy)?;
    }
    Ok(())
}

/// The place of the entry of the key.
#[tactic(auto, using(crate::proofs::FewProperties::walk_past, crate::proofs::FewProperties::walk_end, crate::proofs::FewProperties::here_at))]
fn place_of(entries: &[(Label, Prop)], key: &Key) -> Option<usize>
    ensures some { IfSome result (λ place. (place < length entries.now) × ((d : keys.Key × props.Prop) → same_key key.now (slice_index_or entries.now place d).0 ≡ true)) }
    ensures none { IfNone result (prop_at entries.now key.now ≡ None) }
{
    let mut place = 0;
    while place < entries.len() {
        if entries[place].0.is(key) {
            return Some(place);
        }
        place += 1;
    }
    None
}
