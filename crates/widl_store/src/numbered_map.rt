//! The properties of objects that have many, in the order of their creation: with an index, and with numbers
//! that tell their order.

ghost use Rattle.std.specs.Prelude.{◌≡◌, [], ◌∷◌, IfOk, IfSome, OnErr, OnOk, None, ◌++◌, map, not};
ghost use Rattle.std.specs.List.{IsDistinct};
ghost use Rattle.std.specs.List.Sorted.{IsPermutation, IsNonDecreasingBy};
ghost use Rattle.std.specs.Map.{keys_of};
ghost use Rattle.std.specs.Map.Iter.{deref_pair};
ghost use Rattle.std.specs.Option.{option_map};
ghost use Rattle.indexmap.specs.IndexMap.{insert_entry, IsUnique};
ghost use Rattle.widl_store.specs.Created.{prop_of};
ghost use Rattle.widl_store.specs.Leaving.{Leaves};
ghost use Rattle.widl_store.specs.Objects.{prop_at, replaced, same_key, without_prop};
ghost use Rattle.widl_store.specs.Order.{changed};

use crate::held::Held;
use crate::property::{Prop, PropRef};
use indexmap::IndexMap;
use std::alloc::{AllocError, Global};
use std::marker::Model;
use widl_text::Key;

/// Properties by their keys, with an index.
///
/// A removed entry is replaced by the last one, so that no removal moves all the others. The order of
/// creation is that of the numbers.
#[derive(Drop)]
pub(crate) struct NumberedMap {
    entries: IndexMap<Key, Held>,
    next: u64,
}

impl Model for NumberedMap {
    ghost use Rattle.std.specs.Prelude.{List};
    ghost use Rattle.widl_store.specs.declared.property.Prop.{Prop as PropTerm};
    ghost use Rattle.widl_store.specs.Order.{Numbered, in_order};
    ghost use Rattle.widl_text.specs.declared.key.Key.{Key as KeyTerm};

    ghost Value = { List (KeyTerm × PropTerm) };

    ghost view = { λ m. in_order m.next m.entries.entries };

    ghost invariant = { λ m. Numbered m.next m.entries.entries };
}

impl NumberedMap {
    /// No properties.
    pub(crate) fn new(alloc: Global) -> NumberedMap
        ensures { result ≡ [] }
    {
        NumberedMap {
            entries: IndexMap::new(alloc),
            next: 0,
        }
    }

    /// The property at the key.
    pub(crate) fn get(&self, key: &Key) -> Option<PropRef<'_>>
        ensures { option_map prop_of result ≡ prop_at self.now key.now }
    {
        match self.entries.get(key) {
            Some(held) => Some(held.parts()),
            None => None,
        }
    }

    /// Puts the property in the place of that which the key has.
    pub(crate) fn set(&mut self, key: &Key, prop: Prop)
        ensures { self.new ≡ map (replaced key.now prop) self.old }
    {
        set_in(&mut self.entries, key, prop);
    }

    /// Puts the property last, at a key that has none.
    ///
    /// # Errors
    ///
    /// `AllocError` where there is no memory; the properties are unchanged. So it is where 2^64 - 1 properties
    /// were created before, since no number is given twice; no caller could show that there were fewer, and
    /// no run lives long enough to create them.
    pub(crate) fn create(&mut self, key: Key, prop: Prop) -> Result<(), AllocError>
        requires { prop_at self.old key ≡ None }
        ensures ok { OnOk result (self.new ≡ self.old ++ (key, prop) ∷ []) }
        ensures err { OnErr result (self.new ≡ self.old) }
    {
        let number = self.next;
        let Some(next) = number.checked_add(1) else {
            return Err(AllocError);
        };
        insert_in(&mut self.entries, key, Held::new(number, prop))?;
        self.next = next;
        Ok(())
    }

    /// Removes the property at the key. The others keep their order.
    pub(crate) fn delete(&mut self, key: &Key)
        ensures { self.new ≡ without_prop self.old key.now }
    {
        remove_in(&mut self.entries, key);
    }

    /// The keys, in the order of their creation.
    ///
    /// # Errors
    ///
    /// `AllocError` where there is no memory.
    pub(crate) fn keys_in_order(&self, alloc: Global) -> Result<Vec<Key>, AllocError>
        ensures keys { IfOk result (λ v. v.items ≡ keys_of self.now) }
        ensures once { IfOk result (λ v. IsDistinct same_key v.items) }
    {
        let sorted = by_number(listed(alloc, &self.entries)?);
        let keys = copied_keys(alloc, &sorted)?;
        Ok(keys)
    }
}

/// Puts the property in the place of that which the key has, with its number.
fn set_in(entries: &mut IndexMap<Key, Held>, key: &Key, prop: Prop)
    ensures changed { entries.new.entries ≡ map (changed key.now prop) entries.old.entries }
    ensures unique { IsUnique same_key entries.new }
{
    if let Some(held) = entries.get_mut(key) {
        *held = Held::new(held.number(), prop);
    }
}

/// Puts an entry at the key.
fn insert_in(entries: &mut IndexMap<Key, Held>, key: Key, held: Held) -> Result<(), AllocError>
    ensures ok { OnOk result (entries.new.entries ≡ insert_entry same_key entries.old.entries key held) }
    ensures err { OnErr result (entries.new.entries ≡ entries.old.entries) }
    ensures unique { IsUnique same_key entries.new }
{
    match entries.insert(key, held) {
        Ok(former) => {
            drop(former);
            Ok(())
        }
        Err(_) => Err(AllocError),
    }
}

/// Removes the entry at the key; the last one takes its place.
fn remove_in(entries: &mut IndexMap<Key, Held>, key: &Key)
    ensures leaves { Leaves (λ e. not (same_key key.now e.0)) entries.old.entries entries.new.entries }
    ensures unique { IsUnique same_key entries.new }
{
    if let Some(index) = entries.get_index_of(key) {
        let _removed = entries.swap_remove_index(index);
    }
}

/// The entries, by reference.
fn listed<'a>(
    alloc: Global,
    entries: &'a IndexMap<Key, Held>,
) -> Result<Vec<(&'a Key, &'a Held)>, AllocError>
    ensures { IfOk result (λ v. map deref_pair v.items ≡ entries.now.entries) }
{
    let mut list = Vec::with_capacity(alloc, entries.len())?;
    for (key, held) in entries {
        list.push((key, held))?;
    }
    Ok(list)
}

/// The entries in the order of their numbers.
fn by_number<'a>(entries: Vec<(&'a Key, &'a Held)>) -> Vec<(&'a Key, &'a Held)>
    ensures same { IsPermutation entries.entry.items result.items }
    ensures ascending { IsNonDecreasingBy (λ e. e.1.now.number) result.items }
{
    let mut entries = entries;
    entries.sort_unstable_by_key(|entry| entry.1.number());
    entries
}

/// Copies of the keys.
fn copied_keys(alloc: Global, entries: &[(&Key, &Held)]) -> Result<Vec<Key>, AllocError>
    ensures { IfOk result (λ v. v.items ≡ map (λ e. e.0.now) entries.now) }
{
    let mut keys = Vec::with_capacity(alloc, entries.len())?;
    for (key, _) in entries {
        keys.push(key.copy()?)?;
    }
    Ok(keys)
}
