//! Properties by their keys, in the order of their creation.

ghost use Rattle.std.specs.Prelude.{◌≡◌, [], ◌∷◌, ◌++◌, IfOk, IfSome, OnErr, OnOk, None, map};
ghost use Rattle.std.specs.List.{IsDistinct};
ghost use Rattle.std.specs.Map.{keys_of};
ghost use Rattle.std.specs.Option.{option_map};
ghost use Rattle.widl_store.specs.Created.{prop_of};
ghost use Rattle.widl_store.specs.Objects.{prop_at, replaced, same_key, with_prop, without_prop};
ghost use Rattle.widl_store.specs.PropertyForms.{IsHeldOnce, props_in};

use crate::few::{get_few, keys_of_few, numbered, push_few, remove_few, set_few};
use crate::label::Label;
use crate::numbered_map::NumberedMap;
use crate::property::{Prop, PropRef};
use std::alloc::{AllocError, Global};
use std::marker::Model;
use widl_text::Key;

/// How many properties are held without an index.
///
/// A walk over eight takes some 100 ns longer than a look-up by an index. But a map makes room for nine entries
/// at its first one, and most objects have fewer: a function has two. So there is an index only where it fills
/// that room.
const MOST_FEW: usize = 8;

/// Properties by their keys.
#[derive(Drop)]
pub(crate) enum Form {
    /// Without an index.
    Few(Vec<(Label, Prop)>),
    /// With an index.
    Many(Box<NumberedMap>),
}

/// Properties by their keys. Most objects have few, so there is an index only once there are more.
#[derive(Drop)]
pub(crate) struct PropertyMap {
    form: Form,
}

impl Model for PropertyMap {
    ghost use Rattle.std.specs.Prelude.{List};
    ghost use Rattle.widl_store.specs.declared.property.Prop.{Prop as PropTerm};
    ghost use Rattle.widl_store.specs.PropertyForms.{IsHeldOnce, props_in};
    ghost use Rattle.widl_text.specs.declared.key.Key.{Key as KeyTerm};

    ghost Value = { List (KeyTerm × PropTerm) };

    ghost view = { λ m. props_in m.form };

    ghost invariant = { λ m. IsHeldOnce m.form };
}

impl PropertyMap {
    /// No properties.
    pub(crate) fn new(alloc: Global) -> PropertyMap
        ensures { result ≡ [] }
    {
        PropertyMap {
            form: Form::Few(Vec::new(alloc)),
        }
    }

    /// The property at the key.
    pub(crate) fn get(&self, key: &Key) -> Option<PropRef<'_>>
        ensures { option_map prop_of result ≡ prop_at self.now key.now }
    {
        get_in(&self.form, key)
    }

    /// Puts the property at the key: in its place where the key is held, else last.
    ///
    /// # Errors
    ///
    /// `AllocError` where the key is new and there is no memory; the properties are unchanged.
    pub(crate) fn put(&mut self, key: Key, prop: Prop) -> Result<(), AllocError>
        ensures ok { OnOk result (self.new ≡ with_prop self.old key prop) }
        ensures err { OnErr result (self.new ≡ self.old) }
        ensures absent { OnErr result (prop_at self.old key ≡ None) }
    {
        if self.get(&key).is_some() {
            self.set(&key, prop);
            Ok(())
        } else {
            self.create(key, prop)
        }
    }

    /// Puts the property in the place of that which the key has.
    pub(crate) fn set(&mut self, key: &Key, prop: Prop)
        ensures { self.new ≡ map (replaced key.now prop) self.old }
    {
        set_in(&mut self.form, key, prop);
    }

    /// Puts the property last, at a key that has none.
    fn create(&mut self, key: Key, prop: Prop) -> Result<(), AllocError>
        requires { prop_at self.old key ≡ None }
        ensures ok { OnOk result (self.new ≡ self.old ++ (key, prop) ∷ []) }
        ensures err { OnErr result (self.new ≡ self.old) }
    {
        self.index()?;
        create_in(&mut self.form, key, prop)
    }

    /// Makes an index where there would be too many properties without.
    fn index(&mut self) -> Result<(), AllocError>
        ensures { self.new ≡ self.old }
    {
        if let Some(map) = indexed(&self.form)? {
            self.form = Form::Many(map);
        }
        Ok(())
    }

    /// Removes the property at the key. The others keep their order.
    pub(crate) fn delete(&mut self, key: &Key)
        ensures { self.new ≡ without_prop self.old key.now }
    {
        remove_in(&mut self.form, key);
    }

    /// The keys, in the order of their creation.
    ///
    /// # Errors
    ///
    /// `AllocError` where there is no memory.
    pub(crate) fn keys_in_order(&self, alloc: Global) -> Result<Vec<Key>, AllocError>
        ensures keys { IfOk result (λ v. v.items ≡ keys_of self.now) }
        ensures once { IfOk result (λ v. IsDistinct same_key v.items) }
    {
        keys_in(alloc, &self.form)
    }
}

fn get_in<'a>(form: &'a Form, key: &Key) -> Option<PropRef<'a>>
    requires { IsHeldOnce form.now }
    ensures { option_map prop_of result ≡ prop_at (props_in form.now) key.now }
{
    match form {
        Form::Few(entries) => get_few(entries.as_slice(), key),
        Form::Many(map) => map.get(key),
    }
}

fn set_in(form: &mut Form, key: &Key, prop: Prop)
    requires { IsHeldOnce form.old }
    ensures set { props_in form.new ≡ map (replaced key.now prop) (props_in form.old) }
    ensures once { IsHeldOnce form.new }
{
    match form {
        Form::Few(entries) => set_few(entries, key, prop),
        Form::Many(map) => map.set(key, prop),
    }
}

fn create_in(form: &mut Form, key: Key, prop: Prop) -> Result<(), AllocError>
    requires once { IsHeldOnce form.old }
    requires absent { prop_at (props_in form.old) key ≡ None }
    ensures ok { OnOk result (props_in form.new ≡ props_in form.old ++ (key, prop) ∷ []) }
    ensures err { OnErr result (props_in form.new ≡ props_in form.old) }
    ensures once { IsHeldOnce form.new }
{
    match form {
        Form::Few(entries) => push_few(entries, key, prop),
        Form::Many(map) => map.create(key, prop),
    }
}

/// The properties with an index, where they have none and there would be too many.
fn indexed(form: &Form) -> Result<Option<Box<NumberedMap>>, AllocError>
    requires { IsHeldOnce form.now }
    ensures { IfOk result (λ found. IfSome found (λ map. map.value ≡ props_in form.now)) }
{
    match form {
        Form::Few(entries) if entries.len() >= MOST_FEW => {
            let alloc = *entries.allocator();
            let map = numbered(alloc, entries.as_slice())?;
            let boxed = Box::new(alloc, map)?;
            Ok(Some(boxed))
        }
        Form::Few(_) | Form::Many(_) => Ok(None),
    }
}

fn remove_in(form: &mut Form, key: &Key)
    requires { IsHeldOnce form.old }
    ensures removed { props_in form.new ≡ without_prop (props_in form.old) key.now }
    ensures once { IsHeldOnce form.new }
{
    match form {
        Form::Few(entries) => remove_few(entries, key),
        Form::Many(map) => map.delete(key),
    }
}

fn keys_in(alloc: Global, form: &Form) -> Result<Vec<Key>, AllocError>
    requires { IsHeldOnce form.now }
    ensures keys { IfOk result (λ v. v.items ≡ keys_of (props_in form.now)) }
    ensures once { IfOk result (λ v. IsDistinct same_key v.items) }
{
    match form {
        Form::Few(entries) => keys_of_few(alloc, entries.as_slice()),
        Form::Many(map) => map.keys_in_order(alloc),
    }
}
