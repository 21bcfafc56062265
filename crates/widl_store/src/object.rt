//! One object.

ghost use Rattle.std.specs.Prelude.{◌≡◌, ℕ, [], ◌∷◌, ◌+◌, IfOk, OnErr, OnOk, None, false, true, if◌then◌else◌, map};
ghost use Rattle.std.specs.List.{IsDistinct};
ghost use Rattle.std.specs.Map.{keys_of};
ghost use Rattle.std.specs.Option.{option_map};
ghost use Rattle.widl_store.specs.Created.{prop_of};
ghost use Rattle.widl_store.specs.Effects.{is_above, is_fixed_in, new_object, placed, raised, with_part, with_props};
ghost use Rattle.widl_store.specs.Inners.{inner_term, is_array, kind_of};
ghost use Rattle.widl_store.specs.Objects.{length_flags, length_key, length_prop, prop_at, same_key, with_prop, without_prop};
ghost use Rattle.widl_store.specs.Sound.{KeepsKind, SoundAt};
ghost use Rattle.widl_text.specs.Index.{index_of};

use crate::inner::Inner;
use crate::property::{Prop, PropRef};
use crate::property_map::PropertyMap;
use std::alloc::{AllocError, Global};
use std::marker::Model;
use std::mem;
use widl_text::Key;
use widl_value::{Flags, Number, ObjRef, Shape, Value};

/// The flags of an array's length (ECMA-262, ArrayCreate).
pub(crate) const LENGTH_FLAGS: Flags = Flags {
    writable: true,
    enumerable: false,
    configurable: false,
};

/// An object: its prototype, its shape, its properties and its inner part.
#[derive(Drop)]
pub(crate) struct Object {
    proto: Option<ObjRef>,
    shape: Shape,
    props: PropertyMap,
    inner: Inner,
}

impl Model for Object {
    ghost use Rattle.std.specs.Coded.{codes};
    ghost use Rattle.widl_store.specs.IdlCodes.{term_code};
    ghost use Rattle.widl_store.specs.Inners.{inner_term};
    ghost use Rattle.widl_store.specs.Objects.{Obj};

    ghost Value = { Obj };

    ghost coded = { Prim.hlevel (codes, term_code (Prim.hlevel codes)) };

    ghost view = { λ o. record { proto = o.proto; shape = o.shape; props = o.props; inner = inner_term o.inner } };
}

impl Object {
    /// An object without properties, but for the length of an array, whose key is given.
    ///
    /// # Errors
    ///
    /// `AllocError` where there is no memory.
    pub(crate) fn new(
        alloc: Global,
        lengths: &Key,
        proto: Option<ObjRef>,
        shape: Shape,
        inner: Inner,
    ) -> Result<Object, AllocError>
        requires { lengths.now ≡ length_key }
        ensures { IfOk result (λ o. o ≡ new_object proto shape (inner_term inner)) }
    {
        let Ok(props) = first_props(alloc, lengths, is_array(&inner)) else {
            drop(inner);
            return Err(AllocError);
        };
        Ok(Object {
            proto,
            shape,
            props,
            inner,
        })
    }

    /// Its prototype.
    pub(crate) fn proto(&self) -> Option<ObjRef>
        ensures { result ≡ self.now.proto }
    {
        self.proto
    }

    /// Its inner part.
    pub(crate) fn inner(&self) -> &Inner
        ensures { inner_term result.now ≡ self.now.inner }
    {
        &self.inner
    }

    /// Its own property at the key.
    pub(crate) fn own(&self, key: &Key) -> Option<PropRef<'_>>
        ensures { option_map prop_of result ≡ prop_at self.now.props key.now }
    {
        self.props.get(key)
    }

    /// Whether it is an array.
    pub(crate) fn is_array(&self) -> bool
        ensures { result ≡ is_array self.now.inner }
    {
        is_array(&self.inner)
    }

    /// The keys of its properties in the order of their creation.
    ///
    /// # Errors
    ///
    /// `AllocError` where there is no memory.
    pub(crate) fn keys_in_order(&self, alloc: Global) -> Result<Vec<Key>, AllocError>
        ensures keys { IfOk result (λ v. v.items ≡ keys_of self.now.props) }
        ensures once { IfOk result (λ v. IsDistinct same_key v.items) }
    {
        self.props.keys_in_order(alloc)
    }

    /// Puts the property at the key, which isn't that of an array's length: an index raises the length.
    ///
    /// # Errors
    ///
    /// `AllocError` where the property is new and there is no memory; the object is unchanged.
    #[tactic(auto, using(crate::proofs::SoundObjects::placed_at))]
    pub(crate) fn put(&mut self, lengths: &Key, key: Key, prop: Prop) -> Result<(), AllocError>
        requires lengths { lengths.now ≡ length_key }
        requires free { is_fixed_in self.old key ≡ false }
        ensures ok { OnOk result (self.new ≡ with_props self.old (placed self.old key prop)) }
        ensures err { OnErr result (self.new ≡ self.old) }
        ensures absent { OnErr result (prop_at self.old.props key ≡ None) }
        ensures sound { (id : ℕ) → SoundAt id self.old → SoundAt id self.new }
        ensures kind { KeepsKind self.old self.new }
    {
        match self.place(lengths, key, prop) {
            Ok(()) => Ok(()),
            Err(error) => Err(error),
        }
    }

    /// Puts the property at the key, and raises the length of an array above an index.
    fn place(&mut self, lengths: &Key, key: Key, prop: Prop) -> Result<(), AllocError>
        requires { lengths.now ≡ length_key }
        ensures ok { OnOk result (self.new ≡ with_props self.old (placed self.old key prop)) }
        ensures err { OnErr result (self.new ≡ self.old) }
        ensures absent { OnErr result (prop_at self.old.props key ≡ None) }
    {
        let array = self.is_array();
        place_in(&mut self.props, array, lengths, key, prop)
    }

    /// Defines a property of an object that no script has seen: no length is raised.
    ///
    /// # Errors
    ///
    /// `AllocError` where there is no memory.
    pub(crate) fn set(&mut self, key: Key, prop: Prop) -> Result<(), AllocError>
        ensures { OnOk result (self.new ≡ with_props self.old (with_prop self.old.props key prop)) }
    {
        self.props.put(key, prop)
    }

    /// Removes the property at the key, which isn't that of an array's length.
    #[tactic(auto, using(crate::proofs::SoundObjects::removed_at))]
    pub(crate) fn remove(&mut self, key: &Key)
        requires { is_fixed_in self.old key.now ≡ false }
        ensures done { self.new ≡ with_props self.old (without_prop self.old.props key.now) }
        ensures sound { (id : ℕ) → SoundAt id self.old → SoundAt id self.new }
        ensures kind { KeepsKind self.old self.new }
    {
        self.take(key);
    }

    fn take(&mut self, key: &Key)
        ensures { self.new ≡ with_props self.old (without_prop self.old.props key.now) }
    {
        self.props.delete(key);
    }

    /// Replaces the inner part by one of the same kind, with as many slots; the answer is the old one.
    #[tactic(auto, using(crate::proofs::SoundObjects::inner_at))]
    pub(crate) fn set_inner(&mut self, inner: Inner) -> Inner
        requires { kind_of self.old.inner ≡ kind_of (inner_term inner) }
        ensures done { self.new ≡ with_part self.old (inner_term inner) }
        ensures former { inner_term result ≡ self.old.inner }
        ensures sound { (id : ℕ) → SoundAt id self.old → SoundAt id self.new }
        ensures kind { KeepsKind self.old self.new }
    {
        self.exchange(inner)
    }

    fn exchange(&mut self, inner: Inner) -> Inner
        ensures done { self.new ≡ with_part self.old (inner_term inner) }
        ensures former { inner_term result ≡ self.old.inner }
    {
        mem::replace(&mut self.inner, inner)
    }
}

fn is_array(inner: &Inner) -> bool
    ensures { result ≡ is_array (inner_term inner.now) }
{
    match inner {
        Inner::Array => true,
        Inner::Plain
        | Inner::Error
        | Inner::Script(_)
        | Inner::Builtin(_)
        | Inner::Interface { .. }
        | Inner::Platform { .. }
        | Inner::Space { .. }
        | Inner::PairIterator { .. }
        | Inner::ArrayIterator { .. }
        | Inner::Promise(_) => false,
    }
}

/// The properties of a new object: none, but the length of an array.
fn first_props(alloc: Global, lengths: &Key, array: bool) -> Result<PropertyMap, AllocError>
    requires { lengths.now ≡ length_key }
    ensures { IfOk result (λ props. props ≡ (if array then (length_key, length_prop 0) ∷ [] else [])) }
{
    let mut props = PropertyMap::new(alloc);
    if array {
        props.put(lengths.copy()?, length_prop(0))?;
    }
    Ok(props)
}

/// Puts the property at the key, and raises the length of an array above an index.
fn place_in(
    props: &mut PropertyMap,
    array: bool,
    lengths: &Key,
    key: Key,
    prop: Prop,
) -> Result<(), AllocError>
    requires { lengths.now ≡ length_key }
    ensures ok { OnOk result (props.new ≡ (if array then raised (index_of key) (with_prop props.old key prop) else with_prop props.old key prop)) }
    ensures err { OnErr result (props.new ≡ props.old) }
    ensures absent { OnErr result (prop_at props.old key ≡ None) }
{
    let index = key.index();
    props.put(key, prop)?;
    if let Some(index) = index {
        if array {
            raise(props, lengths, index);
        }
    }
    Ok(())
}

/// Raises an array's length to one more than the index, where it isn't above it.
fn raise(props: &mut PropertyMap, lengths: &Key, index: u32)
    requires { lengths.now ≡ length_key }
    ensures { props.new ≡ raised (Some index) props.old }
{
    let low = match props.get(lengths) {
        None => false,
        Some(held) => !is_above(held, index),
    };
    if low {
        props.set(lengths, length_prop(u64::from(index) + 1));
    }
}

/// An array's length as a property.
fn length_prop(length: u64) -> Prop
    ensures { result ≡ length_prop length }
{
    Prop::Plain {
        value: Value::Num(Number::Whole(i128::from(length))),
        flags: LENGTH_FLAGS,
    }
}

/// Whether the property is a length above the index.
fn is_above(prop: PropRef<'_>, index: u32) -> bool
    ensures { result ≡ is_above (prop_of prop.entry) index }
{
    match prop {
        PropRef::Plain {
            value: Value::Num(Number::Whole(length)),
            ..
        } => i128::from(index) < *length,
        _ => false,
    }
}
