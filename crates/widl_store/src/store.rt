//! The objects of a run by their numbers.

ghost use Rattle.std.specs.Prelude.{◌≡◌, ◌≢◌, ◌<◌, ◌-◌, ◌^◌, ◌∷◌, [], ◌++◌, length, slice_get, None, Some, Ok, Err, OnOk, OnErr, IfOk, IfSome, false, true};
ghost use Rattle.std.specs.Option.{option_map};
ghost use Rattle.widl_store.specs.Created.{prop_of};
ghost use Rattle.widl_store.specs.Effects.{added, define_of, defined, delete_of, deleted, is_fixed, new_object, put_answer, put_in, put_of, with_inner};
ghost use Rattle.widl_store.specs.Found.{Shows, found_at, own_flags};
ghost use Rattle.widl_store.specs.Inners.{has_shape, inner_term, kind_of};
ghost use Rattle.widl_store.specs.Meeting.{answer_of};
ghost use Rattle.widl_store.specs.Objects.{IsLive, home_of, length_key, own_at, same_key, with_objects};
ghost use Rattle.widl_store.specs.OwnKeys.{OwnKeys, keys_at};
ghost use Rattle.widl_store.specs.declared.homes.Homes.{Homes as Places};
ghost use Rattle.widl_store.specs.Sound.{Sound, SoundAt, SoundHomes};
ghost use Rattle.widl_value.specs.declared.value.Value as ValueType;

use crate::effects::{DefineFault, NotConfigurable, Put, PutFault};
use crate::found::Found;
use crate::homes::{Home, Homes, SpaceHome};
use crate::inner::Inner;
use crate::meets::Meets;
use crate::object::{LENGTH_FLAGS, Object};
use crate::own_keys::own_keys;
use crate::property::{Prop, PropRef};
use std::alloc::{AllocError, Global};
use std::marker::Model;
use widl_text::{Items, Key, Units};
use widl_value::{Flags, Keys, ObjRef, Shape, Value};

/// The flags of a property that an assignment makes (ECMA-262, CreateDataProperty).
const ALL_FLAGS: Flags = Flags {
    writable: true,
    enumerable: true,
    configurable: true,
};

/// The objects of a run by their numbers, and where the objects of interfaces and namespaces stand.
///
/// A prototype has a lower number than its object. Each call asks that the references are live: that the
/// object of that number is held and has the shape that the reference names.
#[derive(Drop)]
pub struct Store {
    objects: Vec<Object>,
    homes: Homes,
    /// The key of the lengths of arrays.
    lengths: Key,
}

impl Model for Store {
    ghost use Rattle.std.specs.Coded.{codes};
    ghost use Rattle.widl_store.specs.IdlCodes.{term_code};
    ghost use Rattle.widl_store.specs.Objects.{StoreState};
    ghost use Rattle.widl_store.specs.Sound.{SoundStore};

    ghost Value = { StoreState };

    ghost coded = { Prim.hlevel (codes, term_code (Prim.hlevel codes)) };

    ghost view = { λ s. record { objects = s.objects.items; homes = s.homes } };

    ghost invariant = { λ s. SoundStore s.objects.items s.homes s.lengths };
}

impl Store {
    /// The store of these objects and of the namespaces' numbers, without interfaces.
    pub(crate) fn of(
        alloc: Global,
        objects: Vec<Object>,
        spaces: Items<SpaceHome>,
        lengths: Key,
    ) -> Store
        requires sound { Sound objects.items }
        requires homes { SoundHomes objects.items (record { ifaces = []; spaces = spaces }) }
        requires lengths { lengths ≡ length_key }
        ensures { result ≡ record { objects = objects.items; homes = record { ifaces = []; spaces = spaces } } }
    {
        Store {
            objects,
            homes: Homes {
                ifaces: Items::new(alloc),
                spaces,
            },
            lengths,
        }
    }

    /// What the object or else its chain of prototypes has at the key (ECMA-262, OrdinaryGet).
    pub fn find(&self, obj: ObjRef, key: &Key) -> Found<'_>
        requires live { IsLive self.now.objects obj }
        ensures { Shows (found_at self.now.objects obj.id key.now) result }
    {
        match self.property(obj.id, key) {
            None => Found::Nothing,
            Some(PropRef::Plain { value, .. }) => Found::Held(value),
            Some(PropRef::Accessor { get: None, .. }) => Found::NoGetter,
            Some(
                PropRef::Accessor {
                    get: Some(getter),
                    ..
                },
            ) => Found::Getter(getter),
        }
    }

    /// The flags of the property that the object itself has at the key (ECMA-262,
    /// OrdinaryGetOwnProperty).
    pub fn own(&self, obj: ObjRef, key: &Key) -> Option<Flags>
        requires live { IsLive self.now.objects obj }
        ensures { result ≡ own_flags (own_at self.now.objects obj.id key.now) }
    {
        match object_at(&self.objects, obj.id as usize).own(key) {
            None => None,
            Some(PropRef::Plain { flags, .. }) => Some(flags),
            Some(PropRef::Accessor { flags, .. }) => Some(flags),
        }
    }

    /// The keys of the object's own properties in their order (ECMA-262, OrdinaryOwnPropertyKeys).
    ///
    /// # Errors
    ///
    /// `AllocError` where there is no memory.
    pub fn own_keys(&self, obj: ObjRef) -> Result<Keys, AllocError>
        requires live { IsLive self.now.objects obj }
        ensures { IfOk result (λ keys. OwnKeys (keys_at self.now.objects obj.id) keys) }
    {
        let alloc = *self.objects.allocator();
        let keys = object_at(&self.objects, obj.id as usize).keys_in_order(alloc)?;
        own_keys(alloc, keys)
    }

    /// Puts the value at the key of the object itself, unless the first property along the prototypes is
    /// read only or an accessor (ECMA-262, OrdinarySet, with the object as the receiver). A property that
    /// the object has keeps its flags and its place; an index raises the length of an array.
    ///
    /// # Errors
    ///
    /// [`PutFault`]: `Length` before the others, `Memory` only where the object itself lacks the key. The
    /// store is then unchanged, and so it is where a setter is to be called.
    pub fn put(&mut self, obj: ObjRef, key: Key, value: Value) -> Result<Put, PutFault>
        requires live { IsLive self.old.objects obj }
        ensures answer { result ≢ Err PutFault.Memory → result ≡ put_of (is_fixed self.old.objects obj.id key) (found_at self.old.objects obj.id key) value }
        ensures memory { result ≡ Err PutFault.Memory → (put_of (is_fixed self.old.objects obj.id key) (found_at self.old.objects obj.id key) value ≡ Ok Put.Done) × (own_at self.old.objects obj.id key ≡ None) }
        ensures done { result ≡ Ok Put.Done → self.new ≡ with_objects self.old (put_in self.old.objects obj.id key value) }
        ensures kept { result ≢ Ok Put.Done → self.new ≡ self.old }
    {
        if self.is_fixed(obj, &key) {
            drop(key);
            drop(value);
            return Err(PutFault::Length);
        }
        match self.meets(obj.id, &key) {
            Meets::ReadOnly(flags) => {
                drop(key);
                drop(value);
                Err(PutFault::ReadOnly(flags))
            }
            Meets::NoSetter => {
                drop(key);
                drop(value);
                Err(PutFault::NoSetter)
            }
            Meets::Setter(setter) => {
                drop(key);
                Ok(Put::Setter(setter, value))
            }
            Meets::Way => {
                let flags = self.own(obj, &key).unwrap_or(ALL_FLAGS);
                let prop = Prop::Plain { value, flags };
                match self.put_own(obj, key, prop) {
                    Ok(()) => Ok(Put::Done),
                    Err(_) => Err(PutFault::Memory),
                }
            }
        }
    }

    /// Defines the property at the key of the object itself (ECMA-262, OrdinaryDefineOwnProperty): in the
    /// place of that which it has, else last. An index raises the length of an array. It is this program's
    /// own that a property which isn't configurable is never defined anew, nor the length of an array.
    ///
    /// # Errors
    ///
    /// [`DefineFault`]: `Length` before the others, `Memory` only where the object itself lacks the key.
    /// The store is then unchanged.
    pub fn define(&mut self, obj: ObjRef, key: Key, prop: Prop) -> Result<(), DefineFault>
        requires live { IsLive self.old.objects obj }
        ensures answer { result ≢ Err DefineFault.Memory → result ≡ define_of (is_fixed self.old.objects obj.id key) (own_at self.old.objects obj.id key) }
        ensures memory { result ≡ Err DefineFault.Memory → (is_fixed self.old.objects obj.id key ≡ false) × (own_at self.old.objects obj.id key ≡ None) }
        ensures done { OnOk result (self.new ≡ with_objects self.old (defined self.old.objects obj.id key prop)) }
        ensures kept { OnErr result (self.new ≡ self.old) }
    {
        if self.is_fixed(obj, &key) {
            drop(key);
            drop(prop);
            return Err(DefineFault::Length);
        }
        match self.own(obj, &key) {
            Some(flags) if !flags.configurable => {
                drop(key);
                drop(prop);
                Err(DefineFault::NotConfigurable(flags))
            }
            _ => match self.put_own(obj, key, prop) {
                Ok(()) => Ok(()),
                Err(_) => Err(DefineFault::Memory),
            },
        }
    }

    /// Removes the property at the key of the object itself (ECMA-262, OrdinaryDelete). A key that it
    /// lacks is removed too.
    ///
    /// # Errors
    ///
    /// [`NotConfigurable`]. The store is then unchanged.
    #[tactic(auto, using(crate::proofs::Fixed::fixed_delete))]
    pub fn delete(&mut self, obj: ObjRef, key: &Key) -> Result<(), NotConfigurable>
        requires live { IsLive self.old.objects obj }
        ensures answer { result ≡ delete_of (own_at self.old.objects obj.id key.now) }
        ensures done { OnOk result (self.new ≡ with_objects self.old (deleted self.old.objects obj.id key.now)) }
        ensures kept { OnErr result (self.new ≡ self.old) }
    {
        if self.is_fixed(obj, key) {
            return Err(NotConfigurable(LENGTH_FLAGS));
        }
        match self.own(obj, key) {
            Some(flags) if !flags.configurable => Err(NotConfigurable(flags)),
            _ => {
                remove_at(&mut self.objects, obj.id as usize, key);
                Ok(())
            }
        }
    }

    /// Adds an object, whose number is the next. It has no property, but an array has its length.
    ///
    /// # Errors
    ///
    /// `AllocError` where there is no memory; the store is then unchanged.
    pub fn add(
        &mut self,
        proto: Option<ObjRef>,
        shape: Shape,
        inner: Inner,
    ) -> Result<ObjRef, AllocError>
        requires small { length self.old.objects < 2 ^ 32 - 1 }
        requires proto { IfSome proto (λ p. IsLive self.old.objects p) }
        requires shape { has_shape (kind_of (inner_term inner)) shape ≡ true }
        ensures reference { IfOk result (λ obj. obj ≡ record { id = length self.old.objects; shape = shape }) }
        ensures ok { OnOk result (self.new ≡ with_objects self.old (added self.old.objects proto shape (inner_term inner))) }
        ensures err { OnErr result (self.new ≡ self.old) }
    {
        let id = self.objects.len() as u32;
        let alloc = *self.objects.allocator();
        let object = Object::new(alloc, &self.lengths, proto, shape, inner)?;
        push(&mut self.objects, object)?;
        Ok(ObjRef { id, shape })
    }

    /// The inner part of the object.
    pub fn inner(&self, obj: ObjRef) -> &Inner
        requires live { IsLive self.now.objects obj }
        ensures { option_map (λ o. o.inner) (slice_get self.now.objects obj.id) ≡ Some (inner_term result.now) }
    {
        object_at(&self.objects, obj.id as usize).inner()
    }

    /// Replaces the inner part by one of the same kind, with as many slots; the answer is the old one.
    pub fn set_inner(&mut self, obj: ObjRef, inner: Inner) -> Inner
        requires live { IsLive self.old.objects obj }
        requires kind { option_map (λ o. kind_of o.inner) (slice_get self.old.objects obj.id) ≡ Some (kind_of (inner_term inner)) }
        ensures done { self.new ≡ with_objects self.old (with_inner self.old.objects obj.id (inner_term inner)) }
        ensures former { option_map (λ o. o.inner) (slice_get self.old.objects obj.id) ≡ Some (inner_term result) }
    {
        replace_inner(&mut self.objects, obj.id as usize, inner)
    }

    /// The object that stands for a definition; none where the list of definitions has no such interface,
    /// namespace or iterable.
    pub fn home(&self, what: Home) -> Option<ObjRef>
        ensures { result ≡ home_of self.now.homes what }
    {
        self.homes.home(what)
    }

    /// That what holds of every store holds of this one: a law, which takes no step.
    pub fn is_sound(&self)
        ensures objects { Sound self.now.objects }
        ensures homes { SoundHomes self.now.objects self.now.homes }
    {
        let _objects = &self.objects;
    }

    /// Whether the property is the length of an array.
    #[tactic(auto, unfolding(crate::specs::Effects::is_fixed))]
    fn is_fixed(&self, obj: ObjRef, key: &Key) -> bool
        requires { obj.id < length self.now.objects }
        ensures { result ≡ is_fixed self.now.objects obj.id key.now }
    {
        object_at(&self.objects, obj.id as usize).is_array() && is_same(key, &self.lengths)
    }

    /// Puts the property at a key that isn't that of an array's length.
    fn put_own(&mut self, obj: ObjRef, key: Key, prop: Prop) -> Result<(), AllocError>
        requires place { obj.id < length self.old.objects }
        requires free { is_fixed self.old.objects obj.id key ≡ false }
        ensures done { OnOk result (self.new ≡ with_objects self.old (defined self.old.objects obj.id key prop)) }
        ensures kept { OnErr result (self.new ≡ self.old) }
        ensures absent { OnErr result (own_at self.old.objects obj.id key ≡ None) }
    {
        put_at(&mut self.objects, obj.id as usize, &self.lengths, key, prop)
    }

    /// What the first property along the prototypes says to a put.
    fn meets(&self, id: u32, key: &Key) -> Meets
        requires { id < length self.now.objects }
        ensures { (value : ValueType.Value) → put_answer (found_at self.now.objects id key.now) value ≡ answer_of result value }
    {
        match self.property(id, key) {
            None => Meets::Way,
            Some(PropRef::Plain { flags, .. }) => {
                if flags.writable {
                    Meets::Way
                } else {
                    Meets::ReadOnly(flags)
                }
            }
            Some(PropRef::Accessor { set: None, .. }) => Meets::NoSetter,
            Some(
                PropRef::Accessor {
                    set: Some(setter),
                    ..
                },
            ) => Meets::Setter(setter),
        }
    }

    /// The property that the key finds on the object and its chain of prototypes.
    fn property(&self, id: u32, key: &Key) -> Option<PropRef<'_>>
        requires { id < length self.now.objects }
        ensures { option_map prop_of result ≡ found_at self.now.objects id key.now }
    {
        let mut at = id;
        loop {
            let object = object_at(&self.objects, at as usize);
            if let Some(prop) = object.own(key) {
                return Some(prop);
            }
            match object.proto() {
                None => return None,
                Some(proto) => at = proto.id,
            }
        }
    }
}

/// The key of the lengths of arrays.
#[tactic(auto, unfolding(crate::specs::Objects::length_key))]
pub(crate) fn length_key(alloc: Global) -> Result<Key, AllocError>
    ensures { IfOk result (λ key. key ≡ length_key) }
{
    Ok(Key::Name(Units::of_ascii(alloc, "length")?))
}

fn is_same(a: &Key, b: &Key) -> bool
    ensures { result ≡ same_key a.now b.now }
{
    a == b
}

fn object_at(objects: &Vec<Object>, at: usize) -> &Object
    requires { at < length objects.now.items }
    ensures { slice_get objects.now.items at ≡ Some result.now }
{
    &objects[at]
}

#[tactic(auto, unfolding(crate::specs::Effects::is_fixed))]
fn put_at(
    objects: &mut Vec<Object>,
    at: usize,
    lengths: &Key,
    key: Key,
    prop: Prop,
) -> Result<(), AllocError>
    requires place { at < length objects.old.items }
    requires lengths { lengths.now ≡ length_key }
    requires free { is_fixed objects.old.items at key ≡ false }
    ensures done { OnOk result (objects.new.items ≡ defined objects.old.items at key prop) }
    ensures kept { OnErr result (objects.new.items ≡ objects.old.items) }
    ensures absent { OnErr result (own_at objects.old.items at key ≡ None) }
    ensures sound { Sound objects.old.items → Sound objects.new.items }
    ensures homes { (places : Places) → SoundHomes objects.old.items places → SoundHomes objects.new.items places }
{
    objects[at].put(lengths, key, prop)
}

#[tactic(auto, unfolding(crate::specs::Effects::is_fixed))]
fn remove_at(objects: &mut Vec<Object>, at: usize, key: &Key)
    requires place { at < length objects.old.items }
    requires free { is_fixed objects.old.items at key.now ≡ false }
    ensures done { objects.new.items ≡ deleted objects.old.items at key.now }
    ensures sound { Sound objects.old.items → Sound objects.new.items }
    ensures homes { (places : Places) → SoundHomes objects.old.items places → SoundHomes objects.new.items places }
{
    objects[at].remove(key);
}

fn push(objects: &mut Vec<Object>, object: Object) -> Result<(), AllocError>
    ensures ok { OnOk result (objects.new.items ≡ objects.old.items ++ object ∷ []) }
    ensures err { OnErr result (objects.new.items ≡ objects.old.items) }
    ensures sound { Sound objects.old.items → SoundAt (length objects.old.items) object → Sound objects.new.items }
    ensures homes { (places : Places) → SoundHomes objects.old.items places → SoundHomes objects.new.items places }
{
    objects.push(object)?;
    Ok(())
}

fn replace_inner(objects: &mut Vec<Object>, at: usize, inner: Inner) -> Inner
    requires place { at < length objects.old.items }
    requires kind { option_map (λ o. kind_of o.inner) (slice_get objects.old.items at) ≡ Some (kind_of (inner_term inner)) }
    ensures done { objects.new.items ≡ with_inner objects.old.items at (inner_term inner) }
    ensures former { option_map (λ o. o.inner) (slice_get objects.old.items at) ≡ Some (inner_term result) }
    ensures sound { Sound objects.old.items → Sound objects.new.items }
    ensures homes { (places : Places) → SoundHomes objects.old.items places → SoundHomes objects.new.items places }
{
    objects[at].set_inner(inner)
}
