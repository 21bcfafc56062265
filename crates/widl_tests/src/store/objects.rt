//! A store with the shapes of its objects, so that each of these can be asked for.

ghost use Rattle.std.specs.Prelude.{◌≡◌, ◌-◌, ◌^◌, ◌<◌, ◌++◌, ◌∷◌, IfSome, length, map, replicate, true};
ghost use Rattle.widl_idl.specs.DefinitionTerms.{space_term};
ghost use Rattle.widl_store.specs.Realm.{realm_over};
ghost use Rattle.widl_value.specs.declared.object.Shape.TheVariants as forms;
ghost use Rattle.widl_tests.specs.Shapes.{AreShapes, IsKnown};

use crate::shared::accepted_sets::accepted;
use crate::shared::sure;
use std::alloc::{AllocError, Global};
use std::marker::Model;
use std::mem::ManuallyDrop;
use std::process::Abort;
use widl_idl::Space;
use widl_overload::{Accepted, has_operations_alone};
use widl_store::{
    DefineFault, Found, Home, Inner, NotConfigurable, Prop, Put, PutFault, Store, realm,
};
use widl_text::Key;
use widl_value::{Flags, Keys, ObjRef, Shape, Value};

/// A store whose objects' shapes are known by their numbers.
#[derive(Drop)]
pub struct Objects {
    store: Store,
    shapes: Vec<Shape>,
}

impl Model for Objects {
    ghost use Rattle.std.specs.Prelude.{List};
    ghost use Rattle.widl_value.specs.declared.object.Shape.{Shape as ShapeType};
    ghost use Rattle.widl_tests.specs.Shapes.{AreShapes};

    ghost Value = { List ShapeType };

    ghost view = { λ o. o.shapes.items };

    ghost invariant = { λ o. AreShapes o.store.objects o.shapes.items };
}

/// The shapes of the objects that are there whatever the definitions are.
const FIRST_SHAPES: [Shape; 18] = [
    Shape::Plain,
    Shape::Plain,
    Shape::Plain,
    Shape::Plain,
    Shape::Plain,
    Shape::Plain,
    Shape::Plain,
    Shape::Plain,
    Shape::Callable,
    Shape::Callable,
    Shape::Callable,
    Shape::Callable,
    Shape::Callable,
    Shape::Callable,
    Shape::Callable,
    Shape::Callable,
    Shape::Callable,
    Shape::Callable,
];

/// Adds the shapes of a namespace object and of so many functions.
#[tactic(auto, using(crate::proofs::KnownShapes::functions_more))]
fn add_shapes(rt: &impl Abort, shapes: &mut Vec<Shape>, functions: usize)
    ensures { shapes.new.items ≡ shapes.old.items ++ forms.Plain ∷ replicate functions forms.Callable }
{
    sure(rt, shapes.push(Shape::Plain));
    for _function in 0..functions {
        sure(rt, shapes.push(Shape::Callable));
    }
}

/// The shapes of the objects before a script begins, over these namespaces.
#[tactic(auto, using(crate::proofs::KnownShapes::spaces_more))]
fn shapes_over(rt: &impl Abort, alloc: Global, spaces: &[Space]) -> Vec<Shape>
    ensures { AreShapes (realm_over (map space_term spaces.now)).objects result.items }
{
    let mut shapes = sure(rt, Vec::from_slice(alloc, &FIRST_SHAPES));
    for space in spaces {
        add_shapes(rt, &mut shapes, space.ops.len());
    }
    shapes
}

/// The objects before a script begins, over these definitions.
fn objects_over(rt: &impl Abort, alloc: Global, list: &Accepted) -> Objects {
    if !has_operations_alone(list) {
        panic!(rt; "the first store of these definitions is not supported");
    }
    let store = sure(rt, realm(alloc, list));
    let shapes = shapes_over(rt, alloc, list.defs().spaces.as_slice());
    Objects { store, shapes }
}

/// The objects before a script begins, over the definitions of these files.
pub fn realm_over(rt: &impl Abort, alloc: Global, files: &[&str]) -> Objects {
    let list = ManuallyDrop::new(accepted(rt, alloc, files));
    objects_over(rt, alloc, &list)
}

impl Objects {
    /// How many objects there are.
    pub fn len(&self) -> usize
        ensures { result ≡ length self.now }
    {
        self.shapes.len()
    }

    /// Whether there is an object of this number and shape.
    pub fn is_live(&self, obj: ObjRef) -> bool
        ensures { result ≡ true → IsKnown self.now obj }
    {
        match self.shapes.get(obj.id as usize) {
            None => false,
            Some(shape) => *shape == obj.shape,
        }
    }

    /// The object of a number.
    pub fn object(&self, id: u32) -> Option<ObjRef>
        ensures { IfSome result (IsKnown self.now) }
    {
        match self.shapes.get(id as usize) {
            None => None,
            Some(shape) => Some(ObjRef { id, shape: *shape }),
        }
    }

    /// [`Store::find`].
    pub fn find(&self, obj: ObjRef, key: &Key) -> Found<'_>
        requires { IsKnown self.now obj }
    {
        self.store.find(obj, key)
    }

    /// [`Store::own`].
    pub fn own(&self, obj: ObjRef, key: &Key) -> Option<Flags>
        requires { IsKnown self.now obj }
    {
        self.store.own(obj, key)
    }

    /// [`Store::own_keys`].
    pub fn own_keys(&self, obj: ObjRef) -> Result<Keys, AllocError>
        requires { IsKnown self.now obj }
    {
        self.store.own_keys(obj)
    }

    /// [`Store::inner`].
    pub fn inner(&self, obj: ObjRef) -> &Inner
        requires { IsKnown self.now obj }
    {
        self.store.inner(obj)
    }

    /// [`Store::home`].
    pub fn home(&self, what: Home) -> Option<ObjRef> {
        self.store.home(what)
    }

    /// [`Store::put`].
    #[tactic(auto, using(crate::proofs::KnownShapes::changed_known))]
    pub fn put(&mut self, obj: ObjRef, key: Key, value: Value) -> Result<Put, PutFault>
        requires { IsKnown self.old obj }
        ensures { self.new ≡ self.old }
    {
        match self.store.put(obj, key, value) {
            Ok(Put::Done) => Ok(Put::Done),
            Ok(Put::Setter(setter, value)) => Ok(Put::Setter(setter, value)),
            Err(fault) => Err(fault),
        }
    }

    /// [`Store::define`].
    #[tactic(auto, using(crate::proofs::KnownShapes::changed_known))]
    pub fn define(&mut self, obj: ObjRef, key: Key, prop: Prop) -> Result<(), DefineFault>
        requires { IsKnown self.old obj }
        ensures { self.new ≡ self.old }
    {
        match self.store.define(obj, key, prop) {
            Ok(()) => Ok(()),
            Err(fault) => Err(fault),
        }
    }

    /// [`Store::delete`].
    #[tactic(auto, using(crate::proofs::KnownShapes::changed_known))]
    pub fn delete(&mut self, obj: ObjRef, key: &Key) -> Result<(), NotConfigurable>
        requires { IsKnown self.old obj }
        ensures { self.new ≡ self.old }
    {
        match self.store.delete(obj, key) {
            Ok(()) => Ok(()),
            Err(fault) => Err(fault),
        }
    }

    /// Adds an ordinary object with this prototype.
    #[tactic(auto, using(crate::proofs::KnownShapes::added_known))]
    pub fn add(&mut self, proto: ObjRef) -> Result<ObjRef, AllocError>
        requires small { length self.old < 2 ^ 32 - 1 }
        requires proto { IsKnown self.old proto }
    {
        self.shapes.push(Shape::Plain)?;
        match self.store.add(Some(proto), Shape::Plain, Inner::Plain) {
            Ok(obj) => Ok(obj),
            Err(error) => {
                let _ = self.shapes.pop();
                Err(error)
            }
        }
    }
}
