//! Namespace objects and their functions.

ghost use Rattle.std.specs.Prelude.{◌≡◌, ◌+◌, ◌<◌, ◌^◌, ◌∷◌, ◌++◌, [], IfOk, OnOk, length, map};
ghost use Rattle.widl_idl.specs.DefinitionTerms.{op_name_term, space_term};
ghost use Rattle.widl_store.specs.Bounds.{HasRoom};
ghost use Rattle.widl_store.specs.Effects.{with_props};
ghost use Rattle.widl_store.specs.Inners.{SpacePart};
ghost use Rattle.widl_store.specs.Objects.{length_key};
ghost use Rattle.widl_store.specs.Plans.{object_of, object_on, tag, with_entries};
ghost use Rattle.widl_store.specs.Realm.{after, functions_from, homes_from, namespace_object, namespace_plans, namespaces_from, operation_function, operations_from, unset_slots};
ghost use Rattle.widl_value.specs.IdlTerms.{slot_terms};

use crate::functions::{function, shortest};
use crate::homes::SpaceHome;
use crate::inner::{Builtin, Inner};
use crate::object::Object;
use crate::plans::{operation, text};
use std::alloc::{AllocError, Global};
use widl_idl::{Callee, OpName, Owner, Part, Space};
use widl_text::{Items, Key};
use widl_value::{IdlSlots, ObjRef, Shape};

/// The symbol `@toStringTag`.
const TO_STRING_TAG: u32 = 2;

/// Adds the object of each namespace, and after it its functions.
///
/// # Errors
///
/// `AllocError` where there is no memory.
pub(crate) fn add_namespaces(
    alloc: Global,
    lengths: &Key,
    objects: &mut Vec<Object>,
    homes: &mut Items<SpaceHome>,
    spaces: &[Space],
) -> Result<(), AllocError>
    requires key { lengths.now ≡ length_key }
    requires room { HasRoom (length objects.old.items) (map space_term spaces.now) }
    ensures objects { OnOk result (objects.new.items ≡ objects.old.items ++ map object_of (namespaces_from (length objects.old.items) 0 (map space_term spaces.now))) }
    ensures homes { OnOk result (homes.new ≡ homes.old ++ homes_from (length objects.old.items) (map space_term spaces.now)) }
{
    for (number, space) in spaces.iter().enumerate() {
        homes.push(namespace_home(objects, space))?;
        add_namespace(alloc, lengths, objects, number as u32, space)?;
    }
    Ok(())
}

/// The number of the next object.
fn next_id(objects: &Vec<Object>) -> u32
    requires { length objects.now.items < 2 ^ 32 }
    ensures { result ≡ length objects.now.items }
{
    objects.len() as u32
}

/// Where the object of a namespace stands, which is the next one.
fn namespace_home(objects: &Vec<Object>, space: &Space) -> SpaceHome
    requires { length objects.now.items < 2 ^ 32 }
    ensures { result ≡ record { object = length objects.now.items; slots = length space.now.attrs } }
{
    SpaceHome {
        object: next_id(objects),
        slots: space.attrs.len(),
    }
}

/// Adds the object of a namespace, and after it its functions.
fn add_namespace(
    alloc: Global,
    lengths: &Key,
    objects: &mut Vec<Object>,
    number: u32,
    space: &Space,
) -> Result<(), AllocError>
    requires key { lengths.now ≡ length_key }
    requires room { after (length objects.old.items) (space_term space.now) < 2 ^ 32 }
    ensures { OnOk result (objects.new.items ≡ objects.old.items ++ map object_of (namespace_plans (length objects.old.items) number (space_term space.now))) }
{
    let id = next_id(objects);
    let object = namespace_object(alloc, lengths, id, space)?;
    objects.push(object)?;
    add_functions(alloc, lengths, objects, number, space.ops.as_slice())?;
    Ok(())
}

/// The object of a namespace: its operations, whose functions have the numbers after its own, and its tag.
fn namespace_object(
    alloc: Global,
    lengths: &Key,
    id: u32,
    space: &Space,
) -> Result<Object, AllocError>
    requires key { lengths.now ≡ length_key }
    requires room { after id (space_term space.now) < 2 ^ 32 }
    ensures { IfOk result (λ o. o ≡ object_of (namespace_object id (space_term space.now))) }
{
    let mut object = empty_namespace(alloc, lengths, space.attrs.len())?;
    match set_members(&mut object, id, space) {
        Ok(()) => Ok(object),
        Err(error) => {
            drop(object);
            Err(error)
        }
    }
}

/// Gives the object of a namespace its operations, whose functions have the numbers after this one, and its tag.
fn set_members(object: &mut Object, id: u32, space: &Space) -> Result<(), AllocError>
    requires { after id (space_term space.now) < 2 ^ 32 }
    ensures { OnOk result (object.new ≡ with_props object.old (with_entries object.old.props (operations_from (id + 1) (space_term space.now).members.ops ++ tag space.now.name ∷ []))) }
{
    set_operations(object, id, space.ops.as_slice())?;
    let name = space.name.copy()?;
    object.set(Key::Sym(TO_STRING_TAG), text(name))?;
    Ok(())
}

/// The object of a namespace with so many attributes, without its properties.
fn empty_namespace(alloc: Global, lengths: &Key, attributes: usize) -> Result<Object, AllocError>
    requires { lengths.now ≡ length_key }
    ensures { IfOk result (λ o. o ≡ object_of (object_on 0 (SpacePart (unset_slots attributes)) [])) }
{
    let proto = ObjRef {
        id: 0,
        shape: Shape::Plain,
    };
    let slots = unset_slots(alloc, attributes)?;
    let object = Object::new(
        alloc,
        lengths,
        Some(proto),
        Shape::Plain,
        Inner::Space { slots },
    )?;
    Ok(object)
}

/// So many slots, all unset.
fn unset_slots(alloc: Global, count: usize) -> Result<IdlSlots, AllocError>
    ensures { IfOk result (λ slots. slot_terms slots ≡ unset_slots count) }
{
    let mut slots = IdlSlots::new(alloc);
    for _ in 0..count {
        slots.push(None)?;
    }
    Ok(slots)
}

/// Gives the object its operations, whose functions have the numbers after this one.
fn set_operations(object: &mut Object, id: u32, ops: &[OpName]) -> Result<(), AllocError>
    requires { id + length ops.now < 2 ^ 32 }
    ensures { OnOk result (object.new ≡ with_props object.old (with_entries object.old.props (operations_from (id + 1) (map op_name_term ops.now)))) }
{
    let mut last = id;
    for op in ops {
        last += 1;
        object.set(Key::Name(op.name.copy()?), operation(last))?;
    }
    Ok(())
}

/// Adds the functions of a namespace, one for each operation name.
fn add_functions(
    alloc: Global,
    lengths: &Key,
    objects: &mut Vec<Object>,
    space: u32,
    ops: &[OpName],
) -> Result<(), AllocError>
    requires key { lengths.now ≡ length_key }
    requires few { length ops.now < 2 ^ 32 }
    ensures { OnOk result (objects.new.items ≡ objects.old.items ++ map object_of (functions_from space 0 (map op_name_term ops.now))) }
{
    for (place, op) in ops.iter().enumerate() {
        let object = operation_function(alloc, lengths, space, place as u32, op)?;
        objects.push(object)?;
    }
    Ok(())
}

/// The function of the operations of a name.
fn operation_function(
    alloc: Global,
    lengths: &Key,
    space: u32,
    place: u32,
    op: &OpName,
) -> Result<Object, AllocError>
    requires { lengths.now ≡ length_key }
    ensures { IfOk result (λ o. o ≡ object_of (operation_function space place (op_name_term op.now))) }
{
    let callee = Callee {
        owner: Owner::Space(space),
        part: Part::Op(place),
    };
    let count = shortest(op.sigs.as_slice());
    let object = function(alloc, lengths, Builtin::Callee(callee), count, &op.name)?;
    Ok(object)
}
