//! The store before a script begins.

ghost use Rattle.std.specs.Prelude.{◌≡◌, ◌∷◌, ◌++◌, [], IfOk, OnOk, map, option_map};
ghost use Rattle.widl_idl.specs.DefinitionTerms.{defs_term, space_term};
ghost use Rattle.widl_overload.specs.OperationsAlone.{HasOperationsAlone};
ghost use Rattle.widl_store.specs.Bounds.{HasRoom};
ghost use Rattle.widl_store.specs.Effects.{new_object, with_props};
ghost use Rattle.widl_store.specs.Intrinsics.{intrinsics};
ghost use Rattle.widl_store.specs.Objects.{length_key, plain_object, with_prop};
ghost use Rattle.widl_store.specs.Plans.{object_of, with_entries};
ghost use Rattle.widl_store.specs.Realm.{realm_of, realm_over};
ghost use Rattle.widl_store.specs.Rows.{entry_of_cell, part_of_row, plan_of_row, shape_of_row};

use crate::inner::{Builtin, Inner};
use crate::intrinsics::{Cell, ROWS, Row, RowKind};
use crate::namespaces::add_namespaces;
use crate::object::Object;
use crate::plans::{count, method, text};
use crate::property::Prop;
use crate::store::{Store, length_key};
use std::alloc::{AllocError, Global};
use widl_idl::Space;
use widl_overload::Accepted;
use widl_text::{Items, Key, Units};
use widl_value::{ObjRef, Shape};

/// The store before a script begins: the objects that are there whatever the definitions are, and then
/// for each namespace its object and one function for each operation name (`docs/INITIAL_STORE.md`). It
/// asks for a list without interfaces, whose namespaces have operations alone.
///
/// # Errors
///
/// `AllocError` where there is no memory.
pub fn realm(alloc: Global, list: &Accepted) -> Result<Store, AllocError>
    requires { HasOperationsAlone (defs_term list.now.defs) }
    ensures { IfOk result (λ store. store ≡ realm_of (defs_term list.now.defs)) }
{
    let store = store_over(alloc, list.defs().spaces.as_slice())?;
    Ok(store)
}

/// The store before a script begins, where these are the namespaces.
fn store_over(alloc: Global, spaces: &[Space]) -> Result<Store, AllocError>
    requires { HasRoom 18 (map space_term spaces.now) }
    ensures { IfOk result (λ store. store ≡ realm_over (map space_term spaces.now)) }
{
    let lengths = length_key(alloc)?;
    let Ok(mut objects) = intrinsics(alloc, &lengths) else {
        drop(lengths);
        return Err(AllocError);
    };
    let mut homes = Items::new(alloc);
    match add_namespaces(alloc, &lengths, &mut objects, &mut homes, spaces) {
        Ok(()) => Ok(Store::of(alloc, objects, homes, lengths)),
        Err(error) => {
            drop(objects);
            drop(homes);
            drop(lengths);
            Err(error)
        }
    }
}

/// The objects that are there whatever the definitions are.
fn intrinsics(alloc: Global, lengths: &Key) -> Result<Vec<Object>, AllocError>
    requires { lengths.now ≡ length_key }
    ensures { IfOk result (λ objects. objects.items ≡ map object_of intrinsics) }
{
    let objects = objects_of(alloc, lengths, &ROWS)?;
    Ok(objects)
}

fn objects_of(alloc: Global, lengths: &Key, rows: &[Row]) -> Result<Vec<Object>, AllocError>
    requires { lengths.now ≡ length_key }
    ensures { IfOk result (λ objects. objects.items ≡ map object_of (map plan_of_row rows.now)) }
{
    let mut objects = Vec::new(alloc);
    for row in rows {
        objects.push(object_of(alloc, lengths, row)?)?;
    }
    Ok(objects)
}

/// The object of a row of the table.
fn object_of(alloc: Global, lengths: &Key, row: &Row) -> Result<Object, AllocError>
    requires { lengths.now ≡ length_key }
    ensures { IfOk result (λ o. o ≡ object_of (plan_of_row row.now)) }
{
    let mut object = empty_object(alloc, lengths, row.proto, row.kind)?;
    match set_cells(alloc, &mut object, row.cells) {
        Ok(()) => Ok(object),
        Err(error) => {
            drop(object);
            Err(error)
        }
    }
}

/// The object of a row, without its properties.
fn empty_object(
    alloc: Global,
    lengths: &Key,
    proto: Option<u32>,
    kind: RowKind,
) -> Result<Object, AllocError>
    requires { lengths.now ≡ length_key }
    ensures { IfOk result (λ o. o ≡ new_object (option_map plain_object proto) (shape_of_row kind) (part_of_row kind)) }
{
    let proto = match proto {
        None => None,
        Some(id) => Some(ObjRef {
            id,
            shape: Shape::Plain,
        }),
    };
    let (shape, inner) = match kind {
        RowKind::Plain => (Shape::Plain, Inner::Plain),
        RowKind::Array => (Shape::Plain, Inner::Array),
        RowKind::Function(number) => (Shape::Callable, Inner::Builtin(Builtin::Intrinsic(number))),
    };
    Object::new(alloc, lengths, proto, shape, inner)
}

/// Defines the properties of a row, one after another.
fn set_cells(alloc: Global, object: &mut Object, cells: &[Cell]) -> Result<(), AllocError>
    ensures { OnOk result (object.new ≡ with_props object.old (with_entries object.old.props (map entry_of_cell cells.now))) }
{
    for cell in cells {
        set_cell(alloc, object, cell)?;
    }
    Ok(())
}

/// Defines a property of a row.
fn set_cell(alloc: Global, object: &mut Object, cell: &Cell) -> Result<(), AllocError>
    ensures { OnOk result (object.new ≡ with_props object.old (with_prop object.old.props (entry_of_cell cell.now).0 (entry_of_cell cell.now).1)) }
{
    let key = cell_key(alloc, cell)?;
    let Ok(prop) = cell_prop(alloc, cell) else {
        drop(key);
        return Err(AllocError);
    };
    object.set(key, prop)?;
    Ok(())
}

/// The key of a property of the table.
#[tactic(auto, unfolding(crate::specs::Objects::length_key))]
fn cell_key(alloc: Global, cell: &Cell) -> Result<Key, AllocError>
    ensures { IfOk result (λ key. key ≡ (entry_of_cell cell.now).0) }
{
    match cell {
        Cell::Method(text, _) => Ok(Key::Name(ascii(alloc, text)?)),
        Cell::Iterator(_) => Ok(Key::Sym(0)),
        Cell::Tag(_) => Ok(Key::Sym(2)),
        Cell::Number(_) => length_key(alloc),
        Cell::Name(_) => Ok(Key::Name(Units::of_ascii(alloc, "name")?)),
    }
}

/// A property of the table.
fn cell_prop(alloc: Global, cell: &Cell) -> Result<Prop, AllocError>
    ensures { IfOk result (λ prop. prop ≡ (entry_of_cell cell.now).1) }
{
    match cell {
        Cell::Method(_, id) | Cell::Iterator(id) => Ok(method(*id)),
        Cell::Tag(held) | Cell::Name(held) => Ok(text(ascii(alloc, held)?)),
        Cell::Number(n) => Ok(count(*n as usize)),
    }
}

/// The units of an ASCII text.
fn ascii(alloc: Global, text: &str) -> Result<Units, AllocError>
    ensures { IfOk result (λ units. units ≡ text.now) }
{
    let mut units = Units::new(alloc);
    for byte in text.as_bytes() {
        units.push(u16::from(*byte))?;
    }
    Ok(units)
}
