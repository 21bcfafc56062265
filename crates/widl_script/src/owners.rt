//! Which of the names of a script are those of namespaces.

ghost use Rattle.std.specs.Prelude.{◌≡◌, ◌+◌, ◌<◌, ◌∷◌, [], bytes_eq, length, List, map, nat_eq, slice_index, IfOk, None, OnOk, Some, ℕ, if◌then◌else◌};
ghost use Rattle.std.specs.Option.{option_or};
ghost use Rattle.indexmap.specs.IndexMap.{get_by};
ghost use Rattle.widl_idl.specs.DefinitionTerms.{defs_term, space_term};
ghost use Rattle.widl_overload.specs.OperationsAlone.{HasOperationsAlone};
ghost use Rattle.widl_script_tree.specs.Tables.{name_at};
ghost use Rattle.widl_script.specs.Owners.{owner_in, owner_there};
ghost use Rattle.widl_script.specs.Scripts.{owner_named};

use indexmap::IndexMap;
use std::alloc::{AllocError, Global};
use widl_idl::{Defs, Owner, Space};
use widl_script_tree::ScriptTables;

/// Keeps the number of a namespace under its name, unless there is one.
fn add_space<'d>(
    owners: &mut IndexMap<&'d [u16], Owner>,
    number: u32,
    space: &'d Space,
) -> Result<(), AllocError>
    ensures owners { OnOk result ((text : List ℕ) → owner_in owners.new text ≡ option_or (owner_in owners.old text) (if bytes_eq text space.now.name then Some (Owner.Space number) else None)) }
    ensures units { (place : ℕ) → slice_index space.now.name place < 65536 }
{
    let name = space.name.as_slice();
    if owners.contains_key(name) {
        return Ok(());
    }
    owners.insert(name, Owner::Space(number))?;
    Ok(())
}

/// The namespaces by their names, of several with one name the first.
fn spaces_by_name(alloc: Global, spaces: &[Space]) -> Result<IndexMap<&[u16], Owner>, AllocError>
    requires { length spaces.now < 4294967296 }
    ensures owners { IfOk result (λ owners. (text : List ℕ) → owner_in owners text ≡ owner_there (map space_term spaces.now) text) }
    ensures none { OnOk result ((unit : ℕ) → owner_there (map space_term spaces.now) ((65536 + unit) ∷ []) ≡ None) }
{
    let mut owners = IndexMap::new(alloc);
    'spaces: for (number, space) in spaces.iter().enumerate() {
        add_space(&mut owners, number as u32, space)?;
    }
    Ok(owners)
}

/// Says of a name's number which namespace has the name.
fn add_name(
    owners: &mut IndexMap<u32, Owner>,
    spaces: &IndexMap<&[u16], Owner>,
    number: u32,
    name: &[u16],
) -> Result<(), AllocError>
    ensures { OnOk result ((other : ℕ) → get_by (nat_eq other) owners.new ≡ option_or (if nat_eq other number then owner_in spaces.now name.now else None) (get_by (nat_eq other) owners.old)) }
{
    match spaces.get(name) {
        Some(owner) => {
            owners.insert(number, *owner)?;
            Ok(())
        }
        None => Ok(()),
    }
}

/// The namespaces of a script's names, by the names' numbers.
pub(crate) fn owners_of_names(
    alloc: Global,
    tables: &ScriptTables,
    list: &Defs,
) -> Result<IndexMap<u32, Owner>, AllocError>
    requires rules { HasOperationsAlone (defs_term list.now) }
    requires few { length list.now.spaces < 4294967296 }
    ensures { IfOk result (λ owners. (number : ℕ) → get_by (nat_eq number) owners ≡ owner_named (defs_term list.now) (name_at tables.now number)) }
{
    let spaces = spaces_by_name(alloc, list.spaces.as_slice())?;
    let mut owners = IndexMap::new(alloc);
    'names: for number in 0..tables.name_count() {
        add_name(&mut owners, &spaces, number, tables.name(number).as_slice())?;
    }
    Ok(owners)
}
