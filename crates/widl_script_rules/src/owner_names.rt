//! The names of interfaces and namespaces.

ghost use Rattle.std.specs.Prelude.{◌≡◌, ◌||◌, ℕ, bytes_eq, List, IfOk, OnOk};
ghost use Rattle.widl_idl.specs.DefinitionTerms.{defs_term};
ghost use Rattle.widl_script_rules.specs.Names.{is_owner_name};
ghost use Rattle.widl_script_rules.specs.Surroundings.{has_key};

use indexmap::IndexSet;
use std::alloc::{AllocError, Global};
use widl_idl::Defs;

fn add_name<'d>(names: &mut IndexSet<&'d [u16]>, name: &'d [u16]) -> Result<(), AllocError>
    ensures { OnOk result ((text : List ℕ) → has_key names.new.keys text ≡ (has_key names.old.keys text || bytes_eq text name.now)) }
{
    names.insert(name)?;
    Ok(())
}

/// The names of the interfaces and the namespaces of a list.
pub(crate) fn owner_names(alloc: Global, list: &Defs) -> Result<IndexSet<&[u16]>, AllocError>
    ensures { IfOk result (λ names. (text : List ℕ) → has_key names.keys text ≡ is_owner_name (defs_term list.now) text) }
{
    let mut names = IndexSet::new(alloc);
    'ifaces: for iface in list.ifaces.as_slice() {
        add_name(&mut names, iface.name.as_slice())?;
    }
    'spaces: for space in list.spaces.as_slice() {
        add_name(&mut names, space.name.as_slice())?;
    }
    Ok(names)
}

/// Whether an interface or a namespace has the text as its name; its units lie in the room meanwhile.
pub(crate) fn has_owner(
    owners: &IndexSet<&[u16]>,
    room: &mut Vec<u16>,
    text: &[u8],
) -> Result<bool, AllocError>
    ensures { IfOk result (λ has. has ≡ has_key owners.now.keys text.now) }
{
    room.clear();
    for byte in text {
        room.push(u16::from(*byte))?;
    }
    Ok(owners.contains(room.as_slice()))
}
