//! The members of the parts of a definition.

ghost use Rattle.std.specs.Prelude.{◌≡◌, ◌++◌, flat_map, IfOk, OnOk};
ghost use Rattle.widl_idl.specs.Parts.{members_in};
ghost use Rattle.widl_idl.specs.PlainTrees.{members_of};
ghost use Rattle.widl_names.specs.Listings.{listed_members};
ghost use Rattle.widl_names.specs.PartTables.{listed_parts};

use crate::parts::members_in;
use std::alloc::{AllocError, Global};
use widl_idl::tree::{DefinitionKind, Member};

/// The members of these parts of a definition, in the order of the parts.
///
/// # Errors
///
/// `AllocError` where there is no memory.
pub fn list_members<'a>(
    alloc: Global,
    parts: &[&'a DefinitionKind],
) -> Result<Vec<&'a Member>, AllocError>
    ensures { IfOk result (λ list. listed_members list.items ≡ flat_map members_in (listed_parts parts.now)) }
{
    let mut list = Vec::new(alloc);
    for part in parts {
        add_members(&mut list, members_in(part))?;
    }
    Ok(list)
}

fn add_members<'a>(list: &mut Vec<&'a Member>, members: &'a [Member]) -> Result<(), AllocError>
    ensures { OnOk result (listed_members list.new.items ≡ listed_members list.old.items ++ members_of members.now) }
{
    list.reserve(members.len())?;
    for member in members {
        list.push(member)?;
    }
    Ok(())
}
