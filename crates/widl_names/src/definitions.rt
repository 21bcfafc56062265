//! The definitions of a set of files.

ghost use Rattle.std.specs.Prelude.{◌≡◌, ◌++◌, List, map, IfOk, OnOk};
ghost use Rattle.widl_idl.specs.Meanings.{definitions_of};
ghost use Rattle.widl_idl.specs.PlainTrees.{plain_definitions};
ghost use Rattle.widl_names.specs.Listings.{listed_definitions};

use std::alloc::{AllocError, Global};
use widl_idl::Fragment;
use widl_idl::tree::Definition;

/// The definitions of all files, by file, then in the order of the source.
pub fn list_definitions<'a>(
    alloc: Global,
    fragments: &'a [Fragment],
) -> Result<Vec<&'a Definition>, AllocError>
    ensures { IfOk result (λ list. listed_definitions list.items ≡ definitions_of fragments.now) }
{
    let mut list = Vec::new(alloc);
    for fragment in fragments {
        add_definitions(&mut list, fragment.definitions.as_slice())?;
    }
    Ok(list)
}

/// Adds the definitions of one file.
fn add_definitions<'a>(
    list: &mut Vec<&'a Definition>,
    definitions: &'a [Definition],
) -> Result<(), AllocError>
    ensures { OnOk result (listed_definitions list.new.items ≡ listed_definitions list.old.items ++ plain_definitions definitions.now) }
{
    for definition in definitions {
        list.push(definition)?;
    }
    Ok(())
}
