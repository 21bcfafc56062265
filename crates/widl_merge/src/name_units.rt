//! The names of definitions and of their parts, by their 16-bit units.

ghost use Rattle.std.specs.Prelude.{◌≡◌, IfOk, option_map};
ghost use Rattle.widl_idl.specs.MergedMembers.{operation_text};
ghost use Rattle.widl_idl.specs.PlainTypes.{name_of};
ghost use Rattle.widl_idl.specs.WrittenLiterals.{name_units, units_of};

use std::alloc::{AllocError, Global};
use widl_idl::tree::Name;
use widl_text::Units;

/// The units of a name.
///
/// # Errors
///
/// `AllocError` where there is no memory.
pub fn name_units(alloc: Global, name: &Name) -> Result<Units, AllocError>
    ensures { IfOk result (λ units. units ≡ name_units (name_of name.now)) }
{
    Units::of_str(alloc, name.text.as_str())
}

/// The units of the name of an operation; none where it has no name.
///
/// # Errors
///
/// `AllocError` where there is no memory.
pub fn operation_units(alloc: Global, name: &Option<Name>) -> Result<Units, AllocError>
    ensures { IfOk result (λ units. units ≡ units_of (operation_text (option_map name_of name.now))) }
{
    match name {
        None => Ok(Units::new(alloc)),
        Some(name) => name_units(alloc, name),
    }
}
