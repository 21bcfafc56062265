//! For which lists of definitions stores and scripts are defined so far. This file goes when they are defined for all.

ghost use Rattle.std.specs.Prelude.{◌≡◌, ◌↔◌, IsTrue};
ghost use Rattle.std.specs.List.{list_all};
ghost use Rattle.widl_idl.specs.DefinitionTerms.{defs_term, space_term};
ghost use Rattle.widl_overload.specs.OperationsAlone.{HasOperationsAlone, has_operations_alone, has_operations_only, is_none};

use crate::accepted::Accepted;
use widl_idl::{Defs, Space};

/// Whether the first store of an accepted set is defined, and scripts can be read over it, today: it has no
/// interface, and its namespaces have operations alone.
pub fn has_operations_alone(accepted: &Accepted) -> bool
    ensures { IsTrue result ↔ HasOperationsAlone (defs_term accepted.now.defs) }
{
    has_operations_only(accepted.defs())
}

fn has_operations_only(list: &Defs) -> bool
    ensures { result ≡ has_operations_only (defs_term list.now) }
{
    has_no_interfaces(list) && have_operations_alone(list.spaces.as_slice())
}

fn has_no_interfaces(list: &Defs) -> bool
    ensures { result ≡ is_none (defs_term list.now).ifaces }
{
    list.ifaces.len() == 0
}

fn have_operations_alone(spaces: &[Space]) -> bool
    ensures { result ≡ list_all (λ n. has_operations_alone (space_term n)) spaces.now }
{
    spaces.iter().all(space_has_operations_alone)
}

fn space_has_operations_alone(space: &Space) -> bool
    ensures { result ≡ has_operations_alone (space_term space.now) }
{
    space.attrs.len() == 0 && space.consts.len() == 0
}
