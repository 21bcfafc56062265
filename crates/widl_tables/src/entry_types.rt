//! The type and the optionality value at a place of one entry.

ghost use Rattle.std.specs.Prelude.{◌≡◌, false, map, option_map, slice_get};
ghost use Rattle.std.specs.Option.{option_map_or};
ghost use Rattle.widl_idl.specs.DefinitionTerms.{sig_term};
ghost use Rattle.widl_idl.specs.Terms.{type_term};
ghost use Rattle.widl_overload.specs.sets.Entries.{entry_for, optionality_at};
ghost use Rattle.widl_overload.specs.sets.Standing.{args_in};
ghost use Rattle.widl_tables.specs.Tests.{is_optional};

use widl_idl::Sig;
use widl_overload::{Standing, standing_in};

/// What stands at a place of the entry of an overload for a length.
pub(crate) fn standing_at(
    sigs: &[Sig],
    overload: u32,
    argcount: u32,
    place: u32,
) -> Option<Standing<'_>>
    ensures types { slice_get (entry_for overload (args_in (map sig_term sigs.now) overload) argcount).types place ≡ option_map (λ s. type_term s.ty.now) result }
    ensures opts { is_optional (optionality_at (entry_for overload (args_in (map sig_term sigs.now) overload) argcount) place) ≡ option_map_or (λ s. is_optional s.opt) result false }
{
    if place < argcount {
        standing_in(sigs, overload, place)
    } else {
        None
    }
}
