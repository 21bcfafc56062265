//! What stands in the entries of a callee's overload set.

ghost use Rattle.std.specs.Prelude.{◌≡◌, false, map, option_map, slice_get};
ghost use Rattle.std.specs.Option.{option_map_or};
ghost use Rattle.widl_idl.specs.DefinitionTerms.{arg_term, defs_term, sig_term};
ghost use Rattle.widl_idl.specs.Terms.{AnyType, type_term};
ghost use Rattle.widl_overload.specs.sets.Entries.{declared_args, entry_for, optionality_at, type_at};
ghost use Rattle.widl_overload.specs.sets.Standing.{args_in};
ghost use Rattle.widl_tables.specs.Tests.{is_optional};

use crate::jobs::ArgumentPlace;
use widl_idl::{Arg, Defs, Sig};
use widl_overload::{Standing, overload_list, type_at};

/// The type and the optionality value at a place of an overload's entry of a length (Web IDL, "compute
/// the effective overload set"). There are none past its end, nor where the overload has no arguments.
pub(crate) fn standing(defs: &Defs, at: ArgumentPlace, length: u32) -> Option<Standing<'_>>
    ensures types { type_at (entry_for at.overload (declared_args (defs_term defs.now) at.callee at.overload) length) at.place ≡ option_map_or (λ s. type_term s.ty.now) result AnyType }
    ensures opts { is_optional (optionality_at (entry_for at.overload (declared_args (defs_term defs.now) at.callee at.overload) length) at.place) ≡ option_map_or (λ s. is_optional s.opt) result false }
{
    if at.place < length as usize {
        type_at(defs, &at.callee, at.overload, at.place as u32)
    } else {
        None
    }
}

/// The argument that an overload declares at a place.
pub(crate) fn declared(defs: &Defs, at: ArgumentPlace) -> Option<&Arg>
    ensures { option_map (λ a. arg_term a.now) result ≡ slice_get (declared_args (defs_term defs.now) at.callee at.overload) at.place }
{
    declared_among(overload_list(defs, &at.callee), at.overload, at.place)
}

/// The argument that one of these overloads declares at a place.
fn declared_among(sigs: &[Sig], overload: u32, place: usize) -> Option<&Arg>
    ensures { option_map (λ a. arg_term a.now) result ≡ slice_get (args_in (map sig_term sigs.now) overload) place }
{
    match sigs.get(overload as usize) {
        None => None,
        Some(sig) => sig.args.as_slice().get(place),
    }
}
