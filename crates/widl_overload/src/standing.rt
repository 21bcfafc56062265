//! The types and the optionality values of an overload's tuples, where they stand.

ghost use Rattle.std.specs.Prelude.{◌≡◌, ◌<◌, ℕ, map, option_map, slice_get};
ghost use Rattle.std.specs.Option.{option_map_or};
ghost use Rattle.widl_idl.specs.declared.argument.Optionality.TheVariants as optionality;
ghost use Rattle.widl_idl.specs.DefinitionTerms.{arg_term, defs_term, sig_term};
ghost use Rattle.widl_idl.specs.Terms.{type_term};
ghost use Rattle.widl_overload.specs.sets.Entries.{declared_args, entry_for, optionality_at};
ghost use Rattle.widl_overload.specs.sets.Standing.{again, args_in, standing_among as standing_among_of, standing_term};

use crate::callees::overload_list;
use widl_idl::{Arg, Callee, Defs, IdlType, Optionality, Sig};

/// What stands at a place of a tuple.
#[derive(Clone, Copy)]
pub struct Standing<'d> {
    /// The type.
    pub ty: &'d IdlType,
    /// The optionality value.
    pub opt: Optionality,
}

/// The type and the optionality value at a place of an overload's tuples that are longer: the declared
/// ones, or those of the last argument again (Web IDL, "compute the effective overload set"). No tuple is
/// built. There are none where the list has no such overload, or one without arguments.
pub fn type_at<'d>(
    defs: &'d Defs,
    callee: &Callee,
    overload: u32,
    place: u32,
) -> Option<Standing<'d>>
    ensures types { (m : ℕ) → place < m → slice_get (entry_for overload (declared_args (defs_term defs.now) callee.now overload) m).types place ≡ option_map (λ s. type_term s.ty.now) result }
    ensures opts { (m : ℕ) → place < m → optionality_at (entry_for overload (declared_args (defs_term defs.now) callee.now overload) m) place ≡ option_map_or (λ s. s.opt) result optionality.Variadic }
{
    standing_in(overload_list(defs, callee), overload, place)
}

/// What stands at a place of the longer entries of an overload.
pub fn standing_in(sigs: &[Sig], overload: u32, place: u32) -> Option<Standing<'_>>
    ensures { option_map standing_term result ≡ standing_among_of (args_in (map sig_term sigs.now) overload) place }
{
    match sigs.get(overload as usize) {
        None => None,
        Some(sig) => standing_among(sig.args.as_slice(), place),
    }
}

/// The same of an overload with these arguments.
fn standing_among(args: &[Arg], place: u32) -> Option<Standing<'_>>
    ensures { option_map standing_term result ≡ standing_among_of (map arg_term args.now) place }
{
    match args.get(place as usize) {
        Some(arg) => Some(Standing {
            ty: &arg.ty,
            opt: arg.opt,
        }),
        None => last_again(args),
    }
}

/// What stands past the declared arguments.
fn last_again(args: &[Arg]) -> Option<Standing<'_>>
    ensures { option_map standing_term result ≡ again (map arg_term args.now) }
{
    match args.last() {
        None => None,
        Some(arg) => Some(Standing {
            ty: &arg.ty,
            opt: Optionality::Variadic,
        }),
    }
}
