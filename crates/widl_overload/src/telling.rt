//! The arguments of overloads at a place, and the places that tell overloads apart. An overload stands for
//! each of its tuples: what a tuple has at a place is the overload's argument there, and beyond its declared
//! arguments the last one.

ghost use Rattle.std.specs.Prelude.{◌≡◌, ◌<◌, ◌≤◌, ℕ, MatchOption, false, true, map, option_map};
ghost use Rattle.std.specs.List.{list_all};
ghost use Rattle.std.specs.Option.{option_copied};
ghost use Rattle.widl_idl.specs.DefinitionTerms.{defs_term, arg_term, sig_term};
ghost use Rattle.widl_overload.specs.sets.Numbers.{arg_at as arg_at_of, arg_or_last as arg_or_last_of, numbers_apart, numbers_tell};

use crate::distinct::distinguishable;
use widl_idl::{Arg, Defs, Sig};

/// The lowest place, not below `from`, at which each two of these overloads are distinguishable, where
/// each has a tuple of the length.
pub(crate) fn first_telling(
    defs: &Defs,
    sigs: &[Sig],
    overloads: &[u32],
    from: u32,
    len: u32,
) -> Option<u32>
    ensures { MatchOption result
        ((p : ℕ) → from ≤ p → p < len → numbers_tell (defs_term defs.now).ifaces (map sig_term sigs.now) overloads.now p ≡ false)
        (λ place. (from ≤ place) × (place < len) × (numbers_tell (defs_term defs.now).ifaces (map sig_term sigs.now) overloads.now place ≡ true) × ((p : ℕ) → from ≤ p → p < place → numbers_tell (defs_term defs.now).ifaces (map sig_term sigs.now) overloads.now p ≡ false)) }
{
    for place in from..len {
        if tells(defs, sigs, overloads, place as usize) {
            return Some(place);
        }
    }
    None
}

/// Whether each two of these overloads are distinguishable at a place.
fn tells(defs: &Defs, sigs: &[Sig], overloads: &[u32], place: usize) -> bool
    ensures { result ≡ numbers_tell (defs_term defs.now).ifaces (map sig_term sigs.now) overloads.now place }
{
    for (count, overload) in overloads.iter().enumerate() {
        let (_, others) = overloads.split_at(count + 1);
        if !is_apart_from_each(defs, sigs, *overload, others, place) {
            return false;
        }
    }
    true
}

/// Whether an overload is distinguishable at a place from each of these.
fn is_apart_from_each(
    defs: &Defs,
    sigs: &[Sig],
    overload: u32,
    others: &[u32],
    place: usize,
) -> bool
    ensures { result ≡ list_all (numbers_apart (defs_term defs.now).ifaces (map sig_term sigs.now) place overload) others.now }
{
    for other in others {
        if !are_apart_at(defs, sigs, overload, *other, place) {
            return false;
        }
    }
    true
}

/// Whether two overloads have distinguishable types at a place.
#[tactic(auto, unfolding(crate::specs::sets::Numbers::numbers_apart))]
fn are_apart_at(defs: &Defs, sigs: &[Sig], overload: u32, other: u32, place: usize) -> bool
    ensures { result ≡ numbers_apart (defs_term defs.now).ifaces (map sig_term sigs.now) place overload other }
{
    match (arg_at(sigs, overload, place), arg_at(sigs, other, place)) {
        (Some(a), Some(b)) => distinguishable(defs, &a.ty, &b.ty),
        _ => false,
    }
}

/// The argument of an overload at a place; beyond its declared arguments the last one.
pub(crate) fn arg_at(sigs: &[Sig], overload: u32, place: usize) -> Option<&Arg>
    ensures { option_map arg_term (option_copied result) ≡ arg_at_of (map sig_term sigs.now) place overload }
{
    match sigs.get(overload as usize) {
        None => None,
        Some(sig) => arg_or_last(sig.args.as_slice(), place),
    }
}

fn arg_or_last(args: &[Arg], place: usize) -> Option<&Arg>
    ensures { option_map arg_term (option_copied result) ≡ arg_or_last_of place (map arg_term args.now) }
{
    match args.get(place) {
        None => args.last(),
        Some(arg) => Some(arg),
    }
}
