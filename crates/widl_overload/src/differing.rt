//! Overloads whose arguments differ before a place.

ghost use Rattle.std.specs.Prelude.{MatchBool, map};
ghost use Rattle.std.specs.List.{All};
ghost use Rattle.widl_idl.specs.DefinitionTerms.{sig_term};
ghost use Rattle.widl_overload.specs.sets.Numbers.{AllAgree, FirstDiffers, NumbersAgreeAt, NumbersAgreeBefore, NumbersDifferAt, NumbersDifferBefore, OneDiffers};

use crate::telling::arg_at;
use widl_idl::{Sig, same_type};

/// Whether two of these overloads differ before an index.
pub(crate) fn differ_before(sigs: &[Sig], overloads: &[u32], index: usize) -> bool
    ensures { MatchBool result (FirstDiffers (map sig_term sigs.now) index overloads.now) (AllAgree (map sig_term sigs.now) index overloads.now) }
{
    match overloads.first() {
        None => false,
        Some(first) => differs_from_one(sigs, *first, overloads, index),
    }
}

/// Whether an overload differs from one of these before an index.
fn differs_from_one(sigs: &[Sig], first: u32, overloads: &[u32], index: usize) -> bool
    ensures { MatchBool result (OneDiffers (map sig_term sigs.now) index first overloads.now) (All (NumbersAgreeBefore (map sig_term sigs.now) index first) overloads.now) }
{
    for other in overloads {
        if !agree_before(sigs, first, *other, index) {
            return true;
        }
    }
    false
}

/// Whether two overloads have the same types and optionality values before an index.
fn agree_before(sigs: &[Sig], overload: u32, other: u32, index: usize) -> bool
    ensures { MatchBool result (NumbersAgreeBefore (map sig_term sigs.now) index overload other) (NumbersDifferBefore (map sig_term sigs.now) index overload other) }
{
    for place in 0..index {
        if !agree_at(sigs, overload, other, place) {
            return false;
        }
    }
    true
}

/// Whether two overloads have the same type and the same optionality value at a place.
fn agree_at(sigs: &[Sig], overload: u32, other: u32, place: usize) -> bool
    ensures { MatchBool result (NumbersAgreeAt (map sig_term sigs.now) overload other place) (NumbersDifferAt (map sig_term sigs.now) overload other place) }
{
    match (arg_at(sigs, overload, place), arg_at(sigs, other, place)) {
        (Some(a), Some(b)) => same_type(&a.ty, &b.ty) && a.opt == b.opt,
        (None, None) => true,
        _ => false,
    }
}
