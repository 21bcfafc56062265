//! The distinguishing argument index.

ghost use Rattle.std.specs.Prelude.{◌≡◌, ◌<◌, ◌≤◌, ℕ, [], drop, length, nat_le, take, true, false, MatchOption};
ghost use Rattle.std.specs.List.{list_all};
ghost use Rattle.widl_idl.specs.DefinitionTerms.{defs_term};
ghost use Rattle.widl_overload.specs.sets.Index.{IsDistinguishingIndex, apart_at, each_two, has_length as has_length_of, terms_of_length};
ghost use Rattle.widl_overload.specs.sets.Sets.{tuple_term, tuples_in};

use crate::distinct::distinguishable;
use crate::tuple::{OverloadSet, Tuple};
use widl_idl::Defs;

/// The lowest place at which each two tuples of a length have distinguishable types; none where
/// fewer than two tuples have that length, or no place does (Web IDL, "distinguishing argument
/// index").
pub fn distinguishing_index(defs: &Defs, set: &OverloadSet, len: u32) -> Option<u32>
    ensures { IsDistinguishingIndex (defs_term defs.now).ifaces (tuples_in set.now) len result }
{
    let tuples = run(&set.tuples, len as usize);
    if are_several(tuples, len as usize) {
        first_telling(defs, tuples, len)
    } else {
        None
    }
}

/// The tuples of a length without those before the first and after the last of them.
fn run(tuples: &[Tuple], m: usize) -> &[Tuple]
    ensures { terms_of_length m result.now ≡ terms_of_length m tuples.now }
{
    let (_, others) = tuples.split_at(start_of_run(tuples, m));
    let (run, _) = others.split_at(end_of_run(others, m));
    run
}

/// The place of the first tuple of a length.
fn start_of_run(tuples: &[Tuple], m: usize) -> usize
    ensures within { result ≤ length tuples.now }
    ensures none { terms_of_length m (take result tuples.now) ≡ [] }
{
    for (place, tuple) in tuples.iter().enumerate() {
        if has_length(tuple, m) {
            return place;
        }
    }
    tuples.len()
}

/// The place after the last tuple of a length.
fn end_of_run(tuples: &[Tuple], m: usize) -> usize
    ensures within { result ≤ length tuples.now }
    ensures none { terms_of_length m (drop result tuples.now) ≡ [] }
{
    let mut end = tuples.len();
    while end > 0 {
        if has_length(&tuples[end - 1], m) {
            return end;
        }
        end -= 1;
    }
    end
}

pub(crate) fn has_length(tuple: &Tuple, m: usize) -> bool
    ensures { result ≡ has_length_of m (tuple_term tuple.now) }
{
    tuple.types.len() == m
}

/// Whether at least two tuples have a length.
pub(crate) fn are_several(tuples: &[Tuple], m: usize) -> bool
    ensures { result ≡ nat_le 2 (length (terms_of_length m tuples.now)) }
{
    let mut count = 0usize;
    for tuple in tuples {
        if has_length(tuple, m) {
            count += 1;
        }
    }
    count >= 2
}

/// The lowest place at which each two tuples of a length are distinguishable.
fn first_telling(defs: &Defs, tuples: &[Tuple], len: u32) -> Option<u32>
    ensures { MatchOption result
        ((p : ℕ) → p < len → each_two (apart_at (defs_term defs.now).ifaces p) (terms_of_length len tuples.now) ≡ false)
        (λ place. (place < len) × (each_two (apart_at (defs_term defs.now).ifaces place) (terms_of_length len tuples.now) ≡ true) × ((p : ℕ) → p < place → each_two (apart_at (defs_term defs.now).ifaces p) (terms_of_length len tuples.now) ≡ false)) }
{
    for place in 0..len {
        if distinguishes(defs, tuples, len as usize, place as usize) {
            return Some(place);
        }
    }
    None
}

/// Whether each two tuples of a length are distinguishable at a place.
fn distinguishes(defs: &Defs, tuples: &[Tuple], m: usize, place: usize) -> bool
    ensures { result ≡ each_two (apart_at (defs_term defs.now).ifaces place) (terms_of_length m tuples.now) }
{
    for (number, tuple) in tuples.iter().enumerate() {
        let (_, others) = tuples.split_at(number + 1);
        if has_length(tuple, m) && !is_apart_from_each(defs, tuple, others, m, place) {
            return false;
        }
    }
    true
}

/// Whether a tuple is distinguishable at a place from each of a length.
fn is_apart_from_each(defs: &Defs, t: &Tuple, others: &[Tuple], m: usize, place: usize) -> bool
    ensures { result ≡ list_all (apart_at (defs_term defs.now).ifaces place (tuple_term t.now)) (terms_of_length m others.now) }
{
    for u in others {
        if has_length(u, m) && !are_apart_at(defs, t, u, place) {
            return false;
        }
    }
    true
}

/// Whether two tuples have distinguishable types at a place.
#[tactic(auto, unfolding(crate::specs::sets::Index::apart_at))]
fn are_apart_at(defs: &Defs, t: &Tuple, u: &Tuple, place: usize) -> bool
    ensures { result ≡ apart_at (defs_term defs.now).ifaces place (tuple_term t.now) (tuple_term u.now) }
{
    if place < t.types.len() && place < u.types.len() {
        distinguishable(defs, t.types.at(place), u.types.at(place))
    } else {
        false
    }
}
