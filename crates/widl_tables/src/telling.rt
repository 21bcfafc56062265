//! The place that tells overloads apart.

ghost use Rattle.std.specs.Prelude.{◌≡◌, map};
ghost use Rattle.std.specs.List.{list_all};
ghost use Rattle.widl_idl.specs.DefinitionTerms.{defs_term, sig_term};
ghost use Rattle.widl_overload.specs.sets.Entries.{entry_for};
ghost use Rattle.widl_overload.specs.sets.Index.{apart_at, each_two};
ghost use Rattle.widl_overload.specs.sets.Standing.{args_in};
ghost use Rattle.widl_tables.specs.Kept.{telling_from};
ghost use Rattle.widl_tables.specs.EntriesByNumber.{entries_in, telling_among};

use crate::entry_types::standing_at;
use widl_idl::{Defs, Sig};
use widl_overload::distinguishable;

/// Where there are several of the overloads, the lowest place at which each two of their entries for a
/// length have distinguishable types (Web IDL, "distinguishing argument index"); the length, where no
/// place does.
pub(crate) fn choosing_place(
    defs: &Defs,
    sigs: &[Sig],
    overloads: &[u32],
    argcount: u32,
) -> Option<u32>
    ensures { result ≡ telling_among (defs_term defs.now).ifaces argcount (entries_in (map sig_term sigs.now) argcount overloads.now) }
{
    if overloads.len() < 2 {
        None
    } else {
        Some(telling_place(defs, sigs, overloads, argcount))
    }
}

/// The lowest such place, or the length.
fn telling_place(defs: &Defs, sigs: &[Sig], overloads: &[u32], argcount: u32) -> u32
    ensures { result ≡ telling_from (defs_term defs.now).ifaces (entries_in (map sig_term sigs.now) argcount overloads.now) 0 argcount }
{
    for place in 0..argcount {
        if tells(defs, sigs, overloads, argcount, place) {
            return place;
        }
    }
    argcount
}

/// Whether each two of the entries have distinguishable types at a place.
fn tells(defs: &Defs, sigs: &[Sig], overloads: &[u32], argcount: u32, place: u32) -> bool
    ensures { result ≡ each_two (apart_at (defs_term defs.now).ifaces place) (entries_in (map sig_term sigs.now) argcount overloads.now) }
{
    for (number, overload) in overloads.iter().enumerate() {
        let (_, others) = overloads.split_at(number + 1);
        if !is_apart_from_each(defs, sigs, *overload, others, argcount, place) {
            return false;
        }
    }
    true
}

/// Whether an entry has a type at a place that is distinguishable from that of each of the others.
fn is_apart_from_each(
    defs: &Defs,
    sigs: &[Sig],
    overload: u32,
    others: &[u32],
    argcount: u32,
    place: u32,
) -> bool
    ensures { result ≡ list_all (apart_at (defs_term defs.now).ifaces place (entry_for overload (args_in (map sig_term sigs.now) overload) argcount)) (entries_in (map sig_term sigs.now) argcount others.now) }
{
    for other in others {
        if !are_apart(defs, sigs, overload, *other, argcount, place) {
            return false;
        }
    }
    true
}

/// Whether two entries have distinguishable types at a place.
#[tactic(auto, unfolding(widl_overload::specs::sets::Index::apart_at))]
fn are_apart(
    defs: &Defs,
    sigs: &[Sig],
    overload: u32,
    other: u32,
    argcount: u32,
    place: u32,
) -> bool
    ensures { result ≡ apart_at (defs_term defs.now).ifaces place (entry_for overload (args_in (map sig_term sigs.now) overload) argcount) (entry_for other (args_in (map sig_term sigs.now) other) argcount) }
{
    let one = standing_at(sigs, overload, argcount, place);
    let another = standing_at(sigs, other, argcount, place);
    match (one, another) {
        (Some(a), Some(b)) => distinguishable(defs, a.ty, b.ty),
        _ => false,
    }
}
