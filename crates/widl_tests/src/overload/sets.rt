//! Worked overload sets.

ghost use Rattle.std.specs.Prelude.{IsTrue, map};
ghost use Rattle.widl_idl.specs.DefinitionTerms.{sig_term};
ghost use Rattle.widl_overload.specs.sets.Sets.{AreNumbered};

use crate::shared::accepted_sets::accepted;
use crate::shared::{THE_OPERATION, expect, sixty_four_overloads, sure};
use std::alloc::Global;
use std::mem::ManuallyDrop;
use std::process::Abort;
use widl_idl::{Callee, Defs, Optionality, Owner, Part, Sig};
use widl_overload::{OverloadSet, distinguishing_index, effective_set, overloads};

#[tactic(auto, using(widl_overload::proofs::Numbered::few_terms))]
fn are_numbered(sigs: &[Sig]) -> bool
    ensures { IsTrue result → AreNumbered (map sig_term sigs.now) }
{
    sigs.len() < 4_294_967_296 && sigs.iter().all(|sig| sig.args.len() < 4_294_967_296)
}

/// The set of the operation, for a call of so many arguments.
fn set_for(rt: &impl Abort, alloc: Global, defs: &Defs, n: u32) -> ManuallyDrop<OverloadSet> {
    match overloads(defs, &THE_OPERATION) {
        Some(sigs) => {
            assert!(rt; are_numbered(sigs.as_slice()));
            ManuallyDrop::new(sure(rt, effective_set(alloc, defs, &THE_OPERATION, n)))
        }
        None => panic!(rt; "no such callee"),
    }
}

/// The set has tuples of these overloads and lengths, in this order.
fn expect_tuples(rt: &impl Abort, set: &OverloadSet, tuples: &[(u32, usize)]) {
    expect(rt, set.len() == tuples.len(), "the count of tuples");
    for (place, (overload, length)) in tuples.iter().enumerate() {
        assert!(rt; place < set.len());
        let tuple = set.at(place);
        let is_long = tuple.types.len() == *length && tuple.opts.len() == *length;
        assert!(rt; tuple.overload == *overload && is_long, "tuple {place}");
    }
}

/// Arguments of these counts are told apart at these places of the set.
fn expect_indices(rt: &impl Abort, defs: &Defs, set: &OverloadSet, rows: &[(u32, Option<u32>)]) {
    for (length, index) in rows {
        let found = distinguishing_index(defs, set, *length);
        assert!(rt; found == *index, "{length} arguments");
    }
}

const FILE: &str =
    "namespace N { undefined f(long... a); undefined f(DOMString s, long b); }; interface I { };";

/// How many arguments a call has, and the tuples of the set: the shorter ones, and those up to this length.
const SETS: [(u32, &[(u32, usize)]); 4] = [
    (0, &[(0, 0), (0, 1), (0, 2), (1, 2)]),
    (2, &[(0, 0), (0, 1), (0, 2), (1, 2)]),
    (3, &[(0, 0), (0, 1), (0, 2), (1, 2), (0, 3)]),
    (
        6,
        &[
            (0, 0),
            (0, 1),
            (0, 2),
            (1, 2),
            (0, 3),
            (0, 4),
            (0, 5),
            (0, 6),
        ],
    ),
];

/// Callees that the file hasn't.
const NO_CALLEES: [Callee; 2] = [
    Callee {
        owner: Owner::Iface(1),
        part: Part::Constructor,
    },
    Callee {
        owner: Owner::Space(1),
        part: Part::Op(0),
    },
];

fn expect_sets(rt: &impl Abort, alloc: Global, rows: &[(u32, &[(u32, usize)])]) {
    let list = ManuallyDrop::new(accepted(rt, alloc, &[FILE]));
    let defs = list.defs();
    for (n, tuples) in rows {
        expect_tuples(rt, &set_for(rt, alloc, defs, *n), tuples);
    }
    let set = set_for(rt, alloc, defs, 6);
    expect_indices(rt, defs, &set, &[(0, None), (2, Some(0)), (6, None)]);
    for callee in &NO_CALLEES {
        expect(rt, overloads(defs, callee).is_none(), "no such callee");
    }
}

/// No call of 63 arguments is told apart, and of 64 at the last.
fn expect_many(rt: &impl Abort, alloc: Global) {
    let defs = sixty_four_overloads(rt, alloc, Optionality::Optional);
    let set = set_for(rt, alloc, &defs, u32::MAX);
    expect(rt, set.len() == 65 * 64, "the count of tuples");
    expect_indices(rt, &defs, &set, &[(63, None), (64, Some(63))]);
}

#[test]
fn sets_for_counts_of_arguments(rt: HostRuntime) {
    expect_sets(&rt, rt.alloc(), &SETS);
    expect_many(&rt, rt.alloc());
}
