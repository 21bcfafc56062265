//! Worked choices: each class against each kind of type, overloads, unions, and hostile lists.

mod hostile;
mod kinds;

use crate::shared::accepted_sets::accepted;
use crate::shared::{THE_OPERATION, THREE, expect, list_of, of_kinds, sure, with_parents};
use std::alloc::Global;
use std::mem::ManuallyDrop;
use std::process::Abort;
use widl_idl::{Callee, Defs, Owner, Part, Spaces};
use widl_overload::{overload_list, type_at};
use widl_tables::{Kept, Pick, kept, pick_member, pick_overload};
use widl_value::Class;

const CLASSES: [Class; 9] = [
    Class::Undefined,
    Class::Null,
    Class::Bool,
    Class::Num,
    Class::Str,
    Class::Sym,
    Class::Platform(1),
    Class::Callable,
    Class::Plain,
];

/// What `args` arguments keep of the overloads of the one operation.
fn kept_for(rt: &impl Abort, alloc: Global, defs: &Defs, args: u32) -> ManuallyDrop<Kept> {
    assert!(rt; overload_list(defs, &THE_OPERATION).len() < 4_294_967_296);
    ManuallyDrop::new(sure(rt, kept(alloc, defs, &THE_OPERATION, args)))
}

/// What so many arguments keep: these overloads, so many of the arguments, told apart at this place; and the picks of the classes,
/// where no value was probed, and where one was. A pick that is left out isn't compared.
type Wanted = (
    u32,
    &'static [u32],
    u32,
    Option<u32>,
    &'static str,
    &'static str,
);

fn letter_of(pick: Pick) -> u8 {
    match pick {
        Pick::Entry(0) => b'0',
        Pick::Entry(1) => b'1',
        Pick::Entry(2) => b'2',
        Pick::Entry(_) => b'x',
        Pick::Probe(1) => b'p',
        Pick::Probe(_) => b'y',
        Pick::Refuse => b'-',
    }
}

/// The classes pick these of the overloads that are kept, a letter each: `-` for none, `p` for a probe of
/// the second.
fn expect_picks(rt: &impl Abort, defs: &Defs, kept: &Kept, probed: bool, wanted: &str) {
    for (class, want) in CLASSES.iter().zip(wanted.as_bytes().iter()) {
        let pick = pick_overload(defs, kept, *class, probed);
        assert!(rt; letter_of(pick) == *want, "{class:?} picks of {wanted}");
    }
}

fn expect_kept(rt: &impl Abort, alloc: Global, defs: &Defs, wanted: &Wanted) {
    let (args, overloads, argcount, place, picks, probed) = *wanted;
    let kept = kept_for(rt, alloc, defs, args);
    assert!(rt; kept.overloads.as_slice() == overloads, "{args} arguments");
    assert!(rt;
        kept.argcount == argcount && kept.place == place,
        "{args} arguments"
    );
    expect_picks(rt, defs, &kept, false, picks);
    expect_picks(rt, defs, &kept, true, probed);
}

/// A file, and what is kept of the overloads of its operation.
type File = (&'static str, &'static [Wanted]);

/// Without a string entry a text is taken for a number, and without a number for a truth.
const FILES: [File; 6] = [
    (
        "namespace N { undefined f(long... a); undefined f(DOMString s, long b); };",
        &[
            (2, &[0, 1], 2, Some(0), "111011111", ""),
            (0, &[0], 0, None, "000000000", ""),
            (1, &[0], 1, None, "000000000", ""),
            (3, &[0], 3, None, "000000000", ""),
            (6, &[0], 6, None, "000000000", ""),
            (300_000, &[0], 300_000, None, "000000000", ""),
            (4_294_967_295, &[0], 4_294_967_295, None, "000000000", ""),
        ],
    ),
    (
        "namespace N { undefined f(DOMString s); undefined f(sequence<long> q); };",
        &[
            (1, &[0, 1], 1, Some(0), "000000ppp", "000000000"),
            (2, &[0, 1], 1, Some(0), "000000ppp", "000000000"),
            (0, &[], 0, None, "---------", ""),
        ],
    ),
    (
        "namespace N { undefined f(boolean a); undefined f(long a); };",
        &[(1, &[0, 1], 1, Some(0), "110111111", "")],
    ),
    (
        "interface I { }; interface J : I { }; namespace N { undefined f(boolean a); undefined f(I a); };",
        &[(1, &[0, 1], 1, Some(0), "000000100", "")],
    ),
    (
        "dictionary D { required long a; }; interface I { }; interface J : I { }; namespace N { undefined f(D a); undefined f(I a); };",
        &[(1, &[0, 1], 1, Some(0), "00----100", "")],
    ),
    (
        "namespace N { undefined f(long a); };",
        &[
            (0, &[], 0, None, "", ""),
            (1, &[0], 1, None, "", ""),
            (3, &[0], 1, None, "", ""),
        ],
    ),
];

fn expect_files(rt: &impl Abort, alloc: Global, files: &[File]) {
    for (file, rows) in files {
        let list = ManuallyDrop::new(accepted(rt, alloc, &[*file]));
        for wanted in *rows {
            expect_kept(rt, alloc, list.defs(), wanted);
        }
    }
}

const PARTS: [Part; 4] = [Part::Op(1), Part::Constructor, Part::Get(0), Part::Text];

/// What a list of the operation `f(long a)` hasn't, and its one argument.
fn expect_no_callees(rt: &impl Abort, alloc: Global, parts: &[Part]) {
    let file = "namespace N { undefined f(long a); };";
    let list = ManuallyDrop::new(accepted(rt, alloc, &[file]));
    let defs = list.defs();
    for part in parts {
        let callee = Callee {
            owner: Owner::Space(0),
            part: *part,
        };
        expect(rt, overload_list(defs, &callee).is_empty(), "no overloads");
        expect(rt, type_at(defs, &callee, 0, 0).is_none(), "no type");
    }
    expect(rt, type_at(defs, &THE_OPERATION, 0, 7).is_some(), "a type");
    expect(rt, type_at(defs, &THE_OPERATION, 1, 0).is_none(), "no type");
}

/// Kinds of members, whether the value was probed, and what the classes pick, a letter each.
type Union = (&'static [&'static str], bool, &'static str);

const UNIONS: [Union; 13] = [
    (&["DOMString", "dictionary"], false, "110000111"),
    (&["DOMString", "boolean", "long"], false, "001200000"),
    (&["boolean", "long"], false, "110111111"),
    (&["DOMString", "interface"], false, "000000100"),
    (&["object", "interface"], false, "------100"),
    (&["function", "sequence"], false, "------p0p"),
    (&["function", "sequence"], true, "-------0-"),
    (&["dictionary", "sequence"], false, "00----ppp"),
    (&["dictionary", "sequence"], true, "00----000"),
    (&["long", "DOMString", "record"], false, "111011222"),
    (&["DOMString"], false, "000000000"),
    (&["unrelated", "callback"], false, "------111"),
    (&["undefined", "promise", "any"], false, "---------"),
];

fn expect_unions(rt: &impl Abort, alloc: Global, rows: &[Union]) {
    let ifaces = with_parents(rt, alloc, &THREE);
    let defs = ManuallyDrop::new(list_of(alloc, ifaces, Spaces::new(alloc)));
    for (kinds, probed, wanted) in rows {
        let members = ManuallyDrop::new(of_kinds(rt, alloc, kinds));
        for (class, want) in CLASSES.iter().zip(wanted.as_bytes().iter()) {
            let pick = pick_member(&defs, &members, *class, *probed);
            assert!(rt; letter_of(pick) == *want, "{class:?} picks of {kinds:?}");
        }
    }
}

#[test]
fn overloads_and_members_are_picked(rt: HostRuntime) {
    expect_files(&rt, rt.alloc(), &FILES);
    expect_no_callees(&rt, rt.alloc(), &PARTS);
    expect_unions(&rt, rt.alloc(), &UNIONS);
}
