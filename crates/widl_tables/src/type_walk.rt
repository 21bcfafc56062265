//! Walks over what a type is flattened to, where it stands: nothing is copied.
//!
//! A type of a list of definitions nests at most 16 levels, which bounds the recursion; the members of a
//! union are walked by a loop.

ghost use Rattle.std.specs.Prelude.{◌≡◌, ◌+◌, min, [], ◌∷◌};
ghost use Rattle.std.specs.List.{list_any};
ghost use Rattle.widl_idl.specs.DefinitionTerms.{defs_term};
ghost use Rattle.widl_idl.specs.Flattened.{flattened_member, flattened_members, unannotated};
ghost use Rattle.widl_idl.specs.Terms.{packed, type_term, type_terms};
ghost use Rattle.widl_overload.specs.sets.Distinct.{has_dictionary as has_dictionary_of};
ghost use Rattle.widl_tables.specs.TypeTests.{before, suits, told_first};

use crate::type_test::TypeTest;
use widl_idl::{Defs, IdlType, IdlTypes};
use widl_value::Class;

/// How far a walk came.
#[derive(Clone, Copy)]
struct Search {
    /// Whether a type meets the test.
    found: bool,
    /// How many types stand before it, those before the walk included.
    passed: u64,
}

/// Whether one of the types that a type is flattened to meets a test, for a value of the class.
pub(crate) fn some_type(defs: &Defs, class: Class, test: TypeTest, t: &IdlType) -> bool
    ensures { result ≡ list_any (suits (defs_term defs.now) class test) (flattened_member (type_term t.now)) }
{
    find_in(defs, class, test, t, 0).found
}

/// Whether the type is a dictionary, or a union with one among its flattened members.
pub(crate) fn has_dictionary(defs: &Defs, class: Class, t: &IdlType) -> bool
    ensures { result ≡ has_dictionary_of (type_term t.now) }
{
    match t {
        IdlType::Nullable(_) => false,
        _ => some_type(defs, class, TypeTest::Dictionary, t),
    }
}

/// The place of the first flattened member of a union that meets a test, for a value of the class. A
/// place is told where 32 bits are enough for it.
pub(crate) fn first_place(
    defs: &Defs,
    class: Class,
    test: TypeTest,
    members: &IdlTypes,
) -> Option<u32>
    ensures { result ≡ told_first (suits (defs_term defs.now) class test) (flattened_members (packed (type_terms members.now))) }
{
    let search = find_among(defs, class, test, members, 0);
    if search.found {
        u32::try_from(search.passed).ok()
    } else {
        None
    }
}

/// Looks for the first of the types that a type is flattened to that meets a test; so many stand before
/// them.
#[cycle(walk)]
fn find_in(defs: &Defs, class: Class, test: TypeTest, t: &IdlType, passed: u64) -> Search
    ensures found { result.found ≡ list_any (suits (defs_term defs.now) class test) (flattened_member (type_term t.now)) }
    ensures passed { result.passed ≡ min (passed + before (suits (defs_term defs.now) class test) (flattened_member (type_term t.now))) 18446744073709551615 }
{
    match t {
        IdlType::Nullable(inner) => find_in(defs, class, test, inner, passed),
        IdlType::Union(members) => find_among(defs, class, test, members, passed),
        _ => find_here(defs, class, test, t, passed),
    }
}

#[cycle(walk)]
fn find_among(defs: &Defs, class: Class, test: TypeTest, members: &IdlTypes, passed: u64) -> Search
    ensures found { result.found ≡ list_any (suits (defs_term defs.now) class test) (flattened_members (packed (type_terms members.now))) }
    ensures passed { result.passed ≡ min (passed + before (suits (defs_term defs.now) class test) (flattened_members (packed (type_terms members.now)))) 18446744073709551615 }
{
    let mut so_far = passed;
    for member in members.as_slice() {
        let search = find_in(defs, class, test, member, so_far);
        if search.found {
            return search;
        }
        so_far = search.passed;
    }
    Search {
        found: false,
        passed: so_far,
    }
}

fn find_here(defs: &Defs, class: Class, test: TypeTest, t: &IdlType, passed: u64) -> Search
    ensures found { result.found ≡ list_any (suits (defs_term defs.now) class test) (unannotated (type_term t.now) ∷ []) }
    ensures passed { result.passed ≡ min (passed + before (suits (defs_term defs.now) class test) (unannotated (type_term t.now) ∷ [])) 18446744073709551615 }
{
    if test.holds(defs, class, t) {
        Search {
            found: true,
            passed,
        }
    } else {
        Search {
            found: false,
            passed: passed.saturating_add(1),
        }
    }
}
