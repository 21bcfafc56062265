//! The overload that an argument picks.

ghost use Rattle.std.specs.Prelude.{◌≡◌, ◌||◌, ℕ, false, map, option_map, slice_get};
ghost use Rattle.std.specs.Option.{option_map_or};
ghost use Rattle.widl_idl.specs.DefinitionTerms.{defs_term, sig_term};
ghost use Rattle.widl_idl.specs.Flattened.{includes_nullable_type};
ghost use Rattle.widl_idl.specs.Terms.{type_term};
ghost use Rattle.widl_overload.specs.sets.Distinct.{has_dictionary as has_dictionary_of};
ghost use Rattle.widl_overload.specs.sets.Entries.{optionality_at, type_at};
ghost use Rattle.widl_overload.specs.sets.Sets.{TupleTerm};
ghost use Rattle.widl_tables.specs.Decided.{decided_by, met_test};
ghost use Rattle.widl_tables.specs.Kept.{entries_for};
ghost use Rattle.widl_tables.specs.Picks.{first_entry as first_entry_of, is_probe as is_probe_of, pick_kept, pick_of};
ghost use Rattle.widl_tables.specs.EntriesByNumber.{entries_in};
ghost use Rattle.widl_tables.specs.Tests.{is_optional, meets as meets_of};

use crate::decision::decided;
use crate::entry_test::Test;
use crate::entry_types::standing_at;
use crate::kept_type::Kept;
use crate::pick::Pick;
use crate::type_test::TypeTest;
use crate::type_walk::{has_dictionary, some_type};
use crate::value_test::ValueTest;
use widl_idl::{Defs, IdlType, Optionality, Sig, includes_nullable};
use widl_overload::{Standing, overload_list};
use widl_value::Class;

/// The tests, in their order.
pub(crate) const TESTS: [Test; 12] = [
    Test::IsOptional,
    Test::IsNullable,
    Test::IsImplemented,
    Test::IsCallback,
    Test::IsSequence,
    Test::IsObject,
    Test::IsBoolean,
    Test::IsNumeric,
    Test::TakesText,
    Test::TakesNumber,
    Test::TakesTruth,
    Test::TakesAny,
];

/// The overload that an argument of the class picks of those that are kept (Web IDL, "overload
/// resolution algorithm", step 12). One alone is picked by every argument; with several, the argument at
/// the place that tells them apart decides: the first test that an entry meets takes that entry.
///
/// `probed` says that the argument has been found to have no method `@iterator`. Without it the answer is
/// [`Pick::Probe`] where the next test that an entry meets is that of a sequence.
pub fn pick_overload(defs: &Defs, kept: &Kept, class: Class, probed: bool) -> Pick
    ensures { result ≡ pick_kept (defs_term defs.now) (entries_for (defs_term defs.now) kept.now.callee kept.now.argcount kept.now.overloads) kept.now.place class probed }
{
    match kept.overloads.as_slice() {
        [] => Pick::Refuse,
        [overload] => Pick::Entry(*overload),
        _ => match kept.place {
            None => Pick::Refuse,
            Some(place) => by_tests(defs, kept, place, class, probed),
        },
    }
}

/// The pick at a place, by one test after another.
fn by_tests(defs: &Defs, kept: &Kept, place: u32, class: Class, probed: bool) -> Pick
    ensures { result ≡ pick_of (defs_term defs.now) (entries_for (defs_term defs.now) kept.now.callee kept.now.argcount kept.now.overloads) place class probed }
{
    let sigs = overload_list(defs, &kept.callee);
    for test in &TESTS {
        if let Some(pick) = test_pick(defs, sigs, kept, place, class, probed, *test) {
            return pick;
        }
    }
    Pick::Refuse
}

/// What a test decides.
fn test_pick(
    defs: &Defs,
    sigs: &[Sig],
    kept: &Kept,
    place: u32,
    class: Class,
    probed: bool,
    test: Test,
) -> Option<Pick>
    ensures { result ≡ decided_by probed (met_test (defs_term defs.now) (entries_in (map sig_term sigs.now) kept.now.argcount kept.now.overloads) place class test) }
{
    let entry = first_entry(defs, sigs, kept, place, class, test);
    decided(probed, is_probe(test), entry)
}

/// Whether a value has to have a method `@iterator` besides.
fn is_probe(test: Test) -> bool
    ensures { result ≡ is_probe_of test }
{
    matches!(test, Test::IsSequence)
}

/// The first of the overloads that are kept whose entry meets a test.
fn first_entry(
    defs: &Defs,
    sigs: &[Sig],
    kept: &Kept,
    place: u32,
    class: Class,
    test: Test,
) -> Option<u32>
    ensures { result ≡ first_entry_of (defs_term defs.now) place class test (entries_in (map sig_term sigs.now) kept.now.argcount kept.now.overloads) }
{
    for overload in kept.overloads.as_slice() {
        let standing = standing_at(sigs, *overload, kept.argcount, place);
        if meets_there(defs, test, class, standing) {
            return Some(*overload);
        }
    }
    None
}

/// Whether a value of the class meets a test where this stands. Past the end of an entry it is as if
/// `any` stood there.
fn meets_there(defs: &Defs, test: Test, class: Class, standing: Option<Standing<'_>>) -> bool
    ensures { (t : TupleTerm) (place : ℕ) → slice_get t.types place ≡ option_map (λ s. type_term s.ty.now) standing.entry → is_optional (optionality_at t place) ≡ option_map_or (λ s. is_optional s.opt) standing.entry false → result ≡ meets_of (defs_term defs.now) test class (type_at t place) (optionality_at t place) }
{
    match standing {
        None => test == Test::TakesAny,
        Some(standing) => meets(defs, test, class, standing),
    }
}

/// The same where a type stands.
pub(crate) fn meets(defs: &Defs, test: Test, class: Class, standing: Standing<'_>) -> bool
    ensures { result ≡ meets_of (defs_term defs.now) test class (type_term standing.entry.ty.now) standing.entry.opt }
{
    let Standing { ty, opt } = standing;
    match test {
        Test::IsOptional => { ValueTest::Undefined.holds(class) && opt == Optionality::Optional }
        Test::IsNullable => {
            ValueTest::NullOrUndefined.holds(class) && takes_null(defs, class, ty)
        }
        Test::IsImplemented => {
            ValueTest::PlatformObject.holds(class)
                && some_type(defs, class, TypeTest::ImplementedOrObject, ty)
        }
        Test::IsCallback => {
            ValueTest::Callable.holds(class)
                && some_type(defs, class, TypeTest::CallbackFunctionOrObject, ty)
        }
        Test::IsSequence => {
            ValueTest::Object.holds(class) && some_type(defs, class, TypeTest::Sequence, ty)
        }
        Test::IsObject => {
            ValueTest::Object.holds(class) && some_type(defs, class, TypeTest::FromObject, ty)
        }
        Test::IsBoolean => {
            ValueTest::Boolean.holds(class) && some_type(defs, class, TypeTest::Boolean, ty)
        }
        Test::IsNumeric => {
            ValueTest::Number.holds(class) && some_type(defs, class, TypeTest::Numeric, ty)
        }
        Test::TakesText => some_type(defs, class, TypeTest::Text, ty),
        Test::TakesNumber => some_type(defs, class, TypeTest::Numeric, ty),
        Test::TakesTruth => some_type(defs, class, TypeTest::Boolean, ty),
        Test::TakesAny => some_type(defs, class, TypeTest::Any, ty),
    }
}

/// Whether the type includes a nullable type or has a dictionary.
fn takes_null(defs: &Defs, class: Class, t: &IdlType) -> bool
    ensures { result ≡ (includes_nullable_type (type_term t.now) || has_dictionary_of (type_term t.now)) }
{
    includes_nullable(t) || has_dictionary(defs, class, t)
}
