//! The member of a union that a value picks.

ghost use Rattle.std.specs.Prelude.{◌≡◌, ◌&&◌};
ghost use Rattle.widl_idl.specs.DefinitionTerms.{defs_term};
ghost use Rattle.widl_idl.specs.Terms.{packed, type_terms};
ghost use Rattle.widl_tables.specs.Decided.{decided_by, is_iterable as is_iterable_of, met_step};
ghost use Rattle.widl_tables.specs.Picks.{pick_member_of};
ghost use Rattle.widl_tables.specs.TypeTests.{asks, suits, told_first};
ghost use Rattle.widl_idl.specs.Flattened.{flattened_members};

use crate::decision::decided;
use crate::pick::Pick;
use crate::type_test::TypeTest;
use crate::type_walk::first_place;
use crate::value_test::ValueTest;
use widl_idl::{Defs, IdlTypes};
use widl_value::Class;

/// What each step asks of a value and of a member type, in the order of the standard's steps.
const STEPS: [(ValueTest, TypeTest); 15] = [
    (ValueTest::NullOrUndefined, TypeTest::Dictionary),
    (ValueTest::PlatformObject, TypeTest::Implemented),
    (ValueTest::PlatformObject, TypeTest::Object),
    (ValueTest::Callable, TypeTest::CallbackFunction),
    (ValueTest::Callable, TypeTest::Object),
    (ValueTest::Object, TypeTest::Sequence),
    (ValueTest::Object, TypeTest::Dictionary),
    (ValueTest::Object, TypeTest::Record),
    (ValueTest::Object, TypeTest::CallbackInterface),
    (ValueTest::Object, TypeTest::Object),
    (ValueTest::Boolean, TypeTest::Boolean),
    (ValueTest::Number, TypeTest::Numeric),
    (ValueTest::Anything, TypeTest::Text),
    (ValueTest::Anything, TypeTest::Numeric),
    (ValueTest::Anything, TypeTest::Boolean),
];

/// The place among the flattened member types of a union with these members that a value of the class
/// picks (Web IDL, "JavaScript binding of union types", from the step on dictionaries on): the first step
/// whose question a member meets takes the first such member. Places are told in 32 bits. The members
/// needn't be flattened.
///
/// `probed` says that the value has been found to have no method `@iterator`. Without it the answer is
/// [`Pick::Probe`] where the step of a sequence is the next one that a member meets.
pub fn pick_member(defs: &Defs, members: &IdlTypes, class: Class, probed: bool) -> Pick
    ensures { result ≡ pick_member_of (defs_term defs.now) (packed (type_terms members.now)) class probed }
{
    for step in &STEPS {
        if let Some(pick) = step_pick(defs, members, class, probed, *step) {
            return pick;
        }
    }
    Pick::Refuse
}

/// What a step decides.
fn step_pick(
    defs: &Defs,
    members: &IdlTypes,
    class: Class,
    probed: bool,
    step: (ValueTest, TypeTest),
) -> Option<Pick>
    ensures { result ≡ decided_by probed (met_step (defs_term defs.now) class (flattened_members (packed (type_terms members.now))) step) }
{
    let (value, member) = step;
    let place = met_member(defs, members, class, value, member);
    decided(probed, is_iterable(member), place)
}

/// Whether a value has to have a method `@iterator` besides.
fn is_iterable(member: TypeTest) -> bool
    ensures { result ≡ is_iterable_of member }
{
    matches!(member, TypeTest::Sequence)
}

/// The place of the first member that meets a step.
fn met_member(
    defs: &Defs,
    members: &IdlTypes,
    class: Class,
    value: ValueTest,
    member: TypeTest,
) -> Option<u32>
    ensures { result ≡ told_first (λ t. asks value class && suits (defs_term defs.now) class member t) (flattened_members (packed (type_terms members.now))) }
{
    if value.holds(class) {
        first_place(defs, class, member, members)
    } else {
        None
    }
}
