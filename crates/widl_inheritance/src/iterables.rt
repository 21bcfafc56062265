//! The rules on iterables of interfaces that have or inherit another one, and of interfaces that have or
//! inherit a member named as one of the methods that an iterable brings (Web IDL, "Iterable
//! declarations").

ghost use Rattle.std.specs.Prelude.{◌≡◌, length, IfOk};
ghost use Rattle.widl_idl.specs.First.{FirstWhere, earlier};
ghost use Rattle.widl_idl.specs.MergingRules.{parent_links};
ghost use Rattle.widl_idl.specs.PlainTrees.{plain_definitions};
ghost use Rattle.widl_inheritance.specs.Iterations.{BelowCount, HasSecondAt, HidesAt, TellsMembers};
ghost use Rattle.widl_graph.specs.Reaching.{IsAcyclic};
ghost use Rattle.widl_overload.specs.rules.IterableRules.{HasSecondIterable, HidesIterationMethod, has_iterable};

use crate::interface_lines::{InterfaceFlags, inherited_flags, own_flags};
use crate::interface_members::interface_members;
use crate::iterations::{first_hiding_iterable, first_second_iterable};
use std::alloc::{AllocError, Global};
use widl_graph::{either_flag, flag_at};
use widl_idl::{Violation, earlier_violation};
use widl_names::Scope;

/// Where the rules on iterables are broken first.
#[derive(Clone, Copy)]
pub struct IterableViolations {
    /// The word `iterable` of one whose interface has an earlier one or inherits one.
    pub second: Option<Violation>,
    /// The word `iterable` of one whose interface has or inherits a member named as one of its methods.
    pub hidden: Option<Violation>,
}

/// The first place of the word `iterable` of an iterable whose interface has an earlier one or inherits
/// one, and of one whose interface has or inherits a member named as one of its methods.
///
/// # Errors
///
/// `AllocError` where there is no memory.
pub fn find_iterables(
    alloc: Global,
    scope: &Scope<'_, '_>,
) -> Result<IterableViolations, AllocError>
    requires { IsAcyclic (parent_links (plain_definitions scope.now)) }
    ensures second { IfOk result (λ violations. FirstWhere (HasSecondIterable (plain_definitions scope.now)) violations.second) }
    ensures hidden { IfOk result (λ violations. FirstWhere (HidesIterationMethod (plain_definitions scope.now)) violations.hidden) }
{
    let own = own_flags(alloc, scope)?;
    let inherited = inherited_flags(alloc, scope.meanings(), &own)?;
    find_in_interfaces(alloc, scope, &own, &inherited)
}

/// The first places in all interfaces, where the flags tell what each has and inherits.
fn find_in_interfaces(
    alloc: Global,
    scope: &Scope<'_, '_>,
    own: &InterfaceFlags,
    inherited: &InterfaceFlags,
) -> Result<IterableViolations, AllocError>
    requires { TellsMembers has_iterable (plain_definitions scope.now) own.now.iterable.items }
    ensures second { IfOk result (λ violations. FirstWhere (BelowCount (HasSecondAt (plain_definitions scope.now) inherited.now.iterable.items) (length (plain_definitions scope.now))) violations.second) }
    ensures hidden { IfOk result (λ violations. FirstWhere (BelowCount (HidesAt (plain_definitions scope.now) own.now.named.items inherited.now.named.items) (length (plain_definitions scope.now))) violations.hidden) }
{
    let mut best = IterableViolations {
        second: None,
        hidden: None,
    };
    for number in 0..scope.all().len() {
        let found = find_in_interface(alloc, scope, own, inherited, number)?;
        best = earlier_violations(best, found);
    }
    Ok(best)
}

/// The first places in the interface of this number. Few interfaces have an iterable, so the members of
/// the others aren't listed again.
fn find_in_interface(
    alloc: Global,
    scope: &Scope<'_, '_>,
    own: &InterfaceFlags,
    inherited: &InterfaceFlags,
    number: usize,
) -> Result<IterableViolations, AllocError>
    requires { TellsMembers has_iterable (plain_definitions scope.now) own.now.iterable.items }
    ensures second { IfOk result (λ violations. FirstWhere (HasSecondAt (plain_definitions scope.now) inherited.now.iterable.items number) violations.second) }
    ensures hidden { IfOk result (λ violations. FirstWhere (HidesAt (plain_definitions scope.now) own.now.named.items inherited.now.named.items number) violations.hidden) }
{
    if !flag_at(own.iterable.as_slice(), number) {
        return Ok(IterableViolations {
            second: None,
            hidden: None,
        });
    }
    let members = interface_members(alloc, scope, number)?;
    let inherits = flag_at(inherited.iterable.as_slice(), number);
    let named = either_flag(own.named.as_slice(), inherited.named.as_slice(), number);
    Ok(IterableViolations {
        second: first_second_iterable(&members, inherits),
        hidden: first_hiding_iterable(&members, named),
    })
}

/// Of each rule the earlier violation.
fn earlier_violations(best: IterableViolations, found: IterableViolations) -> IterableViolations
    ensures second { result.second ≡ earlier best.second found.second }
    ensures hidden { result.hidden ≡ earlier best.hidden found.hidden }
{
    IterableViolations {
        second: earlier_violation(best.second, found.second),
        hidden: earlier_violation(best.hidden, found.hidden),
    }
}
