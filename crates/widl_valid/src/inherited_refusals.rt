//! The first refusals by the rules on overloads, on iterables, on dictionaries and on default values.

ghost use Rattle.std.specs.Prelude.{◌≡◌, List, IfOk};
ghost use Rattle.widl_fits.specs.Hierarchies.{IsHierarchy};
ghost use Rattle.widl_idl.specs.Counts.{IsNumberedList};
ghost use Rattle.widl_idl.specs.DefinitionTerms.{DefsTerm, defs_term};
ghost use Rattle.widl_idl.specs.MergingRules.{parent_links};
ghost use Rattle.widl_idl.specs.PlainTrees.{PlainDefinition, plain_definitions};
ghost use Rattle.widl_inheritance.specs.HoldingGraph.{AreWithin};
ghost use Rattle.widl_graph.specs.Reaching.{IsAcyclic};
ghost use Rattle.widl_overload.specs.rules.Dictionaries.{dictionary_terms};
ghost use Rattle.widl_overload.specs.rules.Validity.{default_rules, dictionary_rules, iterable_rules, overload_rules};
ghost use Rattle.widl_refusals.specs.Refusals.{IsFirstOver};

use std::alloc::{AllocError, Global};
use widl_idl::{Defs, Refusal};
use widl_inheritance::{
    Holdings, find_iterables, first_holding_itself, first_long_chain, first_other_default,
    first_repeated_member, first_without_empty_default,
};
use widl_names::Scope;
use widl_overload::{ValidityRule, first_overload_violations};
use widl_refusals::first;

/// The first refusal by the rules on overloads.
///
/// # Errors
///
/// `AllocError` where there is no memory.
pub fn find_in_overloads(alloc: Global, defs: &Defs) -> Result<Option<Refusal>, AllocError>
    requires { IsNumberedList defs.now }
    ensures { IfOk result (λ found. (definitions : List PlainDefinition) → IsFirstOver (defs_term defs.now) definitions overload_rules found) }
{
    let found = first_overload_violations(alloc, defs)?;
    let best = first(None, ValidityRule::EarlyDifference, found.early);
    let indistinguishable = found.indistinguishable;
    Ok(first(
        best,
        ValidityRule::IndistinguishableOverloads,
        indistinguishable,
    ))
}

/// The first refusal by the rules on dictionaries with all that they inherit.
///
/// # Errors
///
/// `AllocError` where there is no memory.
pub fn find_in_dictionaries(alloc: Global, defs: &Defs) -> Result<Option<Refusal>, AllocError>
    requires within { AreWithin (dictionary_terms defs.now) }
    requires hierarchy { IsHierarchy (dictionary_terms defs.now) }
    ensures { IfOk result (λ found. (definitions : List PlainDefinition) → IsFirstOver (defs_term defs.now) definitions dictionary_rules found) }
{
    let dicts = defs.dicts.as_slice();
    let holdings = Holdings::of(alloc, dicts)?;
    let found = first_long_chain(alloc, dicts, &holdings)?;
    let best = first(None, ValidityRule::LongDictionaryChain, found);
    let found = first_holding_itself(dicts, &holdings);
    let best = first(best, ValidityRule::DictionaryHoldsItself, found);
    let found = first_repeated_member(alloc, dicts)?;
    Ok(first(best, ValidityRule::RepeatedDictionaryMember, found))
}

/// The first refusal by the rules on default values, and on arguments that need one.
///
/// # Errors
///
/// `AllocError` where there is no memory, and the errors of [`widl_names::Resolver::resolve`].
pub fn find_in_defaults(
    alloc: Global,
    defs: &Defs,
    scope: &Scope<'_, '_>,
) -> Result<Option<Refusal>, AllocError>
    requires { IsHierarchy (dictionary_terms defs.now) }
    ensures { IfOk result (λ found. IsFirstOver (defs_term defs.now) (plain_definitions scope.now) default_rules found) }
{
    let found = first_without_empty_default(alloc, defs, scope)?;
    let best = first(None, ValidityRule::NoEmptyDefault, found);
    let found = first_other_default(alloc, defs, scope)?;
    Ok(first(best, ValidityRule::OtherDefault, found))
}

/// The first refusal by the rules on iterables.
///
/// # Errors
///
/// `AllocError` where there is no memory.
pub fn find_in_iterables(
    alloc: Global,
    scope: &Scope<'_, '_>,
) -> Result<Option<Refusal>, AllocError>
    requires { IsAcyclic (parent_links (plain_definitions scope.now)) }
    ensures { IfOk result (λ found. (list : DefsTerm) → IsFirstOver list (plain_definitions scope.now) iterable_rules found) }
{
    let found = find_iterables(alloc, scope)?;
    let best = first(None, ValidityRule::HiddenIterationMethod, found.hidden);
    Ok(first(best, ValidityRule::SecondIterable, found.second))
}
