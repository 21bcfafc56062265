//! Operations that a definition has in two of its parts.

ghost use Rattle.std.specs.Prelude.{◌≡◌, ℕ, Bool, List, ◌||◌, ◌&&◌, option_map, slice_get, Some, IfOk, OnOk};
ghost use Rattle.std.specs.List.{list_any};
ghost use Rattle.widl_idl.specs.declared.merging_rule.MergingRule.TheVariants as rule;
ghost use Rattle.widl_idl.specs.First.{AtOne, FirstWhere, Somewhere};
ghost use Rattle.widl_idl.specs.MergingRules.{BreaksMerging, RepeatsOperation, both_or_none, is_operation_of, is_static};
ghost use Rattle.widl_idl.specs.Meanings.{is_text_of};
ghost use Rattle.widl_idl.specs.PlainTrees.{definition_kind_of, member_kind_of, members_of, operation_of, plain_definitions};
ghost use Rattle.widl_names.specs.PartTables.{has_parts, listed_parts};
ghost use Rattle.widl_merge.specs.Repeats.{IsKnown, RepeatsInOwner, is_owner, known_at, known_name};
ghost use Rattle.widl_names.specs.KnownTexts.{has_name};

use std::alloc::{AllocError, Global};
use widl_idl::tree::{DefinitionKind, Member, MemberKind, Operation};
use widl_idl::{Kind, Violation, earlier_violation};
use widl_names::{Meanings, OperationNames, Scope, is_static, kind_of, means_itself, members_in};

/// The first place of the name of an operation that an earlier part of the same definition has too.
///
/// # Errors
///
/// `AllocError` where there is no memory.
pub fn first_in_two_parts(
    alloc: Global,
    scope: &Scope<'_, '_>,
) -> Result<Option<Violation>, AllocError>
    ensures { IfOk result (λ found. FirstWhere (BreaksMerging (plain_definitions scope.now) rule.OperationInTwoParts) found) }
{
    let mut best = None;
    let definitions = scope.all();
    for (number, definition) in definitions.iter().enumerate() {
        let found = first_of_owner(alloc, scope, number, &definition.kind)?;
        best = earlier_violation(best, found);
    }
    Ok(best)
}

/// The same in the parts of the definition of this number, if its name means it.
fn first_of_owner(
    alloc: Global,
    scope: &Scope<'_, '_>,
    number: usize,
    kind: &DefinitionKind,
) -> Result<Option<Violation>, AllocError>
    requires { option_map (λ d. d.kind) (slice_get (plain_definitions scope.now) number) ≡ Some (definition_kind_of kind.now) }
    ensures { IfOk result (λ found. FirstWhere (RepeatsInOwner (plain_definitions scope.now) number (definition_kind_of kind.now)) found) }
{
    if is_owner(scope.meanings(), number, kind) {
        let list = scope.parts().list(alloc, number)?;
        first_repeated(alloc, &list)
    } else {
        Ok(None)
    }
}

/// Whether a definition of this number is an interface, a mixin or a namespace that its name means.
fn is_owner(meanings: &Meanings, number: usize, kind: &DefinitionKind) -> bool
    ensures { result ≡ is_owner (plain_definitions meanings.now) number (definition_kind_of kind.now) }
{
    has_parts(kind_of(kind)) && means_itself(meanings, number, kind)
}

fn has_parts(kind: Kind) -> bool
    ensures { result ≡ has_parts kind }
{
    match kind {
        Kind::Interface | Kind::Mixin | Kind::Namespace => true,
        _ => false,
    }
}

/// The first place of the name of an operation that an earlier one of the parts has too.
fn first_repeated(alloc: Global, parts: &[&DefinitionKind]) -> Result<Option<Violation>, AllocError>
    ensures { IfOk result (λ found. FirstWhere (AtOne RepeatsOperation (listed_parts parts.now)) found) }
{
    // A part alone repeats nothing. Most interfaces with mixins in a short file have this one part.
    if parts.len() < 2 {
        return Ok(None);
    }
    let mut known = OperationNames::new(alloc);
    let mut best = None;
    for part in parts {
        let found = first_known(&known, members_in(part));
        best = earlier_violation(best, found);
        add_all(&mut known, members_in(part))?;
    }
    Ok(best)
}

/// The first place of the name of an operation among these members that is known.
fn first_known(known: &OperationNames<'_>, members: &[Member]) -> Option<Violation>
    ensures { FirstWhere (Somewhere (IsKnown (has_name known.now)) (members_of members.now)) result }
{
    let mut best = None;
    for member in members {
        let found = known_member(known, &member.kind);
        best = earlier_violation(best, found);
    }
    best
}

fn known_member(known: &OperationNames<'_>, kind: &MemberKind) -> Option<Violation>
    ensures { result ≡ known_at (has_name known.now) (member_kind_of kind.now) }
{
    match kind {
        MemberKind::Operation(operation) => known_operation(known, operation),
        _ => None,
    }
}

fn known_operation(known: &OperationNames<'_>, operation: &Operation) -> Option<Violation>
    ensures { result ≡ known_name (has_name known.now) (is_static operation.now.kind) (operation_of operation.now).name }
{
    let name = operation.name.as_ref()?;
    if known.contains(name.text.as_str(), is_static(operation.kind)) {
        Some(Violation::at(name.at))
    } else {
        None
    }
}

/// Adds the names of the operations among these members.
fn add_all<'a>(known: &mut OperationNames<'a>, members: &'a [Member]) -> Result<(), AllocError>
    ensures { OnOk result ((text : List ℕ) (static : Bool) → has_name known.new text static ≡ (has_name known.old text static || list_any (λ m. is_operation_of text static m.kind) (members_of members.now))) }
{
    for member in members {
        add_member(known, &member.kind)?;
    }
    Ok(())
}

fn add_member<'a>(known: &mut OperationNames<'a>, kind: &'a MemberKind) -> Result<(), AllocError>
    ensures { OnOk result ((text : List ℕ) (static : Bool) → has_name known.new text static ≡ (has_name known.old text static || is_operation_of text static (member_kind_of kind.now))) }
{
    match kind {
        MemberKind::Operation(operation) => add_operation(known, operation),
        _ => Ok(()),
    }
}

fn add_operation<'a>(
    known: &mut OperationNames<'a>,
    operation: &'a Operation,
) -> Result<(), AllocError>
    ensures { OnOk result ((text : List ℕ) (static : Bool) → has_name known.new text static ≡ (has_name known.old text static || (is_text_of text (operation_of operation.now).name && both_or_none static (is_static operation.now.kind)))) }
{
    match &operation.name {
        None => Ok(()),
        Some(name) => known.insert(name.text.as_str(), is_static(operation.kind)),
    }
}
