//! The joined list of the rules of merging.

ghost use Rattle.std.specs.Prelude.{◌≡◌, [], ◌∷◌, List, IfOk};
ghost use Rattle.widl_idl.specs.FirstRefusal.{FirstBroken};
ghost use Rattle.widl_idl.specs.MergingRules.{BreaksMerging, merging_number};
ghost use Rattle.widl_idl.specs.Nesting.{typedef_links};
ghost use Rattle.widl_idl.specs.PlainTrees.{plain_definitions};
ghost use Rattle.widl_idl.specs.Nodes.{nodes_of};
ghost use Rattle.widl_idl.specs.declared.merging_rule.MergingRule as rules;
ghost use Rattle.widl_idl.specs.declared.merging_rule.MergingRule.TheVariants as rule;
ghost use Rattle.widl_names.specs.Listings.{nodes_listed};
ghost use Rattle.widl_graph.specs.Walks.{IsWalkOver};
ghost use Rattle.widl_merge.specs.Refusals.{IsMergingRefusal};
ghost use Rattle.widl_merge.specs.NodeRules.{AreFirst};

use crate::name_rules::first_second_definition;
use crate::nesting::definition_depths;
use crate::node_rules::{NodeViolations, first_in_nodes};
use crate::operations::first_in_two_parts;
use crate::parents::first_inheriting_from_itself;
use crate::reference_rules::{
    first_includes_into_no_interface, first_includes_no_mixin, first_parent_of_other_kind,
    first_partial_without_main,
};
use crate::sums::first_past_limit;
use crate::typedefs::{first_typedef_reaching_itself, walk_typedefs};
use std::alloc::{AllocError, Global};
use widl_graph::Walk;
use widl_idl::{MergingRule, Refusal, joined};
use widl_names::{Meanings, Node, Scope};

/// The first refusal by a rule of merging, or none where all of them are kept. The nodes are everything
/// that is written in the definitions.
pub fn first_unmerged(
    alloc: Global,
    scope: &Scope<'_, '_>,
    nodes: &[Node<'_>],
) -> Result<Option<Refusal>, AllocError>
    requires { nodes_listed nodes.now ≡ nodes_of (plain_definitions scope.now) }
    ensures { IfOk result (λ refusal. IsMergingRefusal (plain_definitions scope.now) refusal) }
{
    let meanings = scope.meanings();
    let walk = walk_typedefs(alloc, meanings)?;
    let depths = definition_depths(alloc, meanings, &walk)?;
    let violations = first_in_nodes(meanings, &depths, nodes);
    let best = join_members(alloc, scope)?;
    let best = join_links(alloc, meanings, &walk, violations, best)?;
    Ok(join_names(meanings, violations, best))
}

/// The rules on the parts of definitions.
fn join_members(alloc: Global, scope: &Scope<'_, '_>) -> Result<Option<Refusal>, AllocError>
    ensures { IfOk result (λ best. FirstBroken merging_number (BreaksMerging (plain_definitions scope.now)) (rule.OperationInTwoParts ∷ rule.TooManyMembers ∷ []) best) }
{
    let found = first_past_limit(alloc, scope.meanings())?;
    let best = joined(MergingRule::TooManyMembers.number(), found, None);
    let found = first_in_two_parts(alloc, scope)?;
    Ok(joined(MergingRule::OperationInTwoParts.number(), found, best))
}

/// The rules on what definitions lead to: their parents, and typedefs.
fn join_links(
    alloc: Global,
    meanings: &Meanings<'_, '_>,
    walk: &Walk,
    violations: NodeViolations,
    best: Option<Refusal>,
) -> Result<Option<Refusal>, AllocError>
    requires walk { IsWalkOver (typedef_links (plain_definitions meanings.now)) walk.now }
    requires violations { AreFirst (plain_definitions meanings.now) (nodes_of (plain_definitions meanings.now)) violations }
    ensures { IfOk result (λ earliest. (others : List rules.MergingRule) → FirstBroken merging_number (BreaksMerging (plain_definitions meanings.now)) others best → FirstBroken merging_number (BreaksMerging (plain_definitions meanings.now)) (rule.InheritsFromItself ∷ rule.TypedefReachesItself ∷ rule.NestsTooDeep ∷ others) earliest) }
{
    let best = joined(MergingRule::NestsTooDeep.number(), violations.deep, best);
    let found = first_typedef_reaching_itself(meanings, walk);
    let best = joined(MergingRule::TypedefReachesItself.number(), found, best);
    let found = first_inheriting_from_itself(alloc, meanings)?;
    Ok(joined(MergingRule::InheritsFromItself.number(), found, best))
}

/// The rules on names and what they mean.
fn join_names(
    meanings: &Meanings<'_, '_>,
    violations: NodeViolations,
    best: Option<Refusal>,
) -> Option<Refusal>
    requires { AreFirst (plain_definitions meanings.now) (nodes_of (plain_definitions meanings.now)) violations }
    ensures { (others : List rules.MergingRule) → FirstBroken merging_number (BreaksMerging (plain_definitions meanings.now)) others best → FirstBroken merging_number (BreaksMerging (plain_definitions meanings.now)) (rule.SecondDefinition ∷ rule.ReservedName ∷ rule.PartialWithoutMain ∷ rule.IncludesIntoNoInterface ∷ rule.IncludesNoMixin ∷ rule.ParentOfOtherKind ∷ rule.UnknownType ∷ others) result }
{
    let best = joined(MergingRule::UnknownType.number(), violations.unknown, best);
    let found = first_parent_of_other_kind(meanings);
    let best = joined(MergingRule::ParentOfOtherKind.number(), found, best);
    let found = first_includes_no_mixin(meanings);
    let best = joined(MergingRule::IncludesNoMixin.number(), found, best);
    let found = first_includes_into_no_interface(meanings);
    let best = joined(MergingRule::IncludesIntoNoInterface.number(), found, best);
    let found = first_partial_without_main(meanings);
    let best = joined(MergingRule::PartialWithoutMain.number(), found, best);
    let best = joined(
        MergingRule::ReservedName.number(),
        violations.reserved,
        best,
    );
    let found = first_second_definition(meanings);
    joined(MergingRule::SecondDefinition.number(), found, best)
}
