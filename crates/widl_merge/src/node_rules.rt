//! The rules of merging that read what is written a node at a time: on the names that nothing may have,
//! on what types name, and on how deep types nest.
//!
//! What is written fills far more memory than a processor keeps close by, and reading it takes longer than
//! the rules do. So one walk over it answers all of them.

ghost use Rattle.std.specs.Prelude.{◌≡◌};
ghost use Rattle.widl_idl.specs.First.{earlier};
ghost use Rattle.widl_idl.specs.PlainTrees.{plain_definitions};
ghost use Rattle.widl_merge.specs.Depths.{AreCapped, TellsDepths};
ghost use Rattle.widl_merge.specs.NodeRules.{AreFirst, AreFirstOf};
ghost use Rattle.widl_names.specs.Listings.{node_of, nodes_listed};

use crate::name_rules::{reserved_name, unknown_type};
use crate::nesting::too_deep;
use widl_idl::{Violation, earlier_violation};
use widl_names::{Meanings, Node};

/// For each of these rules the first violation at which it is broken.
#[derive(Clone, Copy)]
pub struct NodeViolations {
    /// That of a name that nothing may have.
    pub reserved: Option<Violation>,
    /// That of a name in a type that is the name of no type.
    pub unknown: Option<Violation>,
    /// That of a type that nests too deep.
    pub deep: Option<Violation>,
}

/// The first violations in the list of what is written, by a table of the depths of definitions.
pub fn first_in_nodes(
    meanings: &Meanings<'_, '_>,
    depths: &[Option<usize>],
    nodes: &[Node<'_>],
) -> NodeViolations
    requires capped { AreCapped depths.now }
    requires tells { TellsDepths (plain_definitions meanings.now) depths.now }
    ensures { AreFirst (plain_definitions meanings.now) (nodes_listed nodes.now) result }
{
    let mut best = NodeViolations {
        reserved: None,
        unknown: None,
        deep: None,
    };
    for node in nodes {
        let found = violations_of(meanings, depths, *node);
        best = earlier_violations(best, found);
    }
    best
}

/// The violations at which one node breaks the rules.
fn violations_of(
    meanings: &Meanings<'_, '_>,
    depths: &[Option<usize>],
    node: Node<'_>,
) -> NodeViolations
    requires capped { AreCapped depths.now }
    requires tells { TellsDepths (plain_definitions meanings.now) depths.now }
    ensures { AreFirstOf (plain_definitions meanings.now) (node_of node.entry) result }
{
    NodeViolations {
        reserved: reserved_name(node),
        unknown: unknown_type(meanings, node),
        deep: too_deep(meanings, depths, node),
    }
}

/// Of what was found so far and of what was found now, the earlier violation for each rule.
fn earlier_violations(best: NodeViolations, found: NodeViolations) -> NodeViolations
    ensures reserved { result.reserved ≡ earlier best.reserved found.reserved }
    ensures unknown { result.unknown ≡ earlier best.unknown found.unknown }
    ensures deep { result.deep ≡ earlier best.deep found.deep }
{
    NodeViolations {
        reserved: earlier_violation(best.reserved, found.reserved),
        unknown: earlier_violation(best.unknown, found.unknown),
        deep: earlier_violation(best.deep, found.deep),
    }
}
