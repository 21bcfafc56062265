//! Which nodes of a forest come from which, told by two comparisons.

ghost use Rattle.std.specs.Prelude.{◌≡◌, IfOk};
ghost use Rattle.widl_graph.specs.Reaching.{IsForest};
ghost use Rattle.widl_graph.specs.Spans.{AreSpans, AreWhole, parent_graph, span_of};

use crate::span_walk::walked;
use std::alloc::{AllocError, Global};

/// The places of a node and of those that come from it, in an order in which these follow it directly.
#[derive(Clone, Copy)]
pub struct Span {
    /// The place of the node.
    pub start: usize,
    /// The place after the last of those that come from it.
    pub past: usize,
}

/// The spans of the nodes of a forest, where each node has at most one parent.
///
/// A node that comes from another one stands in the span of that other, after its start, and nothing
/// else stands there.
#[derive(Drop)]
pub struct Spans {
    /// The span of each node, by the numbers of the nodes.
    pub by_node: Vec<Option<Span>>,
    /// The numbers of the nodes, in the order of their starts.
    pub order: Vec<usize>,
}

impl Spans {
    /// The spans of nodes with these parents, in time that grows with their number.
    ///
    /// # Errors
    ///
    /// `AllocError` where there is no memory.
    pub fn of(alloc: Global, parents: &[Option<u32>]) -> Result<Spans, AllocError>
        requires { IsForest (parent_graph parents.now) }
        ensures spans { IfOk result (λ found. AreSpans parents.now found.by_node.items found.order.items) }
        ensures whole { IfOk result (λ found. AreWhole found.by_node.items) }
    {
        walked(alloc, parents)
    }

    /// The span of a node.
    pub fn span(&self, number: usize) -> Option<Span>
        ensures { result ≡ span_of self.now.by_node.items number }
    {
        self.by_node.get(number).copied().flatten()
    }
}
