//! The walk over a whole graph.

ghost use Rattle.std.specs.Prelude.{ℕ, IfOk, length};
ghost use Rattle.widl_graph.specs.Order.{IsOrder, StandsBefore};
ghost use Rattle.widl_graph.specs.Reaching.{Step, AreNodes, ReachesItself, TellsCyclic};

use crate::Graph;
use crate::search::Search;
use std::alloc::{AllocError, Global};

/// What a walk over a graph found.
#[derive(Drop)]
pub struct Walk {
    /// For each node, whether it reaches itself by one or more steps.
    pub cyclic: Vec<bool>,
    /// Each node once. The successors of a node that does not reach itself stand before it.
    pub order: Vec<usize>,
}

impl Walk {
    /// Walks over the whole graph, in time that grows with the nodes and successors.
    ///
    /// Fails with `AllocError` where there is no memory for it.
    pub fn over(alloc: Global, graph: &Graph) -> Result<Walk, AllocError>
        requires { AreNodes graph.now }
        ensures cyclic { IfOk result (λ w. TellsCyclic graph.now w.cyclic.items) }
        ensures order { IfOk result (λ w. IsOrder (length graph.now) w.order.items) }
        ensures before { IfOk result (λ w. (x y : ℕ) → ¬ ReachesItself graph.now x → Step graph.now x y → StandsBefore w.order.items y x) }
    {
        let mut search = Search::new(alloc, graph.len())?;
        for root in 0..graph.len() {
            search.search_from(graph, root)?;
        }
        let cyclic = search.cyclic(alloc)?;
        let order = search.into_order();
        Ok(Walk { cyclic, order })
    }
}
