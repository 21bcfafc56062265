//! Directed graphs: which nodes reach themselves, and an order in which the successors of a node come
//! before it.
//!
//! It stands on nothing. The one contract that the crates above use is that of [`Walk::over`]: in
//! time that grows with the nodes and successors, and without recursion, it finds for each node
//! whether one or more steps lead from it back to it, and an order that has each node once, in which
//! each successor of a node that does not reach itself stands before it. So a value of each node that
//! is made from those of its successors, as a depth or a longest chain, takes one pass over the order.
//! [`Graph::is_complete`] tests what [`Walk::over`] requires; `proofs/Building.antt` has what a caller
//! needs to prove it, and `proofs/Orders.antt` the places of an order. [`flags_reached`] makes such a
//! pass: which nodes reach one whose flag is set.
//!
//! Of a forest, where each node has at most one parent, [`Spans`] tells by two comparisons which nodes
//! come from which.
#![tactic(auto)]

mod children;
mod flags;
mod graph;
mod search;
mod span_walk;
mod spans;
mod walk;

pub use flags::{either_flag, flag_at, flags_reached, no_flags};
pub use graph::Graph;
pub use spans::{Span, Spans};
pub use walk::Walk;
