//! Flags of the nodes of a graph, and whether a node reaches one whose flag is set.

ghost use Rattle.std.specs.Prelude.{◌≡◌, ◌||◌, ◌↔◌, replicate, slice_get, slice_index_or, IfOk, IsTrue, Some, false, true};
ghost use Rattle.std.specs.List.{list_any};
ghost use Rattle.widl_graph.specs.Reaching.{IsAcyclic};
ghost use Rattle.widl_graph.specs.Walks.{IsWalkOver};
ghost use Rattle.widl_graph.specs.Flags.{TellsReached, reaches_by};

use crate::{Graph, Walk};
use std::alloc::{AllocError, Global};

/// For each node of the graph whether it reaches, by one step or more, a node whose flag is set.
///
/// # Errors
///
/// `AllocError` where there is no memory.
pub fn flags_reached(
    alloc: Global,
    graph: &Graph,
    walk: &Walk,
    flags: &[bool],
) -> Result<Vec<bool>, AllocError>
    requires walk { IsWalkOver graph.now walk.now }
    requires acyclic { IsAcyclic graph.now }
    ensures { IfOk result (λ found. TellsReached graph.now flags.now found.items) }
{
    let mut found = no_flags(alloc, graph.len())?;
    for node in walk.order.as_slice() {
        let flag = reaches_by(graph.successors(*node), flags, found.as_slice());
        found[*node] = flag;
    }
    Ok(found)
}

/// As many flags, none of them set.
///
/// # Errors
///
/// `AllocError` where there is no memory.
pub fn no_flags(alloc: Global, count: usize) -> Result<Vec<bool>, AllocError>
    ensures { IfOk result (λ flags. flags.items ≡ replicate count false) }
{
    let mut flags = Vec::new(alloc);
    for _i in 0..count {
        flags.push(false)?;
    }
    Ok(flags)
}

/// Whether one of the successors has its flag set, or reaches a node that has.
fn reaches_by(successors: &[usize], flags: &[bool], found: &[bool]) -> bool
    ensures { result ≡ list_any (reaches_by flags.now found.now) successors.now }
{
    successors
        .iter()
        .any(|node| either_flag(flags, found, *node))
}

/// Whether the flag of this number is set in one of two lists.
pub fn either_flag(flags: &[bool], others: &[bool], number: usize) -> bool
    ensures { result ≡ (slice_index_or flags.now number false || slice_index_or others.now number false) }
{
    flag_at(flags, number) || flag_at(others, number)
}

/// Whether the flag of this number is there and set.
pub fn flag_at(flags: &[bool], number: usize) -> bool
    ensures value { result ≡ slice_index_or flags.now number false }
    ensures set { IsTrue result ↔ (slice_get flags.now number ≡ Some true) }
{
    match flags.get(number) {
        None => false,
        Some(flag) => *flag,
    }
}
