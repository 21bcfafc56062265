//! The rule on long chains of dictionaries, each in the type of a member of the one before.

ghost use Rattle.std.specs.Prelude.{◌≡◌, IfOk, map, nat_lt, replicate, slice_index, true};
ghost use Rattle.std.specs.List.{Contains};
ghost use Rattle.widl_fits.specs.Hierarchies.{IsHierarchy};
ghost use Rattle.widl_idl.specs.DefinitionTerms.{dict_term};
ghost use Rattle.widl_idl.specs.First.{FirstWhere};
ghost use Rattle.widl_inheritance.specs.ChainLengths.{TellsLengths, greatest_length, node_length};
ghost use Rattle.widl_inheritance.specs.HoldingGraph.{AreHoldings};
ghost use Rattle.widl_overload.specs.rules.DictionaryRules.{BeginsLongChain};

use crate::holding::{Holdings, first_flagged, first_holding_itself};
use std::alloc::{AllocError, Global};
use widl_idl::{Dict, Violation};
use widl_text::limits::MOST_CHAINED_DICTIONARIES;

/// The first place of the name of a dictionary with which a chain of more than 256 begins, where none
/// holds itself: each next one stands in the type of a member of the one before (Web IDL,
/// "Dictionaries").
///
/// # Errors
///
/// `AllocError` where there is no memory.
pub fn first_long_chain(
    alloc: Global,
    dicts: &[Dict],
    holdings: &Holdings,
) -> Result<Option<Violation>, AllocError>
    requires holdings { AreHoldings (map dict_term dicts.now) holdings.now }
    requires hierarchy { IsHierarchy (map dict_term dicts.now) }
    ensures { IfOk result (λ found. FirstWhere (BeginsLongChain (map dict_term dicts.now)) found) }
{
    if first_holding_itself(dicts, holdings).is_some() {
        return Ok(None);
    }
    let lengths = chain_lengths(alloc, dicts, holdings)?;
    let long = long_flags(alloc, lengths.as_slice())?;
    Ok(first_flagged(long.as_slice(), dicts))
}

/// For each length whether it passes the limit.
fn long_flags(alloc: Global, lengths: &[usize]) -> Result<Vec<bool>, AllocError>
    ensures { IfOk result (λ flags. flags.items ≡ map (λ n. nat_lt 256 n) lengths.now) }
{
    let mut flags = Vec::new(alloc);
    for longest in lengths {
        flags.push(*longest > MOST_CHAINED_DICTIONARIES)?;
    }
    Ok(flags)
}

/// The lengths of the longest chains, by the nodes of the graph: those that begin with a dictionary,
/// and those that begin with one in the type of a member of a dictionary.
fn chain_lengths(
    alloc: Global,
    dicts: &[Dict],
    holdings: &Holdings,
) -> Result<Vec<usize>, AllocError>
    requires holdings { AreHoldings (map dict_term dicts.now) holdings.now }
    requires finite { Contains holdings.now.walk.cyclic.items true → ⊥ }
    ensures { IfOk result (λ lengths. TellsLengths (map dict_term dicts.now) lengths.items) }
{
    let mut lengths = no_lengths(alloc, holdings.graph.len())?;
    let order = holdings.walk.order.as_slice();
    for node in order {
        let successors = holdings.graph.successors(*node);
        let after = greatest_length(lengths.as_slice(), successors);
        lengths[*node] = node_length(dicts.len(), *node, after);
    }
    Ok(lengths)
}

/// So many lengths of 0.
fn no_lengths(alloc: Global, count: usize) -> Result<Vec<usize>, AllocError>
    ensures { IfOk result (λ lengths. lengths.items ≡ replicate count 0) }
{
    let mut lengths = Vec::new(alloc);
    for _i in 0..count {
        lengths.push(0)?;
    }
    Ok(lengths)
}

/// The greatest of the lengths of nodes, 0 where there are no nodes.
fn greatest_length(lengths: &[usize], nodes: &[usize]) -> usize
    ensures { result ≡ greatest_length lengths.now nodes.now }
{
    let mut greatest = 0;
    for node in nodes {
        greatest = greatest.max(length_at(lengths, *node));
    }
    greatest
}

/// The length of a node.
fn length_at(lengths: &[usize], node: usize) -> usize
    ensures { result ≡ slice_index lengths.now node }
{
    match lengths.get(node) {
        None => 0,
        Some(length) => *length,
    }
}

/// The length of a node after which the greatest length is this one, at most one past the limit: one
/// of `count` dictionaries stands in the chain itself.
fn node_length(count: usize, node: usize, after: usize) -> usize
    ensures { result ≡ node_length count node after }
{
    if node < count {
        after.min(MOST_CHAINED_DICTIONARIES) + 1
    } else {
        after.min(MOST_CHAINED_DICTIONARIES + 1)
    }
}
