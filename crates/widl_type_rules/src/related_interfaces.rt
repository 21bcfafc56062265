//! Interfaces of which one is another one, or inherits from it.

ghost use Rattle.std.specs.Prelude.{◌≡◌, ◌<◌, IfOk, OnOk, map};
ghost use Rattle.std.specs.List.{All};
ghost use Rattle.std.specs.List.Sorted.{IsNonDecreasingBy, IsPermutation};
ghost use Rattle.widl_idl.specs.DefinitionTerms.{iface_term};
ghost use Rattle.widl_type_rules.specs.IndistinguishablePairs.{any_pair, are_related};
ghost use Rattle.widl_type_rules.specs.Lineages.{TellRelated, begins_within, touches};

use crate::lineages::Lineages;
use std::alloc::{AllocError, Global};
use widl_graph::Span;
use widl_idl::Iface;

/// Whether one of the interfaces with these numbers is another one, or inherits from it, in the time of a
/// sort.
///
/// # Errors
///
/// `AllocError` where there is no memory.
pub fn any_related(
    alloc: Global,
    ifaces: &[Iface],
    lineages: &Lineages,
    numbers: &[u32],
) -> Result<bool, AllocError>
    requires { TellRelated (map iface_term ifaces.now) lineages.now.spans.items }
    ensures { IfOk result (λ found. found ≡ any_pair (are_related (map iface_term ifaces.now)) numbers.now) }
{
    let spans = lineages.spans_of(alloc, numbers)?;
    any_touch(spans)
}

/// Whether two of the spans have a place in common.
fn any_touch(spans: Vec<Span>) -> Result<bool, AllocError>
    requires { All (λ s. s.start < s.past) spans.items }
    ensures { IfOk result (λ found. found ≡ any_pair touches spans.items) }
{
    let mut spans = spans;
    sort_by_start(&mut spans)?;
    Ok(any_begins_within(&spans))
}

/// Sorts spans by where they start.
fn sort_by_start(spans: &mut Vec<Span>) -> Result<(), AllocError>
    ensures same { IsPermutation spans.old.items spans.new.items }
    ensures sorted { OnOk result (IsNonDecreasingBy (λ s. s.start) spans.new.items) }
{
    spans.sort_by_key(|span| span.start)?;
    Ok(())
}

/// Whether one of the spans starts before an earlier one is past.
fn any_begins_within(spans: &[Span]) -> bool
    ensures { result ≡ any_pair begins_within spans.now }
{
    let mut reach = 0;
    for place in 0..spans.len() {
        if spans[place].start < reach {
            return true;
        }
        reach = reach.max(spans[place].past);
    }
    false
}
