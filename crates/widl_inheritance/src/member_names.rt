//! Members of dictionaries whose names are not new: an earlier member of the dictionary has the name, or one
//! that it inherits (Web IDL, "Dictionaries").
//!
//! The dictionaries are visited in an order in which each is directly followed by those that inherit from
//! it. So it is enough to keep, for each name, where the last of the spans ends that belong to a visited
//! dictionary with a member of the name: where a dictionary stands before that place, it stands in such a
//! span.

ghost use Rattle.std.specs.Prelude.{◌≡◌, ◌<◌, ◌&&◌, ◌||◌, ℕ, List, length, map, bytes_eq, max, nat_lt, None, Some, if◌then◌else◌, IfOk, OnOk};
ghost use Rattle.widl_fits.specs.Hierarchies.{IsHierarchy};
ghost use Rattle.widl_idl.specs.DefinitionTerms.{DictTerm, dict_term, member_term};
ghost use Rattle.widl_idl.specs.First.{AtOne, FirstWhere, violation_at};
ghost use Rattle.widl_overload.specs.rules.DictionaryRules.{HasNameTwice, has_member};
ghost use Rattle.widl_inheritance.specs.MemberEnds.{RepeatsKept, RepeatsKnown, end_of, has_after};
ghost use Rattle.widl_graph.specs.Spans.{AreSpans, AreWhole, span_of};
ghost use Rattle.widl_graph.specs.declared.spans.Span as declared;

use indexmap::IndexMap;
use std::alloc::{AllocError, Global};
use widl_graph::{Span, Spans};
use widl_idl::{Dict, Member, Violation, earlier_violation};

/// The first place of the name of a dictionary member that an earlier member of the dictionary has, or one
/// that it inherits, in time that grows with the dictionaries and their members.
///
/// # Errors
///
/// `AllocError` where there is no memory.
pub fn first_repeated_member(alloc: Global, dicts: &[Dict]) -> Result<Option<Violation>, AllocError>
    requires { IsHierarchy (map dict_term dicts.now) }
    ensures { IfOk result (λ found. FirstWhere (HasNameTwice (map dict_term dicts.now)) found) }
{
    let parents = parents_of(alloc, dicts)?;
    let spans = Spans::of(alloc, parents.as_slice())?;
    first_in_order(alloc, dicts, &spans)
}

/// The numbers of the dictionaries from which these inherit directly.
fn parents_of(alloc: Global, dicts: &[Dict]) -> Result<Vec<Option<u32>>, AllocError>
    ensures { IfOk result (λ parents. parents.items ≡ map (λ (d : DictTerm). d.parent) (map dict_term dicts.now)) }
{
    let mut parents = Vec::new(alloc);
    for dict in dicts {
        parents.push(dict.parent)?;
    }
    Ok(parents)
}

/// The first place, where each dictionary has a span.
fn first_in_order(
    alloc: Global,
    dicts: &[Dict],
    spans: &Spans,
) -> Result<Option<Violation>, AllocError>
    requires spans { AreSpans (map (λ (d : DictTerm). d.parent) (map dict_term dicts.now)) spans.now.by_node.items spans.now.order.items }
    requires whole { AreWhole spans.now.by_node.items }
    ensures { IfOk result (λ found. FirstWhere (HasNameTwice (map dict_term dicts.now)) found) }
{
    let mut ends = IndexMap::new(alloc);
    let mut best = None;
    for number in &spans.order {
        let found = visit(&mut ends, dicts, spans, *number)?;
        best = earlier_violation(best, found);
    }
    Ok(best)
}

/// Visits a dictionary: the first place of a member whose name is not new. The names are kept.
fn visit<'a>(
    ends: &mut IndexMap<&'a [u16], usize>,
    dicts: &'a [Dict],
    spans: &Spans,
    number: usize,
) -> Result<Option<Violation>, AllocError>
    requires { (n : ℕ) (s : declared.Span) → span_of spans.now.by_node.items n ≡ Some s → s.start < s.past }
    ensures keeps { OnOk result ((name : List ℕ) (place : ℕ) → nat_lt place (end_of ends.new name) ≡ (nat_lt place (end_of ends.old name) || has_after (map dict_term dicts.now) spans.now.by_node.items name place number)) }
    ensures found { IfOk result (λ found. FirstWhere (RepeatsKept (map dict_term dicts.now) spans.now.by_node.items (end_of ends.old) number) found) }
{
    match dicts.get(number) {
        None => Ok(None),
        Some(dict) => match spans.span(number) {
            None => Ok(None),
            Some(span) => keep_members(ends, dict.members.as_slice(), span),
        },
    }
}

/// Keeps the names of a dictionary's own members: the first place of one that is not new.
fn keep_members<'a>(
    ends: &mut IndexMap<&'a [u16], usize>,
    members: &'a [Member],
    span: Span,
) -> Result<Option<Violation>, AllocError>
    requires { span.start < span.past }
    ensures keeps { OnOk result ((name : List ℕ) (place : ℕ) → nat_lt place (end_of ends.new name) ≡ (nat_lt place (end_of ends.old name) || has_member name (map member_term members.now) && nat_lt place span.past)) }
    ensures found { IfOk result (λ found. FirstWhere (AtOne (RepeatsKnown (λ name. nat_lt span.start (end_of ends.old name))) (map member_term members.now)) found) }
{
    let mut best = None;
    for member in members {
        let found = keep_member(ends, member, span)?;
        best = earlier_violation(best, found);
    }
    Ok(best)
}

/// Keeps the name of a member: its place, if the name is not new.
fn keep_member<'a>(
    ends: &mut IndexMap<&'a [u16], usize>,
    member: &'a Member,
    span: Span,
) -> Result<Option<Violation>, AllocError>
    ensures keeps { OnOk result ((name : List ℕ) → end_of ends.new name ≡ (if bytes_eq member.now.name name then max (end_of ends.old name) span.past else end_of ends.old name)) }
    ensures found { IfOk result (λ found. found ≡ (if nat_lt span.start (end_of ends.old member.now.name) then Some (violation_at member.now.at) else None)) }
{
    let name = member.name.as_slice();
    let end = end_of(ends, name);
    ends.insert(name, end.max(span.past))?;
    Ok(if span.start < end {
        Some(Violation::at(member.at))
    } else {
        None
    })
}

/// The place that is kept for a name, or 0.
fn end_of(ends: &IndexMap<&[u16], usize>, name: &[u16]) -> usize
    ensures { result ≡ end_of ends.now name.now }
{
    ends.get(name).copied().unwrap_or(0)
}
