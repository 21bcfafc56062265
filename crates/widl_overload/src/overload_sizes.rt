//! The smallest lengths at which an effective overload set breaks the rules on overloads. No tuple is built:
//! the walk goes over the lengths, and over the overloads that have a tuple of each.

ghost use Rattle.std.specs.Prelude.{◌≡◌, ◌-◌, ◌<◌, IfOk, MatchBool, MatchOption, None, Some, false, length, nat_le, map};
ghost use Rattle.widl_idl.specs.DefinitionTerms.{defs_term, sig_term};
ghost use Rattle.widl_overload.specs.sets.Numbers.{IsEarly, IsRow, IsTelling, NoneTells};
ghost use Rattle.widl_overload.specs.rules.OverloadViolations.{AreSmallest};
ghost use Rattle.widl_overload.specs.sets.Sets.{AreNumbered, effective_tuples, longest};
ghost use Rattle.widl_overload.specs.sets.Spans.{AreListed, AreSpans, spans_hold, true_places};

use crate::differing::differ_before;
use crate::span::{Span, end_of_row, overloads_of_length};
use crate::telling::first_telling;
use std::alloc::{AllocError, Global};
use widl_idl::{Defs, Sig};
use widl_text::Items;

/// The smallest lengths at which an effective overload set breaks the two rules on overloads.
#[derive(Clone, Copy, Debug)]
pub(crate) struct BreakingLengths {
    /// Of which there are several tuples without a distinguishing argument index.
    pub(crate) indistinguishable: Option<u32>,
    /// Of which two tuples differ before that index.
    pub(crate) early: Option<u32>,
}

/// The overloads that have a tuple of one length, and what tells them apart.
#[derive(Drop)]
pub(crate) struct Row {
    /// Their numbers.
    overloads: Items<u32>,
    /// The length from which on others may have a tuple.
    end: usize,
    /// The distinguishing argument index of the length.
    index: Option<u32>,
    /// Whether two of them differ before that index.
    early: bool,
}

/// The smallest lengths at which the rules are broken. None is asked beyond the longest list of arguments.
///
/// What an overload has at a place is the same in each of its tuples. So a place is asked again only at a
/// length of which other overloads may have a tuple than of the one before: where the tuples of one begin
/// or end. There are at most twice as many as overloads, and no more than the longest list has arguments.
///
/// # Errors
///
/// `AllocError` where there is no memory.
pub(crate) fn breaking_lengths(
    alloc: Global,
    defs: &Defs,
    sigs: &[Sig],
    spans: &[Span],
    most: usize,
) -> Result<BreakingLengths, AllocError>
    requires numbered { AreNumbered (map sig_term sigs.now) }
    requires spans { AreSpans (map sig_term sigs.now) spans.now }
    requires most { most ≡ longest (map sig_term sigs.now) }
    requires few { most < 4294967296 }
    ensures { IfOk result (λ lengths. AreSmallest (defs_term defs.now).ifaces (effective_tuples (map sig_term sigs.now) 0) most lengths) }
{
    let mut row = Row {
        overloads: Items::new(alloc),
        end: 0,
        index: None,
        early: false,
    };
    let mut indistinguishable = None;
    let mut early = None;
    for m in 0..most + 1 {
        row = next_row(alloc, defs, sigs, spans, row, m as u32)?;
        let lacks = lacks_index(&row);
        indistinguishable = found_or(indistinguishable, m as u32, lacks);
        early = found_or(early, m as u32, row.early);
    }
    Ok(BreakingLengths {
        indistinguishable,
        early,
    })
}

/// The length that was found before, and else this one, if a rule is broken at it.
fn found_or(found: Option<u32>, m: u32, broken: bool) -> Option<u32>
    ensures { MatchOption found (MatchBool broken (result ≡ Some m) (result ≡ None)) (λ n. result ≡ Some n) }
{
    match found {
        Some(n) => Some(n),
        None => if broken { Some(m) } else { None },
    }
}

/// Whether several overloads have the length of a row, and there is no place by which they are
/// distinguished.
fn lacks_index(row: &Row) -> bool
    ensures { MatchOption row.now.index (result ≡ nat_le 2 (length row.now.overloads)) (λ place. result ≡ false) }
{
    match row.index {
        None => row.overloads.len() >= 2,
        Some(_) => false,
    }
}

/// The row of a length, after that of the length before.
fn next_row(
    alloc: Global,
    defs: &Defs,
    sigs: &[Sig],
    spans: &[Span],
    row: Row,
    m: u32,
) -> Result<Row, AllocError>
    requires few { length spans.now < 4294967296 }
    requires before { IsRow (defs_term defs.now).ifaces (map sig_term sigs.now) (m - 1) row }
    requires listed { AreListed spans.now m row.end row.overloads }
    ensures row { IfOk result (λ next. IsRow (defs_term defs.now).ifaces (map sig_term sigs.now) m next) }
    ensures now { IfOk result (λ next. next.overloads ≡ true_places 0 (spans_hold m spans.now)) }
    ensures listed { IfOk result (λ next. AreListed spans.now m next.end next.overloads) }
{
    if (m as usize) < row.end {
        Ok(longer_row(defs, sigs, row, m))
    } else {
        let overloads = overloads_of_length(alloc, spans, m as usize)?;
        let end = end_of_row(spans, m as usize);
        Ok(row_from(defs, sigs, overloads, end, 0, m))
    }
}

/// The row of a length of which the same overloads have a tuple as of the one before.
fn longer_row(defs: &Defs, sigs: &[Sig], row: Row, m: u32) -> Row
    requires { IsRow (defs_term defs.now).ifaces (map sig_term sigs.now) (m - 1) row }
    ensures row { IsRow (defs_term defs.now).ifaces (map sig_term sigs.now) m result }
    ensures same { result.overloads ≡ row.overloads }
    ensures end { result.end ≡ row.end }
{
    if row.index.is_some() {
        row
    } else {
        row_from(defs, sigs, row.overloads, row.end, m.saturating_sub(1), m)
    }
}

/// The row of a length, of these overloads, which no place before `from` tells apart.
fn row_from(defs: &Defs, sigs: &[Sig], overloads: Items<u32>, end: usize, from: u32, m: u32) -> Row
    requires { NoneTells (defs_term defs.now).ifaces (map sig_term sigs.now) overloads from }
    ensures row { IsRow (defs_term defs.now).ifaces (map sig_term sigs.now) m result }
    ensures same { result.overloads ≡ overloads }
    ensures end { result.end ≡ end }
{
    let index = index_from(defs, sigs, overloads.as_slice(), from, m);
    let early = are_early(sigs, overloads.as_slice(), index);
    Row {
        overloads,
        end,
        index,
        early,
    }
}

/// The lowest place at which each two of several overloads are distinguishable, which is none before
/// `from`.
fn index_from(defs: &Defs, sigs: &[Sig], overloads: &[u32], from: u32, m: u32) -> Option<u32>
    requires { NoneTells (defs_term defs.now).ifaces (map sig_term sigs.now) overloads.now from }
    ensures { MatchOption result (NoneTells (defs_term defs.now).ifaces (map sig_term sigs.now) overloads.now m) (IsTelling (defs_term defs.now).ifaces (map sig_term sigs.now) overloads.now m) }
{
    if overloads.len() < 2 {
        None
    } else {
        first_telling(defs, sigs, overloads, from, m)
    }
}

/// Whether overloads differ before their distinguishing argument index, if they have one.
fn are_early(sigs: &[Sig], overloads: &[u32], index: Option<u32>) -> bool
    ensures { IsEarly (map sig_term sigs.now) overloads.now index result }
{
    match index {
        None => false,
        Some(index) => differ_before(sigs, overloads, index as usize),
    }
}
