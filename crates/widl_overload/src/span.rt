//! The lengths of which an overload has tuples, and the overloads that have one of a length.

ghost use Rattle.std.specs.Prelude.{◌≡◌, ◌<◌, ◌≤◌, ℕ, IfOk, length, map};
ghost use Rattle.widl_idl.specs.DefinitionTerms.{arg_term, sig_term};
ghost use Rattle.widl_overload.specs.sets.Spans.{AreSpans, IsFreeStart, spans_hold, true_places};

use crate::sets::{is_free, last_variadic};
use std::alloc::{AllocError, Global};
use widl_idl::{Arg, Sig};
use widl_text::Items;

/// The lengths of the tuples of one overload: from the least on, and up to its declared one if it isn't
/// variadic.
#[derive(Clone, Copy)]
pub(crate) struct Span {
    pub(crate) least: usize,
    pub(crate) declared: usize,
    pub(crate) is_variadic: bool,
}

impl Span {
    ghost use Rattle.std.specs.Prelude.{◌≡◌, ◌<◌, ◌≤◌, ℕ, map};
    ghost use Rattle.widl_idl.specs.DefinitionTerms.{arg_term};
    ghost use Rattle.widl_overload.specs.sets.Spans.{has_tuple, holds};

    /// The lengths of the tuples of an overload with these arguments.
    fn of(args: &[Arg]) -> Span
        ensures { (m : ℕ) → holds m result ≡ has_tuple m (map arg_term args.now) }
    {
        Span {
            least: least_length(args),
            declared: args.len(),
            is_variadic: last_variadic(args).is_some(),
        }
    }

    /// Whether the overload has a tuple of a length.
    fn holds(&self, m: usize) -> bool
        ensures { result ≡ holds m self.now }
    {
        self.least <= m && (m <= self.declared || self.is_variadic)
    }

    /// A length above this one, before which the overload has tuples of all the lengths from this one on, or
    /// of none.
    fn end(&self, m: usize) -> usize
        ensures { (k : ℕ) → m ≤ k → k < result → holds k self.now ≡ holds m self.now }
    {
        if m < self.least {
            self.least
        } else if m <= self.declared && !self.is_variadic {
            self.declared.saturating_add(1)
        } else {
            usize::MAX
        }
    }
}

/// How many arguments a call has to give.
fn least_length(args: &[Arg]) -> usize
    ensures { IsFreeStart (map arg_term args.now) result }
{
    let mut least = args.len();
    while least > 0 {
        if !is_free(args[least - 1].opt, least == args.len()) {
            return least;
        }
        least -= 1;
    }
    least
}

/// The lengths of the tuples of each overload.
pub(crate) fn spans_of(alloc: Global, sigs: &[Sig]) -> Result<Items<Span>, AllocError>
    ensures { IfOk result (λ spans. AreSpans (map sig_term sigs.now) spans) }
{
    let mut spans = Items::new(alloc);
    for sig in sigs {
        spans.push(Span::of(sig.args.as_slice()))?;
    }
    Ok(spans)
}

/// The numbers of the overloads that have a tuple of a length.
pub(crate) fn overloads_of_length(
    alloc: Global,
    spans: &[Span],
    m: usize,
) -> Result<Items<u32>, AllocError>
    requires { length spans.now < 4294967296 }
    ensures { IfOk result (λ overloads. overloads ≡ true_places 0 (spans_hold m spans.now)) }
{
    let mut overloads = Items::new(alloc);
    for (number, span) in spans.iter().enumerate() {
        if span.holds(m) {
            overloads.push(number as u32)?;
        }
    }
    Ok(overloads)
}

/// A length, before which the same overloads have a tuple of each of the lengths from `m` on.
pub(crate) fn end_of_row(spans: &[Span], m: usize) -> usize
    ensures { (k : ℕ) → m ≤ k → k < result → spans_hold k spans.now ≡ spans_hold m spans.now }
{
    let mut end = usize::MAX;
    for span in spans {
        end = end.min(span.end(m));
    }
    end
}
