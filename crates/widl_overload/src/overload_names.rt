//! The names of the overloads that break a rule.

ghost use Rattle.std.specs.Prelude.{◌≡◌, ◌<◌, IfOk, length, map};
ghost use Rattle.widl_idl.specs.DefinitionTerms.{sig_term};
ghost use Rattle.widl_overload.specs.sets.OverloadNames.{AreNamed, AreNamedAt, place_of_number};

use crate::span::{Span, overloads_of_length};
use std::alloc::{AllocError, Global};
use widl_idl::{Sig, Violation};
use widl_text::Place;

/// The violation at the name of the last overload with a tuple of a length, which speaks of that of the
/// first.
///
/// # Errors
///
/// `AllocError` where there is no memory.
pub(crate) fn at_names(
    alloc: Global,
    sigs: &[Sig],
    spans: &[Span],
    size: Option<u32>,
) -> Result<Option<Violation>, AllocError>
    requires few { length spans.now < 4294967296 }
    ensures { IfOk result (λ violation. AreNamedAt (map sig_term sigs.now) spans.now size violation) }
{
    match size {
        None => Ok(None),
        Some(size) => {
            let overloads = overloads_of_length(alloc, spans, size as usize)?;
            Ok(at_ends(sigs, overloads.as_slice()))
        }
    }
}

/// The violation at the name of the last of these overloads, which speaks of that of the first.
fn at_ends(sigs: &[Sig], overloads: &[u32]) -> Option<Violation>
    ensures { AreNamed (map sig_term sigs.now) overloads.now result }
{
    let first = overloads.first()?;
    let last = overloads.last()?;
    let at = overload_place(sigs, *last)?;
    Some(Violation {
        at,
        other: overload_place(sigs, *first),
    })
}

/// The place of the name of an overload.
fn overload_place(sigs: &[Sig], number: u32) -> Option<Place>
    ensures { result ≡ place_of_number (map sig_term sigs.now) number }
{
    match sigs.get(number as usize) {
        None => None,
        Some(sig) => Some(sig.at),
    }
}
