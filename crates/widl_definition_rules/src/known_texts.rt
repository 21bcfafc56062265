//! Texts that were met before.

ghost use Rattle.std.specs.Prelude.{◌≡◌, ℕ, List, ◌||◌, bytes_eq, None, Some, if◌then◌else◌, IfOk, OnOk};
ghost use Rattle.widl_idl.specs.First.{violation_at};
ghost use Rattle.widl_names.specs.KnownTexts.{has_text};

use indexmap::IndexSet;
use std::alloc::AllocError;
use widl_idl::Violation;
use widl_text::Place;

/// Adds a text that stands at a place, and gives the violation of that place if the text was known.
///
/// # Errors
///
/// `AllocError` where there is no memory.
pub fn note_text<'a>(
    known: &mut IndexSet<&'a str>,
    text: &'a str,
    at: Place,
) -> Result<Option<Violation>, AllocError>
    ensures adds { OnOk result ((other : List ℕ) → has_text known.new other ≡ (has_text known.old other || bytes_eq text.now other)) }
    ensures found { IfOk result (λ found. found ≡ (if has_text known.old text.now then Some (violation_at at) else None)) }
{
    let fresh = known.insert(text)?;
    Ok(if fresh { None } else { Some(Violation::at(at)) })
}
