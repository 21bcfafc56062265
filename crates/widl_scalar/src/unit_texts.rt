//! Texts to texts of scalar values and of bytes.

ghost use Rattle.std.specs.Prelude.{◌≡◌, ◌≤◌, ◌↔◌, All, IfOk, IsTrue};
ghost use Rattle.widl_scalar.specs.UnitTexts.{scalar_units};

use std::alloc::{AllocError, Global};
use widl_text::Units;

/// The text with U+FFFD for each surrogate that has no partner (Web IDL, "USVString").
///
/// # Errors
///
/// `AllocError` where there is no memory.
pub fn scalar_text(alloc: Global, text: &Units) -> Result<Units, AllocError>
    ensures { IfOk result (λ scalar. scalar ≡ scalar_units text.now) }
{
    let scalar = respelled(alloc, text.as_slice())?;
    Ok(scalar)
}

/// The characters that the units spell, in units again.
fn respelled(alloc: Global, units: &[u16]) -> Result<Units, AllocError>
    ensures { IfOk result (λ scalar. scalar ≡ scalar_units units.now) }
{
    let characters = String::from_utf16_lossy(alloc, units)?;
    let scalar = Units::of_str(alloc, characters.as_str())?;
    Ok(scalar)
}

/// Whether no unit exceeds 255 (Web IDL, "ByteString").
pub fn is_byte_text(text: &Units) -> bool
    ensures { IsTrue result ↔ All (λ unit. unit ≤ 255) text.now }
{
    text.as_slice().iter().all(|unit| *unit <= 255)
}
