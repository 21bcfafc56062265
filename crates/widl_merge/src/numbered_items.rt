//! Lists whose items 32 bits can number.

ghost use Rattle.std.specs.Prelude.{◌≡◌, ◌<◌, ◌^◌, [], ◌∷◌, ◌++◌, length, IfOk, OnOk};

use std::alloc::AllocError;
use widl_text::Items;

/// Adds an item at the end, and gives its number.
///
/// # Errors
///
/// `AllocError` where there is no memory.
pub fn push_numbered<T: Drop>(items: &mut Items<T>, item: T) -> Result<u32, AllocError>
    requires { length items.old < 2 ^ 32 }
    ensures list { OnOk result (items.new ≡ items.old ++ item ∷ []) }
    ensures number { IfOk result (λ number. number ≡ length items.old) }
{
    let number = items.len() as u32;
    items.push(item)?;
    Ok(number)
}
