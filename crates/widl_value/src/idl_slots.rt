//! Slots of platform objects.

ghost use Rattle.std.specs.Prelude.{◌≡◌, IfOk};
ghost use Rattle.widl_value.specs.IdlTerms.{slot_term};

use crate::idl_value::IdlValue;
use std::alloc::AllocError;
use widl_text::Items;

/// The internal slots of an object by their places, each with its value or unset.
pub type IdlSlots = Items<Option<IdlValue>>;

/// A slot with the same value, or unset as it is.
///
/// # Errors
///
/// `AllocError` where there is no memory.
pub fn copy_slot(slot: &Option<IdlValue>) -> Result<Option<IdlValue>, AllocError>
    ensures { IfOk result (λ copy. slot_term copy ≡ slot_term slot.now) }
{
    match slot {
        None => Ok(None),
        Some(value) => Ok(Some(value.copy()?)),
    }
}
