//! The units of texts.

ghost use Rattle.std.specs.Prelude.{◌<◌, ℕ, slice_index};

/// That each unit has 16 bits: a law, which takes no step.
pub(crate) fn units_fit(items: &[u16])
    ensures { (place : ℕ) → slice_index items.now place < 65536 }
{
    let _length = items.len();
}
