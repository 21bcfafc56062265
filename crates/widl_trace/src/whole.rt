//! Lines that may have any number of bytes.

ghost use Rattle.std.specs.Prelude.{◌≡◌, ◌<◌, ◌^◌, IfErr, IfOk, IsOk};
ghost use Rattle.widl_trace.specs.Drafts.{least};

use crate::cut::Cut;
use crate::draft::Draft;
use std::alloc::AllocError;

/// The bytes of a line that may have as many as there can be, if it was written to its end.
#[tactic(auto, unfolding(crate::specs::Drafts::least))]
pub fn whole(draft: Draft, written: Result<(), Cut>) -> Result<Vec<u8>, AllocError>
    requires { IfErr written (λ cut. least usize.MAX cut < 2 ^ 64) }
    ensures { IfOk result (λ bytes. IsOk written × (bytes.items ≡ draft.bytes.items)) }
{
    match written {
        Ok(()) => Ok(draft.bytes),
        Err(Cut::Memory) => Err(AllocError),
        Err(Cut::TooLong) => unreachable!(),
    }
}
