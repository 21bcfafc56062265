//! Lines in writing.

ghost use Rattle.std.specs.Prelude.{◌≡◌, ◌≤◌, vec_len, [], ◌∷◌, IfOk};

use crate::cut::Cut;
use std::alloc::{AllocError, Global};

/// A line that is being written, with how many bytes it may have at most.
#[derive(Drop)]
pub struct Draft {
    /// The bytes so far.
    pub bytes: Vec<u8>,
    /// How many bytes the line may have.
    pub most: usize,
    ghost within: { vec_len bytes ≤ most },
}

impl Draft {
    ghost use Rattle.widl_trace.specs.Drafts.{Adds, least};

    /// A line without bytes as yet. Most lines have fewer than 64 bytes, so that there is room for as many.
    pub fn new(alloc: Global, most: usize) -> Result<Draft, AllocError>
        ensures bytes { IfOk result (λ draft. draft.bytes.items ≡ []) }
        ensures most { IfOk result (λ draft. draft.most ≡ most) }
    {
        let bytes = Vec::with_capacity(alloc, 64)?;
        Ok(Draft { bytes, most })
    }

    /// Adds a byte.
    #[tactic(auto, unfolding(crate::specs::Drafts::least))]
    pub fn push_byte(&mut self, byte: u8) -> Result<(), Cut>
        ensures { Adds self.old self.new (byte ∷ []) result }
    {
        if self.bytes.len() == self.most {
            return Err(Cut::TooLong);
        }
        self.bytes.push(byte)?;
        Ok(())
    }

    /// Adds bytes.
    #[tactic(auto, unfolding(crate::specs::Drafts::least))]
    pub fn push(&mut self, more: &[u8]) -> Result<(), Cut>
        ensures { Adds self.old self.new more.now result }
    {
        if more.len() > self.most - self.bytes.len() {
            return Err(Cut::TooLong);
        }
        self.bytes.extend_from_slice(more)?;
        Ok(())
    }
}
