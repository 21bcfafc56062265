//! Pairs of IDL values.

ghost use Rattle.std.specs.Prelude.{◌≡◌, IfOk};
ghost use Rattle.widl_value.specs.IdlTerms.{pair_term};

use crate::idl_value::IdlValue;
use std::alloc::AllocError;
use widl_text::Items;

/// A value pair of an interface with a pair iterator (Web IDL, "Iterable declarations").
#[derive(Drop)]
pub struct IdlPair {
    /// The key.
    pub key: IdlValue,
    /// The value.
    pub value: IdlValue,
}

/// The value pairs to iterate over, in order.
pub type IdlPairs = Items<IdlPair>;

impl IdlPair {
    /// A pair with the same parts.
    ///
    /// # Errors
    ///
    /// `AllocError` where there is no memory.
    pub fn copy(&self) -> Result<IdlPair, AllocError>
        ensures { IfOk result (λ copy. pair_term copy ≡ pair_term self.now) }
    {
        Ok(IdlPair {
            key: self.key.copy()?,
            value: self.value.copy()?,
        })
    }
}
