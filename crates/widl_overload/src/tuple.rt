//! Tuples of an effective overload set.

use std::alloc::AllocError;
use widl_idl::{IdlTypes, Optionalities};

/// One item of an effective overload set: an overload, and the types and optionality values of its
/// arguments at one length (Web IDL, "effective overload set").
#[derive(Drop)]
pub struct Tuple {
    /// The number of the overload.
    pub overload: u32,
    /// The types of the arguments.
    pub types: IdlTypes,
    /// The optionality values of the arguments.
    pub opts: Optionalities,
}

/// The tuples of an effective overload set, by length, then overload.
#[derive(Drop)]
pub struct OverloadSet {
    pub(crate) tuples: Vec<Tuple>,
}

impl OverloadSet {
    ghost use Rattle.std.specs.Prelude.{◌≡◌, ◌<◌, ◌∷◌, ◌++◌, [], length, slice_get, OnOk, Some};
    ghost use Rattle.widl_overload.specs.sets.Sets.{tuple_term, tuples_in};

    /// How many tuples there are.
    pub fn len(&self) -> usize
        ensures { result ≡ length (tuples_in self.now) }
    {
        self.tuples.len()
    }

    /// The tuple at a place.
    pub fn at(&self, place: usize) -> &Tuple
        requires { place < length (tuples_in self.now) }
        ensures { slice_get (tuples_in self.now) place ≡ Some (tuple_term result.now) }
    {
        &self.tuples[place]
    }

    /// Adds a tuple at the end.
    pub(crate) fn push(&mut self, tuple: Tuple) -> Result<(), AllocError>
        ensures { OnOk result (tuples_in self.new ≡ tuples_in self.old ++ tuple_term tuple ∷ []) }
    {
        self.tuples.push(tuple)?;
        Ok(())
    }
}
