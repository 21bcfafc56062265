//! A conversion within a call.

ghost use Rattle.std.specs.Prelude.{◌≡◌, Some};
ghost use Rattle.widl_convert.specs.Stack.{pending};
ghost use Rattle.widl_calls.specs.Kinds.{kind_in};

use widl_convert::Asker;

/// A conversion that waits for an answer.
#[derive(Drop)]
pub struct Inside {
    /// The conversion; in a box, where it stays as long as it goes on.
    pub asker: Box<Asker>,
    ghost waits: { pending asker.value ≡ Some (kind_in asker.value) },
}
