//! The arguments of a call.

ghost use Rattle.std.specs.Prelude.{◌<◌, ◌^◌, length};

use widl_value::Values;

/// Arguments, which are fewer than 4,294,967,296: each has a number of 32 bits.
#[derive(Drop)]
pub struct Arguments {
    /// The arguments, in order.
    pub values: Values,
    ghost few: { length values < 2 ^ 32 },
}
