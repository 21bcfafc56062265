//! Resolutions: the choice of an overload, as far as it has come.

ghost use Rattle.std.specs.Prelude.{◌≡◌, ◌<◌, ◌^◌, length, true};
ghost use Rattle.widl_value.specs.IdlTerms.{idl_terms};
ghost use Rattle.widl_convert.specs.Entries.{IsAtPlace, IsOpen, is_among};

use widl_idl::Callee;
use widl_tables::Kept;
use widl_value::{IdlValues, ObjRef, Values};

/// A callee with the arguments of a call.
#[derive(Drop)]
pub struct Call {
    /// The callee.
    pub callee: Callee,
    /// The arguments.
    pub args: Values,
    ghost few: { length args < 2 ^ 32 },
}

/// The choice of an overload for the arguments of a call, as far as it has come (Web IDL, "overload
/// resolution algorithm"). It goes on from one argument to the next, and waits where a conversion asks.
#[derive(Drop)]
pub struct Resolution {
    /// The overloads that the number of arguments keeps.
    pub kept: Kept,
    /// The overload that is left alone, once there is one.
    pub overload: Option<u32>,
    /// The arguments of the call. One that was taken is undefined.
    pub args: Values,
    /// The IDL values of those that were taken.
    pub made: IdlValues,
    ghost several: { IsOpen kept overload },
}

/// A resolution that waits for the method `@iterator` of the argument by which overloads are told apart.
#[derive(Drop)]
pub struct Probe {
    /// The resolution, of which the argument is taken.
    pub resolution: Box<Resolution>,
    /// The argument.
    pub obj: ObjRef,
    /// The overload for whose sequence type the method is read.
    pub overload: u32,
    ghost at_place: { IsAtPlace resolution.value.kept resolution.value.overload (length (idl_terms resolution.value.made)) },
    ghost among: { is_among resolution.value.kept overload ≡ true },
}
