//! The rules on forms of Web IDL that the profile leaves unsupported.

ghost use Rattle.std.specs.Prelude.{◌≡◌};
ghost use Rattle.widl_idl.specs.Profile.{profile_number};

use widl_text::Place;

/// A rule that refuses a form of Web IDL which the profile leaves unsupported. Each is stated as
/// `specs/Profile.antt` tells.
#[derive(Clone, Copy, Debug, PartialEq, Eq)]
pub enum ProfileRule {
    /// X1: Floating point types, decimal literals, `Infinity`, `-Infinity` and `NaN`.
    FloatingPoint,
    /// X2: `bigint`.
    BigInt,
    /// X3: Buffers and their views.
    Buffer,
    /// X4: The type `symbol`.
    Symbol,
    /// X5: Asynchronously iterable declarations and asynchronous sequences.
    Asynchronous,
    /// X6: `ObservableArray`.
    ObservableArray,
    /// X7: `maplike` and `setlike`.
    MapOrSet,
    /// X8: `iterable` with one type.
    ValueIterable,
    /// X9: `getter`, `setter` and `deleter`.
    SpecialOperation,
    /// X10: `inherit` before an attribute.
    InheritedAttribute,
    /// X11: A constant of a callback interface.
    CallbackInterfaceConstant,
    /// X12: An extended attribute that isn't listed, or an annotation with an argument.
    UnlistedAttribute,
    /// X13: `FrozenArray`.
    FrozenArray,
}

/// A form that the profile leaves unsupported: the rule that says so, and where its first word stands.
#[derive(Clone, Copy, Debug, PartialEq, Eq)]
pub struct Unsupported {
    /// The rule.
    pub rule: ProfileRule,
    /// The place.
    pub at: Place,
}

impl ProfileRule {
    /// The number of the rule in a refusal. It is printed as `X` and the number over 100.
    pub fn number(self) -> u8
        ensures { result ≡ profile_number self }
    {
        match self {
            ProfileRule::FloatingPoint => 101,
            ProfileRule::BigInt => 102,
            ProfileRule::Buffer => 103,
            ProfileRule::Symbol => 104,
            ProfileRule::Asynchronous => 105,
            ProfileRule::ObservableArray => 106,
            ProfileRule::MapOrSet => 107,
            ProfileRule::ValueIterable => 108,
            ProfileRule::SpecialOperation => 109,
            ProfileRule::InheritedAttribute => 110,
            ProfileRule::CallbackInterfaceConstant => 111,
            ProfileRule::UnlistedAttribute => 112,
            ProfileRule::FrozenArray => 113,
        }
    }
}
