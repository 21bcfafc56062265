//! The rules of merging.

ghost use Rattle.std.specs.Prelude.{◌≡◌};
ghost use Rattle.widl_idl.specs.MergingRules.{merging_number};

/// A rule on names, partials, mixins, parents and typedefs, which holds before definitions are put
/// together. Each is stated in `specs/MergingRules.antt`.
#[derive(Clone, Copy, Debug, PartialEq, Eq)]
pub enum MergingRule {
    /// Rule 1: A name has two main definitions.
    SecondDefinition,
    /// Rule 2: A name that nothing may have.
    ReservedName,
    /// Rule 3: A partial definition without a main one of its kind.
    PartialWithoutMain,
    /// Rule 4: An includes statement whose left side is no interface.
    IncludesIntoNoInterface,
    /// Rule 5: An includes statement whose right side is no mixin.
    IncludesNoMixin,
    /// Rule 6: A parent that is no definition of the same kind.
    ParentOfOtherKind,
    /// Rule 7: A definition that inherits from itself.
    InheritsFromItself,
    /// Rule 8: A name in a type that names no type.
    UnknownType,
    /// Rule 9: A typedef that reaches itself through typedefs.
    TypedefReachesItself,
    /// Rule 10: Operations of one name in two parts.
    OperationInTwoParts,
    /// Rule 11: A type that nests too deep after typedefs.
    NestsTooDeep,
    /// Rule 48: Too many members.
    TooManyMembers,
}

impl MergingRule {
    /// The number of the rule in a refusal.
    pub fn number(self) -> u8
        ensures { result ≡ merging_number self }
    {
        match self {
            MergingRule::SecondDefinition => 1,
            MergingRule::ReservedName => 2,
            MergingRule::PartialWithoutMain => 3,
            MergingRule::IncludesIntoNoInterface => 4,
            MergingRule::IncludesNoMixin => 5,
            MergingRule::ParentOfOtherKind => 6,
            MergingRule::InheritsFromItself => 7,
            MergingRule::UnknownType => 8,
            MergingRule::TypedefReachesItself => 9,
            MergingRule::OperationInTwoParts => 10,
            MergingRule::NestsTooDeep => 11,
            MergingRule::TooManyMembers => 48,
        }
    }
}
