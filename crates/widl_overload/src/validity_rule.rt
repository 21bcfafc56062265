//! The rules of validity.

ghost use Rattle.std.specs.Prelude.{◌≡◌};
ghost use Rattle.widl_overload.specs.rules.Validity.{validity_number};

/// A rule on sets of files whose definitions are put together. Each is stated as `specs/rules/Validity.antt`
/// tells.
#[derive(Clone, Copy, Debug, PartialEq, Eq)]
pub enum ValidityRule {
    /// Rule 12: An enumeration has a value twice.
    RepeatedEnumerationValue,
    /// Rule 13: Two arguments of a list share a name.
    RepeatedArgumentName,
    /// Rule 14: An argument follows one with an ellipsis.
    ArgumentAfterEllipsis,
    /// Rule 15: A required argument follows an optional one.
    RequiredAfterOptional,
    /// Rule 16: A default value doesn't fit its type.
    OtherDefault,
    /// Rule 17: The type of a constant is neither boolean nor an integer type.
    OtherConstantType,
    /// Rule 18: The value of a constant is not of its type.
    OtherConstantValue,
    /// Rule 19: The type of an attribute is a sequence, a dictionary or a record, or a union with one.
    CopiedAttribute,
    /// Rule 20: A dictionary has a member name twice, inherited ones included.
    RepeatedDictionaryMember,
    /// Rule 21: A type may not stand before its `?`.
    WronglyNullable,
    /// Rule 22: Several member types of a union are nullable.
    SeveralNullableMembers,
    /// Rule 23: A union includes a nullable type and has a dictionary.
    NullableBesideDictionary,
    /// Rule 24: Two flattened member types of a union aren't distinguishable.
    IndistinguishableUnionMembers,
    /// Rule 25: A member type of a union is annotated.
    AnnotatedUnionMember,
    /// Rule 26: An argument that takes a dictionary without required members has no default value.
    NoEmptyDefault,
    /// Rule 27: The type of an argument or of a dictionary member is a nullable dictionary.
    NullableDictionary,
    /// Rule 28: An annotation doesn't apply to its type.
    MisplacedAnnotation,
    /// Rule 29: A type has `[Clamp]` and `[EnforceRange]`.
    ClampAndEnforceRange,
    /// Rule 30: An annotation stands before what is no type.
    AnnotationOfNoType,
    /// Rule 31: An interface has two iterables, inherited ones included.
    SecondIterable,
    /// Rule 32: An interface with an iterable has or inherits a member named as one of its methods.
    HiddenIterationMethod,
    /// Rule 33: A callback interface hasn't exactly one operation.
    CallbackInterfaceOperations,
    /// Rule 34: A stringifier attribute is neither a DOMString nor a USVString, or a stringifier is the second.
    Stringifiers,
    /// Rule 35: Overloads aren't distinguishable.
    IndistinguishableOverloads,
    /// Rule 36: Overloads differ before the argument by which they are distinguished.
    EarlyDifference,
    /// Rule 37: An attribute of promise type isn't read only.
    WritablePromise,
    /// Rule 38: Some overloads of a name return a promise, and some don't.
    PromisesAndOthers,
    /// Rule 39: An operation has no name.
    NamelessOperation,
    /// Rule 40: `undefined` stands inside a type, or where no value is returned.
    UndefinedInside,
    /// Rule 41: A dictionary stands in the type of a member of its own.
    DictionaryHoldsItself,
    /// Rule 42: Two members share a name, and not both are operations.
    RepeatedMember,
    /// Rule 43: A static member or a constant has a name that the interface object keeps.
    KeptName,
    /// Rule 44: A name has more than 64 overloads, or there are more than 64 constructors.
    TooManyOverloads,
    /// Rule 45: A list has more than 64 arguments.
    TooManyArguments,
    /// Rule 46: The operation of a callback interface has no name, or an ellipsis before its last argument.
    MisformedCallbackOperation,
    /// Rule 47: A chain of more than 256 dictionaries begins with this one.
    LongDictionaryChain,
}

impl ValidityRule {
    /// The number of the rule in a refusal.
    pub fn number(self) -> u8
        ensures { result ≡ validity_number self }
    {
        match self {
            ValidityRule::RepeatedEnumerationValue => 12,
            ValidityRule::RepeatedArgumentName => 13,
            ValidityRule::ArgumentAfterEllipsis => 14,
            ValidityRule::RequiredAfterOptional => 15,
            ValidityRule::OtherDefault => 16,
            ValidityRule::OtherConstantType => 17,
            ValidityRule::OtherConstantValue => 18,
            ValidityRule::CopiedAttribute => 19,
            ValidityRule::RepeatedDictionaryMember => 20,
            ValidityRule::WronglyNullable => 21,
            ValidityRule::SeveralNullableMembers => 22,
            ValidityRule::NullableBesideDictionary => 23,
            ValidityRule::IndistinguishableUnionMembers => 24,
            ValidityRule::AnnotatedUnionMember => 25,
            ValidityRule::NoEmptyDefault => 26,
            ValidityRule::NullableDictionary => 27,
            ValidityRule::MisplacedAnnotation => 28,
            ValidityRule::ClampAndEnforceRange => 29,
            ValidityRule::AnnotationOfNoType => 30,
            ValidityRule::SecondIterable => 31,
            ValidityRule::HiddenIterationMethod => 32,
            ValidityRule::CallbackInterfaceOperations => 33,
            ValidityRule::Stringifiers => 34,
            ValidityRule::IndistinguishableOverloads => 35,
            ValidityRule::EarlyDifference => 36,
            ValidityRule::WritablePromise => 37,
            ValidityRule::PromisesAndOthers => 38,
            ValidityRule::NamelessOperation => 39,
            ValidityRule::UndefinedInside => 40,
            ValidityRule::DictionaryHoldsItself => 41,
            ValidityRule::RepeatedMember => 42,
            ValidityRule::KeptName => 43,
            ValidityRule::TooManyOverloads => 44,
            ValidityRule::TooManyArguments => 45,
            ValidityRule::MisformedCallbackOperation => 46,
            ValidityRule::LongDictionaryChain => 47,
        }
    }
}
