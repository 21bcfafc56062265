//! The tests by which a value picks an overload.

/// A test that an argument meets at an entry of an effective overload set (Web IDL, "overload resolution
/// algorithm", step 12). They are asked in this order.
#[derive(Clone, Copy, Debug, PartialEq, Eq)]
pub enum Test {
    /// Undefined, where the argument may be left out.
    IsOptional,
    /// Null or undefined, where the type includes a nullable type or has a dictionary.
    IsNullable,
    /// A platform object, for an interface that it implements or `object`.
    IsImplemented,
    /// An object that can be called, for a callback function or `object`.
    IsCallback,
    /// An object, for a sequence, where it has a method `@iterator` besides.
    IsSequence,
    /// An object, for a callback interface, a dictionary, a record or `object`.
    IsObject,
    /// A Boolean, for `boolean`.
    IsBoolean,
    /// A Number, for an integer type.
    IsNumeric,
    /// Any value, for a string type.
    TakesText,
    /// Any value, for an integer type.
    TakesNumber,
    /// Any value, for `boolean`.
    TakesTruth,
    /// Any value, for `any`.
    TakesAny,
}
