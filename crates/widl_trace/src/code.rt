//! The codes of errors.

/// Why a TypeError object was made. Each conversion, check or statement that can refuse a value has a
/// code of its own (this program's own; Web IDL and ECMA-262 give a TypeError alone).
#[derive(Clone, Copy, Debug, PartialEq, Eq)]
pub enum Code {
    /// No overload takes this many arguments.
    NoOverload,
    /// No overload fits the kinds of the arguments.
    NoMatch,
    /// A value is no object, and one is needed.
    NotObject,
    /// A value can't be called, and a function is needed.
    NotCallable,
    /// An object has no method `@iterator`, and a sequence is needed.
    NotIterable,
    /// The method `@iterator` gave no object.
    Iterator,
    /// A step of an iterator gave no object.
    Result,
    /// A symbol has no number and no text.
    Symbol,
    /// A number is outside the range of an integer type.
    Range,
    /// A text has a unit above 255, and a `ByteString` is needed.
    Byte,
    /// A text is no value of an enumeration.
    Enum,
    /// A required member of a dictionary is undefined.
    Required,
    /// A value is no dictionary: neither undefined, null nor an object.
    Dictionary,
    /// A value is no object of the interface.
    Interface,
    /// An object has no primitive value.
    Primitive,
    /// A value fits no member of a union.
    Union,
    /// The `this` of a call is no object that the function serves.
    This,
    /// An iterator was asked for a step in the middle of one.
    Running,
    /// A value that was to be constructed has no constructor.
    NoConstructor,
    /// A constructor was called without `new`.
    NeedsNew,
    /// A step uses an argument that is missing or a slot that is unset.
    NoValue,
    /// A callee that returned nothing has a type without a default.
    NoDefault,
    /// A property can't be set.
    ReadOnly,
    /// A property can't be defined anew or deleted.
    NotConfigurable,
    /// A property of undefined or null was asked for.
    Member,
    /// An object was given for a key.
    Key,
}

impl Code {
    ghost use Rattle.std.specs.Prelude.{◌≡◌};
    ghost use Rattle.widl_trace.specs.Codes.{code_text};

    /// The code as a trace has it.
    pub fn text(self) -> &'static [u8]
        ensures { result.now ≡ code_text self }
    {
        match self {
            Code::NoOverload => b"no-overload",
            Code::NoMatch => b"no-match",
            Code::NotObject => b"not-object",
            Code::NotCallable => b"not-callable",
            Code::NotIterable => b"not-iterable",
            Code::Iterator => b"iterator",
            Code::Result => b"result",
            Code::Symbol => b"symbol",
            Code::Range => b"range",
            Code::Byte => b"byte",
            Code::Enum => b"enum",
            Code::Required => b"required",
            Code::Dictionary => b"dictionary",
            Code::Interface => b"interface",
            Code::Primitive => b"primitive",
            Code::Union => b"union",
            Code::This => b"this",
            Code::Running => b"running",
            Code::NoConstructor => b"no-constructor",
            Code::NeedsNew => b"needs-new",
            Code::NoValue => b"no-value",
            Code::NoDefault => b"no-default",
            Code::ReadOnly => b"read-only",
            Code::NotConfigurable => b"not-configurable",
            Code::Member => b"member",
            Code::Key => b"key",
        }
    }
}
