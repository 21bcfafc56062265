//! The properties of the objects that are there before a script begins: the words for the rows of the table
//! of flags.

ghost use Rattle.std.specs.Prelude.{◌≡◌, pos};
ghost use Rattle.widl_store.specs.Objects.{function_object};
ghost use Rattle.widl_store.specs.Plans.{fixed_flags, method_flags, operation_flags};

use crate::property::Prop;
use widl_text::Units;
use widl_value::{Flags, Number, ObjRef, Shape, Value};

/// The flags of operations.
const OPERATION: Flags = Flags {
    writable: true,
    enumerable: true,
    configurable: true,
};

/// The flags of the methods of ECMA-262's objects.
const METHOD: Flags = Flags {
    writable: true,
    enumerable: false,
    configurable: true,
};

/// The flags of the length and the name of a function, and of `@toStringTag`.
const FIXED: Flags = Flags {
    writable: false,
    enumerable: false,
    configurable: true,
};

/// An operation of a definition: the function of this number.
pub(crate) fn operation(id: u32) -> Prop
    ensures { result ≡ Prop.Plain (Value.Obj (function_object id)) operation_flags }
{
    Prop::Plain {
        value: function_value(id),
        flags: OPERATION,
    }
}

/// A method of an object of ECMA-262: the function of this number.
pub(crate) fn method(id: u32) -> Prop
    ensures { result ≡ Prop.Plain (Value.Obj (function_object id)) method_flags }
{
    Prop::Plain {
        value: function_value(id),
        flags: METHOD,
    }
}

fn function_value(id: u32) -> Value
    ensures { result ≡ Value.Obj (function_object id) }
{
    Value::Obj(ObjRef {
        id,
        shape: Shape::Callable,
    })
}

/// A text that can't be put: the name of a function, or what `@toStringTag` holds.
pub(crate) fn text(text: Units) -> Prop
    ensures { result ≡ Prop.Plain (Value.Str text) fixed_flags }
{
    Prop::Plain {
        value: Value::Str(text),
        flags: FIXED,
    }
}

/// The length of a function.
pub(crate) fn count(n: usize) -> Prop
    ensures { result ≡ Prop.Plain (Value.Num (Number.Whole (pos n))) fixed_flags }
{
    Prop::Plain {
        value: Value::Num(Number::Whole(n as i128)),
        flags: FIXED,
    }
}
