//! Values of the script language.

ghost use Rattle.std.specs.Prelude.{◌≡◌, IfOk};
ghost use Rattle.widl_value.specs.Classes.{class_of};

use crate::class::Class;
use crate::number::Number;
use crate::object::{ObjRef, Shape};
use std::alloc::AllocError;
use widl_text::Units;

/// A value of the script language (ECMA-262, "ECMAScript Language Types").
///
/// Equality is that of the terms: `NaN` equals itself.
#[derive(Debug, PartialEq, Eq, Drop)]
pub enum Value {
    /// `undefined`.
    Undefined,
    /// `null`.
    Null,
    /// A Boolean.
    Bool(bool),
    /// A Number.
    Num(Number),
    /// A String.
    Str(Units),
    /// The Symbol of this number.
    Sym(u32),
    /// An Object.
    Obj(ObjRef),
}

impl Value {
    /// An equal value.
    ///
    /// # Errors
    ///
    /// `AllocError` where there is no memory.
    pub fn copy(&self) -> Result<Value, AllocError>
        ensures { IfOk result (λ copy. copy ≡ self.now) }
    {
        match self {
            Value::Undefined => Ok(Value::Undefined),
            Value::Null => Ok(Value::Null),
            Value::Bool(b) => Ok(Value::Bool(*b)),
            Value::Num(number) => Ok(Value::Num(*number)),
            Value::Str(text) => Ok(Value::Str(text.copy()?)),
            Value::Sym(id) => Ok(Value::Sym(*id)),
            Value::Obj(obj) => Ok(Value::Obj(*obj)),
        }
    }

    /// The class of the value.
    pub fn class(&self) -> Class
        ensures { result ≡ class_of self.now }
    {
        match self {
            Value::Undefined => Class::Undefined,
            Value::Null => Class::Null,
            Value::Bool(_) => Class::Bool,
            Value::Num(_) => Class::Num,
            Value::Str(_) => Class::Str,
            Value::Sym(_) => Class::Sym,
            Value::Obj(obj) => match obj.shape {
                Shape::Plain => Class::Plain,
                Shape::Callable => Class::Callable,
                Shape::Platform(iface) => Class::Platform(iface),
            },
        }
    }
}
