//! Whether two values are the same.

ghost use Rattle.std.specs.Prelude.{◌≡◌};
ghost use Rattle.widl_runs.specs.Statements.{same_bool, same_number, same_value};

use widl_value::{Number, Value};

/// Whether two numbers are the same.
fn is_same_number(a: Number, b: Number) -> bool
    ensures { result ≡ same_number a b }
{
    match (a, b) {
        (Number::NaN, Number::NaN) => true,
        (Number::PosInf, Number::PosInf) => true,
        (Number::NegInf, Number::NegInf) => true,
        (Number::Whole(a), Number::Whole(b)) => a == b,
        _ => false,
    }
}

/// Whether two Booleans are the same.
fn is_same_bool(a: bool, b: bool) -> bool
    ensures { result ≡ same_bool a b }
{
    a == b
}

/// Whether two values are the same (ECMA-262, "SameValue").
pub(crate) fn is_same(a: &Value, b: &Value) -> bool
    ensures { result ≡ same_value a.now b.now }
{
    match (a, b) {
        (Value::Undefined, Value::Undefined) => true,
        (Value::Null, Value::Null) => true,
        (Value::Bool(a), Value::Bool(b)) => is_same_bool(*a, *b),
        (Value::Num(a), Value::Num(b)) => is_same_number(*a, *b),
        (Value::Str(a), Value::Str(b)) => a == b,
        (Value::Sym(a), Value::Sym(b)) => a == b,
        (Value::Obj(a), Value::Obj(b)) => a.id == b.id,
        _ => false,
    }
}
