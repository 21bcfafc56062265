//! What written values mean.

ghost use Rattle.std.specs.Prelude.{◌≡◌, IfOk};
ghost use Rattle.widl_idl.specs.PlainTypes.{value_of, written_default};
ghost use Rattle.widl_idl.specs.WrittenLiterals.{default_of, value_meant};

use std::alloc::{AllocError, Global};
use widl_idl::Literal;
use widl_idl::tree::{self, LiteralValue};
use widl_text::{Units, integer_of};

/// What a literal says (Web IDL, "Constants" and "Default values").
///
/// The numbers that the profile leaves out, those with a fraction and the three that no number writes,
/// stand as null.
///
/// # Errors
///
/// `AllocError` where there is no memory.
pub fn value_meant(alloc: Global, value: &LiteralValue) -> Result<Literal, AllocError>
    ensures { IfOk result (λ l. l ≡ value_meant (value_of value.now)) }
{
    match value {
        LiteralValue::Null => Ok(Literal::Null),
        LiteralValue::Undefined => Ok(Literal::Undefined),
        LiteralValue::Boolean(is_true) => Ok(Literal::Bool(*is_true)),
        LiteralValue::Integer(token) => Ok(Literal::Int(integer_of(token.as_bytes()))),
        LiteralValue::Text(text) => Ok(Literal::Text(Units::of_str(alloc, text.as_str())?)),
        LiteralValue::EmptySequence => Ok(Literal::EmptyList),
        LiteralValue::EmptyDictionary => Ok(Literal::EmptyDict),
        LiteralValue::Decimal(_)
        | LiteralValue::Infinity
        | LiteralValue::MinusInfinity
        | LiteralValue::NotANumber => Ok(Literal::Null),
    }
}

/// The default value that is written, if there is one.
///
/// # Errors
///
/// `AllocError` where there is no memory.
pub fn default_meant(
    alloc: Global,
    default: &Option<Box<tree::Literal>>,
) -> Result<Option<Literal>, AllocError>
    ensures { IfOk result (λ l. l ≡ default_of (written_default default.now)) }
{
    match default {
        None => Ok(None),
        Some(literal) => Ok(Some(value_meant(alloc, &literal.value)?)),
    }
}
