//! Whether a default value fits a type.

ghost use Rattle.std.specs.Prelude.{◌≡◌, IfOk};
ghost use Rattle.widl_fits.specs.Fitting.{fits_if, literal_if};
ghost use Rattle.widl_idl.specs.PlainTypes.{value_of};
ghost use Rattle.widl_idl.specs.Terms.{type_term};

use std::alloc::{AllocError, Global};
use widl_fits::{Tables, literal_fits};
use widl_idl::tree::LiteralValue;
use widl_idl::{IdlType, Literal};
use widl_names::value_meant;

/// Whether a written literal fits a type (Web IDL, "Default values"): it is null and the type includes a
/// nullable type, or it is a value of one of the flattened members of the type.
///
/// # Errors
///
/// `AllocError` where there is no memory.
pub fn fits(
    alloc: Global,
    tables: &Tables<'_>,
    t: &IdlType,
    value: &LiteralValue,
) -> Result<bool, AllocError>
    ensures { IfOk result (λ b. b ≡ fits_if tables.now (literal_if (value_of value.now)) (type_term t.now)) }
{
    let literal = literal_of(alloc, value)?;
    Ok(value_fits(tables, t, &literal))
}

/// What a literal says; none for the numbers that the profile leaves out, which are no values of its types.
fn literal_of(alloc: Global, value: &LiteralValue) -> Result<Option<Literal>, AllocError>
    ensures { IfOk result (λ literal. literal ≡ literal_if (value_of value.now)) }
{
    match value {
        LiteralValue::Decimal(_)
        | LiteralValue::Infinity
        | LiteralValue::MinusInfinity
        | LiteralValue::NotANumber => Ok(None),
        LiteralValue::Null
        | LiteralValue::Undefined
        | LiteralValue::Boolean(_)
        | LiteralValue::Integer(_)
        | LiteralValue::Text(_)
        | LiteralValue::EmptySequence
        | LiteralValue::EmptyDictionary => Ok(Some(value_meant(alloc, value)?)),
    }
}

fn value_fits(tables: &Tables<'_>, t: &IdlType, literal: &Option<Literal>) -> bool
    ensures { result ≡ fits_if tables.now literal.now (type_term t.now) }
{
    match literal {
        None => false,
        Some(literal) => literal_fits(tables, t, literal),
    }
}
