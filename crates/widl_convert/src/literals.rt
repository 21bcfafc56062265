//! Literals as IDL values.

ghost use Rattle.std.specs.Prelude.{◌≡◌, IfOk, option_map};
ghost use Rattle.widl_idl.specs.DefinitionTerms.{defs_term};
ghost use Rattle.widl_idl.specs.Terms.{type_term};
ghost use Rattle.widl_value.specs.IdlTerms.{idl_term};
ghost use Rattle.widl_steps.specs.Defaults.{literal_value};
ghost use Rattle.widl_convert.specs.Literals.{given_or_dictionary};

use crate::defaults::{null_of, text_of};
use std::alloc::{AllocError, Global};
use widl_idl::{IdlType, Literal};
use widl_tables::Tables;
use widl_value::{IdlValue, IdlValues, Value};

/// A literal as an IDL value of a type that it fits (Web IDL, "Default values"). `{}` is none itself.
///
/// # Errors
///
/// `AllocError` where there is no memory.
pub fn literal_value(
    alloc: Global,
    tables: &Tables,
    ty: &IdlType,
    literal: &Literal,
) -> Result<Option<IdlValue>, AllocError>
    ensures { IfOk result (λ value. literal_value (defs_term tables.now.defs) (type_term ty.now) literal.now ≡ given_or_dictionary (type_term ty.now) (option_map idl_term value)) }
{
    match literal {
        Literal::Null => Ok(Some(null_of(ty))),
        Literal::Undefined => Ok(Some(IdlValue::Any(Value::Undefined))),
        Literal::Bool(b) => Ok(Some(IdlValue::Bool(*b))),
        Literal::Int(n) => Ok(Some(IdlValue::Int(*n))),
        Literal::Text(text) => Ok(Some(text_of(tables, ty, text)?)),
        Literal::EmptyList => Ok(Some(IdlValue::List(IdlValues::new(alloc)))),
        Literal::EmptyDict => Ok(None),
    }
}
