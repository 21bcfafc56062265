//! The result of an operation whose steps return nothing.

ghost use Rattle.std.specs.Prelude.{◌≡◌, IfOk};
ghost use Rattle.widl_idl.specs.DefinitionTerms.{defs_term};
ghost use Rattle.widl_idl.specs.Terms.{DictionaryType, type_term};
ghost use Rattle.widl_steps.specs.Operations.{result_type};
ghost use Rattle.widl_steps.specs.DefaultResults.{default_result, dictionary_result};
ghost use Rattle.widl_calls.specs.Frames.{ended_or_dictionary};

use crate::ends::{fault, given};
use crate::overload::Overload;
use std::alloc::{AllocError, Global};
use widl_convert::{Ending, requires_member};
use widl_idl::IdlType;
use widl_tables::Tables;
use widl_text::Units;
use widl_trace::Code;
use widl_value::{IdlEntries, IdlValue, IdlValues, Value};

/// How the steps of an overload end with the default of its result's type, if that has one; no type stands
/// for `undefined`. Without an end it is the dictionary made from `undefined`.
///
/// # Errors
///
/// `AllocError` where there is no memory.
pub(crate) fn default_result(
    alloc: Global,
    tables: &Tables,
    overload: Overload,
) -> Result<Option<Ending>, AllocError>
    ensures { IfOk result (λ ended. ended_or_dictionary (result_type (defs_term tables.now.defs) overload.callee overload.number) ended ≡ default_result (defs_term tables.now.defs) (result_type (defs_term tables.now.defs) overload.callee overload.number)) }
{
    match overload.result_type(tables) {
        None | Some(IdlType::Undefined) => Ok(given(IdlValue::Undefined)),
        Some(ty) => default_of(alloc, tables, ty),
    }
}

/// The same of a type.
///
/// # Errors
///
/// `AllocError` where there is no memory.
fn default_of(alloc: Global, tables: &Tables, ty: &IdlType) -> Result<Option<Ending>, AllocError>
    ensures { IfOk result (λ ended. ended_or_dictionary (type_term ty.now) ended ≡ default_result (defs_term tables.now.defs) (type_term ty.now)) }
{
    match ty {
        IdlType::Any => Ok(given(IdlValue::Any(Value::Undefined))),
        IdlType::Undefined => Ok(given(IdlValue::Undefined)),
        IdlType::Boolean => Ok(given(IdlValue::Bool(false))),
        IdlType::Int(_, _) => Ok(given(IdlValue::Int(0))),
        IdlType::Text {
            kind: _,
            null_empty: _,
        } => Ok(given(IdlValue::Text(Units::new(alloc)))),
        IdlType::Choice(number) => Ok(given(IdlValue::Choice {
            of: *number,
            index: 0,
        })),
        IdlType::Seq(_) => Ok(given(IdlValue::List(IdlValues::new(alloc)))),
        IdlType::Rec(_, _) => Ok(given(IdlValue::Entries(IdlEntries::new(alloc)))),
        IdlType::Nullable(_) => Ok(given(IdlValue::Null)),
        IdlType::Dict(number) => dictionary_result(alloc, tables, *number),
        IdlType::Interface(_) => Ok(fault(Code::NoDefault)),
        IdlType::CallbackFn(_) => Ok(fault(Code::NoDefault)),
        IdlType::CallbackIface(_) => Ok(fault(Code::NoDefault)),
        IdlType::Object => Ok(fault(Code::NoDefault)),
        IdlType::Promise(_) => Ok(fault(Code::NoDefault)),
        IdlType::Union(_) => Ok(fault(Code::NoDefault)),
    }
}

/// The same of a dictionary, which is made from `undefined`; where a member is required it has none.
///
/// # Errors
///
/// `AllocError` where there is no memory.
fn dictionary_result(
    alloc: Global,
    tables: &Tables,
    dictionary: u32,
) -> Result<Option<Ending>, AllocError>
    ensures { IfOk result (λ ended. ended_or_dictionary (DictionaryType dictionary) ended ≡ dictionary_result (defs_term tables.now.defs) dictionary) }
{
    if requires_member(alloc, tables, dictionary)? {
        Ok(fault(Code::NoDefault))
    } else {
        Ok(None)
    }
}
