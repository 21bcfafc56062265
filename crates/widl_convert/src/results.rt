//! IDL values to values of the script.

ghost use Rattle.std.specs.Prelude.{◌≡◌, ◌≤◌, ◌+◌, IfOk};
ghost use Rattle.std.specs.Option.{option_copied};
ghost use Rattle.widl_idl.specs.DefinitionTerms.{DefsTerm, defs_term};
ghost use Rattle.widl_idl.specs.Terms.{AnyType};
ghost use Rattle.widl_value.specs.IdlTerms.{idl_term};
ghost use Rattle.widl_trace.specs.IdlValueTexts.{enumeration_value};
ghost use Rattle.widl_steps.specs.Built.{built_today};
ghost use Rattle.widl_steps.specs.Results.{enumeration_text, integer_to_script, out};
ghost use Rattle.widl_steps.specs.Words.{returns};
ghost use Rattle.widl_convert.specs.Frames.{move_dialog};
ghost use Rattle.widl_convert.specs.Loads.{object_load, value_load, weight};

use crate::containers::{array_of, object_of_entries, object_of_members};
use crate::convert::not_built;
use crate::moves::{Ending, Move};
use crate::outcome::Outcome;
use crate::scalar::{NO_WHOLE_NUMBER, gives_text};
use std::alloc::{AllocError, Global};
use widl_idl::Defs;
use widl_tables::Tables;
use widl_text::Units;
use widl_value::{IdlValue, Value, nearest};

/// The greatest magnitude of a Number that a conversion gives.
const GREATEST: i128 = 18_446_744_073_709_551_616;

/// The first move of an IDL value's conversion to a value of the script, which is the same whatever its
/// type. A missing value is undefined.
///
/// # Errors
///
/// `AllocError` where there is no memory.
pub(crate) fn out(alloc: Global, tables: &Tables, value: IdlValue) -> Result<Move, AllocError>
    ensures dialog { IfOk result (λ m. move_dialog (defs_term tables.now.defs) m ≡ out built_today (defs_term tables.now.defs) AnyType (idl_term value)) }
    ensures weight { IfOk result (λ m. weight (defs_term tables.now.defs) m ≤ object_load + value_load (idl_term value)) }
{
    match value {
        IdlValue::Undefined => Ok(returns(Value::Undefined)),
        IdlValue::Null => Ok(returns(Value::Null)),
        IdlValue::Missing => Ok(returns(Value::Undefined)),
        IdlValue::Bool(b) => Ok(returns(Value::Bool(b))),
        IdlValue::Int(n) => Ok(integer(n)),
        IdlValue::Text(text) => Ok(gives_text(text)),
        IdlValue::Choice {
            of: enumeration,
            index,
        } => choice(alloc, tables.list().defs(), enumeration, index),
        IdlValue::Object(obj) => Ok(returns(Value::Obj(obj))),
        IdlValue::Any(value) => Ok(returns(value)),
        IdlValue::List(values) => array_of(alloc, values),
        IdlValue::Entries(entries) => object_of_entries(alloc, entries),
        IdlValue::Dict { of, members } => {
            object_of_members(alloc, tables.list().defs(), of, members)
        }
        IdlValue::Promise(_) => Ok(not_built()),
    }
}

/// The end with a value of the script.
pub(crate) fn returns(value: Value) -> Move
    ensures dialog { (list : DefsTerm) → move_dialog list result ≡ returns value }
    ensures weight { (list : DefsTerm) → weight list result ≤ object_load }
{
    Move::Gives(Ending::Done(Outcome::Script(value)))
}

/// The end with the Number that is nearest to an integer.
fn integer(n: i128) -> Move
    ensures dialog { (list : DefsTerm) → move_dialog list result ≡ integer_to_script n }
    ensures weight { (list : DefsTerm) → weight list result ≤ object_load }
{
    if n < -GREATEST || n > GREATEST {
        Move::Gives(Ending::Profile(NO_WHOLE_NUMBER))
    } else {
        returns(Value::Num(nearest(n)))
    }
}

/// The end with the text of an enumeration's value.
///
/// # Errors
///
/// `AllocError` where there is no memory.
fn choice(alloc: Global, defs: &Defs, enumeration: u32, index: u32) -> Result<Move, AllocError>
    ensures dialog { IfOk result (λ m. (list : DefsTerm) → move_dialog list m ≡ returns (Value.Str (enumeration_text (defs_term defs.now) enumeration index))) }
    ensures weight { IfOk result (λ m. (list : DefsTerm) → weight list m ≡ 0) }
{
    match choice_text(defs, enumeration, index) {
        None => Ok(gives_text(Units::new(alloc))),
        Some(text) => Ok(gives_text(text.copy()?)),
    }
}

/// The text of a value of an enumeration.
fn choice_text(defs: &Defs, enumeration: u32, index: u32) -> Option<&Units>
    ensures { option_copied result ≡ enumeration_value (defs_term defs.now) enumeration index }
{
    match defs.choices.as_slice().get(enumeration as usize) {
        None => None,
        Some(choice) => choice.values.as_slice().get(index as usize),
    }
}
