//! The functions that are there before a script begins: each has an arm here.

ghost use Rattle.std.specs.Prelude.{◌≡◌, ◌≤◌, Bool, IfOk, if◌then◌else◌};
ghost use Rattle.widl_idl.specs.DefinitionTerms.{DefsTerm, defs_term};
ghost use Rattle.widl_steps.specs.Operations.{StepsOf};
ghost use Rattle.widl_value.specs.declared.object.ObjRef.{ObjRef as FunctionRef};
ghost use Rattle.widl_steps.specs.Words.{not_built};
ghost use Rattle.widl_steps.specs.BuiltCalls.{calls_built_today, is_built_function};
ghost use Rattle.widl_steps.specs.CallRules.{call_rule, intrinsic};
ghost use Rattle.widl_steps.specs.CallTasks.{Function};
ghost use Rattle.widl_calls.specs.ArrayWaits.{cursor_load};
ghost use Rattle.widl_calls.specs.Frames.{call_dialog, call_weight, function_load};

use crate::arguments::Arguments;
use crate::array_functions::{next, values};
use crate::ends::{NEVER_RUN, NOT_BUILT, reaches, returns};
use crate::moves::CallMove;
use crate::object_functions::{to_string, value_of};
use crate::operations::operation;
use std::alloc::{AllocError, Global};
use widl_idl::{Callee, Part};
use widl_store::Builtin;
use widl_tables::Tables;
use widl_value::Value;

/// The first move of a function.
///
/// # Errors
///
/// `AllocError` where there is no memory.
pub(crate) fn function(
    alloc: Global,
    tables: &Tables,
    what: Builtin,
    this: Value,
    args: Arguments,
) -> Result<CallMove, AllocError>
    ensures dialog { IfOk result (λ m. (steps : StepsOf) (f : FunctionRef) (construct : Bool) → call_dialog (defs_term tables.now.defs) steps m ≡ call_rule calls_built_today (defs_term tables.now.defs) steps (Function f what this args.values construct)) }
    ensures weight { IfOk result (λ m. call_weight (defs_term tables.now.defs) m ≤ function_load (defs_term tables.now.defs) what args.values) }
{
    match what {
        Builtin::Intrinsic(number) => intrinsic(alloc, number, this),
        Builtin::Callee(callee) => Ok(part(tables, callee, this, args)),
        Builtin::InterfaceObject(_) => Ok(reaches(NOT_BUILT)),
        Builtin::Pairs { iface: _, what: _ } => Ok(reaches(NOT_BUILT)),
    }
}

/// The first move of a function that is there whatever the definitions are.
///
/// # Errors
///
/// `AllocError` where there is no memory.
fn intrinsic(alloc: Global, number: u8, this: Value) -> Result<CallMove, AllocError>
    ensures dialog { IfOk result (λ m. (list : DefsTerm) (steps : StepsOf) → call_dialog list steps m ≡ (if is_built_function (Builtin.Intrinsic number) then intrinsic number this else not_built)) }
    ensures weight { IfOk result (λ m. (list : DefsTerm) → call_weight list m ≤ cursor_load) }
{
    match number {
        8 => to_string(alloc, this),
        9 => Ok(value_of(this)),
        12 => Ok(values(this)),
        13 => Ok(next(this)),
        14 => Ok(returns(this)),
        15 | 16 | 17 => Ok(reaches(NEVER_RUN)),
        _ => Ok(reaches(NOT_BUILT)),
    }
}

/// The first move of a part of an interface or a namespace.
fn part(tables: &Tables, callee: Callee, this: Value, args: Arguments) -> CallMove
    ensures dialog { (steps : StepsOf) (f : FunctionRef) (construct : Bool) → call_dialog (defs_term tables.now.defs) steps result ≡ call_rule calls_built_today (defs_term tables.now.defs) steps (Function f (Builtin.Callee callee) this args.values construct) }
    ensures weight { call_weight (defs_term tables.now.defs) result ≤ function_load (defs_term tables.now.defs) (Builtin.Callee callee) args.values }
{
    match callee.part {
        Part::Op(_) => operation(tables, callee, args),
        Part::Constructor | Part::Get(_) | Part::Set(_) | Part::Text => reaches(NOT_BUILT),
    }
}
