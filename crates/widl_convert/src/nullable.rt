//! Values of the script to nullable types.

ghost use Rattle.std.specs.Prelude.{◌≡◌, if◌then◌else◌};
ghost use Rattle.widl_idl.specs.DefinitionTerms.{DefsTerm};
ghost use Rattle.widl_idl.specs.Terms.{type_term};
ghost use Rattle.widl_value.specs.IdlTerms.{NullValue};
ghost use Rattle.widl_steps.specs.Built.{is_built_type};
ghost use Rattle.widl_steps.specs.Nullables.{inner_type};
ghost use Rattle.widl_steps.specs.Words.{gives, not_built};
ghost use Rattle.widl_convert.specs.Frames.{move_dialog};
ghost use Rattle.widl_convert.specs.Loads.{weight};

use crate::convert::{gives, not_built};
use crate::moves::Move;
use widl_idl::IdlType;
use widl_value::IdlValue;

/// The inner type of a nullable type; any other type itself.
pub fn inner_type(ty: &IdlType) -> &IdlType
    ensures { type_term result.now ≡ inner_type (type_term ty.now) }
{
    match ty {
        IdlType::Nullable(inner) => inner,
        _ => ty,
    }
}

/// The end with null as a value of a nullable type, by its inner type (Web IDL, "Nullable types").
pub(crate) fn null_of(inner: &IdlType) -> Move
    ensures dialog { (list : DefsTerm) → move_dialog list result ≡ (if is_built_type (type_term inner.now) then gives NullValue else not_built) }
    ensures weight { (list : DefsTerm) → weight list result ≡ 0 }
{
    if is_built(inner) {
        gives(IdlValue::Null)
    } else {
        not_built()
    }
}

/// Whether the conversion to a type is built.
fn is_built(ty: &IdlType) -> bool
    ensures { result ≡ is_built_type (type_term ty.now) }
{
    match ty {
        IdlType::Any => true,
        IdlType::Undefined => true,
        IdlType::Boolean => true,
        IdlType::Int(_, _) => true,
        IdlType::Text { .. } => true,
        IdlType::Choice(_) => true,
        IdlType::Object => true,
        IdlType::Dict(_) => true,
        IdlType::Seq(_) => true,
        IdlType::Rec(_, _) => true,
        IdlType::Interface(_) => false,
        IdlType::CallbackFn(_) => false,
        IdlType::CallbackIface(_) => false,
        IdlType::Promise(_) => false,
        IdlType::Nullable(inner) => is_built(inner),
        IdlType::Union(_) => true,
    }
}
