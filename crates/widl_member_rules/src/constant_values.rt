//! The values of constants: whether one is of its type, and in its range.

ghost use Rattle.std.specs.Prelude.{◌≡◌, IfOk};
ghost use Rattle.widl_idl.specs.First.{FirstWhere};
ghost use Rattle.widl_idl.specs.PlainTrees.{ConstantMember, constant_of, plain_definitions};
ghost use Rattle.widl_idl.specs.PlainTypes.{type_of, value_of};
ghost use Rattle.widl_idl.specs.Terms.{type_term};
ghost use Rattle.widl_idl.specs.Nodes.{MemberNode};
ghost use Rattle.widl_idl.specs.WrittenTypes.{meaning_alone};
ghost use Rattle.widl_overload.specs.rules.TypeRules.{HasOtherValue, takes_value};

use std::alloc::{AllocError, Global};
use widl_idl::tree::{Constant, LiteralValue};
use widl_idl::{IdlType, Violation, is_in_range};
use widl_names::Resolver;
use widl_text::integer_of;

/// The place of a constant's value that is not of its type, or not in its range.
///
/// Its errors are those of `Resolver::outline_alone`.
pub fn other_constant_value<'a>(
    alloc: Global,
    resolver: &Resolver<'_, 'a>,
    constant: &'a Constant,
) -> Result<Option<Violation>, AllocError>
    ensures { IfOk result (λ found. FirstWhere (HasOtherValue (plain_definitions resolver.now) (MemberNode (ConstantMember (constant_of constant.now)))) found) }
{
    if may_have_value(alloc, resolver, constant)? {
        Ok(None)
    } else {
        Ok(Some(Violation::at(constant.value.at)))
    }
}

/// Whether a constant may have its value. The outline of its type tells, since no type with parts takes one.
fn may_have_value<'a>(
    alloc: Global,
    resolver: &Resolver<'_, 'a>,
    constant: &'a Constant,
) -> Result<bool, AllocError>
    ensures { IfOk result (λ takes. takes ≡ takes_value (meaning_alone (plain_definitions resolver.now) (type_of constant.now.ty)) (value_of constant.now.value.value)) }
{
    let ty = resolver.outline_alone(alloc, &constant.ty)?;
    Ok(takes_value(&ty, &constant.value.value))
}

/// Whether a constant of the type may have the value.
fn takes_value(t: &IdlType, value: &LiteralValue) -> bool
    ensures { result ≡ takes_value (type_term t.now) (value_of value.now) }
{
    match t {
        IdlType::Boolean => matches!(value, LiteralValue::Boolean(_)),
        IdlType::Int(kind, _) => match value {
            LiteralValue::Integer(token) => is_in_range(*kind, integer_of(token.as_bytes())),
            _ => false,
        },
        _ => false,
    }
}
