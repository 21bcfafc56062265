//! The types to which Numbers and Strings are converted at once, also inside nullable types and unions: integer types and string
//! types, where the value picks them without an ask. Which they are depends on no list of definitions.
//!
//! A type of a list of definitions nests at most 16 levels, which bounds the recursion.

ghost use Rattle.std.specs.Prelude.{◌≡◌, IfOk, IfSome, Some, false, slice_get};
ghost use Rattle.widl_idl.specs.DefinitionTerms.{DefsTerm};
ghost use Rattle.widl_idl.specs.Flattened.{flattened_members, unannotated};
ghost use Rattle.widl_idl.specs.Terms.{NullableType, StringType, UnionType, packed, type_term, type_terms};
ghost use Rattle.widl_steps.specs.Built.{built_today};
ghost use Rattle.widl_steps.specs.Scalars.{convert};
ghost use Rattle.widl_convert.specs.AtOnce.{AreSame, class_given, scalar_type};
ghost use Rattle.widl_convert.specs.Loads.{conversion_load, type_load};

use crate::union_members::member_at;
use std::alloc::{AllocError, Global};
use widl_idl::{
    Callbacks, Choices, Defs, Dicts, IdlType, IdlTypes, Ifaces, IntKind, Mode, Spaces, TextKind,
};
use widl_tables::{Pick, pick_member};
use widl_value::{Class, Value};

/// What kind of value is converted.
#[derive(Clone, Copy)]
pub(crate) enum Given {
    /// A Number.
    Number,
    /// A String.
    Text,
}

/// A type to which a value is converted in the same steps as to the type that it stands in.
#[derive(Clone, Copy)]
pub(crate) enum ScalarType {
    /// An integer type.
    Integer(IntKind, Mode),
    /// A string type, where what null is converted to doesn't matter.
    Text(TextKind),
    /// None was found.
    Unknown,
}

impl Given {
    fn class(self) -> Class
        ensures { result ≡ class_given self }
    {
        match self {
            Given::Number => Class::Num,
            Given::Text => Class::Str,
        }
    }
}

/// A type to which a value is converted in the same steps as to this one: of a union no more than the integer type or string type
/// that a Number or a String picks, and otherwise a copy.
///
/// # Errors
///
/// `AllocError` where there is no memory.
pub(crate) fn type_for(alloc: Global, ty: &IdlType, value: &Value) -> Result<IdlType, AllocError>
    ensures same { IfOk result (λ t. (list : DefsTerm) → convert built_today list (type_term t) value.now ≡ convert built_today list (type_term ty.now) value.now) }
    ensures load { IfOk result (λ t. type_load (type_term t) ≡ type_load (type_term ty.now)) }
{
    match ty {
        IdlType::Union(members) => match value {
            Value::Num(_) => type_for_given(alloc, Given::Number, members),
            Value::Str(_) => type_for_given(alloc, Given::Text, members),
            _ => ty.copy(alloc),
        },
        _ => ty.copy(alloc),
    }
}

/// The same of a Number or a String, for a union with these members.
///
/// # Errors
///
/// `AllocError` where there is no memory.
fn type_for_given(alloc: Global, given: Given, members: &IdlTypes) -> Result<IdlType, AllocError>
    ensures same { IfOk result (λ t. AreSame given (type_term t) (UnionType (packed (type_terms members.now)))) }
    ensures load { IfOk result (λ t. type_load (type_term t) ≡ conversion_load) }
{
    match scalar_of_union(&no_definitions(alloc), given, members) {
        ScalarType::Integer(kind, mode) => Ok(IdlType::Int(kind, mode)),
        ScalarType::Text(kind) => nullable_text(alloc, kind),
        ScalarType::Unknown => Ok(IdlType::Union(members.copy(alloc)?)),
    }
}

/// A string type, as a nullable one: a Number or a String is converted to both in the same steps, and what is left of that without a
/// charge is counted as for a union.
///
/// # Errors
///
/// `AllocError` where there is no memory.
fn nullable_text(alloc: Global, kind: TextKind) -> Result<IdlType, AllocError>
    ensures { IfOk result (λ t. type_term t ≡ NullableType (StringType kind false)) }
{
    let text = IdlType::Text {
        kind,
        null_empty: false,
    };
    Ok(IdlType::Nullable(Box::new(alloc, text)?))
}

/// A list without definitions, over which a value that is no platform object picks the same members as over any other.
fn no_definitions(alloc: Global) -> Defs {
    Defs {
        ifaces: Ifaces::new(alloc),
        spaces: Spaces::new(alloc),
        dicts: Dicts::new(alloc),
        choices: Choices::new(alloc),
        callback_fns: Callbacks::new(alloc),
        callback_ifaces: Callbacks::new(alloc),
    }
}

/// The integer type or string type to which a Number or a String is converted where it is converted to a type.
pub(crate) fn scalar_within(defs: &Defs, given: Given, ty: &IdlType) -> ScalarType
    ensures { IfSome (scalar_type result) (λ t. AreSame given (type_term ty.now) t) }
{
    match ty {
        IdlType::Int(kind, mode) => ScalarType::Integer(*kind, *mode),
        IdlType::Text {
            kind,
            null_empty: _,
        } => ScalarType::Text(*kind),
        IdlType::Nullable(inner) => scalar_within(defs, given, inner),
        IdlType::Union(members) => scalar_of_union(defs, given, members),
        _ => ScalarType::Unknown,
    }
}

/// The same, of a union with these members: what the value picks of them, if that is such a type.
fn scalar_of_union(defs: &Defs, given: Given, members: &IdlTypes) -> ScalarType
    ensures { IfSome (scalar_type result) (λ t. AreSame given (UnionType (packed (type_terms members.now))) t) }
{
    match pick_member(defs, members, given.class(), false) {
        Pick::Entry(place) => scalar_at(members, place),
        Pick::Probe(_) => ScalarType::Unknown,
        Pick::Refuse => ScalarType::Unknown,
    }
}

/// The integer type or string type that is the flattened member of a union at a place.
fn scalar_at(members: &IdlTypes, place: u32) -> ScalarType
    ensures { IfSome (scalar_type result) (λ t. slice_get (flattened_members (packed (type_terms members.now))) place ≡ Some t) }
{
    match member_at(members, place) {
        Some(member) => scalar_of(member),
        None => ScalarType::Unknown,
    }
}

/// The integer type or string type that a type is without its annotation.
fn scalar_of(ty: &IdlType) -> ScalarType
    ensures { IfSome (scalar_type result) (λ t. unannotated (type_term ty.now) ≡ t) }
{
    match ty {
        IdlType::Int(kind, _) => ScalarType::Integer(*kind, Mode::Wrap),
        IdlType::Text {
            kind,
            null_empty: _,
        } => ScalarType::Text(*kind),
        _ => ScalarType::Unknown,
    }
}
