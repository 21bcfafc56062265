//! The member types of unions: those of inner unions among them, and how many are nullable.

ghost use Rattle.std.specs.Prelude.{◌≡◌, ◌+◌, ◌++◌, IfOk, OnOk, map, min};
ghost use Rattle.widl_idl.specs.Flattened.{IsUnion, flattened_member, flattened_members, includes_nullable_type, inner_nullable_members, nullable_members, nullable_one, unannotated};
ghost use Rattle.widl_idl.specs.Terms.{packed, type_term, type_terms};

use crate::int_kind::Mode;
use crate::types::{IdlType, IdlTypes};
use std::alloc::{AllocError, Global};

/// The flattened member types of a union, in order: each member without its annotation and without
/// nullable, and in place of an inner union its own flattened members (Web IDL, "flattened member
/// types").
///
/// # Errors
///
/// `AllocError` where there is no memory.
pub fn flattened(alloc: Global, t: &IdlType) -> Result<IdlTypes, AllocError>
    requires { IsUnion (type_term t.now) }
    ensures { IfOk result (λ members. type_terms members ≡ flattened_member (type_term t.now)) }
{
    let mut members = IdlTypes::new(alloc);
    t.flatten_into(alloc, &mut members)?;
    Ok(members)
}

impl IdlType {
    /// Adds what the type is flattened to.
    #[cycle(flattened)]
    fn flatten_into(&self, alloc: Global, members: &mut IdlTypes) -> Result<(), AllocError>
        ensures { OnOk result (type_terms members.new ≡ type_terms members.old ++ flattened_member (type_term self.now)) }
    {
        match self {
            IdlType::Nullable(inner) => inner.flatten_into(alloc, members),
            IdlType::Union(inner) => inner.flatten_into(alloc, members),
            _ => members.push(copy_unannotated(alloc, self)?),
        }
    }
}

impl IdlTypes {
    /// Adds what each of the types is flattened to.
    #[cycle(flattened)]
    fn flatten_into(&self, alloc: Global, members: &mut IdlTypes) -> Result<(), AllocError>
        ensures { OnOk result (type_terms members.new ≡ type_terms members.old ++ flattened_members (packed (type_terms self.now))) }
    {
        for t in self.as_slice() {
            t.flatten_into(alloc, members)?;
        }
        Ok(())
    }
}

/// The same type without its annotation.
fn copy_unannotated(alloc: Global, t: &IdlType) -> Result<IdlType, AllocError>
    ensures { IfOk result (λ copy. type_term copy ≡ unannotated (type_term t.now)) }
{
    match t {
        IdlType::Int(kind, _) => Ok(IdlType::Int(*kind, Mode::Wrap)),
        IdlType::Text { kind, .. } => Ok(IdlType::Text {
            kind: *kind,
            null_empty: false,
        }),
        _ => t.copy(alloc),
    }
}

/// How many members of a union are nullable, those of its inner unions included, but never more
/// than 4,294,967,295 (Web IDL, "number of nullable member types").
pub fn nullable_count(t: &IdlType) -> u32
    requires { IsUnion (type_term t.now) }
    ensures { result ≡ min (inner_nullable_members (type_term t.now)) 4294967295 }
{
    count_inner(t)
}

/// The count of a union, also of one under a nullable; 0 for any other type.
#[cycle(count)]
fn count_inner(t: &IdlType) -> u32
    ensures { result ≡ min (inner_nullable_members (type_term t.now)) 4294967295 }
{
    match t {
        IdlType::Nullable(inner) => count_inner(inner),
        IdlType::Union(members) => count_members(members),
        _ => 0,
    }
}

/// The count of a union with these members.
#[cycle(count)]
fn count_members(members: &IdlTypes) -> u32
    ensures { result ≡ min (nullable_members (packed (type_terms members.now))) 4294967295 }
{
    let mut count = 0u32;
    for t in members.as_slice() {
        let inner = count_inner(t);
        let one = count_one(t);
        count = count.saturating_add(one.saturating_add(inner));
    }
    count
}

fn count_one(t: &IdlType) -> u32
    ensures { result ≡ nullable_one (type_term t.now) }
{
    match t {
        IdlType::Nullable(_) => 1,
        _ => 0,
    }
}

/// Whether a type is nullable, or a union of which exactly one member is (Web IDL, "includes a
/// nullable type").
pub fn includes_nullable(t: &IdlType) -> bool
    ensures { result ≡ includes_nullable_type (type_term t.now) }
{
    match t {
        IdlType::Nullable(_) => true,
        IdlType::Union(members) => count_members(members) == 1,
        _ => false,
    }
}
