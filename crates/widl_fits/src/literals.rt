//! Whether a literal fits a type.
//!
//! A type nests at most 16 levels, so the recursions over its parts are bounded.

ghost use Rattle.std.specs.Prelude.{◌≡◌, ◌&&◌, ◌↔◌, nat_le, IsTrue, Some};
ghost use Rattle.std.specs.List.{list_all, list_any};
ghost use Rattle.widl_idl.specs.Flattened.{flattened_member, flattened_members, includes_nullable_type, unannotated};
ghost use Rattle.widl_idl.specs.Terms.{packed, type_term, type_terms};
ghost use Rattle.widl_fits.specs.Fitting.{Knows, fits_if, is_null, is_null_or_undefined, takes};
ghost use Rattle.widl_fits.specs.Literals.{LiteralFits};
ghost use Rattle.widl_idl.specs.DefinitionTerms.{DefsTerm};
ghost use Rattle.widl_overload.specs.rules.DefaultRules.{has_text};

use crate::choice_values::has_value;
use crate::machine::literal_is_of_program;
use crate::tables::Tables;
use widl_idl::{IdlType, IdlTypes, Literal, TextKind, includes_nullable, is_in_range};

/// Whether a literal fits a type (Web IDL, "Default values"): it is null and the type includes a nullable
/// type, or it is a value of one of the flattened members of the type.
pub fn literal_fits(tables: &Tables<'_>, t: &IdlType, literal: &Literal) -> bool
    ensures test { result ≡ fits_if tables.now (Some literal.now) (type_term t.now) }
    ensures fits { (list : DefsTerm) → Knows list tables.now → IsTrue result ↔ LiteralFits list (type_term t.now) literal.now }
{
    literal_is_of_program(literal);
    is_null_or_taken(tables, t, literal)
}

fn is_null_or_taken(tables: &Tables<'_>, t: &IdlType, literal: &Literal) -> bool
    ensures { result ≡ fits_if tables.now (Some literal.now) (type_term t.now) }
{
    is_null_of(literal, t) || any_takes(tables, literal, t)
}

/// Whether a literal is null and the type includes a nullable type.
fn is_null_of(literal: &Literal, t: &IdlType) -> bool
    ensures { result ≡ (is_null literal.now && includes_nullable_type (type_term t.now)) }
{
    is_null(literal) && includes_nullable(t)
}

fn is_null(literal: &Literal) -> bool
    ensures { result ≡ is_null literal.now }
{
    matches!(literal, Literal::Null)
}

/// Whether a literal is a value of one of the types that this one is flattened to.
#[cycle(flattened)]
pub fn any_takes(tables: &Tables<'_>, literal: &Literal, t: &IdlType) -> bool
    ensures { result ≡ list_any (takes tables.now literal.now) (flattened_member (type_term t.now)) }
{
    match t {
        IdlType::Nullable(inner) => any_takes(tables, literal, inner),
        IdlType::Union(members) => any_member_takes(tables, literal, members),
        _ => takes(tables, literal, t),
    }
}

#[cycle(flattened)]
fn any_member_takes(tables: &Tables<'_>, literal: &Literal, members: &IdlTypes) -> bool
    ensures { result ≡ list_any (takes tables.now literal.now) (flattened_members (packed (type_terms members.now))) }
{
    for member in members.as_slice() {
        if any_takes(tables, literal, member) {
            return true;
        }
    }
    false
}

/// Whether a literal is a value of a type that is neither nullable nor a union.
#[tactic(auto, unfolding(crate::specs::Fitting::takes))]
fn takes(tables: &Tables<'_>, literal: &Literal, t: &IdlType) -> bool
    ensures { result ≡ takes tables.now literal.now (unannotated (type_term t.now)) }
{
    match t {
        IdlType::Any => is_null_or_undefined(literal),
        IdlType::Boolean => matches!(literal, Literal::Bool(_)),
        IdlType::Int(kind, _) => match literal {
            Literal::Int(number) => is_in_range(*kind, *number),
            _ => false,
        },
        IdlType::Text { kind, .. } => match literal {
            Literal::Text(text) => has_text(*kind, text.as_slice()),
            _ => false,
        },
        IdlType::Choice(number) => match literal {
            Literal::Text(text) => {
                has_value(tables.values.as_slice(), *number as usize, text.as_slice())
            }
            _ => false,
        },
        IdlType::Seq(_) => matches!(literal, Literal::EmptyList),
        IdlType::Dict(number) => match literal {
            Literal::EmptyDict => !tables.required.has(*number as usize),
            _ => false,
        },
        _ => false,
    }
}

fn is_null_or_undefined(literal: &Literal) -> bool
    ensures { result ≡ is_null_or_undefined literal.now }
{
    matches!(literal, Literal::Null | Literal::Undefined)
}

/// Whether a string type has the text: a ByteString has no unit above 255.
fn has_text(kind: TextKind, text: &[u16]) -> bool
    ensures { result ≡ has_text kind text.now }
{
    match kind {
        TextKind::Byte => are_bytes(text),
        TextKind::Dom | TextKind::Usv => true,
    }
}

fn are_bytes(text: &[u16]) -> bool
    ensures { result ≡ list_all (λ u. nat_le u 255) text.now }
{
    text.iter().all(|unit| *unit <= 255)
}
