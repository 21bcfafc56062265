//! Sameness of types.

ghost use Rattle.std.specs.Prelude.{◌≡◌, ◌&&◌, ◌↔◌, IsTrue};
ghost use Rattle.widl_idl.specs.Sameness.{same_kind, same_mode, same_term, same_terms, same_text};
ghost use Rattle.widl_idl.specs.Terms.{packed, type_term, type_terms};

use crate::int_kind::{IntKind, Mode};
use crate::text_kind::TextKind;
use crate::types::{IdlType, IdlTypes};

/// Whether two types are the same: equal as resolved, with their annotations.
pub fn same_type(a: &IdlType, b: &IdlType) -> bool
    ensures { IsTrue result ↔ (type_term a.now ≡ type_term b.now) }
{
    are_same(a, b)
}

#[cycle(same)]
fn are_same(a: &IdlType, b: &IdlType) -> bool
    ensures { result ≡ same_term (type_term a.now) (type_term b.now) }
{
    match (a, b) {
        (IdlType::Any, IdlType::Any) => true,
        (IdlType::Undefined, IdlType::Undefined) => true,
        (IdlType::Boolean, IdlType::Boolean) => true,
        (IdlType::Int(k, m), IdlType::Int(l, n)) => kinds_are_same(*k, *l)
            && modes_are_same(*m, *n),
        (
            IdlType::Text {
                kind: k,
                null_empty: m,
            },
            IdlType::Text {
                kind: l,
                null_empty: n,
            },
        ) => texts_are_same(*k, *l) && *m == *n,
        (IdlType::Choice(m), IdlType::Choice(n)) => *m == *n,
        (IdlType::Interface(m), IdlType::Interface(n)) => *m == *n,
        (IdlType::CallbackFn(m), IdlType::CallbackFn(n)) => *m == *n,
        (IdlType::CallbackIface(m), IdlType::CallbackIface(n)) => *m == *n,
        (IdlType::Dict(m), IdlType::Dict(n)) => *m == *n,
        (IdlType::Object, IdlType::Object) => true,
        (IdlType::Seq(a), IdlType::Seq(b)) => are_same(a, b),
        (IdlType::Rec(k, a), IdlType::Rec(l, b)) => texts_are_same(*k, *l) && are_same(a, b),
        (IdlType::Promise(a), IdlType::Promise(b)) => are_same(a, b),
        (IdlType::Nullable(a), IdlType::Nullable(b)) => are_same(a, b),
        (IdlType::Union(a), IdlType::Union(b)) => all_same(a, b),
        _ => false,
    }
}

#[cycle(same)]
fn all_same(a: &IdlTypes, b: &IdlTypes) -> bool
    ensures { result ≡ same_terms (packed (type_terms a.now)) (packed (type_terms b.now)) }
{
    let others = b.as_slice();
    if a.len() != others.len() {
        return false;
    }
    for (place, t) in a.as_slice().iter().enumerate() {
        if !are_same(t, &others[place]) {
            return false;
        }
    }
    true
}

fn kinds_are_same(k: IntKind, l: IntKind) -> bool
    ensures { result ≡ same_kind k l }
{
    k == l
}

fn modes_are_same(m: Mode, n: Mode) -> bool
    ensures { result ≡ same_mode m n }
{
    m == n
}

fn texts_are_same(k: TextKind, l: TextKind) -> bool
    ensures { result ≡ same_text k l }
{
    k == l
}
