//! Types that are the same without annotations.
//!
//! A type nests at most 16 levels, as `widl_merge` and `widl_syntax` see to for each list, so the recursion over
//! its parts is bounded.

ghost use Rattle.std.specs.Prelude.{◌≡◌};
ghost use Rattle.widl_idl.specs.Sameness.{same_kind, same_terms, same_text};
ghost use Rattle.widl_idl.specs.Terms.{packed, type_term, type_terms};
ghost use Rattle.widl_script_rules.specs.FitTests.{same_plain};
ghost use Rattle.widl_script_rules.specs.Fits.{all_without_annotations};

use widl_idl::{IdlType, IdlTypes, IntKind, TextKind};

/// Whether two types are the same without annotations, also in them.
#[cycle(same)]
pub(crate) fn same_without_annotations(a: &IdlType, b: &IdlType) -> bool
    ensures { result ≡ same_plain (type_term a.now) (type_term b.now) }
{
    match (a, b) {
        (IdlType::Any, IdlType::Any) => true,
        (IdlType::Undefined, IdlType::Undefined) => true,
        (IdlType::Boolean, IdlType::Boolean) => true,
        (IdlType::Int(k, _), IdlType::Int(l, _)) => kinds_are_same(*k, *l),
        (IdlType::Text { kind: k, .. }, IdlType::Text { kind: l, .. }) => texts_are_same(*k, *l),
        (IdlType::Choice(m), IdlType::Choice(n)) => *m == *n,
        (IdlType::Interface(m), IdlType::Interface(n)) => *m == *n,
        (IdlType::CallbackFn(m), IdlType::CallbackFn(n)) => *m == *n,
        (IdlType::CallbackIface(m), IdlType::CallbackIface(n)) => *m == *n,
        (IdlType::Dict(m), IdlType::Dict(n)) => *m == *n,
        (IdlType::Object, IdlType::Object) => true,
        (IdlType::Seq(a), IdlType::Seq(b)) => same_without_annotations(a, b),
        (IdlType::Rec(k, a), IdlType::Rec(l, b)) => texts_are_same(*k, *l)
            && same_without_annotations(a, b),
        (IdlType::Promise(a), IdlType::Promise(b)) => same_without_annotations(a, b),
        (IdlType::Nullable(a), IdlType::Nullable(b)) => same_without_annotations(a, b),
        (IdlType::Union(a), IdlType::Union(b)) => all_same(a, b),
        _ => false,
    }
}

#[cycle(same)]
fn all_same(a: &IdlTypes, b: &IdlTypes) -> bool
    ensures { result ≡ same_terms (all_without_annotations (packed (type_terms a.now))) (all_without_annotations (packed (type_terms b.now))) }
{
    let types = a.as_slice();
    let others = b.as_slice();
    for (place, t) in types.iter().enumerate() {
        match others.get(place) {
            None => return false,
            Some(other) => {
                if !same_without_annotations(t, other) {
                    return false;
                }
            }
        }
    }
    others.len() <= types.len()
}

fn kinds_are_same(k: IntKind, l: IntKind) -> bool
    ensures { result ≡ same_kind k l }
{
    k == l
}

fn texts_are_same(k: TextKind, l: TextKind) -> bool
    ensures { result ≡ same_text k l }
{
    k == l
}
