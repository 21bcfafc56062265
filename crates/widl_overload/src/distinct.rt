//! Which types are distinguishable.

ghost use Rattle.std.specs.Prelude.{◌≡◌, ◌&&◌, ◌||◌, not, false, is_some, List, map};
ghost use Rattle.std.specs.List.{list_all, list_any};
ghost use Rattle.std.specs.Option.{option_copied, option_map};
ghost use Rattle.widl_idl.specs.DefinitionTerms.{IfaceTerm, defs_term, iface_term};
ghost use Rattle.widl_idl.specs.Flattened.{flattened_member, flattened_members, unannotated};
ghost use Rattle.widl_idl.specs.Terms.{TypeTerm, packed, type_term, type_terms};
ghost use Rattle.widl_overload.specs.sets.Distinct.{HaveMembers, any_nullable_clash, are_unrelated, by_rules, categories_apart, category, distinguishable as distinguishable_in, has_dictionary, has_nullable, is_dictionary, is_never, is_same, listed, nullable_clash, overlaps, union_members};
ghost use Rattle.widl_overload.specs.sets.Pairs.{apart_from, each_apart, flattened_apart as flattened_apart_in, is_apart, listed_terms, members_in, second_members as second_members_of};

use crate::category::Category;
use crate::inheritance::inherits;
use widl_idl::{Defs, IdlType, IdlTypes, Iface, includes_nullable, nullable_count};

/// Whether values of the two types are distinguishable (Web IDL, "distinguishable"). Of two unions each
/// two members are compared by the same rules; where one type is no union, all that the rules come to is
/// told by the flattened members.
pub fn distinguishable(defs: &Defs, a: &IdlType, b: &IdlType) -> bool
    ensures { result ≡ distinguishable_in (defs_term defs.now).ifaces (type_term a.now) (type_term b.now) }
{
    are_distinguishable(defs.ifaces.as_slice(), a, b)
}

/// It is what the standard's four rules say in order, where the members of unions are compared by the
/// same rules.
pub fn distinguishable_by_rules()
    ensures { (ifaces : List IfaceTerm) (t u : TypeTerm) → distinguishable_in ifaces t u ≡ by_rules ifaces (distinguishable_in ifaces) t u }
{}

/// Distinguishability is symmetric.
pub fn distinguishable_is_symmetric()
    ensures { (ifaces : List IfaceTerm) (t u : TypeTerm) → distinguishable_in ifaces t u ≡ distinguishable_in ifaces u t }
{}

/// No type whose unions each have at least one member is distinguishable from itself.
pub fn distinguishable_from_itself()
    ensures { (ifaces : List IfaceTerm) (t : TypeTerm) → HaveMembers t → distinguishable_in ifaces t t ≡ false }
{}

/// Whether two types are distinguishable.
#[cycle(rules)]
fn are_distinguishable(ifaces: &[Iface], a: &IdlType, b: &IdlType) -> bool
    ensures { result ≡ distinguishable_in (map iface_term ifaces.now) (type_term a.now) (type_term b.now) }
{
    match second_members(a, b) {
        Some(others) => !do_clash(a, b) && members_apart_from(ifaces, a, others),
        None => flattened_apart(ifaces, a, b),
    }
}

/// Whether each member of a union is distinguishable from each of the others.
#[cycle(rules)]
fn members_apart_from(ifaces: &[Iface], t: &IdlType, others: &[IdlType]) -> bool
    ensures { result ≡ list_all (apart_from (map iface_term ifaces.now) (map type_term others.now)) (members_in (type_term t.now)) }
{
    match t {
        IdlType::Nullable(inner) => members_apart_from(ifaces, inner, others),
        IdlType::Union(members) => each_apart_from(ifaces, members, others),
        _ => true,
    }
}

/// Whether each of these members is distinguishable from each of the others.
#[cycle(rules)]
fn each_apart_from(ifaces: &[Iface], members: &IdlTypes, others: &[IdlType]) -> bool
    ensures { result ≡ list_all (apart_from (map iface_term ifaces.now) (map type_term others.now)) (listed (packed (type_terms members.now))) }
{
    for member in members.as_slice() {
        for other in others {
            if !are_distinguishable(ifaces, member, other) {
                return false;
            }
        }
    }
    true
}

/// The members of the second of two unions, with or without a `?`, as they stand; none where one type is
/// no union.
fn second_members<'a>(a: &IdlType, b: &'a IdlType) -> Option<&'a [IdlType]>
    ensures { option_map listed_terms (option_copied result) ≡ second_members_of (type_term a.now) (type_term b.now) }
{
    if is_union(a) { members_of(b) } else { None }
}

/// Whether the type is a union, with or without a `?`.
fn is_union(t: &IdlType) -> bool
    ensures { result ≡ is_some (union_members (type_term t.now)) }
{
    match t {
        IdlType::Nullable(inner) => is_union(inner),
        IdlType::Union(_) => true,
        _ => false,
    }
}

/// The members of a union, with or without a `?`, as they stand.
fn members_of(t: &IdlType) -> Option<&[IdlType]>
    ensures { option_map listed_terms (option_copied result) ≡ union_members (type_term t.now) }
{
    match t {
        IdlType::Nullable(inner) => members_of(inner),
        IdlType::Union(members) => Some(members.as_slice()),
        _ => None,
    }
}

/// Whether two types, one of which is no union, are distinguishable: none clashes by a `?` in it, and
/// each two types that they are flattened to are apart.
#[tactic(auto, unfolding(crate::specs::sets::Pairs::flattened_apart))]
fn flattened_apart(ifaces: &[Iface], a: &IdlType, b: &IdlType) -> bool
    ensures { result ≡ flattened_apart_in (map iface_term ifaces.now) (type_term a.now) (type_term b.now) }
{
    !any_clash(a, b) && members_apart(ifaces, a, b)
}

/// Whether one of the types has a nullable type in it, where the other has one too or has a dictionary.
fn any_clash(a: &IdlType, b: &IdlType) -> bool
    ensures { result ≡ any_nullable_clash (type_term a.now) (type_term b.now) }
{
    (holds_nullable(a) && (holds_nullable(b) || holds_dictionary(b)))
        || (holds_nullable(b) && holds_dictionary(a))
}

/// Whether the type is nullable, or a union with one nullable member or more.
fn holds_nullable(t: &IdlType) -> bool
    ensures { result ≡ has_nullable (type_term t.now) }
{
    match t {
        IdlType::Nullable(_) => true,
        IdlType::Union(_) => nullable_count(t) > 0,
        _ => false,
    }
}

/// Whether one of the types includes a nullable type, where the other does too or has a dictionary.
fn do_clash(a: &IdlType, b: &IdlType) -> bool
    ensures { result ≡ nullable_clash (type_term a.now) (type_term b.now) }
{
    (includes_nullable(a) && (includes_nullable(b) || holds_dictionary(b)))
        || (includes_nullable(b) && holds_dictionary(a))
}

/// Whether the type is a dictionary, or a union with one among its flattened members.
fn holds_dictionary(t: &IdlType) -> bool
    ensures { result ≡ has_dictionary (type_term t.now) }
{
    match t {
        IdlType::Nullable(_) => false,
        _ => any_dictionary(t),
    }
}

/// Whether one of the types that this one is flattened to is a dictionary.
#[cycle(dictionary)]
pub fn any_dictionary(t: &IdlType) -> bool
    ensures { result ≡ list_any is_dictionary (flattened_member (type_term t.now)) }
{
    match t {
        IdlType::Nullable(inner) => any_dictionary(inner),
        IdlType::Union(members) => any_member_dictionary(members),
        IdlType::Dict(_) => true,
        _ => false,
    }
}

#[cycle(dictionary)]
fn any_member_dictionary(members: &IdlTypes) -> bool
    ensures { result ≡ list_any is_dictionary (flattened_members (packed (type_terms members.now))) }
{
    for member in members.as_slice() {
        if any_dictionary(member) {
            return true;
        }
    }
    false
}

/// Whether each of the types that one type is flattened to is apart from each of the other's.
#[cycle(pairs)]
fn members_apart(ifaces: &[Iface], a: &IdlType, b: &IdlType) -> bool
    ensures { result ≡ list_all (each_apart (map iface_term ifaces.now) (flattened_member (type_term b.now))) (flattened_member (type_term a.now)) }
{
    match a {
        IdlType::Nullable(inner) => members_apart(ifaces, inner, b),
        IdlType::Union(members) => all_members_apart(ifaces, members, b),
        _ => innermost_apart(ifaces, a, b),
    }
}

#[cycle(pairs)]
fn all_members_apart(ifaces: &[Iface], members: &IdlTypes, b: &IdlType) -> bool
    ensures { result ≡ list_all (each_apart (map iface_term ifaces.now) (flattened_member (type_term b.now))) (flattened_members (packed (type_terms members.now))) }
{
    for member in members.as_slice() {
        if !members_apart(ifaces, member, b) {
            return false;
        }
    }
    true
}

#[tactic(auto, unfolding(crate::specs::sets::Pairs::each_apart))]
fn innermost_apart(ifaces: &[Iface], a: &IdlType, b: &IdlType) -> bool
    ensures { result ≡ each_apart (map iface_term ifaces.now) (flattened_member (type_term b.now)) (unannotated (type_term a.now)) }
{
    apart_from_members(ifaces, category_of(a), b)
}

/// Whether a category is apart from that of each of the types that a type is flattened to.
#[cycle(one)]
fn apart_from_members(ifaces: &[Iface], c: Category, t: &IdlType) -> bool
    ensures { result ≡ list_all (is_apart (map iface_term ifaces.now) c) (flattened_member (type_term t.now)) }
{
    match t {
        IdlType::Nullable(inner) => apart_from_members(ifaces, c, inner),
        IdlType::Union(members) => apart_from_all_members(ifaces, c, members),
        _ => apart_from_innermost(ifaces, c, t),
    }
}

#[cycle(one)]
fn apart_from_all_members(ifaces: &[Iface], c: Category, members: &IdlTypes) -> bool
    ensures { result ≡ list_all (is_apart (map iface_term ifaces.now) c) (flattened_members (packed (type_terms members.now))) }
{
    for member in members.as_slice() {
        if !apart_from_members(ifaces, c, member) {
            return false;
        }
    }
    true
}

#[tactic(auto, unfolding(crate::specs::sets::Pairs::is_apart))]
fn apart_from_innermost(ifaces: &[Iface], c: Category, t: &IdlType) -> bool
    ensures { result ≡ is_apart (map iface_term ifaces.now) c (unannotated (type_term t.now)) }
{
    are_apart(ifaces, c, category_of(t))
}

/// Whether two categories are apart: they differ and do not overlap, or they are interfaces neither
/// of which is or inherits from the other.
fn are_apart(ifaces: &[Iface], c: Category, d: Category) -> bool
    ensures { result ≡ categories_apart (map iface_term ifaces.now) c d }
{
    match (c, d) {
        (Category::Never, _) | (_, Category::Never) => false,
        (Category::Interface(m), Category::Interface(n)) => {
            m != n && !inherits(ifaces, m, n) && !inherits(ifaces, n, m)
        }
        _ => !same_category(c, d) && !do_overlap(c, d) && !do_overlap(d, c),
    }
}

fn same_category(c: Category, d: Category) -> bool
    ensures { result ≡ is_same c d }
{
    match (c, d) {
        (Category::Interface(_), Category::Interface(_)) => true,
        (Category::Undefined, Category::Undefined) => true,
        (Category::Boolean, Category::Boolean) => true,
        (Category::Numeric, Category::Numeric) => true,
        (Category::String, Category::String) => true,
        (Category::Object, Category::Object) => true,
        (Category::Function, Category::Function) => true,
        (Category::DictionaryLike, Category::DictionaryLike) => true,
        (Category::SequenceLike, Category::SequenceLike) => true,
        _ => false,
    }
}

/// Whether a value may belong to both of two categories, the first of which is the wider one.
fn do_overlap(c: Category, d: Category) -> bool
    ensures { result ≡ overlaps c d }
{
    match (c, d) {
        (Category::Object, Category::Interface(_)) => true,
        (Category::Object, Category::Function) => true,
        (Category::Object, Category::DictionaryLike) => true,
        (Category::Object, Category::SequenceLike) => true,
        (Category::Undefined, Category::DictionaryLike) => true,
        _ => false,
    }
}

/// The category of a type that is neither nullable nor a union.
pub fn category_of(t: &IdlType) -> Category
    ensures { result ≡ category (type_term t.now) }
{
    match t {
        IdlType::Any | IdlType::Promise(_) | IdlType::Nullable(_) | IdlType::Union(_) =>
            Category::Never,
        IdlType::Undefined => Category::Undefined,
        IdlType::Boolean => Category::Boolean,
        IdlType::Int(_, _) => Category::Numeric,
        IdlType::Text { .. } | IdlType::Choice(_) => Category::String,
        IdlType::Object => Category::Object,
        IdlType::Interface(number) => Category::Interface(*number),
        IdlType::CallbackFn(_) => Category::Function,
        IdlType::CallbackIface(_) | IdlType::Dict(_) | IdlType::Rec(_, _) => {
            Category::DictionaryLike
        }
        IdlType::Seq(_) => Category::SequenceLike,
    }
}
