//! Over which lists of definitions scripts can be run today. This file goes when they can be run over all.

ghost use Rattle.std.specs.Prelude.{◌≡◌, ◌↔◌, IsTrue};
ghost use Rattle.std.specs.List.{list_all};
ghost use Rattle.widl_idl.specs.DefinitionTerms.{arg_term, defs_term, dict_term, member_term, op_name_term, sig_term, space_term};
ghost use Rattle.widl_idl.specs.Terms.{packed, type_term, type_terms};
ghost use Rattle.widl_convert.specs.Served.{IsServed, are_served_types, has_no_callbacks, has_served_definitions, has_served_operations, is_scalar, is_served_argument, is_served_dictionary, is_served_member, is_served_name, is_served_namespace, is_served_result, is_served_signature, is_served_type};

use widl_idl::{Arg, Defs, Dict, IdlType, IdlTypes, Member, OpName, Sig, Space};
use widl_overload::{Accepted, has_operations_alone};

/// Whether a script can be run over an accepted set today: beside enumerations and dictionaries it has
/// namespaces alone, with operations alone. The types of their arguments, of their results and of members are
/// `any`, booleans, integers, texts, enumerations, `object`, dictionaries, and sequences, records, nullable types
/// and unions of these, at any depth; that of a result may also be `undefined`.
pub fn is_served(accepted: &Accepted) -> bool
    ensures { IsTrue result ↔ IsServed (defs_term accepted.now.defs) }
{
    has_operations_alone(accepted) && has_served_operations(accepted.defs())
}

fn has_served_operations(defs: &Defs) -> bool
    ensures { result ≡ has_served_operations (defs_term defs.now) }
{
    has_no_callbacks(defs) && has_served_definitions(defs)
}

/// Whether each dictionary and each namespace is supported.
fn has_served_definitions(defs: &Defs) -> bool
    ensures { result ≡ has_served_definitions (defs_term defs.now) }
{
    are_served_dictionaries(defs.dicts.as_slice()) && are_served_namespaces(defs.spaces.as_slice())
}

fn has_no_callbacks(defs: &Defs) -> bool
    ensures { result ≡ has_no_callbacks (defs_term defs.now) }
{
    defs.callback_fns.len() == 0 && defs.callback_ifaces.len() == 0
}

fn are_served_dictionaries(dicts: &[Dict]) -> bool
    ensures { result ≡ list_all (λ d. is_served_dictionary (dict_term d)) dicts.now }
{
    dicts.iter().all(is_served_dictionary)
}

/// Whether each member of a dictionary is supported.
fn is_served_dictionary(dict: &Dict) -> bool
    ensures { result ≡ is_served_dictionary (dict_term dict.now) }
{
    are_served_members(dict.members.as_slice())
}

fn are_served_members(members: &[Member]) -> bool
    ensures { result ≡ list_all (λ m. is_served_member (member_term m)) members.now }
{
    members.iter().all(is_served_member)
}

fn is_served_member(member: &Member) -> bool
    ensures { result ≡ is_served_member (member_term member.now) }
{
    is_served_type(&member.ty)
}

fn are_served_namespaces(spaces: &[Space]) -> bool
    ensures { result ≡ list_all (λ n. is_served_namespace (space_term n)) spaces.now }
{
    spaces.iter().all(is_served_namespace)
}

/// Whether each operation of a namespace is supported.
fn is_served_namespace(space: &Space) -> bool
    ensures { result ≡ is_served_namespace (space_term space.now) }
{
    are_served_operations(space.ops.as_slice())
}

fn are_served_operations(ops: &[OpName]) -> bool
    ensures { result ≡ list_all (λ o. is_served_name (op_name_term o)) ops.now }
{
    ops.iter().all(is_served_name)
}

/// Whether each overload of a name is supported.
fn is_served_name(op: &OpName) -> bool
    ensures { result ≡ is_served_name (op_name_term op.now) }
{
    are_served_signatures(op.sigs.as_slice())
}

fn are_served_signatures(sigs: &[Sig]) -> bool
    ensures { result ≡ list_all (λ s. is_served_signature (sig_term s)) sigs.now }
{
    sigs.iter().all(is_served_signature)
}

fn is_served_signature(sig: &Sig) -> bool
    ensures { result ≡ is_served_signature (sig_term sig.now) }
{
    are_served_arguments(sig.args.as_slice()) && is_served_result(&sig.result)
}

fn are_served_arguments(args: &[Arg]) -> bool
    ensures { result ≡ list_all (λ a. is_served_argument (arg_term a)) args.now }
{
    args.iter().all(is_served_argument)
}

fn is_served_argument(arg: &Arg) -> bool
    ensures { result ≡ is_served_argument (arg_term arg.now) }
{
    is_served_type(&arg.ty)
}

/// Whether a type is a scalar one or a dictionary, or a sequence, a record, a nullable type or a union of
/// such, at any depth.
///
/// A type of a list of definitions nests at most 16 levels, which bounds the recursion; the members of a
/// union are walked by a loop.
#[cycle(types)]
fn is_served_type(ty: &IdlType) -> bool
    ensures { result ≡ is_served_type (type_term ty.now) }
{
    match ty {
        IdlType::Seq(element) => is_served_type(element),
        IdlType::Rec(_, value) => is_served_type(value),
        IdlType::Dict(_) => true,
        IdlType::Nullable(inner) => is_served_type(inner),
        IdlType::Union(members) => are_served_types(members),
        _ => is_scalar(ty),
    }
}

/// Whether each of the members of a union is such a type.
#[cycle(types)]
fn are_served_types(members: &IdlTypes) -> bool
    ensures { result ≡ are_served_types (packed (type_terms members.now)) }
{
    for member in members.as_slice() {
        if !is_served_type(member) {
            return false;
        }
    }
    true
}

/// Whether the values of a type are converted by themselves or by their primitive values.
fn is_scalar(ty: &IdlType) -> bool
    ensures { result ≡ is_scalar (type_term ty.now) }
{
    matches!(
        ty,
        IdlType::Any
            | IdlType::Boolean
            | IdlType::Int(_, _)
            | IdlType::Text { .. }
            | IdlType::Choice(_)
            | IdlType::Object
    )
}

/// Whether a type is `undefined`, or one that an argument may have.
fn is_served_result(ty: &IdlType) -> bool
    ensures { result ≡ is_served_result (type_term ty.now) }
{
    match ty {
        IdlType::Undefined => true,
        _ => is_served_type(ty),
    }
}
