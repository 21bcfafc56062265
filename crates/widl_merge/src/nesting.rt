//! The rule on types that nest too deep.

ghost use Rattle.std.specs.Prelude.{◌≡◌, slice_index_or, IfOk, None, Some, if◌then◌else◌, option_map, slice_get, replicate};
ghost use Rattle.widl_idl.specs.First.{FirstWhere};
ghost use Rattle.widl_idl.specs.MergingRules.{NestsDeep};
ghost use Rattle.widl_idl.specs.Nesting.{deeper, one_deeper, form_depth, type_depth, annotated_depth, union_depth, meant_depth, typedef_links};
ghost use Rattle.widl_idl.specs.PlainTrees.{definition_kind_of, plain_definitions};
ghost use Rattle.widl_idl.specs.PlainTypes.{name_of, form_term, type_of, annotated_of, union_of};
ghost use Rattle.widl_idl.specs.Nodes.{TypeNode};
ghost use Rattle.widl_merge.specs.Depths.{capped, is_deep, is_flagged, AreCapped, TellsDepths, number_depth, table_depth};
ghost use Rattle.widl_graph.specs.Walks.{IsWalkOver};
ghost use Rattle.widl_names.specs.Listings.{node_of};

use std::alloc::{AllocError, Global};
use widl_graph::{Walk, flag_at};
use widl_idl::Violation;
use widl_idl::tree::{AnnotatedType, DefinitionKind, Name, TypeForm, WrittenType};
use widl_names::{Meanings, Node, kind_at};
use widl_text::limits::MOST_TYPE_LEVELS;

/// The depths of the definitions as types, each by its number; none where a name in one is no type or
/// a typedef reaches itself.
///
/// # Errors
///
/// `AllocError` where there is no memory.
pub fn definition_depths(
    alloc: Global,
    meanings: &Meanings<'_, '_>,
    walk: &Walk,
) -> Result<Vec<Option<usize>>, AllocError>
    requires { IsWalkOver (typedef_links (plain_definitions meanings.now)) walk.now }
    ensures capped { IfOk result (λ depths. AreCapped depths.items) }
    ensures tells { IfOk result (λ depths. TellsDepths (plain_definitions meanings.now) depths.items) }
{
    let mut depths = no_depths(alloc, meanings.all().len())?;
    for number in walk.order.as_slice() {
        let depth = walked_depth(meanings, depths.as_slice(), walk.cyclic.as_slice(), *number);
        depths[*number] = depth;
    }
    Ok(depths)
}

/// A table without depths.
fn no_depths(alloc: Global, count: usize) -> Result<Vec<Option<usize>>, AllocError>
    ensures { IfOk result (λ depths. depths.items ≡ replicate count None) }
{
    let mut depths = Vec::new(alloc);
    for _i in 0..count {
        depths.push(None)?;
    }
    Ok(depths)
}

/// The depth of the definition of this number as a type, where the table has those of the typedefs
/// that it names.
fn walked_depth(
    meanings: &Meanings<'_, '_>,
    depths: &[Option<usize>],
    cyclic: &[bool],
    number: usize,
) -> Option<usize>
    requires { AreCapped depths.now }
    ensures { result ≡ (if is_flagged (slice_get cyclic.now number) then None else capped (number_depth (plain_definitions meanings.now) (table_depth (plain_definitions meanings.now) depths.now) number)) }
{
    if flag_at(cyclic, number) {
        None
    } else {
        number_depth(meanings, depths, number)
    }
}

/// The same of a definition that does not reach itself.
fn number_depth(
    meanings: &Meanings<'_, '_>,
    depths: &[Option<usize>],
    number: usize,
) -> Option<usize>
    requires { AreCapped depths.now }
    ensures { result ≡ capped (number_depth (plain_definitions meanings.now) (table_depth (plain_definitions meanings.now) depths.now) number) }
{
    match kind_at(meanings.all(), number) {
        None => None,
        Some(kind) => kind_depth(meanings, depths, kind),
    }
}

/// The depth of the type that a definition is.
fn kind_depth(
    meanings: &Meanings<'_, '_>,
    depths: &[Option<usize>],
    kind: &DefinitionKind,
) -> Option<usize>
    requires { AreCapped depths.now }
    ensures { result ≡ capped (meant_depth (annotated_depth (table_depth (plain_definitions meanings.now) depths.now)) (Some (definition_kind_of kind.now))) }
{
    match kind {
        DefinitionKind::Typedef(typedef) => annotated_depth(meanings, depths, &typedef.ty),
        _ => depth_as_type(kind, None),
    }
}

/// The place of the first token of a type, if it nests deeper than 16 after its typedefs are replaced, by
/// a table of the depths of definitions.
pub fn too_deep(
    meanings: &Meanings<'_, '_>,
    depths: &[Option<usize>],
    node: Node<'_>,
) -> Option<Violation>
    requires capped { AreCapped depths.now }
    requires tells { TellsDepths (plain_definitions meanings.now) depths.now }
    ensures { FirstWhere (NestsDeep (plain_definitions meanings.now) (node_of node.entry)) result }
{
    match node {
        Node::Type(ty) => too_deep_type(meanings, depths, ty),
        Node::Attribute(_)
        | Node::Literal(_)
        | Node::Name(_)
        | Node::Member(_)
        | Node::CallbackMember(_) => None,
    }
}

fn too_deep_type(
    meanings: &Meanings<'_, '_>,
    depths: &[Option<usize>],
    ty: &WrittenType,
) -> Option<Violation>
    requires capped { AreCapped depths.now }
    requires tells { TellsDepths (plain_definitions meanings.now) depths.now }
    ensures { FirstWhere (NestsDeep (plain_definitions meanings.now) (TypeNode (type_of ty.now))) result }
{
    if is_deep(type_depth(meanings, depths, ty)) {
        Some(Violation::at(ty.at))
    } else {
        None
    }
}

/// Whether a depth is known and passes the limit.
fn is_deep(depth: Option<usize>) -> bool
    ensures { result ≡ is_deep depth }
{
    match depth {
        None => false,
        Some(depth) => depth > MOST_TYPE_LEVELS,
    }
}

/// The depth of a type, at most one past the limit.
#[cycle(nest)]
fn type_depth(
    meanings: &Meanings<'_, '_>,
    depths: &[Option<usize>],
    ty: &WrittenType,
) -> Option<usize>
    requires { AreCapped depths.now }
    ensures { result ≡ capped (type_depth (table_depth (plain_definitions meanings.now) depths.now) (type_of ty.now)) }
{
    form_depth(meanings, depths, &ty.form)
}

#[cycle(nest)]
fn form_depth(
    meanings: &Meanings<'_, '_>,
    depths: &[Option<usize>],
    form: &TypeForm,
) -> Option<usize>
    requires { AreCapped depths.now }
    ensures { result ≡ capped (form_depth (table_depth (plain_definitions meanings.now) depths.now) (form_term form.now)) }
{
    match form {
        TypeForm::Named(name) => table_depth(meanings, depths, name),
        TypeForm::Container(_, inner) => one_deeper(annotated_depth(meanings, depths, inner)),
        TypeForm::Record(_, inner) => one_deeper(annotated_depth(meanings, depths, inner)),
        TypeForm::Promise(inner) => one_deeper(type_depth(meanings, depths, inner)),
        TypeForm::Union(members) => one_deeper(union_depth(meanings, depths, members.as_slice())),
        _ => Some(1),
    }
}

#[cycle(nest)]
fn annotated_depth(
    meanings: &Meanings<'_, '_>,
    depths: &[Option<usize>],
    ty: &AnnotatedType,
) -> Option<usize>
    requires { AreCapped depths.now }
    ensures { result ≡ capped (annotated_depth (table_depth (plain_definitions meanings.now) depths.now) (annotated_of ty.now)) }
{
    type_depth(meanings, depths, &ty.ty)
}

/// The depth of the deepest member of a union.
#[cycle(nest)]
fn union_depth(
    meanings: &Meanings<'_, '_>,
    depths: &[Option<usize>],
    members: &[AnnotatedType],
) -> Option<usize>
    requires { AreCapped depths.now }
    ensures { result ≡ capped (union_depth (table_depth (plain_definitions meanings.now) depths.now) (union_of members.now)) }
{
    let mut deepest = Some(0);
    for member in members {
        let depth = annotated_depth(meanings, depths, member);
        deepest = deeper(deepest, depth);
    }
    deepest
}

/// The depth of the type that a name means.
fn table_depth(meanings: &Meanings<'_, '_>, depths: &[Option<usize>], name: &Name) -> Option<usize>
    requires { AreCapped depths.now }
    ensures { result ≡ capped (table_depth (plain_definitions meanings.now) depths.now (name_of name.now)) }
{
    match meanings.number(name.text.as_str()) {
        None => None,
        Some(number) => depth_in_table(meanings, depths, number),
    }
}

/// The depth of the type that the definition of this number is, where the table has that of a typedef.
fn depth_in_table(
    meanings: &Meanings<'_, '_>,
    depths: &[Option<usize>],
    number: usize,
) -> Option<usize>
    ensures { result ≡ meant_depth (λ ty. slice_index_or depths.now number None) (option_map (λ d. d.kind) (slice_get (plain_definitions meanings.now) number)) }
{
    match kind_at(meanings.all(), number) {
        None => None,
        Some(kind) => depth_as_type(kind, depth_at(depths, number)),
    }
}

/// The depth of the type that a definition is, where `kept` is that of a typedef's.
fn depth_as_type(kind: &DefinitionKind, kept: Option<usize>) -> Option<usize>
    ensures { result ≡ meant_depth (λ ty. kept) (Some (definition_kind_of kind.now)) }
{
    match kind {
        DefinitionKind::Typedef(_) => kept,
        DefinitionKind::Mixin(_) | DefinitionKind::Namespace(_) => None,
        DefinitionKind::Callback(_)
        | DefinitionKind::CallbackInterface(_)
        | DefinitionKind::Interface(_)
        | DefinitionKind::Dictionary(_)
        | DefinitionKind::Enumeration(_)
        | DefinitionKind::Includes(_) => Some(1),
    }
}

/// The depth at a number of the table.
fn depth_at(depths: &[Option<usize>], number: usize) -> Option<usize>
    ensures { result ≡ slice_index_or depths.now number None }
{
    match depths.get(number) {
        None => None,
        Some(depth) => *depth,
    }
}

/// The deeper of two, where both depths are known.
fn deeper(best: Option<usize>, other: Option<usize>) -> Option<usize>
    ensures { result ≡ deeper best other }
{
    match (best, other) {
        (Some(best), Some(other)) => Some(best.max(other)),
        _ => None,
    }
}

/// The depth of a type around another one, at most one past the limit.
fn one_deeper(depth: Option<usize>) -> Option<usize>
    ensures { result ≡ capped (one_deeper depth) }
{
    match depth {
        None => None,
        Some(depth) => Some(depth.min(MOST_TYPE_LEVELS) + 1),
    }
}
