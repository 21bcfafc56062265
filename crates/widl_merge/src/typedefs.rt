//! The rule on typedefs that reach themselves.

ghost use Rattle.std.specs.Prelude.{◌≡◌, ◌++◌, IfOk, OnOk, flat_map, option_to_list};
ghost use Rattle.widl_idl.specs.declared.merging_rule.MergingRule.TheVariants as rule;
ghost use Rattle.widl_idl.specs.First.{FirstWhere};
ghost use Rattle.widl_idl.specs.Meanings.{meaning, meant};
ghost use Rattle.widl_idl.specs.MergingRules.{BreaksMerging};
ghost use Rattle.widl_idl.specs.Nesting.{number_if_typedef, typedef_links, typedef_named, typedefs_in, form_names, type_names, annotated_names, union_names};
ghost use Rattle.widl_idl.specs.PlainTrees.{definition_kind_of, plain_definitions};
ghost use Rattle.widl_idl.specs.PlainTypes.{name_of, form_term, type_of, annotated_of, union_of};
ghost use Rattle.widl_graph.specs.Walks.{IsWalkOver};

use crate::cycles::first_coming_back;
use std::alloc::{AllocError, Global};
use widl_graph::{Graph, Walk};
use widl_idl::tree::{AnnotatedType, DefinitionKind, Name, TypeForm, WrittenType};
use widl_idl::{Kind, Violation};
use widl_names::{Meanings, number_meant};

/// The first place of the name of a typedef that reaches itself.
pub fn first_typedef_reaching_itself(meanings: &Meanings<'_, '_>, walk: &Walk) -> Option<Violation>
    requires { IsWalkOver (typedef_links (plain_definitions meanings.now)) walk.now }
    ensures { FirstWhere (BreaksMerging (plain_definitions meanings.now) rule.TypedefReachesItself) result }
{
    first_coming_back(walk.cyclic.as_slice(), meanings.all())
}

/// Walks from typedefs to those that their types name.
///
/// # Errors
///
/// `AllocError` where there is no memory.
pub fn walk_typedefs(alloc: Global, meanings: &Meanings<'_, '_>) -> Result<Walk, AllocError>
    ensures { IfOk result (λ walk. IsWalkOver (typedef_links (plain_definitions meanings.now)) walk) }
{
    let graph = typedefs(alloc, meanings)?;
    Walk::over(alloc, &graph)
}

/// For each definition the typedefs that it names, where it is one itself.
fn typedefs(alloc: Global, meanings: &Meanings<'_, '_>) -> Result<Graph, AllocError>
    ensures { IfOk result (λ graph. graph ≡ typedef_links (plain_definitions meanings.now)) }
{
    let mut graph = Graph::new(alloc);
    let definitions = meanings.all();
    for definition in definitions {
        let named = typedefs_in(alloc, meanings, &definition.kind)?;
        graph.add_linked(named.as_slice())?;
    }
    Ok(graph)
}

/// The typedefs that a typedef names.
fn typedefs_in(
    alloc: Global,
    meanings: &Meanings<'_, '_>,
    definition: &DefinitionKind,
) -> Result<Vec<usize>, AllocError>
    ensures { IfOk result (λ named. named.items ≡ typedefs_in (plain_definitions meanings.now) (definition_kind_of definition.now)) }
{
    let mut named = Vec::new(alloc);
    if let DefinitionKind::Typedef(typedef) = definition {
        add_annotated(&mut named, meanings, &typedef.ty)?;
    }
    Ok(named)
}

/// Adds the typedef that a name means, if it means one.
fn add_named(
    named: &mut Vec<usize>,
    meanings: &Meanings<'_, '_>,
    name: &Name,
) -> Result<(), AllocError>
    ensures { OnOk result (named.new.items ≡ named.old.items ++ typedef_named (plain_definitions meanings.now) (name_of name.now)) }
{
    match typedef_named(meanings, name.text.as_str()) {
        None => Ok(()),
        Some(number) => {
            named.push(number)?;
            Ok(())
        }
    }
}

/// Adds the typedefs that a type names.
#[cycle(link)]
fn add_type(
    named: &mut Vec<usize>,
    meanings: &Meanings<'_, '_>,
    ty: &WrittenType,
) -> Result<(), AllocError>
    ensures { OnOk result (named.new.items ≡ named.old.items ++ flat_map (typedef_named (plain_definitions meanings.now)) (type_names (type_of ty.now))) }
{
    add_form(named, meanings, &ty.form)
}

/// Adds the typedefs that a type without its `?` names.
#[cycle(link)]
fn add_form(
    named: &mut Vec<usize>,
    meanings: &Meanings<'_, '_>,
    form: &TypeForm,
) -> Result<(), AllocError>
    ensures { OnOk result (named.new.items ≡ named.old.items ++ flat_map (typedef_named (plain_definitions meanings.now)) (form_names (form_term form.now))) }
{
    match form {
        TypeForm::Named(name) => add_named(named, meanings, name),
        TypeForm::Container(_, inner) => add_annotated(named, meanings, inner),
        TypeForm::Record(_, inner) => add_annotated(named, meanings, inner),
        TypeForm::Promise(inner) => add_type(named, meanings, inner),
        TypeForm::Union(members) => add_union(named, meanings, members.as_slice()),
        _ => Ok(()),
    }
}

/// Adds the typedefs that a type with extended attributes names.
#[cycle(link)]
fn add_annotated(
    named: &mut Vec<usize>,
    meanings: &Meanings<'_, '_>,
    ty: &AnnotatedType,
) -> Result<(), AllocError>
    ensures { OnOk result (named.new.items ≡ named.old.items ++ flat_map (typedef_named (plain_definitions meanings.now)) (annotated_names (annotated_of ty.now))) }
{
    add_type(named, meanings, &ty.ty)
}

/// Adds the typedefs that the members of a union name.
#[cycle(link)]
fn add_union(
    named: &mut Vec<usize>,
    meanings: &Meanings<'_, '_>,
    members: &[AnnotatedType],
) -> Result<(), AllocError>
    ensures { OnOk result (named.new.items ≡ named.old.items ++ flat_map (typedef_named (plain_definitions meanings.now)) (union_names (union_of members.now))) }
{
    for member in members {
        add_annotated(named, meanings, member)?;
    }
    Ok(())
}

/// The number of the typedef that a name means, if it means one.
fn typedef_named(meanings: &Meanings<'_, '_>, text: &str) -> Option<usize>
    ensures { option_to_list result ≡ number_if_typedef (meaning (plain_definitions meanings.now) text.now) (meant (plain_definitions meanings.now) text.now) }
{
    number_meant(meanings, text, Kind::Typedef)
}
