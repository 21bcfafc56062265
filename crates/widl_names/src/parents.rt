//! The graph of parents: for each definition its parent, if it has one of the same kind.

ghost use Rattle.std.specs.Prelude.{◌≡◌, ◌++◌, ◌∷◌, [], IfOk, OnOk, option_map, option_to_list};
ghost use Rattle.widl_idl.specs.Meanings.{kind_of, meaning, meant_kind};
ghost use Rattle.widl_idl.specs.MergingRules.{number_of_kind, parent_links, parent_numbers, parent_of};
ghost use Rattle.widl_idl.specs.PlainTrees.{definition_kind_of, plain_definitions};
ghost use Rattle.widl_idl.specs.PlainTypes.{name_of};

use crate::meanings::Meanings;
use crate::meant::number_meant;
use crate::names::kind_of;
use std::alloc::{AllocError, Global};
use widl_graph::Graph;
use widl_idl::Kind;
use widl_idl::tree::{DefinitionKind, Name};

/// For each definition its parent, if it has one of the same kind.
///
/// # Errors
///
/// `AllocError` where there is no memory.
pub fn parent_graph(alloc: Global, meanings: &Meanings<'_, '_>) -> Result<Graph, AllocError>
    ensures { IfOk result (λ graph. graph ≡ parent_links (plain_definitions meanings.now)) }
{
    let mut graph = Graph::new(alloc);
    let definitions = meanings.all();
    for definition in definitions {
        add_parent(&mut graph, meanings, &definition.kind)?;
    }
    Ok(graph)
}

/// Adds a definition with its parent, if it has one of the same kind.
fn add_parent(
    graph: &mut Graph,
    meanings: &Meanings<'_, '_>,
    definition: &DefinitionKind,
) -> Result<(), AllocError>
    ensures { OnOk result (graph.new ≡ graph.old ++ parent_numbers (plain_definitions meanings.now) (kind_of (definition_kind_of definition.now)) (parent_of (definition_kind_of definition.now)) ∷ []) }
{
    match parent_number(meanings, definition) {
        None => graph.add_linked(&[]),
        Some(number) => graph.add_linked(&[number]),
    }
}

/// The number of the parent of a definition, if it has one of the same kind.
fn parent_number(meanings: &Meanings<'_, '_>, definition: &DefinitionKind) -> Option<usize>
    ensures { option_to_list result ≡ parent_numbers (plain_definitions meanings.now) (kind_of (definition_kind_of definition.now)) (parent_of (definition_kind_of definition.now)) }
{
    match parent_of(definition) {
        None => None,
        Some(name) => number_of_kind(meanings, kind_of(definition), name.text.as_str()),
    }
}

/// The number of the definition that a name means, if it is of this kind.
fn number_of_kind(meanings: &Meanings<'_, '_>, kind: Kind, text: &str) -> Option<usize>
    ensures { option_to_list result ≡ number_of_kind kind (meant_kind (plain_definitions meanings.now) text.now) (meaning (plain_definitions meanings.now) text.now) }
{
    number_meant(meanings, text, kind)
}

/// The name after the colon.
pub fn parent_of<'a>(definition: &'a DefinitionKind) -> Option<&'a Name>
    ensures { option_map (λ name. name_of name.now) result ≡ parent_of (definition_kind_of definition.now) }
{
    match definition {
        DefinitionKind::Interface(interface) => interface.parent.as_ref(),
        DefinitionKind::Dictionary(dictionary) => dictionary.parent.as_ref(),
        _ => None,
    }
}
