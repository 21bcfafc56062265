//! Which typedefs the types of typedefs name.

ghost use Rattle.std.specs.Prelude.{◌≡◌, ◌<◌, IfNone, IfOk, IfSome, None, length, option_map};
ghost use Rattle.widl_graph.specs.Order.{IsOrder};
ghost use Rattle.widl_idl.specs.PlainTrees.{plain_definitions};
ghost use Rattle.widl_idl.specs.PlainTypes.{annotated_of, form_term};
ghost use Rattle.widl_names.specs.TypedefLinks.{HasNodes};
ghost use Rattle.widl_names.specs.TypeUses.{meaning_of_form, typedef_at, typedef_of_form};

use crate::meanings::{Meanings, kind_at};
use std::alloc::{AllocError, Global};
use widl_graph::{Graph, Walk};
use widl_idl::tree::{AnnotatedType, DefinitionKind, TypeForm};

/// The type of the definition with this number, if it is a typedef.
pub fn typedef_at<'a>(meanings: &Meanings<'_, 'a>, number: usize) -> Option<&'a AnnotatedType>
    ensures { option_map (λ ty. annotated_of ty.now) result ≡ typedef_at (plain_definitions meanings.now) number }
{
    match kind_at(meanings.all(), number) {
        Some(DefinitionKind::Typedef(typedef)) => Some(&typedef.ty),
        _ => None,
    }
}

/// The number of the definition that a form names, if it is a name with a meaning.
pub fn number_named(meanings: &Meanings<'_, '_>, form: &TypeForm) -> Option<usize>
    ensures below { IfSome result (λ number. number < length meanings.now) }
    ensures named { IfSome result (λ number. typedef_of_form (plain_definitions meanings.now) (form_term form.now) ≡ typedef_at (plain_definitions meanings.now) number) }
    ensures none { IfNone result (typedef_of_form (plain_definitions meanings.now) (form_term form.now) ≡ None) }
{
    meaning_of_form(meanings, form)
}

/// The same, under a clause that tells which number it is.
pub fn meaning_of_form(meanings: &Meanings<'_, '_>, form: &TypeForm) -> Option<usize>
    ensures { result ≡ meaning_of_form (plain_definitions meanings.now) (form_term form.now) }
{
    match form {
        TypeForm::Named(name) => meanings.number(name.text.as_str()),
        TypeForm::Any
        | TypeForm::Undefined
        | TypeForm::Boolean
        | TypeForm::Object
        | TypeForm::Symbol
        | TypeForm::BigInt
        | TypeForm::Integer(_)
        | TypeForm::Float(_)
        | TypeForm::Text(_)
        | TypeForm::Buffer(_)
        | TypeForm::Container(..)
        | TypeForm::Record(..)
        | TypeForm::Promise(_)
        | TypeForm::Union(_) => None,
    }
}

/// The numbers of all definitions, in an order in which the typedef that a typedef's type names stands
/// before it, where none of them comes back to itself. So what is gathered along a chain of typedefs takes
/// one step for each of them.
///
/// # Errors
///
/// `AllocError` where there is no memory.
pub fn typedef_order(alloc: Global, meanings: &Meanings<'_, '_>) -> Result<Vec<usize>, AllocError>
    ensures { IfOk result (λ order. IsOrder (length meanings.now) order.items) }
{
    let graph = whole_types(alloc, meanings)?;
    let walk = Walk::over(alloc, &graph)?;
    Ok(walk.order)
}

/// A node for each definition, with the one that its type names, if it is a typedef.
fn whole_types(alloc: Global, meanings: &Meanings<'_, '_>) -> Result<Graph, AllocError>
    ensures { IfOk result (λ graph. HasNodes graph (length meanings.now) (length meanings.now)) }
{
    let mut graph = Graph::new(alloc);
    for definition in meanings.all() {
        graph.add_node()?;
        if let Some(number) = number_led_to(meanings, &definition.kind) {
            graph.add_successor(number)?;
        }
    }
    Ok(graph)
}

/// The number of the definition that the type of a typedef names.
fn number_led_to(meanings: &Meanings<'_, '_>, definition: &DefinitionKind) -> Option<usize>
    ensures { IfSome result (λ number. number < length meanings.now) }
{
    match definition {
        DefinitionKind::Typedef(typedef) => number_named(meanings, &typedef.ty.ty.form),
        _ => None,
    }
}
