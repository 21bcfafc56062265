//! The rules on names: which a definition or a member may have, and which a type may name.

ghost use Rattle.std.specs.Prelude.{◌≡◌, ℕ, List, take};
ghost use Rattle.widl_idl.specs.declared.merging_rule.MergingRule.TheVariants as rule;
ghost use Rattle.widl_idl.specs.First.{FirstWhere};
ghost use Rattle.widl_idl.specs.MergingRules.{BreaksMerging, IsReservedName, IsSecondDefinition, IsUnknownType, is_reserved, is_type_kind};
ghost use Rattle.widl_idl.specs.Nodes.{TypeNode};
ghost use Rattle.widl_idl.specs.PlainTrees.{definition_of, plain_definitions};
ghost use Rattle.widl_idl.specs.PlainTypes.{type_of};
ghost use Rattle.widl_names.specs.Listings.{node_of};
ghost use Rattle.widl_names.specs.Numbers.{is_below};

use widl_idl::tree::{Definition, TypeForm, WrittenType};
use widl_idl::{Kind, Violation, earlier_violation};
use widl_names::{Meanings, Node, main_name};

/// The first place of a name's second main definition.
pub fn first_second_definition(meanings: &Meanings<'_, '_>) -> Option<Violation>
    ensures { FirstWhere (BreaksMerging (plain_definitions meanings.now) rule.SecondDefinition) result }
{
    let mut best = None;
    let definitions = meanings.all();
    for (number, definition) in definitions.iter().enumerate() {
        let found = second_definition(meanings, number, definition);
        best = earlier_violation(best, found);
    }
    best
}

/// The place of a main definition's name that means a definition before this number.
fn second_definition(
    meanings: &Meanings<'_, '_>,
    number: usize,
    definition: &Definition,
) -> Option<Violation>
    ensures { FirstWhere (IsSecondDefinition (take number (plain_definitions meanings.now)) (definition_of definition.now)) result }
{
    match main_name(&definition.kind) {
        None => None,
        Some(name) => if is_below(number, meanings.number(name.text.as_str())) {
            Some(Violation::at(name.at))
        } else {
            None
        },
    }
}

/// Whether there is a number below `limit`.
fn is_below(limit: usize, number: Option<usize>) -> bool
    ensures { result ≡ is_below limit number }
{
    match number {
        None => false,
        Some(number) => number < limit,
    }
}

/// The place of a name that nothing may have.
pub fn reserved_name(node: Node<'_>) -> Option<Violation>
    ensures { FirstWhere (IsReservedName (node_of node.entry)) result }
{
    match node {
        Node::Name(name) => if is_reserved(name.text.as_str()) {
            Some(Violation::at(name.at))
        } else {
            None
        },
        Node::Type(_)
        | Node::Attribute(_)
        | Node::Literal(_)
        | Node::Member(_)
        | Node::CallbackMember(_) => None,
    }
}

/// Whether no definition or member may have this name.
fn is_reserved(text: &str) -> bool
    ensures { result ≡ is_reserved text.now }
{
    text == "constructor" || text == "toString" || text.starts_with('_')
}

/// The place of a name in a type that is the name of no type.
pub fn unknown_type(meanings: &Meanings<'_, '_>, node: Node<'_>) -> Option<Violation>
    ensures { FirstWhere (IsUnknownType (plain_definitions meanings.now) (node_of node.entry)) result }
{
    match node {
        Node::Type(ty) => unknown_name(meanings, ty),
        Node::Attribute(_)
        | Node::Literal(_)
        | Node::Name(_)
        | Node::Member(_)
        | Node::CallbackMember(_) => None,
    }
}

fn unknown_name(meanings: &Meanings<'_, '_>, ty: &WrittenType) -> Option<Violation>
    ensures { FirstWhere (IsUnknownType (plain_definitions meanings.now) (TypeNode (type_of ty.now))) result }
{
    match &ty.form {
        TypeForm::Named(name) => if is_type_kind(meanings.kind(name.text.as_str())) {
            None
        } else {
            Some(Violation::at(name.at))
        },
        TypeForm::Any
        | TypeForm::Undefined
        | TypeForm::Boolean
        | TypeForm::Object
        | TypeForm::Symbol
        | TypeForm::BigInt
        | TypeForm::Integer(_)
        | TypeForm::Float(_)
        | TypeForm::Text(_)
        | TypeForm::Buffer(_)
        | TypeForm::Container(_, _)
        | TypeForm::Record(_, _)
        | TypeForm::Promise(_)
        | TypeForm::Union(_) => None,
    }
}

/// Whether a name of this kind may stand in a type.
fn is_type_kind(kind: Option<Kind>) -> bool
    ensures { result ≡ is_type_kind kind }
{
    match kind {
        None | Some(Kind::Mixin) | Some(Kind::Namespace) => false,
        Some(_) => true,
    }
}
