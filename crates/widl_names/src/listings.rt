//! Lists what is written in a set of files.

ghost use Rattle.std.specs.Prelude.{◌≡◌, ◌++◌, List, [], ◌∷◌, map, flat_map, option_map, IfOk, OnOk};
ghost use Rattle.widl_idl.specs.Nodes.{nodes_of, nodes_of_attributes, nodes_of_form, nodes_of_type, nodes_of_annotated, nodes_of_union, nodes_of_default, nodes_of_argument_kind, nodes_of_argument, nodes_of_arguments, nodes_of_optional_arguments, nodes_of_optional_name, nodes_of_optional_type, nodes_of_member_kind, nodes_of_member, nodes_of_callback_member, nodes_of_dictionary_member, nodes_inside, nodes_of_definition};
ghost use Rattle.widl_idl.specs.Meanings.{declared_name};
ghost use Rattle.widl_idl.specs.PlainTypes.{name_of, attribute_of, written_default, form_term, type_of, annotated_of, union_of};
ghost use Rattle.widl_idl.specs.PlainTrees.{argument_kind_of, argument_of, arguments_of, member_kind_of, member_of, members_of, dictionary_member_of, definition_kind_of, definition_of};
ghost use Rattle.widl_names.specs.Listings.{Adds, node_of, nodes_listed, listed_definitions};

use crate::names::name_declared;
use crate::nodes::Node;
use std::alloc::{AllocError, Global};
use widl_idl::tree::{
    AnnotatedType, Argument, ArgumentKind, Arguments, Definition, DefinitionKind, DictionaryMember,
    ExtendedAttribute, Literal, Member, MemberKind, Name, TypeForm, WrittenType,
};

/// Adds a node.
fn list_node<'a>(nodes: &mut Vec<Node<'a>>, node: Node<'a>) -> Result<(), AllocError>
    ensures { OnOk result (Adds nodes.old.items nodes.new.items (node_of node.entry ∷ [])) }
{
    nodes.push(node)?;
    Ok(())
}

/// Adds extended attributes.
fn list_attributes<'a>(
    nodes: &mut Vec<Node<'a>>,
    attributes: &'a [ExtendedAttribute],
) -> Result<(), AllocError>
    ensures { OnOk result (Adds nodes.old.items nodes.new.items (nodes_of_attributes (map attribute_of attributes.now))) }
{
    for attribute in attributes {
        list_node(nodes, Node::Attribute(attribute))?;
    }
    Ok(())
}

/// Adds a type and what stands inside it.
#[cycle(list)]
fn list_type<'a>(nodes: &mut Vec<Node<'a>>, ty: &'a WrittenType) -> Result<(), AllocError>
    ensures { OnOk result (Adds nodes.old.items nodes.new.items (nodes_of_type (type_of ty.now))) }
{
    list_node(nodes, Node::Type(ty))?;
    list_form(nodes, &ty.form)
}

/// Adds what stands inside a type.
#[cycle(list)]
fn list_form<'a>(nodes: &mut Vec<Node<'a>>, form: &'a TypeForm) -> Result<(), AllocError>
    ensures { OnOk result (Adds nodes.old.items nodes.new.items (nodes_of_form (form_term form.now))) }
{
    match form {
        TypeForm::Container(_, inner) => list_annotated(nodes, inner),
        TypeForm::Record(_, inner) => list_annotated(nodes, inner),
        TypeForm::Promise(inner) => list_type(nodes, inner),
        TypeForm::Union(members) => list_union(nodes, members.as_slice()),
        _ => Ok(()),
    }
}

/// Adds a type with the extended attributes before it.
#[cycle(list)]
fn list_annotated<'a>(nodes: &mut Vec<Node<'a>>, ty: &'a AnnotatedType) -> Result<(), AllocError>
    ensures { OnOk result (Adds nodes.old.items nodes.new.items (nodes_of_annotated (annotated_of ty.now))) }
{
    list_attributes(nodes, ty.attributes.as_slice())?;
    list_type(nodes, &ty.ty)
}

/// Adds the members of a union.
#[cycle(list)]
fn list_union<'a>(nodes: &mut Vec<Node<'a>>, members: &'a [AnnotatedType]) -> Result<(), AllocError>
    ensures { OnOk result (Adds nodes.old.items nodes.new.items (nodes_of_union (union_of members.now))) }
{
    for member in members {
        list_annotated(nodes, member)?;
    }
    Ok(())
}

/// Adds a default value, if there is one.
fn list_default<'a>(
    nodes: &mut Vec<Node<'a>>,
    default: &'a Option<Box<Literal>>,
) -> Result<(), AllocError>
    ensures { OnOk result (Adds nodes.old.items nodes.new.items (nodes_of_default (written_default default.now))) }
{
    match default {
        None => Ok(()),
        Some(literal) => list_node(nodes, Node::Literal(literal)),
    }
}

/// Adds the default value of an argument, if it has one.
fn list_argument_kind<'a>(
    nodes: &mut Vec<Node<'a>>,
    kind: &'a ArgumentKind,
) -> Result<(), AllocError>
    ensures { OnOk result (Adds nodes.old.items nodes.new.items (nodes_of_argument_kind (argument_kind_of kind.now))) }
{
    match kind {
        ArgumentKind::Optional(default) => list_default(nodes, default),
        ArgumentKind::Required | ArgumentKind::Variadic(_) => Ok(()),
    }
}

/// Adds an argument.
fn list_argument<'a>(nodes: &mut Vec<Node<'a>>, argument: &'a Argument) -> Result<(), AllocError>
    ensures { OnOk result (Adds nodes.old.items nodes.new.items (nodes_of_argument (argument_of argument.now))) }
{
    list_attributes(nodes, argument.attributes.as_slice())?;
    list_annotated(nodes, &argument.ty)?;
    list_argument_kind(nodes, &argument.kind)
}

/// Adds arguments.
fn list_arguments<'a>(
    nodes: &mut Vec<Node<'a>>,
    arguments: &'a [Argument],
) -> Result<(), AllocError>
    ensures { OnOk result (Adds nodes.old.items nodes.new.items (nodes_of_arguments (arguments_of arguments.now))) }
{
    for argument in arguments {
        list_argument(nodes, argument)?;
    }
    Ok(())
}

/// Adds arguments, if there are parentheses for them.
fn list_optional_arguments<'a>(
    nodes: &mut Vec<Node<'a>>,
    arguments: &'a Option<Arguments>,
) -> Result<(), AllocError>
    ensures { OnOk result (Adds nodes.old.items nodes.new.items (nodes_of_optional_arguments (option_map arguments_of arguments.now))) }
{
    match arguments {
        None => Ok(()),
        Some(arguments) => list_arguments(nodes, arguments.as_slice()),
    }
}

/// Adds a name, if there is one.
fn list_optional_name<'a>(
    nodes: &mut Vec<Node<'a>>,
    name: &'a Option<Name>,
) -> Result<(), AllocError>
    ensures { OnOk result (Adds nodes.old.items nodes.new.items (nodes_of_optional_name (option_map name_of name.now))) }
{
    match name {
        None => Ok(()),
        Some(name) => list_node(nodes, Node::Name(name)),
    }
}

/// Adds a type, if there is one.
fn list_optional_type<'a>(
    nodes: &mut Vec<Node<'a>>,
    ty: &'a Option<AnnotatedType>,
) -> Result<(), AllocError>
    ensures { OnOk result (Adds nodes.old.items nodes.new.items (nodes_of_optional_type (option_map annotated_of ty.now))) }
{
    match ty {
        None => Ok(()),
        Some(ty) => list_annotated(nodes, ty),
    }
}

/// Adds the parts of a member.
fn list_member_kind<'a>(nodes: &mut Vec<Node<'a>>, kind: &'a MemberKind) -> Result<(), AllocError>
    ensures { OnOk result (Adds nodes.old.items nodes.new.items (nodes_of_member_kind (member_kind_of kind.now))) }
{
    match kind {
        MemberKind::Constant(constant) => {
            list_node(nodes, Node::Name(&constant.name))?;
            list_node(nodes, Node::Literal(&constant.value))?;
            list_type(nodes, &constant.ty)
        }
        MemberKind::Attribute(attribute) => {
            list_node(nodes, Node::Name(&attribute.name))?;
            list_annotated(nodes, &attribute.ty)
        }
        MemberKind::Operation(operation) => {
            list_optional_name(nodes, &operation.name)?;
            list_type(nodes, &operation.result)?;
            list_arguments(nodes, operation.arguments.as_slice())
        }
        MemberKind::Constructor(constructor) => {
            list_arguments(nodes, constructor.arguments.as_slice())
        }
        MemberKind::Stringifier(_) => Ok(()),
        MemberKind::Iterable(iterable) => {
            list_annotated(nodes, &iterable.first)?;
            list_optional_type(nodes, &iterable.second)
        }
        MemberKind::AsyncIterable(iterable) => {
            list_annotated(nodes, &iterable.first)?;
            list_optional_type(nodes, &iterable.second)?;
            list_optional_arguments(nodes, &iterable.arguments)
        }
        MemberKind::Maplike(maplike) => {
            list_annotated(nodes, &maplike.key)?;
            list_annotated(nodes, &maplike.value)
        }
        MemberKind::Setlike(setlike) => list_annotated(nodes, &setlike.value),
    }
}

/// Adds a member of an interface, a mixin or a namespace.
fn list_member<'a>(nodes: &mut Vec<Node<'a>>, member: &'a Member) -> Result<(), AllocError>
    ensures { OnOk result (Adds nodes.old.items nodes.new.items (nodes_of_member (member_of member.now))) }
{
    list_node(nodes, Node::Member(&member.kind))?;
    list_attributes(nodes, member.attributes.as_slice())?;
    list_member_kind(nodes, &member.kind)
}

/// Adds a member of a callback interface.
fn list_callback_member<'a>(nodes: &mut Vec<Node<'a>>, member: &'a Member) -> Result<(), AllocError>
    ensures { OnOk result (Adds nodes.old.items nodes.new.items (nodes_of_callback_member (member_of member.now))) }
{
    list_node(nodes, Node::CallbackMember(&member.kind))?;
    list_attributes(nodes, member.attributes.as_slice())?;
    list_member_kind(nodes, &member.kind)
}

/// Adds a member of a dictionary.
fn list_dictionary_member<'a>(
    nodes: &mut Vec<Node<'a>>,
    member: &'a DictionaryMember,
) -> Result<(), AllocError>
    ensures { OnOk result (Adds nodes.old.items nodes.new.items (nodes_of_dictionary_member (dictionary_member_of member.now))) }
{
    list_node(nodes, Node::Name(&member.name))?;
    list_attributes(nodes, member.attributes.as_slice())?;
    list_annotated(nodes, &member.ty)?;
    list_default(nodes, &member.default)
}

/// Adds the members of an interface, a mixin or a namespace.
fn list_members<'a>(nodes: &mut Vec<Node<'a>>, members: &'a [Member]) -> Result<(), AllocError>
    ensures { OnOk result (Adds nodes.old.items nodes.new.items (flat_map nodes_of_member (members_of members.now))) }
{
    for member in members {
        list_member(nodes, member)?;
    }
    Ok(())
}

/// Adds the members of a callback interface.
fn list_callback_members<'a>(
    nodes: &mut Vec<Node<'a>>,
    members: &'a [Member],
) -> Result<(), AllocError>
    ensures { OnOk result (Adds nodes.old.items nodes.new.items (flat_map nodes_of_callback_member (members_of members.now))) }
{
    for member in members {
        list_callback_member(nodes, member)?;
    }
    Ok(())
}

/// Adds the members of a dictionary.
fn list_dictionary_members<'a>(
    nodes: &mut Vec<Node<'a>>,
    members: &'a [DictionaryMember],
) -> Result<(), AllocError>
    ensures { OnOk result (Adds nodes.old.items nodes.new.items (flat_map nodes_of_dictionary_member (map dictionary_member_of members.now))) }
{
    for member in members {
        list_dictionary_member(nodes, member)?;
    }
    Ok(())
}

/// Adds what stands in a definition after its name.
fn list_inside<'a>(nodes: &mut Vec<Node<'a>>, kind: &'a DefinitionKind) -> Result<(), AllocError>
    ensures { OnOk result (Adds nodes.old.items nodes.new.items (nodes_inside (definition_kind_of kind.now))) }
{
    match kind {
        DefinitionKind::Callback(callback) => {
            list_type(nodes, &callback.result)?;
            list_arguments(nodes, callback.arguments.as_slice())
        }
        DefinitionKind::CallbackInterface(callback) => {
            list_callback_members(nodes, callback.members.as_slice())
        }
        DefinitionKind::Interface(interface) => list_members(nodes, interface.members.as_slice()),
        DefinitionKind::Mixin(mixin) => list_members(nodes, mixin.members.as_slice()),
        DefinitionKind::Namespace(namespace) => list_members(nodes, namespace.members.as_slice()),
        DefinitionKind::Dictionary(dictionary) => {
            list_dictionary_members(nodes, dictionary.members.as_slice())
        }
        DefinitionKind::Enumeration(_) | DefinitionKind::Includes(_) => Ok(()),
        DefinitionKind::Typedef(typedef) => list_annotated(nodes, &typedef.ty),
    }
}

/// Adds the name of a definition, if it has one.
fn list_declared_name<'a>(
    nodes: &mut Vec<Node<'a>>,
    kind: &'a DefinitionKind,
) -> Result<(), AllocError>
    ensures { OnOk result (Adds nodes.old.items nodes.new.items (nodes_of_optional_name (declared_name (definition_kind_of kind.now)))) }
{
    match name_declared(kind) {
        None => Ok(()),
        Some(name) => list_node(nodes, Node::Name(name)),
    }
}

/// Adds a definition.
fn list_definition<'a>(
    nodes: &mut Vec<Node<'a>>,
    definition: &'a Definition,
) -> Result<(), AllocError>
    ensures { OnOk result (Adds nodes.old.items nodes.new.items (nodes_of_definition (definition_of definition.now))) }
{
    list_attributes(nodes, definition.attributes.as_slice())?;
    list_declared_name(nodes, &definition.kind)?;
    list_inside(nodes, &definition.kind)
}

/// Everything that is written in these definitions.
pub fn list_nodes<'a>(
    alloc: Global,
    definitions: &[&'a Definition],
) -> Result<Vec<Node<'a>>, AllocError>
    ensures { IfOk result (λ nodes. nodes_listed nodes.items ≡ nodes_of (listed_definitions definitions.now)) }
{
    let mut nodes = Vec::new(alloc);
    for definition in definitions {
        list_definition(&mut nodes, definition)?;
    }
    Ok(nodes)
}
