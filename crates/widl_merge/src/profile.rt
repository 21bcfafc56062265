//! The forms of Web IDL that the profile leaves unsupported.

ghost use Rattle.std.specs.Prelude.{◌≡◌, option_map};
ghost use Rattle.widl_idl.specs.Profile.{attributes_without_effect, annotation_names, is_among, is_listed, container_rule, form_rule, is_floating_point, unsupported_type, unsupported_literal, unsupported_attribute, unsupported_operation, unsupported_attribute_kind, unsupported_iterable, unsupported_member, unsupported_callback_member, unsupported_of, unsupported_at, LeavesOut, profile_number, profile_rules};
ghost use Rattle.widl_idl.specs.FirstRefusal.{FirstBroken};
ghost use Rattle.widl_idl.specs.PlainTypes.{attribute_of, value_of, literal_of, form_term, type_of, annotated_of};
ghost use Rattle.widl_idl.specs.PlainTrees.{member_kind_of};
ghost use Rattle.widl_merge.specs.Refusals.{join_form};
ghost use Rattle.widl_names.specs.Listings.{node_of, nodes_listed};

use widl_idl::tree::{
    AnnotatedType, AttributeKind, Container, ExtendedAttribute, Literal, LiteralValue, MemberKind,
    OperationKind, TypeForm, WrittenType,
};
use widl_idl::{ProfileRule, Refusal, Unsupported, Violation, joined};
use widl_names::Node;
use widl_text::Place;

/// The first refusal by a rule of the profile, or none where no form that the profile leaves unsupported is written.
pub fn first_unsupported(nodes: &[Node<'_>]) -> Option<Refusal>
    ensures { FirstBroken profile_number (LeavesOut (nodes_listed nodes.now)) profile_rules result }
{
    let mut best = None;
    for node in nodes {
        best = join_form(unsupported(*node), best);
    }
    best
}

/// The earlier of what was found before and of a form that the profile leaves unsupported.
fn join_form(form: Option<Unsupported>, best: Option<Refusal>) -> Option<Refusal>
    ensures { result ≡ join_form form best }
{
    match form {
        None => best,
        Some(form) => joined(form.rule.number(), Some(Violation::at(form.at)), best),
    }
}

/// The form of a node, where that the profile leaves unsupported.
fn unsupported(node: Node<'_>) -> Option<Unsupported>
    ensures { result ≡ unsupported_of (node_of node.entry) }
{
    match node {
        Node::Type(ty) => unsupported_type(ty),
        Node::Attribute(attribute) => unsupported_attribute(attribute),
        Node::Literal(literal) => unsupported_literal(literal),
        Node::Name(_) => None,
        Node::Member(kind) => unsupported_member(kind),
        Node::CallbackMember(kind) => unsupported_callback_member(kind),
    }
}

fn unsupported_at(rule: ProfileRule, at: Place) -> Option<Unsupported>
    ensures { result ≡ unsupported_at rule at }
{
    Some(Unsupported { rule, at })
}

fn unsupported_type(ty: &WrittenType) -> Option<Unsupported>
    ensures { result ≡ unsupported_type (type_of ty.now) }
{
    match form_rule(&ty.form) {
        None => None,
        Some(rule) => unsupported_at(rule, ty.at),
    }
}

fn form_rule(form: &TypeForm) -> Option<ProfileRule>
    ensures { result ≡ form_rule (form_term form.now) }
{
    match form {
        TypeForm::Float(_) => Some(ProfileRule::FloatingPoint),
        TypeForm::BigInt => Some(ProfileRule::BigInt),
        TypeForm::Buffer(_) => Some(ProfileRule::Buffer),
        TypeForm::Symbol => Some(ProfileRule::Symbol),
        TypeForm::Container(container, _) => container_rule(*container),
        TypeForm::Any
        | TypeForm::Undefined
        | TypeForm::Boolean
        | TypeForm::Object
        | TypeForm::Integer(_)
        | TypeForm::Text(_)
        | TypeForm::Named(_)
        | TypeForm::Record(_, _)
        | TypeForm::Promise(_)
        | TypeForm::Union(_) => None,
    }
}

fn container_rule(container: Container) -> Option<ProfileRule>
    ensures { result ≡ container_rule container }
{
    match container {
        Container::Sequence => None,
        Container::AsyncSequence => Some(ProfileRule::Asynchronous),
        Container::FrozenArray => Some(ProfileRule::FrozenArray),
        Container::ObservableArray => Some(ProfileRule::ObservableArray),
    }
}

fn unsupported_literal(literal: &Literal) -> Option<Unsupported>
    ensures { result ≡ unsupported_literal (literal_of literal.now) }
{
    if is_floating_point(&literal.value) {
        unsupported_at(ProfileRule::FloatingPoint, literal.at)
    } else {
        None
    }
}

fn is_floating_point(value: &LiteralValue) -> bool
    ensures { result ≡ is_floating_point (value_of value.now) }
{
    matches!(
        value,
        LiteralValue::Decimal(_)
            | LiteralValue::Infinity
            | LiteralValue::MinusInfinity
            | LiteralValue::NotANumber
    )
}

fn unsupported_attribute(attribute: &ExtendedAttribute) -> Option<Unsupported>
    ensures { result ≡ unsupported_attribute (attribute_of attribute.now) }
{
    if is_listed(attribute) {
        None
    } else {
        unsupported_at(ProfileRule::UnlistedAttribute, attribute.name.at)
    }
}

fn is_listed(attribute: &ExtendedAttribute) -> bool
    ensures { result ≡ is_listed (attribute_of attribute.now) }
{
    let name = attribute.name.text.as_str();
    if has_no_effect(name) {
        true
    } else if is_annotation(name) {
        attribute.arguments.len() == 0
    } else {
        false
    }
}

fn has_no_effect(name: &str) -> bool
    ensures { result ≡ is_among attributes_without_effect name.now }
{
    name == "Exposed"
        || name == "SecureContext"
        || name == "SameObject"
        || name == "NewObject"
        || name == "CEReactions"
        || name == "CrossOriginIsolated"
        || name == "Serializable"
        || name == "Transferable"
}

fn is_annotation(name: &str) -> bool
    ensures { result ≡ is_among annotation_names name.now }
{
    name == "Clamp" || name == "EnforceRange" || name == "LegacyNullToEmptyString"
}

fn unsupported_member(kind: &MemberKind) -> Option<Unsupported>
    ensures { result ≡ unsupported_member (member_kind_of kind.now) }
{
    match kind {
        MemberKind::Operation(operation) => unsupported_operation(operation.kind),
        MemberKind::Attribute(attribute) => unsupported_attribute_kind(attribute.kind),
        MemberKind::Iterable(iterable) => unsupported_iterable(iterable.at, &iterable.second),
        MemberKind::AsyncIterable(iterable) => unsupported_at(
            ProfileRule::Asynchronous,
            iterable.at,
        ),
        MemberKind::Maplike(maplike) => unsupported_at(ProfileRule::MapOrSet, maplike.at),
        MemberKind::Setlike(setlike) => unsupported_at(ProfileRule::MapOrSet, setlike.at),
        MemberKind::Constant(_) | MemberKind::Constructor(_) | MemberKind::Stringifier(_) => None,
    }
}

fn unsupported_operation(kind: OperationKind) -> Option<Unsupported>
    ensures { result ≡ unsupported_operation kind }
{
    match kind {
        OperationKind::Special(_, at) => unsupported_at(ProfileRule::SpecialOperation, at),
        OperationKind::Regular | OperationKind::Static => None,
    }
}

fn unsupported_attribute_kind(kind: AttributeKind) -> Option<Unsupported>
    ensures { result ≡ unsupported_attribute_kind kind }
{
    match kind {
        AttributeKind::Inherited(at) => unsupported_at(ProfileRule::InheritedAttribute, at),
        AttributeKind::Regular | AttributeKind::Static | AttributeKind::Stringifier(_) => None,
    }
}

fn unsupported_iterable(at: Place, second: &Option<AnnotatedType>) -> Option<Unsupported>
    ensures { result ≡ unsupported_iterable at (option_map annotated_of second.now) }
{
    match second {
        None => unsupported_at(ProfileRule::ValueIterable, at),
        Some(_) => None,
    }
}

fn unsupported_callback_member(kind: &MemberKind) -> Option<Unsupported>
    ensures { result ≡ unsupported_callback_member (member_kind_of kind.now) }
{
    match kind {
        MemberKind::Constant(constant) => {
            unsupported_at(ProfileRule::CallbackInterfaceConstant, constant.at)
        }
        _ => None,
    }
}
