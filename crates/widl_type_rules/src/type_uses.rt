//! Lists the types that are written in a definition, each with what it is the type of.

ghost use Rattle.std.specs.Prelude.{◌≡◌, ◌++◌, List, [], ◌∷◌, map, flat_map, option_map, IfOk, OnOk};
ghost use Rattle.widl_idl.specs.PlainTypes.{attribute_of, form_term, type_of, annotated_of, union_of};
ghost use Rattle.widl_idl.specs.PlainTrees.{argument_of, arguments_of, member_kind_of, member_of, members_of, dictionary_member_of, definition_kind_of};
ghost use Rattle.widl_overload.specs.rules.TypeUses.{uses_in_form, uses_of_plain, uses_of_annotated, uses_of_union, uses_of_optional, uses_of_argument, uses_of_arguments, uses_of_optional_arguments, uses_of_member_kind, uses_of_member, uses_of_dictionary_member, uses_in_definition};
ghost use Rattle.widl_overload.specs.declared.type_role.TypeRole.TheVariants as role;
ghost use Rattle.widl_type_rules.specs.UsesListed.{Adds, use_of};

use std::alloc::{AllocError, Global};
use widl_idl::tree::{
    AnnotatedType, Argument, Arguments, DefinitionKind, DictionaryMember, ExtendedAttribute,
    Member, MemberKind, TypeForm, WrittenType,
};
use widl_overload::TypeRole;
use widl_text::Place;

/// A type as it is written, with what it is the type of.
#[derive(Clone, Copy)]
pub struct TypeUse<'a> {
    /// What it is the type of.
    pub role: TypeRole,
    /// The extended attributes of the node that it is the type of, which belong to the type.
    pub outer: &'a [ExtendedAttribute],
    /// The extended attributes before the type itself.
    pub own: &'a [ExtendedAttribute],
    /// Where its first token stands, with its own extended attributes.
    pub first: Place,
    /// The type.
    pub ty: &'a WrittenType,
}

/// All types that are written in a definition.
///
/// # Errors
///
/// `AllocError` where there is no memory.
pub fn list_type_uses<'a>(
    alloc: Global,
    kind: &'a DefinitionKind,
) -> Result<Vec<TypeUse<'a>>, AllocError>
    ensures { IfOk result (λ list. map use_of list.items ≡ uses_in_definition (definition_kind_of kind.now)) }
{
    let mut uses = Vec::new(alloc);
    list_inside(&mut uses, kind)?;
    Ok(uses)
}

/// Adds one type.
fn add_use<'a>(uses: &mut Vec<TypeUse<'a>>, added: TypeUse<'a>) -> Result<(), AllocError>
    ensures { OnOk result (Adds uses.old.items uses.new.items (use_of added.entry ∷ [])) }
{
    uses.push(added)?;
    Ok(())
}

/// Adds a type without extended attributes, and those inside it.
#[cycle(list)]
fn list_plain<'a>(
    uses: &mut Vec<TypeUse<'a>>,
    role: TypeRole,
    ty: &'a WrittenType,
) -> Result<(), AllocError>
    ensures { OnOk result (Adds uses.old.items uses.new.items (uses_of_plain role (type_of ty.now))) }
{
    let written = TypeUse {
        role,
        outer: &[],
        own: &[],
        first: ty.at,
        ty,
    };
    add_use(uses, written)?;
    list_form(uses, &ty.form)
}

/// Adds a type after these extended attributes of the node that it is the type of and its own, and
/// those inside it.
#[cycle(list)]
fn list_annotated<'a>(
    uses: &mut Vec<TypeUse<'a>>,
    role: TypeRole,
    outer: &'a [ExtendedAttribute],
    ty: &'a AnnotatedType,
) -> Result<(), AllocError>
    ensures { OnOk result (Adds uses.old.items uses.new.items (uses_of_annotated role (map attribute_of outer.now) (annotated_of ty.now))) }
{
    let written = TypeUse {
        role,
        outer,
        own: ty.attributes.as_slice(),
        first: ty.at,
        ty: &ty.ty,
    };
    add_use(uses, written)?;
    list_form(uses, &ty.ty.form)
}

/// Adds the types inside a type.
#[cycle(list)]
fn list_form<'a>(uses: &mut Vec<TypeUse<'a>>, form: &'a TypeForm) -> Result<(), AllocError>
    ensures { OnOk result (Adds uses.old.items uses.new.items (uses_in_form (form_term form.now))) }
{
    match form {
        TypeForm::Container(_, inner) => list_annotated(uses, TypeRole::Inner, &[], inner),
        TypeForm::Record(_, inner) => list_annotated(uses, TypeRole::Inner, &[], inner),
        TypeForm::Promise(inner) => list_plain(uses, TypeRole::Promised, inner),
        TypeForm::Union(members) => list_union(uses, members.as_slice()),
        _ => Ok(()),
    }
}

/// Adds the member types of a union, and those inside them.
#[cycle(list)]
fn list_union<'a>(
    uses: &mut Vec<TypeUse<'a>>,
    members: &'a [AnnotatedType],
) -> Result<(), AllocError>
    ensures { OnOk result (Adds uses.old.items uses.new.items (uses_of_union (union_of members.now))) }
{
    for member in members {
        list_annotated(uses, TypeRole::UnionMember, &[], member)?;
    }
    Ok(())
}

/// Adds a type that no extended attributes of another node belong to.
fn list_inner<'a>(uses: &mut Vec<TypeUse<'a>>, ty: &'a AnnotatedType) -> Result<(), AllocError>
    ensures { OnOk result (Adds uses.old.items uses.new.items (uses_of_annotated role.Inner [] (annotated_of ty.now))) }
{
    list_annotated(uses, TypeRole::Inner, &[], ty)
}

/// Adds such a type, if there is one.
fn list_optional<'a>(
    uses: &mut Vec<TypeUse<'a>>,
    ty: &'a Option<AnnotatedType>,
) -> Result<(), AllocError>
    ensures { OnOk result (Adds uses.old.items uses.new.items (uses_of_optional (option_map annotated_of ty.now))) }
{
    match ty {
        None => Ok(()),
        Some(ty) => list_inner(uses, ty),
    }
}

/// Adds the types of an argument.
fn list_argument<'a>(uses: &mut Vec<TypeUse<'a>>, argument: &'a Argument) -> Result<(), AllocError>
    ensures { OnOk result (Adds uses.old.items uses.new.items (uses_of_argument (argument_of argument.now))) }
{
    let attributes = argument.attributes.as_slice();
    list_annotated(uses, TypeRole::Argument, attributes, &argument.ty)
}

/// Adds the types of arguments.
fn list_arguments<'a>(
    uses: &mut Vec<TypeUse<'a>>,
    arguments: &'a [Argument],
) -> Result<(), AllocError>
    ensures { OnOk result (Adds uses.old.items uses.new.items (uses_of_arguments (arguments_of arguments.now))) }
{
    for argument in arguments {
        list_argument(uses, argument)?;
    }
    Ok(())
}

/// Adds the types of arguments, if there are parentheses for them.
fn list_optional_arguments<'a>(
    uses: &mut Vec<TypeUse<'a>>,
    arguments: &'a Option<Arguments>,
) -> Result<(), AllocError>
    ensures { OnOk result (Adds uses.old.items uses.new.items (uses_of_optional_arguments (option_map arguments_of arguments.now))) }
{
    match arguments {
        None => Ok(()),
        Some(arguments) => list_arguments(uses, arguments.as_slice()),
    }
}

/// Adds the types of a member that has these extended attributes.
fn list_member_kind<'a>(
    uses: &mut Vec<TypeUse<'a>>,
    attributes: &'a [ExtendedAttribute],
    kind: &'a MemberKind,
) -> Result<(), AllocError>
    ensures { OnOk result (Adds uses.old.items uses.new.items (uses_of_member_kind (map attribute_of attributes.now) (member_kind_of kind.now))) }
{
    match kind {
        MemberKind::Constant(constant) => list_plain(uses, TypeRole::Constant, &constant.ty),
        MemberKind::Attribute(attribute) => {
            list_annotated(uses, TypeRole::Attribute, attributes, &attribute.ty)
        }
        MemberKind::Operation(operation) => {
            list_plain(uses, TypeRole::Returned, &operation.result)?;
            list_arguments(uses, operation.arguments.as_slice())
        }
        MemberKind::Constructor(constructor) => {
            list_arguments(uses, constructor.arguments.as_slice())
        }
        MemberKind::Stringifier(_) => Ok(()),
        MemberKind::Iterable(iterable) => {
            list_inner(uses, &iterable.first)?;
            list_optional(uses, &iterable.second)
        }
        MemberKind::AsyncIterable(iterable) => {
            list_inner(uses, &iterable.first)?;
            list_optional(uses, &iterable.second)?;
            list_optional_arguments(uses, &iterable.arguments)
        }
        MemberKind::Maplike(maplike) => {
            list_inner(uses, &maplike.key)?;
            list_inner(uses, &maplike.value)
        }
        MemberKind::Setlike(setlike) => list_inner(uses, &setlike.value),
    }
}

/// Adds the types of a member of an interface, a callback interface, a mixin or a namespace.
fn list_member<'a>(uses: &mut Vec<TypeUse<'a>>, member: &'a Member) -> Result<(), AllocError>
    ensures { OnOk result (Adds uses.old.items uses.new.items (uses_of_member (member_of member.now))) }
{
    list_member_kind(uses, member.attributes.as_slice(), &member.kind)
}

/// Adds the types of such members.
fn list_members<'a>(uses: &mut Vec<TypeUse<'a>>, members: &'a [Member]) -> Result<(), AllocError>
    ensures { OnOk result (Adds uses.old.items uses.new.items (flat_map uses_of_member (members_of members.now))) }
{
    for member in members {
        list_member(uses, member)?;
    }
    Ok(())
}

/// Adds the types of a member of a dictionary.
fn list_dictionary_member<'a>(
    uses: &mut Vec<TypeUse<'a>>,
    member: &'a DictionaryMember,
) -> Result<(), AllocError>
    ensures { OnOk result (Adds uses.old.items uses.new.items (uses_of_dictionary_member (dictionary_member_of member.now))) }
{
    let attributes = member.attributes.as_slice();
    list_annotated(uses, TypeRole::DictionaryMember, attributes, &member.ty)
}

/// Adds the types of the members of a dictionary.
fn list_dictionary_members<'a>(
    uses: &mut Vec<TypeUse<'a>>,
    members: &'a [DictionaryMember],
) -> Result<(), AllocError>
    ensures { OnOk result (Adds uses.old.items uses.new.items (flat_map uses_of_dictionary_member (map dictionary_member_of members.now))) }
{
    for member in members {
        list_dictionary_member(uses, member)?;
    }
    Ok(())
}

/// Adds the types in a definition.
fn list_inside<'a>(uses: &mut Vec<TypeUse<'a>>, kind: &'a DefinitionKind) -> Result<(), AllocError>
    ensures { OnOk result (Adds uses.old.items uses.new.items (uses_in_definition (definition_kind_of kind.now))) }
{
    match kind {
        DefinitionKind::Callback(callback) => {
            list_plain(uses, TypeRole::Returned, &callback.result)?;
            list_arguments(uses, callback.arguments.as_slice())
        }
        DefinitionKind::CallbackInterface(callback) => {
            list_members(uses, callback.members.as_slice())
        }
        DefinitionKind::Interface(interface) => list_members(uses, interface.members.as_slice()),
        DefinitionKind::Mixin(mixin) => list_members(uses, mixin.members.as_slice()),
        DefinitionKind::Namespace(namespace) => list_members(uses, namespace.members.as_slice()),
        DefinitionKind::Dictionary(dictionary) => {
            list_dictionary_members(uses, dictionary.members.as_slice())
        }
        DefinitionKind::Enumeration(_) | DefinitionKind::Includes(_) => Ok(()),
        DefinitionKind::Typedef(typedef) => list_inner(uses, &typedef.ty),
    }
}
