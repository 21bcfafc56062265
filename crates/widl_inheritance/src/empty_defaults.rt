//! The rule on arguments of dictionary types: one that a call need not give has a default value (Web IDL,
//! "arguments").

ghost use Rattle.std.specs.Prelude.{◌≡◌, Bool, IfOk};
ghost use Rattle.widl_idl.specs.DefinitionTerms.{DefsTerm, defs_term};
ghost use Rattle.widl_idl.specs.First.{FirstWhere, Somewhere};
ghost use Rattle.widl_idl.specs.PlainTrees.{argument_kind_of, argument_of, arguments_of, plain_definitions};
ghost use Rattle.widl_idl.specs.PlainTypes.{form_term, type_of};
ghost use Rattle.widl_idl.specs.Terms.{type_term};
ghost use Rattle.widl_inheritance.specs.EmptyDefaults.{LacksHere, is_name_or_union, may_take_dictionary, needs_default, takes_no_member};
ghost use Rattle.widl_fits.specs.Fitting.{KnowsRequired};
ghost use Rattle.widl_fits.specs.Hierarchies.{IsHierarchy};
ghost use Rattle.widl_inheritance.specs.WrittenLists.{listed_arguments};
ghost use Rattle.widl_overload.specs.rules.ArgumentRules.{is_required};
ghost use Rattle.widl_overload.specs.rules.DefaultRules.{HasNoEmptyDefault, LacksEmptyDefault};
ghost use Rattle.widl_overload.specs.rules.Dictionaries.{dictionary_terms};

use crate::argument_lists::list_arguments;
use std::alloc::{AllocError, Global};
use widl_fits::{Tables, any_takes};
use widl_idl::tree::{Argument, ArgumentKind, TypeForm, WrittenType};
use widl_idl::{Defs, IdlType, Literal, Violation, earlier_violation};
use widl_names::{MOST_TYPES, Resolver, Scope};

/// The first place of the name of an argument that takes a dictionary without required members and has
/// no default value where it needs one: it is optional, or it is required though a call may leave out all
/// arguments that follow it.
///
/// # Errors
///
/// `AllocError` where there is no memory, also where typedefs make more types of one that is written than
/// [`MOST_TYPES`].
pub fn first_without_empty_default(
    alloc: Global,
    defs: &Defs,
    scope: &Scope<'_, '_>,
) -> Result<Option<Violation>, AllocError>
    requires { IsHierarchy (dictionary_terms defs.now) }
    ensures { IfOk result (λ found. FirstWhere (HasNoEmptyDefault (defs_term defs.now) (plain_definitions scope.now)) found) }
{
    let lists = list_arguments(alloc, scope.all(), false)?;
    let tables = Tables::of_dictionaries(alloc, defs)?;
    first_lacking(alloc, &tables, scope.resolver(), lists.as_slice())
}

/// The first place of such a name in these lists of arguments.
fn first_lacking<'a>(
    alloc: Global,
    tables: &Tables<'_>,
    resolver: &Resolver<'_, 'a>,
    lists: &[&'a [Argument]],
) -> Result<Option<Violation>, AllocError>
    ensures { IfOk result (λ found. (list : DefsTerm) → KnowsRequired list tables.now → FirstWhere (Somewhere (LacksEmptyDefault list (plain_definitions resolver.now)) (listed_arguments lists.now)) found) }
{
    let mut best = None;
    for list in lists {
        let found = lacking_in(alloc, tables, resolver, list)?;
        best = earlier_violation(best, found);
    }
    Ok(best)
}

/// The same in one list.
fn lacking_in<'a>(
    alloc: Global,
    tables: &Tables<'_>,
    resolver: &Resolver<'_, 'a>,
    arguments: &'a [Argument],
) -> Result<Option<Violation>, AllocError>
    ensures { IfOk result (λ found. (list : DefsTerm) → KnowsRequired list tables.now → FirstWhere (LacksEmptyDefault list (plain_definitions resolver.now) (arguments_of arguments.now)) found) }
{
    let mut best = None;
    // Whether a call may leave out all arguments that follow.
    let mut absent = true;
    for index in (0..arguments.len()).rev() {
        let argument = &arguments[index];
        let found = lacking(alloc, tables, resolver, absent, argument)?;
        best = earlier_violation(best, found);
        absent &= !is_required(&argument.kind);
    }
    Ok(best)
}

/// The place of an argument's name, if it takes such a dictionary and needs a default value. Most
/// arguments are of types that take none as they are written, and resolving a type is slow.
fn lacking<'a>(
    alloc: Global,
    tables: &Tables<'_>,
    resolver: &Resolver<'_, 'a>,
    absent: bool,
    argument: &'a Argument,
) -> Result<Option<Violation>, AllocError>
    ensures { IfOk result (λ found. (list : DefsTerm) → KnowsRequired list tables.now → FirstWhere (LacksHere list (plain_definitions resolver.now) absent (argument_of argument.now)) found) }
{
    if !needs_default(absent, &argument.kind) {
        return Ok(None);
    }
    if !may_take_dictionary(&argument.ty.ty) {
        return Ok(None);
    }
    let mut room = MOST_TYPES;
    let ty = resolver.resolve_with(
        alloc,
        &mut room,
        argument.attributes.as_slice(),
        &argument.ty,
    )?;
    if takes_no_member(tables, &ty) {
        Ok(Some(Violation::at(argument.name.at)))
    } else {
        Ok(None)
    }
}

/// Whether an argument has no default value where one of a dictionary type needs it. `absent` tells whether
/// a call may leave out all that follow.
fn needs_default(absent: bool, kind: &ArgumentKind) -> bool
    ensures { result ≡ needs_default absent (argument_kind_of kind.now) }
{
    match kind {
        ArgumentKind::Required => absent,
        ArgumentKind::Optional(None) => true,
        ArgumentKind::Optional(Some(_)) | ArgumentKind::Variadic(_) => false,
    }
}

fn is_required(kind: &ArgumentKind) -> bool
    ensures { result ≡ is_required (argument_kind_of kind.now) }
{
    match kind {
        ArgumentKind::Required => true,
        ArgumentKind::Optional(_) | ArgumentKind::Variadic(_) => false,
    }
}

/// Whether a type may be a dictionary, or a union with one, by the way in which it is written: as a name
/// or as a union, without a `?`.
fn may_take_dictionary(ty: &WrittenType) -> bool
    ensures { result ≡ may_take_dictionary (type_of ty.now) }
{
    match ty.question {
        None => is_name_or_union(&ty.form),
        Some(_) => false,
    }
}

fn is_name_or_union(form: &TypeForm) -> bool
    ensures { result ≡ is_name_or_union (form_term form.now) }
{
    match form {
        TypeForm::Named(_) | TypeForm::Union(_) => true,
        TypeForm::Any
        | TypeForm::Undefined
        | TypeForm::Boolean
        | TypeForm::Object
        | TypeForm::Symbol
        | TypeForm::BigInt
        | TypeForm::Integer(_)
        | TypeForm::Float(_)
        | TypeForm::Text(_)
        | TypeForm::Buffer(_)
        | TypeForm::Container(_, _)
        | TypeForm::Record(_, _)
        | TypeForm::Promise(_) => false,
    }
}

/// Whether a type is a dictionary without required members, or a union with one among its flattened
/// members: then the empty dictionary is a value of it.
fn takes_no_member(tables: &Tables<'_>, t: &IdlType) -> bool
    ensures { result ≡ takes_no_member tables.now (type_term t.now) }
{
    match t {
        IdlType::Nullable(_) => false,
        _ => any_takes(tables, &Literal::EmptyDict, t),
    }
}
