//! The first refusal by the rules that read a definition by itself, or a list of arguments in it.
//!
//! All of them are asked of one definition at a time, while it is at hand in the processor's cache.

ghost use Rattle.std.specs.Prelude.{◌≡◌, IfOk};
ghost use Rattle.widl_idl.specs.DefinitionTerms.{DefsTerm};
ghost use Rattle.widl_idl.specs.PlainTrees.{definition_of};
ghost use Rattle.widl_names.specs.Listings.{listed_definitions};
ghost use Rattle.widl_overload.specs.rules.OnDefinitions.{BreaksDefinition, definition_rules};
ghost use Rattle.widl_refusals.specs.Refusals.{IsFirst, IsFirstOver};

use crate::argument_rules::{
    first_after_ellipsis, first_argument_past_limit, first_repeated_argument,
    first_required_after_optional,
};
use crate::definition_rules::{
    first_annotation_of_no_type, first_misformed_operation, first_nameless_operation,
    first_repeated_value, other_than_one_operation,
};
use std::alloc::{AllocError, Global};
use widl_idl::Refusal;
use widl_idl::tree::Definition;
use widl_inheritance::arguments_in;
use widl_overload::ValidityRule;
use widl_refusals::{earlier_refusal, first};

/// The first refusal by these rules, in all these definitions.
///
/// # Errors
///
/// `AllocError` where there is no memory.
pub fn find_in_definitions(
    alloc: Global,
    definitions: &[&Definition],
) -> Result<Option<Refusal>, AllocError>
    ensures { IfOk result (λ found. (list : DefsTerm) → IsFirstOver list (listed_definitions definitions.now) definition_rules found) }
{
    let mut best = None;
    for definition in definitions {
        let found = find_in_definition(alloc, definition)?;
        best = earlier_refusal(best, found);
    }
    Ok(best)
}

/// The first refusal in one definition.
fn find_in_definition(alloc: Global, definition: &Definition) -> Result<Option<Refusal>, AllocError>
    ensures { IfOk result (λ found. IsFirst (λ which. BreaksDefinition which (definition_of definition.now)) definition_rules found) }
{
    let kind = &definition.kind;
    let listed = arguments_in(alloc, kind)?;
    let lists = listed.as_slice();
    let found = first_argument_past_limit(lists);
    let best = first(None, ValidityRule::TooManyArguments, found);
    let found = first_required_after_optional(lists);
    let best = first(best, ValidityRule::RequiredAfterOptional, found);
    let best = first(
        best,
        ValidityRule::ArgumentAfterEllipsis,
        first_after_ellipsis(lists),
    );
    let found = first_repeated_argument(alloc, lists)?;
    let best = first(best, ValidityRule::RepeatedArgumentName, found);
    let found = first_misformed_operation(kind);
    let best = first(best, ValidityRule::MisformedCallbackOperation, found);
    let best = first(
        best,
        ValidityRule::NamelessOperation,
        first_nameless_operation(kind),
    );
    let found = other_than_one_operation(kind);
    let best = first(best, ValidityRule::CallbackInterfaceOperations, found);
    let found = first_annotation_of_no_type(definition);
    let best = first(best, ValidityRule::AnnotationOfNoType, found);
    let found = first_repeated_value(alloc, kind)?;
    Ok(first(best, ValidityRule::RepeatedEnumerationValue, found))
}
