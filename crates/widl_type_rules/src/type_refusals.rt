//! The first refusal by the rules on types, of all types that are written in a set of files.
//!
//! The types of one definition are listed at a time, and all rules are asked of one type at a time, while it is at
//! hand in the processor's cache.

ghost use Rattle.std.specs.Prelude.{◌≡◌, IfOk};
ghost use Rattle.widl_graph.specs.Reaching.{IsForest};
ghost use Rattle.widl_idl.specs.DefinitionTerms.{defs_term};
ghost use Rattle.widl_fits.specs.Hierarchies.{interface_parents};
ghost use Rattle.widl_idl.specs.PlainTrees.{definition_kind_of, plain_definitions};
ghost use Rattle.widl_overload.specs.rules.TypeUses.{uses_in_definition};
ghost use Rattle.widl_type_rules.specs.Lineages.{TellRelated};
ghost use Rattle.widl_refusals.specs.Refusals.{IsFirst, IsFirstOver};
ghost use Rattle.widl_overload.specs.rules.OnTypes.{BreaksType, BreaksUse, SomeBreaks, type_rules};
ghost use Rattle.widl_type_rules.specs.UsesListed.{resolved_use, use_of};

use crate::annotation_rules::{annotated_member, misplaced_annotation};
use crate::clamp_rules::clamp_and_enforce;
use crate::lineages::Lineages;
use crate::nullable_rules::{
    nullable_beside_dictionary, nullable_dictionary, several_nullable, wrongly_nullable,
};
use crate::resolved_uses::{ResolvedUse, is_settled, resolve_use};
use crate::role_rules::{copied_attribute, other_constant_type, undefined_inside};
use crate::type_uses::{TypeUse, list_type_uses};
use crate::unasked_uses::{find_unasked, is_unasked};
use crate::union_rules::indistinguishable_union;
use std::alloc::{AllocError, Global};
use widl_idl::tree::DefinitionKind;
use widl_idl::{Defs, Refusal};
use widl_names::{Resolver, Scope};
use widl_overload::ValidityRule;
use widl_refusals::{earlier_refusal, first};

/// The first refusal by the rules on types, in all definitions.
///
/// # Errors
///
/// `AllocError` where there is no memory, and the errors of [`Resolver::outline`].
pub fn find_in_types(
    alloc: Global,
    defs: &Defs,
    scope: &Scope<'_, '_>,
) -> Result<Option<Refusal>, AllocError>
    requires { IsForest (interface_parents (defs_term defs.now).ifaces) }
    ensures { IfOk result (λ found. IsFirstOver (defs_term defs.now) (plain_definitions scope.now) type_rules found) }
{
    let lineages = Lineages::of(alloc, defs)?;
    let mut best = None;
    let definitions = scope.all();
    for definition in definitions {
        let found = find_in_definition(alloc, defs, &lineages, scope, &definition.kind)?;
        best = earlier_refusal(best, found);
    }
    Ok(best)
}

/// The first refusal in one definition.
fn find_in_definition<'a>(
    alloc: Global,
    defs: &Defs,
    lineages: &Lineages,
    scope: &Scope<'_, 'a>,
    kind: &'a DefinitionKind,
) -> Result<Option<Refusal>, AllocError>
    requires { TellRelated (defs_term defs.now).ifaces lineages.now.spans.items }
    ensures { IfOk result (λ found. IsFirst (SomeBreaks (defs_term defs.now).ifaces (plain_definitions scope.now) (uses_in_definition (definition_kind_of kind.now))) type_rules found) }
{
    let uses = list_type_uses(alloc, kind)?;
    let mut best = None;
    for written in uses.iter() {
        let found = find_in_use(alloc, defs, lineages, scope, written)?;
        best = earlier_refusal(best, found);
    }
    Ok(best)
}

/// The first refusal by a type where it is written. Most types break no rule, as is seen without what they mean, and of
/// others no rule asks that.
fn find_in_use<'a>(
    alloc: Global,
    defs: &Defs,
    lineages: &Lineages,
    scope: &Scope<'_, 'a>,
    written: &TypeUse<'a>,
) -> Result<Option<Refusal>, AllocError>
    requires { TellRelated (defs_term defs.now).ifaces lineages.now.spans.items }
    ensures { IfOk result (λ found. IsFirst (λ which. BreaksUse (defs_term defs.now).ifaces (plain_definitions scope.now) which (use_of written.now)) type_rules found) }
{
    if is_settled(scope.meanings(), written) {
        Ok(None)
    } else if is_unasked(written) {
        Ok(find_unasked(scope.resolver(), written))
    } else {
        let resolver = scope.resolver();
        let ty = resolve_use(alloc, resolver, written)?;
        let found = find_in_type(alloc, defs, lineages, resolver, &ty);
        drop(ty);
        found
    }
}

/// The first refusal by a type with what it means.
fn find_in_type<'a>(
    alloc: Global,
    defs: &Defs,
    lineages: &Lineages,
    resolver: &Resolver<'_, 'a>,
    ty: &ResolvedUse<'a>,
) -> Result<Option<Refusal>, AllocError>
    requires { TellRelated (defs_term defs.now).ifaces lineages.now.spans.items }
    ensures { IfOk result (λ found. IsFirst (λ which. BreaksType (defs_term defs.now).ifaces (plain_definitions resolver.now) which (resolved_use ty.now)) type_rules found) }
{
    let found = indistinguishable_union(alloc, defs, lineages, ty)?;
    let best = first(None, ValidityRule::IndistinguishableUnionMembers, found);
    let found = clamp_and_enforce(resolver, &ty.written);
    let best = first(best, ValidityRule::ClampAndEnforceRange, found);
    let best = first(
        best,
        ValidityRule::MisplacedAnnotation,
        misplaced_annotation(ty),
    );
    let best = first(
        best,
        ValidityRule::NullableDictionary,
        nullable_dictionary(ty),
    );
    let best = first(
        best,
        ValidityRule::AnnotatedUnionMember,
        annotated_member(ty),
    );
    let found = nullable_beside_dictionary(ty);
    let best = first(best, ValidityRule::NullableBesideDictionary, found);
    let best = first(
        best,
        ValidityRule::SeveralNullableMembers,
        several_nullable(ty),
    );
    let best = first(best, ValidityRule::WronglyNullable, wrongly_nullable(ty));
    let best = first(best, ValidityRule::UndefinedInside, undefined_inside(ty));
    let best = first(best, ValidityRule::CopiedAttribute, copied_attribute(ty));
    Ok(first(
        best,
        ValidityRule::OtherConstantType,
        other_constant_type(ty),
    ))
}
