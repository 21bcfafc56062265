//! The rules on partial definitions, includes statements and parents, which name other definitions.

ghost use Rattle.std.specs.Prelude.{◌≡◌, ◌↔◌, Some, IsTrue, option_map};
ghost use Rattle.widl_idl.specs.declared.merging_rule.MergingRule.TheVariants as rule;
ghost use Rattle.widl_idl.specs.First.{FirstWhere};
ghost use Rattle.widl_idl.specs.Meanings.{meant_kind};
ghost use Rattle.widl_idl.specs.MergingRules.{BreaksMerging, included, included_into};
ghost use Rattle.widl_idl.specs.PlainTrees.{definition_kind_of, plain_definitions};
ghost use Rattle.widl_idl.specs.PlainTypes.{name_of};
ghost use Rattle.widl_merge.specs.NameRules.{MeansOther};

use widl_idl::tree::{DefinitionKind, Name};
use widl_idl::{Kind, Violation, earlier_violation};
use widl_names::{Meanings, kind_of, parent_of, partial_name};

/// The first place of a partial definition's name that means no definition of its kind.
pub fn first_partial_without_main(meanings: &Meanings<'_, '_>) -> Option<Violation>
    ensures { FirstWhere (BreaksMerging (plain_definitions meanings.now) rule.PartialWithoutMain) result }
{
    let mut best = None;
    let definitions = meanings.all();
    for definition in definitions {
        let kind = kind_of(&definition.kind);
        let found = other_meaning(meanings, kind, partial_name(&definition.kind));
        best = earlier_violation(best, found);
    }
    best
}

/// The first place of an includes statement's left side that means no interface.
pub fn first_includes_into_no_interface(meanings: &Meanings<'_, '_>) -> Option<Violation>
    ensures { FirstWhere (BreaksMerging (plain_definitions meanings.now) rule.IncludesIntoNoInterface) result }
{
    let mut best = None;
    let definitions = meanings.all();
    for definition in definitions {
        let found = other_meaning(meanings, Kind::Interface, included_into(&definition.kind));
        best = earlier_violation(best, found);
    }
    best
}

/// The first place of an includes statement's right side that means no mixin.
pub fn first_includes_no_mixin(meanings: &Meanings<'_, '_>) -> Option<Violation>
    ensures { FirstWhere (BreaksMerging (plain_definitions meanings.now) rule.IncludesNoMixin) result }
{
    let mut best = None;
    let definitions = meanings.all();
    for definition in definitions {
        let found = other_meaning(meanings, Kind::Mixin, included(&definition.kind));
        best = earlier_violation(best, found);
    }
    best
}

/// The first place of a parent that means no definition of the same kind.
pub fn first_parent_of_other_kind(meanings: &Meanings<'_, '_>) -> Option<Violation>
    ensures { FirstWhere (BreaksMerging (plain_definitions meanings.now) rule.ParentOfOtherKind) result }
{
    let mut best = None;
    let definitions = meanings.all();
    for definition in definitions {
        let kind = kind_of(&definition.kind);
        let found = other_meaning(meanings, kind, parent_of(&definition.kind));
        best = earlier_violation(best, found);
    }
    best
}

/// The place of a name, if there is one, that means no definition of this kind.
fn other_meaning(meanings: &Meanings<'_, '_>, kind: Kind, name: Option<&Name>) -> Option<Violation>
    ensures { FirstWhere (MeansOther (plain_definitions meanings.now) kind (option_map (λ n. name_of n.now) name.entry)) result }
{
    match name {
        None => None,
        Some(name) => if means_kind(meanings, name.text.as_str(), kind) {
            None
        } else {
            Some(Violation::at(name.at))
        },
    }
}

/// Whether a name means a definition of this kind.
fn means_kind(meanings: &Meanings<'_, '_>, text: &str, kind: Kind) -> bool
    ensures { IsTrue result ↔ (meant_kind (plain_definitions meanings.now) text.now ≡ Some kind) }
{
    match meanings.kind(text) {
        None => false,
        Some(meant) => meant == kind,
    }
}

/// The left side of an includes statement.
pub fn included_into<'a>(definition: &'a DefinitionKind) -> Option<&'a Name>
    ensures { option_map (λ name. name_of name.now) result ≡ included_into (definition_kind_of definition.now) }
{
    match definition {
        DefinitionKind::Includes(includes) => Some(&includes.interface),
        _ => None,
    }
}

/// The right side of an includes statement.
pub fn included<'a>(definition: &'a DefinitionKind) -> Option<&'a Name>
    ensures { option_map (λ name. name_of name.now) result ≡ included (definition_kind_of definition.now) }
{
    match definition {
        DefinitionKind::Includes(includes) => Some(&includes.mixin),
        _ => None,
    }
}
