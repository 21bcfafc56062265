//! The bounded sum of the members of a set of files.

ghost use Rattle.std.specs.Prelude.{◌≡◌, ◌+◌, ℕ, List, None, Some, option_and_then, bytes_eq, length, nat_lt, ◌&&◌, if◌then◌else◌, IfOk, OnOk};
ghost use Rattle.std.specs.Option.{option_map_or};
ghost use Rattle.widl_idl.specs.declared.kind.Kind.TheVariants as kinds;
ghost use Rattle.widl_idl.specs.declared.merging_rule.MergingRule.TheVariants as rule;
ghost use Rattle.widl_idl.specs.First.{FirstWhere, violation_at};
ghost use Rattle.widl_idl.specs.Meanings.{meant_kind};
ghost use Rattle.widl_idl.specs.MergingRules.{BreaksMerging, includes_portion, is_kind, member_total, part_portion, portion_of, takes_part};
ghost use Rattle.widl_idl.specs.Parts.{adds_to, is_mixin, members_in, own_parts};
ghost use Rattle.widl_idl.specs.PlainTrees.{definition_kind_of, members_of, plain_definitions};
ghost use Rattle.widl_idl.specs.PlainTypes.{name_of};
ghost use Rattle.widl_names.specs.Listings.{listed_definitions};
ghost use Rattle.widl_merge.specs.Portions.{AreFound, KeepsAdded, added_in, capped};

use indexmap::IndexMap;
use std::alloc::{AllocError, Global};
use widl_idl::tree::{Definition, DefinitionKind, Includes, Member, Mixin, Name};
use widl_idl::{Kind, Violation, earlier_violation};
use widl_names::{Meanings, is_partial, kind_of, means_kind, means_number};
use widl_text::Place;
use widl_text::limits::MOST_MEMBERS;

/// What a definition or an includes statement adds to the sum.
#[derive(Clone, Copy)]
pub struct Portion {
    /// The place of its name.
    pub at: Place,
    /// The number that it adds.
    pub size: u32,
}

/// The name of the definition or the includes statement with which the sum of the members passes its
/// limit.
///
/// # Errors
///
/// `AllocError` where there is no memory.
pub fn first_past_limit(alloc: Global, meanings: &Meanings) -> Result<Option<Violation>, AllocError>
    ensures { IfOk result (λ found. FirstWhere (BreaksMerging (plain_definitions meanings.now) rule.TooManyMembers) found) }
{
    let definitions = meanings.all();
    let added = added_members(alloc, definitions)?;
    let mut sum = 0;
    let mut best = None;
    for (number, definition) in definitions.iter().enumerate() {
        let portion = portion_of(meanings, &added, number, &definition.kind);
        let found = passed(sum, portion);
        best = earlier_violation(best, found);
        sum = summed(sum, portion);
    }
    Ok(best)
}

/// The violation of a portion with which the sum passes the limit.
fn passed(sum: u32, portion: Option<Portion>) -> Option<Violation>
    ensures { result ≡ option_and_then (λ p. if nat_lt sum 1000001 && nat_lt 1000000 (capped (sum + p.size)) then Some (violation_at p.at) else None) portion }
{
    let portion = portion?;
    if sum <= MOST_MEMBERS && plus(sum, portion.size) > MOST_MEMBERS {
        Some(Violation::at(portion.at))
    } else {
        None
    }
}

/// The sum with a portion, if there is one.
fn summed(sum: u32, portion: Option<Portion>) -> u32
    ensures { result ≡ option_map_or (λ p. capped (sum + p.size)) portion sum }
{
    match portion {
        None => sum,
        Some(portion) => plus(sum, portion.size),
    }
}

/// The sum of two numbers.
fn plus(sum: u32, size: u32) -> u32
    ensures { result ≡ capped (sum + size) }
{
    sum.saturating_add(size).min(MOST_MEMBERS + 1)
}

/// How many members there are.
fn count(members: &[Member]) -> u32
    ensures { result ≡ capped (length (members_of members.now)) }
{
    members.len().min(MOST_MEMBERS as usize + 1) as u32
}

/// What a definition adds to the sum.
fn portion_of(
    meanings: &Meanings,
    added: &IndexMap<&str, u32>,
    number: usize,
    kind: &DefinitionKind,
) -> Option<Portion>
    requires { KeepsAdded added.now (plain_definitions meanings.now) }
    ensures { AreFound result (portion_of (plain_definitions meanings.now) number (definition_kind_of kind.now)) }
{
    match kind {
        DefinitionKind::Interface(interface) => {
            part_portion(
                meanings,
                number,
                kind,
                &interface.name,
                interface.members.as_slice(),
            )
        }
        DefinitionKind::Namespace(namespace) => {
            part_portion(
                meanings,
                number,
                kind,
                &namespace.name,
                namespace.members.as_slice(),
            )
        }
        DefinitionKind::Includes(includes) => includes_portion(meanings, added, includes),
        _ => None,
    }
}

/// What a part of an interface or a namespace adds.
fn part_portion(
    meanings: &Meanings,
    number: usize,
    kind: &DefinitionKind,
    name: &Name,
    members: &[Member],
) -> Option<Portion>
    ensures { AreFound result (part_portion (plain_definitions meanings.now) number (definition_kind_of kind.now) (name_of name.now) (members_of members.now)) }
{
    if takes_part(meanings, number, kind, name.text.as_str()) {
        Some(Portion {
            at: name.at,
            size: plus(1, count(members)),
        })
    } else {
        None
    }
}

/// Whether the definition of this number is the one that its name means, or a partial one of it.
fn takes_part(meanings: &Meanings, number: usize, kind: &DefinitionKind, text: &str) -> bool
    ensures { result ≡ takes_part (plain_definitions meanings.now) number (definition_kind_of kind.now) text.now }
{
    if is_partial(kind) {
        means_kind(meanings, text, kind_of(kind))
    } else {
        means_number(meanings, text, number)
    }
}

/// What an includes statement adds.
fn includes_portion(
    meanings: &Meanings,
    added: &IndexMap<&str, u32>,
    includes: &Includes,
) -> Option<Portion>
    requires { KeepsAdded added.now (plain_definitions meanings.now) }
    ensures { AreFound result (includes_portion (plain_definitions meanings.now) (name_of includes.now.interface) (name_of includes.now.mixin)) }
{
    if means_kind(meanings, includes.interface.text.as_str(), Kind::Interface) {
        let size = mixin_size(meanings, added, includes.mixin.text.as_str())?;
        Some(Portion {
            at: includes.interface.at,
            size,
        })
    } else {
        None
    }
}

/// One and the number of the members of the mixin that a name means.
fn mixin_size(meanings: &Meanings, added: &IndexMap<&str, u32>, text: &str) -> Option<u32>
    requires { KeepsAdded added.now (plain_definitions meanings.now) }
    ensures { result ≡ (if is_kind kinds.Mixin (meant_kind (plain_definitions meanings.now) text.now) then Some (capped (1 + member_total (own_parts is_mixin (plain_definitions meanings.now) text.now))) else None) }
{
    match meanings.definition(text) {
        Some(DefinitionKind::Mixin(mixin)) => {
            let own = plus(1, count(mixin.members.as_slice()));
            Some(plus(own, added_for(added, text)))
        }
        _ => None,
    }
}

/// The number of members that is kept for a text.
fn added_for(added: &IndexMap<&str, u32>, text: &str) -> u32
    ensures { result ≡ added_in added.now text.now }
{
    added.get(text).copied().unwrap_or(0)
}

/// The number of the members of the partial mixins of each name.
fn added_members<'a>(
    alloc: Global,
    definitions: &[&'a Definition],
) -> Result<IndexMap<&'a str, u32>, AllocError>
    ensures { IfOk result (λ added. KeepsAdded added (listed_definitions definitions.now)) }
{
    let mut added = IndexMap::new(alloc);
    for definition in definitions {
        add_part(&mut added, &definition.kind)?;
    }
    Ok(added)
}

/// Adds the members of a definition, if it is a partial mixin.
fn add_part<'a>(
    added: &mut IndexMap<&'a str, u32>,
    kind: &'a DefinitionKind,
) -> Result<(), AllocError>
    ensures { OnOk result ((text : List ℕ) → added_in added.new text ≡ (if adds_to is_mixin text (definition_kind_of kind.now) then capped (added_in added.old text + length (members_in (definition_kind_of kind.now))) else added_in added.old text)) }
{
    match kind {
        DefinitionKind::Mixin(mixin) => add_mixin(added, mixin),
        _ => Ok(()),
    }
}

fn add_mixin<'a>(added: &mut IndexMap<&'a str, u32>, mixin: &'a Mixin) -> Result<(), AllocError>
    ensures { OnOk result ((text : List ℕ) → added_in added.new text ≡ (if mixin.now.partial && bytes_eq (name_of mixin.now.name).text text then capped (added_in added.old text + length (members_of mixin.now.members)) else added_in added.old text)) }
{
    if mixin.partial {
        add_count(
            added,
            mixin.name.text.as_str(),
            count(mixin.members.as_slice()),
        )?;
    }
    Ok(())
}

fn add_count<'a>(
    added: &mut IndexMap<&'a str, u32>,
    text: &'a str,
    size: u32,
) -> Result<(), AllocError>
    ensures { OnOk result ((other : List ℕ) → added_in added.new other ≡ (if bytes_eq text.now other then capped (added_in added.old other + size) else added_in added.old other)) }
{
    let before = added_for(added, text);
    added.insert(text, plus(before, size))?;
    Ok(())
}
