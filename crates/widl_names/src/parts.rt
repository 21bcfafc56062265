//! The parts of the interfaces, the mixins and the namespaces of a set of files.
//!
//! Parts without members are left out: they have no operations, and change nothing of the members. So
//! the parts of one definition are at most as many as its members.

ghost use Rattle.std.specs.Prelude.{◌≡◌, ◌++◌, ◌∷◌, [], ℕ, ◌<◌, List, None, Some, map, replicate, length, option_map, option_to_list, slice_get, slice_set, slice_index_or, IfOk, OnOk};
ghost use Rattle.widl_idl.specs.declared.kind.Kind.TheVariants as kinds;
ghost use Rattle.widl_idl.specs.Parts.{members_in};
ghost use Rattle.widl_idl.specs.PlainTrees.{definition_kind_of, members_of, plain_definitions};
ghost use Rattle.widl_idl.specs.PlainTypes.{name_of};
ghost use Rattle.widl_names.specs.PartTables.{Puts, has_members, mixes_in, mixes_into, MixinsGrouped, number_meant, owner_of, PartialsGrouped, part_kept, listed_parts};

use crate::meanings::{Meanings, kind_at};
use crate::meant::number_meant;
use crate::names::{kind_of, partial_name};
use std::alloc::{AllocError, Global};
use std::marker::Model;
use widl_idl::Kind;
use widl_idl::tree::{Definition, DefinitionKind, Includes, Member};
use widl_text::Items;

/// The definitions of a set of files with their parts, by the number of the definition.
#[derive(Drop)]
pub struct Parts<'d, 'a> {
    definitions: &'d [&'a Definition],
    partials: Vec<Items<&'a DefinitionKind>>,
    mixins: Vec<Items<usize>>,
}

impl<'d, 'a> Model for Parts<'d, 'a> {
    ghost use Rattle.std.specs.Prelude.{◌≡◌, ℕ, List, map};
    ghost use Rattle.std.specs.Coded.{codes};
    ghost use Rattle.widl_idl.specs.contracts.tree.types.TypeForm as written;
    ghost use Rattle.widl_idl.specs.declared.tree.definitions.Definition.{Definition as DefinitionType};
    ghost use Rattle.widl_idl.specs.PlainTrees.{plain_definitions};
    ghost use Rattle.widl_names.specs.PartTables.{MixinsGrouped, PartialsGrouped};

    ghost Value = { List DefinitionType };

    ghost coded = { Prim.hlevel (codes, written.the_row.coded) };

    ghost view = { λ p. map (λ d. d.now) p.definitions.now };

    ghost invariant = { λ p. PartialsGrouped p.partials.items (plain_definitions (map (λ d. d.now) p.definitions.now)) × MixinsGrouped p.mixins.items (plain_definitions (map (λ d. d.now) p.definitions.now)) };
}

impl<'d, 'a> Parts<'d, 'a> {
    ghost use Rattle.widl_names.specs.PartTables.{ListsParts, listed_at, own_at};

    /// The parts of the definitions of a set of files.
    ///
    /// # Errors
    ///
    /// `AllocError` where there is no memory.
    pub fn of(alloc: Global, meanings: &Meanings<'d, 'a>) -> Result<Parts<'d, 'a>, AllocError>
        ensures { IfOk result (λ parts. parts ≡ meanings.now) }
    {
        let definitions = meanings.all();
        let partials = group_partials(alloc, meanings)?;
        let mixins = group_mixins(alloc, meanings)?;
        Ok(Parts {
            definitions,
            partials,
            mixins,
        })
    }

    /// The parts with members of the definition of this number, in merged order: the definition
    /// itself, its partials, and what is mixed into it.
    ///
    /// # Errors
    ///
    /// `AllocError` where there is no memory.
    pub fn list(&self, alloc: Global, number: usize) -> Result<Vec<&'a DefinitionKind>, AllocError>
        ensures { IfOk result (λ list. ListsParts (plain_definitions self.now) number (listed_parts list.items)) }
    {
        self.list_numbered(alloc, number)
    }

    /// The same, by numbers alone.
    fn list_numbered(
        &self,
        alloc: Global,
        number: usize,
    ) -> Result<Vec<&'a DefinitionKind>, AllocError>
        ensures { IfOk result (λ list. listed_parts list.items ≡ listed_at (plain_definitions self.now) number) }
    {
        let mut list = Vec::new(alloc);
        self.add_own(&mut list, number)?;
        for mixin in group_at(&self.mixins, number) {
            self.add_own(&mut list, *mixin)?;
        }
        Ok(list)
    }

    /// Adds the parts that stand under the definition's own name.
    fn add_own(&self, list: &mut Vec<&'a DefinitionKind>, number: usize) -> Result<(), AllocError>
        ensures { OnOk result (listed_parts list.new.items ≡ listed_parts list.old.items ++ own_at (plain_definitions self.now) number) }
    {
        add_main(list, self.definitions, number)?;
        for part in group_at(&self.partials, number) {
            list.push(*part)?;
        }
        Ok(())
    }
}

/// Adds the definition of this number, if it has members.
fn add_main<'a>(
    list: &mut Vec<&'a DefinitionKind>,
    definitions: &[&'a Definition],
    number: usize,
) -> Result<(), AllocError>
    ensures { OnOk result (listed_parts list.new.items ≡ listed_parts list.old.items ++ part_kept (option_map (λ d. d.kind) (slice_get (plain_definitions (map (λ d. d.now) definitions.now)) number))) }
{
    match kind_at(definitions, number) {
        None => Ok(()),
        Some(part) => add_part(list, part),
    }
}

fn add_part<'a>(
    list: &mut Vec<&'a DefinitionKind>,
    part: &'a DefinitionKind,
) -> Result<(), AllocError>
    ensures { OnOk result (listed_parts list.new.items ≡ listed_parts list.old.items ++ part_kept (Some (definition_kind_of part.now))) }
{
    if has_members(part) {
        list.push(part)?;
    }
    Ok(())
}

/// The members that stand in one definition of an interface, a mixin or a namespace.
pub fn members_in(kind: &DefinitionKind) -> &[Member]
    ensures { members_of result.now ≡ members_in (definition_kind_of kind.now) }
{
    match kind {
        DefinitionKind::Interface(interface) => interface.members.as_slice(),
        DefinitionKind::Mixin(mixin) => mixin.members.as_slice(),
        DefinitionKind::Namespace(namespace) => namespace.members.as_slice(),
        _ => &[],
    }
}

fn has_members(kind: &DefinitionKind) -> bool
    ensures { result ≡ has_members (definition_kind_of kind.now) }
{
    !members_in(kind).is_empty()
}

/// The group of this number.
pub fn group_at<T>(groups: &[Items<T>], number: usize) -> &[T]
    ensures { result.now ≡ slice_index_or groups.now number [] }
{
    match groups.get(number) {
        None => &[],
        Some(group) => group.as_slice(),
    }
}

/// The partial definitions of each definition.
fn group_partials<'a>(
    alloc: Global,
    meanings: &Meanings<'_, 'a>,
) -> Result<Vec<Items<&'a DefinitionKind>>, AllocError>
    ensures { IfOk result (λ groups. PartialsGrouped groups.items (plain_definitions meanings.now)) }
{
    let definitions = meanings.all();
    let mut groups = no_groups(alloc, definitions.len())?;
    for definition in definitions {
        add_partial(meanings, &mut groups, &definition.kind)?;
    }
    Ok(groups)
}

/// The mixins of each interface.
fn group_mixins(alloc: Global, meanings: &Meanings) -> Result<Vec<Items<usize>>, AllocError>
    ensures { IfOk result (λ groups. MixinsGrouped groups.items (plain_definitions meanings.now)) }
{
    let definitions = meanings.all();
    let mut groups = no_groups(alloc, definitions.len())?;
    for definition in definitions {
        add_mixin(meanings, &mut groups, &definition.kind)?;
    }
    Ok(groups)
}

/// As many empty groups.
///
/// # Errors
///
/// `AllocError` where there is no memory.
pub fn no_groups<T: Drop>(alloc: Global, count: usize) -> Result<Vec<Items<T>>, AllocError>
    ensures { IfOk result (λ groups. groups.items ≡ replicate count []) }
{
    let mut groups = Vec::new(alloc);
    for _i in 0..count {
        groups.push(Items::new(alloc))?;
    }
    Ok(groups)
}

/// Adds an item to the group of this number.
///
/// # Errors
///
/// `AllocError` where there is no memory.
pub fn put_in_group<T: Drop>(
    groups: &mut Vec<Items<T>>,
    number: usize,
    item: T,
) -> Result<(), AllocError>
    requires { number < length groups.old.items }
    ensures { OnOk result (groups.new.items ≡ slice_set groups.old.items number (slice_index_or groups.old.items number [] ++ item ∷ [])) }
{
    groups[number].push(item)
}

/// Adds a definition to the group of the definition that it adds to, if it is a partial one.
fn add_partial<'a>(
    meanings: &Meanings,
    groups: &mut Vec<Items<&'a DefinitionKind>>,
    kind: &'a DefinitionKind,
) -> Result<(), AllocError>
    requires { length groups.old.items ≡ length meanings.now }
    ensures { OnOk result (Puts groups.old.items groups.new.items (owner_of (plain_definitions meanings.now) (definition_kind_of kind.now)) (kind.entry ∷ [])) }
{
    match owner_of(meanings, kind) {
        None => Ok(()),
        Some(number) => put_in_group(groups, number, kind),
    }
}

/// The number of the definition that a partial one with members adds to.
fn owner_of(meanings: &Meanings, part: &DefinitionKind) -> Option<usize>
    ensures { result ≡ owner_of (plain_definitions meanings.now) (definition_kind_of part.now) }
{
    if has_members(part) {
        let name = partial_name(part)?;
        number_meant(meanings, name.text.as_str(), kind_of(part))
    } else {
        None
    }
}

/// Adds the mixin of an includes statement to the group of its interface.
fn add_mixin(
    meanings: &Meanings,
    groups: &mut Vec<Items<usize>>,
    kind: &DefinitionKind,
) -> Result<(), AllocError>
    requires { length groups.old.items ≡ length meanings.now }
    ensures { OnOk result (Puts groups.old.items groups.new.items (mixes_into (plain_definitions meanings.now) (definition_kind_of kind.now)) (mixes_in (plain_definitions meanings.now) (definition_kind_of kind.now))) }
{
    match kind {
        DefinitionKind::Includes(includes) => add_included(meanings, groups, includes),
        _ => Ok(()),
    }
}

fn add_included(
    meanings: &Meanings,
    groups: &mut Vec<Items<usize>>,
    includes: &Includes,
) -> Result<(), AllocError>
    requires { length groups.old.items ≡ length meanings.now }
    ensures { OnOk result (Puts groups.old.items groups.new.items (number_meant (plain_definitions meanings.now) kinds.Interface (name_of includes.now.interface).text) (option_to_list (number_meant (plain_definitions meanings.now) kinds.Mixin (name_of includes.now.mixin).text))) }
{
    let interface = number_meant(meanings, includes.interface.text.as_str(), Kind::Interface);
    let mixin = number_meant(meanings, includes.mixin.text.as_str(), Kind::Mixin);
    match (interface, mixin) {
        (Some(interface), Some(mixin)) => put_in_group(groups, interface, mixin),
        _ => Ok(()),
    }
}
