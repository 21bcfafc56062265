//! The parts of dictionaries.

ghost use Rattle.std.specs.Prelude.{◌≡◌, ◌++◌, ◌∷◌, [], ℕ, List, None, Some, map, length, option_map, slice_get, IfOk, OnOk};
ghost use Rattle.widl_idl.specs.declared.kind.Kind.TheVariants as kinds;
ghost use Rattle.widl_idl.specs.Parts.{dictionary_members_in};
ghost use Rattle.widl_idl.specs.PlainTrees.{definition_kind_of, dictionary_member_of, plain_definitions};
ghost use Rattle.widl_names.specs.PartTables.{Puts};
ghost use Rattle.widl_merge.specs.DictionaryTables.{DictionariesGrouped, dictionary_extended, listed_members, members_of_part};

use std::alloc::{AllocError, Global};
use std::marker::Model;
use widl_idl::Kind;
use widl_idl::tree::{Definition, DefinitionKind, DictionaryMember};
use widl_names::{Meanings, group_at, kind_at, no_groups, number_meant, put_in_group};
use widl_text::Items;

/// The members of dictionaries in merged order.
#[derive(Drop)]
pub struct DictionaryParts<'d, 'a> {
    definitions: &'d [&'a Definition],
    /// The partial dictionaries by the number of the definition that they add to.
    partials: Vec<Items<&'a DefinitionKind>>,
}

impl<'d, 'a> Model for DictionaryParts<'d, 'a> {
    ghost use Rattle.std.specs.Prelude.{◌≡◌, ℕ, List, map};
    ghost use Rattle.std.specs.Coded.{codes};
    ghost use Rattle.widl_idl.specs.contracts.tree.types.TypeForm as written;
    ghost use Rattle.widl_idl.specs.declared.tree.definitions.Definition.{Definition as DefinitionType};
    ghost use Rattle.widl_idl.specs.PlainTrees.{plain_definitions};
    ghost use Rattle.widl_merge.specs.DictionaryTables.{DictionariesGrouped};

    ghost Value = { List DefinitionType };

    ghost coded = { Prim.hlevel (codes, written.the_row.coded) };

    ghost view = { λ p. map (λ d. d.now) p.definitions.now };

    ghost invariant = { λ p. DictionariesGrouped p.partials.items (plain_definitions (map (λ d. d.now) p.definitions.now)) };
}

impl<'d, 'a> DictionaryParts<'d, 'a> {
    ghost use Rattle.widl_idl.specs.Meanings.{meaning, meant_kind};
    ghost use Rattle.widl_idl.specs.Parts.{merged_dictionary_members};
    ghost use Rattle.widl_merge.specs.DictionaryTables.{members_at};

    /// The parts of the dictionaries of a set of files.
    ///
    /// # Errors
    ///
    /// `AllocError` where there is no memory.
    pub fn of(
        alloc: Global,
        meanings: &Meanings<'d, 'a>,
    ) -> Result<DictionaryParts<'d, 'a>, AllocError>
        ensures { IfOk result (λ parts. parts ≡ meanings.now) }
    {
        let definitions = meanings.all();
        let partials = group_dictionaries(alloc, meanings)?;
        Ok(DictionaryParts {
            definitions,
            partials,
        })
    }

    /// The members of the dictionary of this number: its own, then those of its partials.
    ///
    /// # Errors
    ///
    /// `AllocError` where there is no memory.
    pub fn list(
        &self,
        alloc: Global,
        number: usize,
    ) -> Result<Vec<&'a DictionaryMember>, AllocError>
        ensures { IfOk result (λ list. (text : List ℕ) → meaning (plain_definitions self.now) text ≡ Some number → meant_kind (plain_definitions self.now) text ≡ Some kinds.Dictionary → map (λ m. dictionary_member_of m.now) list.items ≡ merged_dictionary_members (plain_definitions self.now) text) }
    {
        self.list_numbered(alloc, number)
    }

    /// The same, by numbers alone.
    fn list_numbered(
        &self,
        alloc: Global,
        number: usize,
    ) -> Result<Vec<&'a DictionaryMember>, AllocError>
        ensures { IfOk result (λ list. listed_members list.items ≡ members_at (plain_definitions self.now) number) }
    {
        let mut list = Vec::new(alloc);
        add_main(&mut list, self.definitions, number)?;
        for part in group_at(&self.partials, number) {
            add_members(&mut list, part)?;
        }
        Ok(list)
    }
}

/// Adds the members that stand in the definition of this number.
fn add_main<'a>(
    list: &mut Vec<&'a DictionaryMember>,
    definitions: &[&'a Definition],
    number: usize,
) -> Result<(), AllocError>
    ensures { OnOk result (listed_members list.new.items ≡ listed_members list.old.items ++ members_of_part (option_map (λ d. d.kind) (slice_get (plain_definitions (map (λ d. d.now) definitions.now)) number))) }
{
    match kind_at(definitions, number) {
        None => Ok(()),
        Some(part) => add_members(list, part),
    }
}

/// Adds the members that stand in one definition.
fn add_members<'a>(
    list: &mut Vec<&'a DictionaryMember>,
    part: &'a DefinitionKind,
) -> Result<(), AllocError>
    ensures { OnOk result (listed_members list.new.items ≡ listed_members list.old.items ++ dictionary_members_in (definition_kind_of part.now)) }
{
    for member in dictionary_members_in(part) {
        list.push(member)?;
    }
    Ok(())
}

/// The members that stand in one definition of a dictionary.
fn dictionary_members_in(part: &DefinitionKind) -> &[DictionaryMember]
    ensures { map dictionary_member_of result.now ≡ dictionary_members_in (definition_kind_of part.now) }
{
    match part {
        DefinitionKind::Dictionary(dictionary) => dictionary.members.as_slice(),
        _ => &[],
    }
}

/// The partial dictionaries of each definition.
fn group_dictionaries<'a>(
    alloc: Global,
    meanings: &Meanings<'_, 'a>,
) -> Result<Vec<Items<&'a DefinitionKind>>, AllocError>
    ensures { IfOk result (λ groups. DictionariesGrouped groups.items (plain_definitions meanings.now)) }
{
    let definitions = meanings.all();
    let mut groups = no_groups(alloc, definitions.len())?;
    for definition in definitions {
        add_dictionary(meanings, &mut groups, &definition.kind)?;
    }
    Ok(groups)
}

/// Adds a definition to the group of the dictionary that it adds to, if it is a partial one.
fn add_dictionary<'a>(
    meanings: &Meanings,
    groups: &mut Vec<Items<&'a DefinitionKind>>,
    kind: &'a DefinitionKind,
) -> Result<(), AllocError>
    requires { length groups.old.items ≡ length meanings.now }
    ensures { OnOk result (Puts groups.old.items groups.new.items (dictionary_extended (plain_definitions meanings.now) (definition_kind_of kind.now)) (kind.entry ∷ [])) }
{
    match dictionary_extended(meanings, kind) {
        None => Ok(()),
        Some(number) => put_in_group(groups, number, kind),
    }
}

/// The number of the dictionary that a partial one adds to.
fn dictionary_extended(meanings: &Meanings, part: &DefinitionKind) -> Option<usize>
    ensures { result ≡ dictionary_extended (plain_definitions meanings.now) (definition_kind_of part.now) }
{
    match part {
        DefinitionKind::Dictionary(dictionary) if dictionary.partial => {
            number_meant(meanings, dictionary.name.text.as_str(), Kind::Dictionary)
        }
        _ => None,
    }
}
