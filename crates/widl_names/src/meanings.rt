//! What names mean.

ghost use Rattle.std.specs.Prelude.{◌≡◌, ℕ, List, None, Some, map, option_map, slice_get, bytes_eq, if◌then◌else◌, IfOk, OnOk};
ghost use Rattle.std.specs.Option.{option_or};
ghost use Rattle.widl_idl.specs.Meanings.{main_name};
ghost use Rattle.widl_idl.specs.PlainTrees.{definition_kind_of, plain_definitions};
ghost use Rattle.widl_names.specs.Numbers.{Keeps, number_in};

use crate::names::{kind_of, main_name};
use indexmap::IndexMap;
use std::alloc::{AllocError, Global};
use std::marker::Model;
use widl_idl::Kind;
use widl_idl::tree::{Definition, DefinitionKind};

/// The definitions of a set of files, by what their names mean.
#[derive(Drop)]
pub struct Meanings<'d, 'a> {
    definitions: &'d [&'a Definition],
    numbers: IndexMap<&'a str, usize>,
}

impl<'d, 'a> Model for Meanings<'d, 'a> {
    ghost use Rattle.std.specs.Prelude.{◌≡◌, ℕ, List, map};
    ghost use Rattle.std.specs.Coded.{codes};
    ghost use Rattle.widl_idl.specs.contracts.tree.types.TypeForm as written;
    ghost use Rattle.widl_idl.specs.declared.tree.definitions.Definition.{Definition as DefinitionType};
    ghost use Rattle.widl_idl.specs.Meanings.{meaning};
    ghost use Rattle.widl_idl.specs.PlainTrees.{plain_definitions};
    ghost use Rattle.widl_names.specs.Numbers.{number_in};

    ghost Value = { List DefinitionType };

    ghost coded = { Prim.hlevel (codes, written.the_row.coded) };

    ghost view = { λ m. map (λ d. d.now) m.definitions.now };

    ghost invariant = { λ m. (text : List ℕ) → number_in m.numbers text ≡ meaning (plain_definitions (map (λ d. d.now) m.definitions.now)) text };
}

impl<'d, 'a> Meanings<'d, 'a> {
    ghost use Rattle.widl_idl.specs.Meanings.{meaning, meant, meant_kind};

    /// What names mean among these definitions.
    ///
    /// # Errors
    ///
    /// `AllocError` where there is no memory.
    pub fn of(
        alloc: Global,
        definitions: &'d [&'a Definition],
    ) -> Result<Meanings<'d, 'a>, AllocError>
        ensures { IfOk result (λ m. m ≡ map (λ d. d.now) definitions.now) }
    {
        let mut numbers = IndexMap::with_capacity(alloc, definitions.len())?;
        for (number, definition) in definitions.iter().enumerate() {
            add_definition(&mut numbers, definition, number)?;
        }
        Ok(Meanings {
            definitions,
            numbers,
        })
    }

    /// All definitions, in their order.
    pub fn all(&self) -> &'d [&'a Definition]
        ensures { map (λ d. d.now) result.now ≡ self.now }
    {
        self.definitions
    }

    /// The number of the definition that a name means: of the first main definition with it.
    pub fn number(&self, text: &str) -> Option<usize>
        ensures { result ≡ meaning (plain_definitions self.now) text.now }
    {
        self.numbers.get(text).copied()
    }

    /// The definition that a name means.
    pub fn definition(&self, text: &str) -> Option<&'a DefinitionKind>
        ensures { option_map (λ k. definition_kind_of k.now) result ≡ meant (plain_definitions self.now) text.now }
    {
        match self.number(text) {
            None => None,
            Some(number) => kind_at(self.definitions, number),
        }
    }

    /// The kind of the definition that a name means.
    pub fn kind(&self, text: &str) -> Option<Kind>
        ensures { result ≡ meant_kind (plain_definitions self.now) text.now }
    {
        match self.definition(text) {
            None => None,
            Some(definition) => Some(kind_of(definition)),
        }
    }
}

/// The definition of this number.
pub fn kind_at<'a>(definitions: &[&'a Definition], number: usize) -> Option<&'a DefinitionKind>
    ensures { option_map (λ k. definition_kind_of k.now) result ≡ option_map (λ d. d.kind) (slice_get (plain_definitions (map (λ d. d.now) definitions.now)) number) }
{
    match definitions.get(number) {
        None => None,
        Some(definition) => Some(&definition.kind),
    }
}

/// Keeps the number of a main definition under its name, unless an earlier one has the name.
fn add_definition<'a>(
    numbers: &mut IndexMap<&'a str, usize>,
    definition: &'a Definition,
    number: usize,
) -> Result<(), AllocError>
    ensures { OnOk result (Keeps numbers.old numbers.new (main_name (definition_kind_of definition.now.kind)) number) }
{
    match main_name(&definition.kind) {
        None => Ok(()),
        Some(name) => add_name(numbers, name.text.as_str(), number),
    }
}

fn add_name<'a>(
    numbers: &mut IndexMap<&'a str, usize>,
    text: &'a str,
    number: usize,
) -> Result<(), AllocError>
    ensures { OnOk result ((other : List ℕ) → number_in numbers.new other ≡ option_or (number_in numbers.old other) (if bytes_eq text.now other then Some number else None)) }
{
    if !numbers.contains_key(text) {
        numbers.insert(text, number)?;
    }
    Ok(())
}
