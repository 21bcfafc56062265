//! Tests of what a name means.

ghost use Rattle.std.specs.Prelude.{◌≡◌};
ghost use Rattle.widl_idl.specs.Meanings.{main_name, meaning, meant_kind};
ghost use Rattle.widl_idl.specs.MergingRules.{is_kind, is_number};
ghost use Rattle.widl_idl.specs.PlainTrees.{definition_kind_of, plain_definitions};
ghost use Rattle.widl_names.specs.PartTables.{means_itself, number_meant};

use crate::meanings::{Meanings, kind_at};
use crate::names::{kind_of, main_name};
use widl_idl::Kind;
use widl_idl::tree::DefinitionKind;

/// Whether a name means a definition of this kind.
pub fn means_kind(meanings: &Meanings, text: &str, kind: Kind) -> bool
    ensures { result ≡ is_kind kind (meant_kind (plain_definitions meanings.now) text.now) }
{
    match meanings.kind(text) {
        None => false,
        Some(other) => kind == other,
    }
}

/// Whether a name means the definition of this number.
pub fn means_number(meanings: &Meanings, text: &str, number: usize) -> bool
    ensures { result ≡ is_number number (meaning (plain_definitions meanings.now) text.now) }
{
    match meanings.number(text) {
        None => false,
        Some(other) => number == other,
    }
}

/// Whether the name of the definition of this number means it.
pub fn means_itself(meanings: &Meanings, number: usize, kind: &DefinitionKind) -> bool
    ensures { result ≡ means_itself (plain_definitions meanings.now) number (main_name (definition_kind_of kind.now)) }
{
    match main_name(kind) {
        None => false,
        Some(name) => means_number(meanings, name.text.as_str(), number),
    }
}

/// The number of the definition of this kind that a name means.
pub fn number_meant(meanings: &Meanings, text: &str, kind: Kind) -> Option<usize>
    ensures { result ≡ number_meant (plain_definitions meanings.now) kind text.now }
{
    let number = meanings.number(text)?;
    let definition = kind_at(meanings.all(), number)?;
    if kind == kind_of(definition) {
        Some(number)
    } else {
        None
    }
}
