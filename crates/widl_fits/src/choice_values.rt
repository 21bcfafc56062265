//! The values of enumerations, a set for each.

ghost use Rattle.std.specs.Prelude.{◌≡◌, ◌||◌, ℕ, List, bytes_eq, slice_get, IfOk, OnOk};
ghost use Rattle.std.specs.List.{list_any};
ghost use Rattle.widl_fits.specs.ChoiceValues.{KeepValues, has_text, holds, is_kept};

use indexmap::IndexSet;
use std::alloc::{AllocError, Global};
use widl_idl::Choice;
use widl_text::Units;

/// The values of an enumeration.
#[derive(Drop)]
pub struct ChoiceValues<'d> {
    /// Its values.
    pub texts: IndexSet<&'d [u16]>,
    /// How many units the longest has: a longer text isn't looked up, which takes time by its length.
    pub longest: usize,
}

/// For each enumeration the set of its values.
///
/// `AllocError` where there is no memory.
pub fn list_values<'d>(
    alloc: Global,
    choices: &'d [Choice],
) -> Result<Vec<ChoiceValues<'d>>, AllocError>
    ensures { IfOk result (λ sets. KeepValues sets.items choices.now) }
{
    let mut sets = Vec::new(alloc);
    for choice in choices {
        let set = values_in(alloc, choice.values.as_slice())?;
        sets.push(set)?;
    }
    Ok(sets)
}

/// The set of these values.
fn values_in<'d>(alloc: Global, values: &'d [Units]) -> Result<ChoiceValues<'d>, AllocError>
    ensures { IfOk result (λ kept. (text : List ℕ) → holds kept text ≡ list_any (λ v. bytes_eq v text) values.now) }
{
    let mut texts = IndexSet::new(alloc);
    let mut longest = 0;
    for value in values {
        add_value(&mut texts, value.as_slice())?;
        longest = longest.max(value.len());
    }
    Ok(ChoiceValues { texts, longest })
}

fn add_value<'d>(set: &mut IndexSet<&'d [u16]>, value: &'d [u16]) -> Result<(), AllocError>
    ensures { OnOk result ((text : List ℕ) → has_text set.new text ≡ (has_text set.old text || bytes_eq value.now text)) }
{
    set.insert(value)?;
    Ok(())
}

/// Whether the enumeration of this number has the value.
pub fn has_value(sets: &[ChoiceValues<'_>], number: usize, text: &[u16]) -> bool
    ensures { result ≡ is_kept (slice_get sets.now number) text.now }
{
    match sets.get(number) {
        None => false,
        Some(values) => values.contains(text),
    }
}

impl<'d> ChoiceValues<'d> {
    /// Whether the text is one of the values.
    fn contains(&self, text: &[u16]) -> bool
        ensures { result ≡ holds self.now text.now }
    {
        text.len() <= self.longest && self.texts.contains(text)
    }
}
