//! The values of an enumeration, with an index.

ghost use Rattle.std.specs.Prelude.{◌≡◌, ℕ, List, [], bytes_eq, option_and_then, slice_get, IfOk, OnOk};
ghost use Rattle.std.specs.Map.{lookup};
ghost use Rattle.widl_scalar.specs.Enumerations.{place_of_text, told_place};
ghost use Rattle.widl_tables.specs.ValuePlaces.{Hold, noted};

use indexmap::IndexMap;
use std::alloc::{AllocError, Global};
use std::marker::Model;
use widl_idl::Choice;
use widl_text::Units;

/// Texts with the first places at which they stand in a list.
#[derive(Drop)]
pub(crate) struct ValuePlaces {
    places: IndexMap<Units, usize>,
}

impl Model for ValuePlaces {
    ghost use Rattle.std.specs.Prelude.{List, ℕ};

    ghost Value = { List (List ℕ × ℕ) };

    ghost view = { λ v. v.places.entries };
}

impl ValuePlaces {
    /// No texts.
    fn new(alloc: Global) -> ValuePlaces
        ensures { result ≡ [] }
    {
        ValuePlaces {
            places: IndexMap::new(alloc),
        }
    }

    /// The place of a text.
    pub(crate) fn get(&self, text: &Units) -> Option<usize>
        ensures { result ≡ lookup (bytes_eq text.now) self.now }
    {
        self.places.get(text).copied()
    }

    /// Notes the place of a text, unless it has one.
    fn note(&mut self, text: &Units, place: usize) -> Result<(), AllocError>
        ensures { OnOk result ((other : List ℕ) → lookup (bytes_eq other) self.new ≡ noted (lookup (bytes_eq other) self.old) (bytes_eq text.now other) place) }
    {
        if self.get(text).is_none() {
            self.places.insert(text.copy()?, place)?;
        }
        Ok(())
    }
}

/// The values of each enumeration.
///
/// # Errors
///
/// `AllocError` where there is no memory.
pub(crate) fn places_of_choices(
    alloc: Global,
    choices: &[Choice],
) -> Result<Vec<ValuePlaces>, AllocError>
    ensures { IfOk result (λ all. Hold all.items choices.now) }
{
    let mut all = Vec::new(alloc);
    for choice in choices {
        let places = places_of(alloc, choice.values.as_slice())?;
        all.push(places)?;
    }
    Ok(all)
}

/// These texts with their first places.
fn places_of(alloc: Global, values: &[Units]) -> Result<ValuePlaces, AllocError>
    ensures { IfOk result (λ places. (text : List ℕ) → lookup (bytes_eq text) places ≡ place_of_text values.now text) }
{
    let mut places = ValuePlaces::new(alloc);
    for (place, value) in values.iter().enumerate() {
        places.note(value, place)?;
    }
    Ok(places)
}

/// The place of a text among the values of an enumeration, where 32 bits tell it.
pub(crate) fn place_in(all: &[ValuePlaces], choice: u32, text: &Units) -> Option<u32>
    ensures { result ≡ option_and_then (λ places. option_and_then told_place (lookup (bytes_eq text.now) places)) (slice_get all.now choice) }
{
    match all.get(choice as usize) {
        None => None,
        Some(places) => told(places.get(text)),
    }
}

/// The place, where 32 bits tell it.
fn told(place: Option<usize>) -> Option<u32>
    ensures { result ≡ option_and_then told_place place }
{
    match place {
        None => None,
        Some(place) => u32::try_from(place).ok(),
    }
}
