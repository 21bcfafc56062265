//! The values of enumerations.

ghost use Rattle.std.specs.Prelude.{◌≡◌, ℕ, ◌^◌, ◌<◌, List, IfSome, IfNone};
ghost use Rattle.widl_scalar.specs.Enumerations.{HasValueAt, IsFirstPlace, place_of_text, value_place};

use widl_idl::{Defs, Texts};
use widl_text::Units;

/// The place of a text among the values of the enumeration of this number (Web IDL,
/// "Enumerations"): the first at which it stands. `None` where the enumeration hasn't the text
/// there, and where the list has no such enumeration.
pub fn enum_at(defs: &Defs, choice: u32, text: &Units) -> Option<u32>
    ensures some { IfSome result (λ place. HasValueAt defs.now.choices choice text.now place) }
    ensures none { IfNone result ((place : ℕ) → place < 2 ^ 32 → HasValueAt defs.now.choices choice text.now place → ⊥) }
    ensures value { result ≡ value_place defs.now.choices choice text.now }
{
    place_in(defs, choice, text)
}

/// The first place of a text among the values of the enumeration of this number.
fn place_in(defs: &Defs, choice: u32, text: &Units) -> Option<u32>
    ensures { result ≡ value_place defs.now.choices choice text.now }
{
    let number = choice as usize;
    if number >= defs.choices.len() {
        return None;
    }
    match place_of(&defs.choices.at(number).values, text) {
        None => None,
        Some(place) => u32::try_from(place).ok(),
    }
}

/// The first place of a text in a list of texts.
fn place_of(texts: &Texts, text: &Units) -> Option<usize>
    ensures { result ≡ place_of_text texts.now text.now }
{
    texts.as_slice().iter().position(|value| value == text)
}

/// That the place that is computed is the first one: a law, which takes no step.
pub fn place_of_text_is_first()
    ensures some { (texts : List (List ℕ)) (text : List ℕ) → IfSome (place_of_text texts text) (IsFirstPlace texts text) }
    ensures none { (texts : List (List ℕ)) (text : List ℕ) → IfNone (place_of_text texts text) ((place : ℕ) → IsFirstPlace texts text place → ⊥) }
{}
