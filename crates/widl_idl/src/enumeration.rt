//! Enumerations.

use widl_text::{Items, Place, Units};

/// Texts in order.
pub type Texts = Items<Units>;

/// An enumeration (Web IDL, "Enumerations").
#[derive(Drop)]
pub struct Choice {
    /// Where its name stands.
    pub at: Place,
    /// Its name.
    pub name: Units,
    /// Its values.
    pub values: Texts,
}

/// Enumerations by their numbers.
pub type Choices = Items<Choice>;
