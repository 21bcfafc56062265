//! Refusals of sets of files.

use widl_text::Place;

/// The first broken rule of a set of files.
#[derive(Clone, Copy, Debug, PartialEq, Eq)]
pub struct Refusal {
    /// The number of the rule.
    pub rule: u8,
    /// Where it is broken.
    pub at: Place,
    /// The other place that it speaks of.
    pub other: Option<Place>,
}
