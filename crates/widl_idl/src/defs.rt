//! Lists of definitions.

use crate::callback::Callbacks;
use crate::dictionary::Dicts;
use crate::enumeration::Choices;
use crate::interface::Ifaces;
use crate::namespace::Spaces;

/// The definitions of a set of files, in which partials and mixins are put together and types are
/// resolved (Web IDL, "Interface definition language"). A definition's number is its place among
/// those of its kind.
#[derive(Drop)]
pub struct Defs {
    /// The interfaces.
    pub ifaces: Ifaces,
    /// The namespaces.
    pub spaces: Spaces,
    /// The dictionaries.
    pub dicts: Dicts,
    /// The enumerations.
    pub choices: Choices,
    /// The callback functions.
    pub callback_fns: Callbacks,
    /// The callback interfaces.
    pub callback_ifaces: Callbacks,
}
