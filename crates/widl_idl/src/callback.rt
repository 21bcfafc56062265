//! Callback functions and callback interfaces.

use crate::signature::Sig;
use widl_text::{Items, Place, Units};

/// A callback function, or a callback interface by its one operation (Web IDL, "Callback
/// functions" and "Callback interfaces").
#[derive(Drop)]
pub struct Callback {
    /// Where its name stands.
    pub at: Place,
    /// Its name.
    pub name: Units,
    /// The name of a callback interface's operation; empty for a callback function.
    pub op: Units,
    /// Its arguments and its return type.
    pub sig: Sig,
}

/// Callbacks of one kind by their numbers.
pub type Callbacks = Items<Callback>;
