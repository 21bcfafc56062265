//! What a search for a property finds.

use widl_value::{ObjRef, Value};

/// What an object or else its chain of prototypes has at a key.
#[derive(Drop)]
pub enum Found<'a> {
    /// A value.
    Held(&'a Value),
    /// A getter, which is to be called.
    Getter(ObjRef),
    /// An accessor without getter.
    NoGetter,
    /// No object has the key.
    Nothing,
}
