//! What a put meets along the prototypes.

use widl_value::{Flags, ObjRef};

/// What the property that was found along the prototypes says to a put.
pub(crate) enum Meets {
    /// The way is free.
    Way,
    /// It is read only.
    ReadOnly(Flags),
    /// It is an accessor without setter.
    NoSetter,
    /// It has this setter.
    Setter(ObjRef),
}
