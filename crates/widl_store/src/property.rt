//! The properties of objects.

ghost use Rattle.std.specs.Prelude.{◌≡◌, IfOk};
ghost use Rattle.widl_store.specs.Created.{prop_of};

use std::alloc::AllocError;
use widl_value::{Flags, ObjRef, Value};

/// A property of an object (ECMA-262, "Property Attributes").
#[derive(Drop)]
pub enum Prop {
    /// A data property.
    Plain {
        /// Its value.
        value: Value,
        /// Its flags.
        flags: Flags,
    },
    /// An accessor property, whose flag `writable` says nothing.
    Accessor {
        /// Its getter.
        get: Option<ObjRef>,
        /// Its setter.
        set: Option<ObjRef>,
        /// Its flags.
        flags: Flags,
    },
}

/// A property whose parts are lent: the value where it lies, and copies of the others.
#[derive(Drop)]
pub(crate) enum PropRef<'a> {
    /// A data property.
    Plain {
        /// Its value.
        value: &'a Value,
        /// Its flags.
        flags: Flags,
    },
    /// An accessor property.
    Accessor {
        /// Its getter.
        get: Option<ObjRef>,
        /// Its setter.
        set: Option<ObjRef>,
        /// Its flags.
        flags: Flags,
    },
}

impl Prop {
    /// Its parts.
    pub(crate) fn parts(&self) -> PropRef<'_>
        ensures { prop_of result ≡ self.now }
    {
        match self {
            Prop::Plain { value, flags } => PropRef::Plain {
                value,
                flags: *flags,
            },
            Prop::Accessor { get, set, flags } => PropRef::Accessor {
                get: *get,
                set: *set,
                flags: *flags,
            },
        }
    }

    /// An equal property.
    ///
    /// # Errors
    ///
    /// `AllocError` where there is no memory.
    pub(crate) fn copy(&self) -> Result<Prop, AllocError>
        ensures { IfOk result (λ copy. copy ≡ self.now) }
    {
        match self {
            Prop::Plain { value, flags } => Ok(Prop::Plain {
                value: value.copy()?,
                flags: *flags,
            }),
            Prop::Accessor { get, set, flags } => Ok(Prop::Accessor {
                get: *get,
                set: *set,
                flags: *flags,
            }),
        }
    }
}
