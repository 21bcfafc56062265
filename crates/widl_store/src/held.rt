//! A property with the number of its creation.

ghost use Rattle.std.specs.Prelude.{◌≡◌};
ghost use Rattle.widl_store.specs.Created.{prop_of};

use crate::property::{Prop, PropRef};
use std::marker::Model;
use widl_value::{Flags, ObjRef, Value};

/// A property and its number in one variant.
///
/// A value begins at a multiple of 16 bytes. So flags and number come first, where they lie beside the tag;
/// a number beside a [`Prop`] would take 32 bytes more.
#[derive(Drop)]
pub(crate) enum Slot {
    /// A data property.
    Plain {
        /// Its flags.
        flags: Flags,
        /// Its number.
        number: u64,
        /// Its value.
        value: Value,
    },
    /// An accessor property.
    Accessor {
        /// Its flags.
        flags: Flags,
        /// Its number.
        number: u64,
        /// Its getter.
        get: Option<ObjRef>,
        /// Its setter.
        set: Option<ObjRef>,
    },
}

/// A property, and the number that it was given when it was created: how many were created before it.
#[derive(Drop)]
pub(crate) struct Held {
    slot: Slot,
}

const _: () = prove!(size_of::<Held>() <= 64);

impl Model for Held {
    ghost use Rattle.widl_store.specs.Created.{Created, created};

    ghost Value = { Created };

    ghost view = { λ h. created h.slot };
}

impl Held {
    /// The property with this number.
    pub(crate) fn new(number: u64, prop: Prop) -> Held
        ensures { result ≡ record { number = number; prop = prop } }
    {
        let slot = match prop {
            Prop::Plain { value, flags } => Slot::Plain {
                flags,
                number,
                value,
            },
            Prop::Accessor { get, set, flags } => Slot::Accessor {
                flags,
                number,
                get,
                set,
            },
        };
        Held { slot }
    }

    /// Its number.
    pub(crate) fn number(&self) -> u64
        ensures { result ≡ self.now.number }
    {
        match &self.slot {
            Slot::Plain { number, .. } => *number,
            Slot::Accessor { number, .. } => *number,
        }
    }

    /// The parts of the property.
    pub(crate) fn parts(&self) -> PropRef<'_>
        ensures { prop_of result ≡ self.now.prop }
    {
        match &self.slot {
            Slot::Plain { flags, value, .. } => PropRef::Plain {
                value,
                flags: *flags,
            },
            Slot::Accessor {
                flags,
                get,
                set,
                ..
            } => PropRef::Accessor {
                get: *get,
                set: *set,
                flags: *flags,
            },
        }
    }
}
