//! The values of the script language, as plain data. It stands on `widl_text` and `widl_idl`. The
//! crates above see each value as a finite term; a [`Number`] is exact, and [`nearest`] gives the one
//! that is nearest to a whole number. An [`IdlValue`] holds others in lists, and contracts speak of its
//! term (`idl_term`), which leaves out where they stand in memory.
#![tactic(auto)]

mod class;
mod copying;
mod flags;
mod idl_entries;
mod idl_members;
mod idl_pairs;
mod idl_slots;
mod idl_value;
mod idl_values;
mod keys;
mod number;
mod object;
mod rounding;
mod value;
mod values;

pub use class::Class;
pub use flags::Flags;
pub use idl_entries::IdlEntries;
pub use idl_members::IdlMembers;
pub use idl_pairs::{IdlPair, IdlPairs};
pub use idl_slots::{IdlSlots, copy_slot};
pub use idl_value::IdlValue;
pub use idl_values::IdlValues;
pub use keys::Keys;
pub use number::Number;
pub use object::{ObjRef, Shape};
pub use rounding::{near, nearest, nearest_is_unique, nearest_of_is_nearest, rounds_up};
pub use value::Value;
pub use values::Values;
