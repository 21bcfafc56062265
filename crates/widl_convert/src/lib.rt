//! Conversions between values of the script language and IDL values, and the choice of an overload. What a
//! conversion needs of the script's objects (a property, a call) it asks, one [`Ask`] at a time, and goes on
//! with the [`Answer`].
//!
//! It stands on the steps of conversions (`widl_steps`): `rule` there gives each task its steps. An
//! [`Asker`] is a conversion that is suspended at each ask. The contract that the crates above use: what
//! [`Asker::resume`] answers is exactly what comes next in the talk of its task, tasks alone lead to it
//! from what was left, and less is left after each ask that takes no charge. Interfaces, callbacks and
//! promises aren't converted yet. The laws of askers are the contracts of the functions of [`laws`].
#![tactic(auto)]

mod asker;
mod containers;
mod convert;
mod defaults;
mod dictionary;
mod entry;
mod entry_map;
mod frames;
mod jobs;
pub mod laws;
mod literals;
mod members_left;
mod moves;
mod nullable;
mod outcome;
mod primitive;
mod record;
mod resolution;
mod resolve;
mod results;
mod scalar;
mod scalar_types;
mod sequence;
mod served;
mod settle;
mod stack;
mod steps;
mod union;
mod union_members;
mod waits;

pub use asker::Asker;
pub use literals::literal_value;
pub use members_left::requires_member;
pub use moves::Ending;
pub use nullable::inner_type;
pub use outcome::{Next, Outcome};
pub use served::is_served;
pub use widl_steps::{Answer, Ask, CursorState, KindName, ScriptEntries, Want};
