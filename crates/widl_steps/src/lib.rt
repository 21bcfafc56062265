//! What conversions, the choice of an overload, operations and built-in functions ask and are answered, by
//! definition: as conversations. What one of them needs of the script's objects (a property, a call) it asks,
//! one [`Ask`] at a time, and goes on with the [`Answer`].
//!
//! It stands on the theory of conversations (`widl_dialog`), on values, definitions, events, the trees and
//! tables of scripts for the steps blocks, and the choice by classes (`widl_tables`). It has definitions and
//! laws, and no code but the enums of asks and answers. The steps are in `specs/`, a file for each subject,
//! with the section of the standard at its head: `rule` (`specs/Rules.antt`) gives each task of a conversion
//! its steps, and `call_rule` (`specs/CallRules.antt`) each task of a call. The laws are the contracts of the
//! functions of [`laws`] and [`call_laws`]. What suspends a conversion or a call at each ask
//! (`widl_convert`, `widl_calls`) is measured against these steps, and a run (`widl_runs`) is made of them.
#![tactic(auto)]

mod answer;
mod ask;
pub mod call_laws;
mod hint;
pub mod laws;
mod want;

pub use answer::{Answer, CursorState, KindName};
pub use ask::{Ask, Change, Look, New, ScriptEntries};
pub use hint::Hint;
pub use want::Want;
