//! The meaning of a run: how the statements and expressions of a script change a world, and the trace
//! that this gives for a whole script.
//!
//! It stands on the theory of runs (`widl_dialog`), on the trees of scripts, the store, the events and
//! the values, and on the conversations of built-in functions and conversions (`widl_steps`). It has
//! definitions and laws but no code: what runs a script is measured against it. A
//! world is all that the rest of a run depends on; an action is the smallest thing that is done to one,
//! and the only place where a run is stopped; `rule` gives each statement, expression and call its
//! steps, and each ask of a conversation (`specs/Asks.antt`). `IsTrace` is the relation between a list of
//! definitions, a script, a budget, the lines and the end. The laws are the contracts of the functions of
//! [`laws`]: everything that is done in a world has one outcome, each script has one trace for each
//! budget, lines only grow and are paid, a run adds no more objects than it takes units, and each object
//! that an action names is there.
#![tactic(auto)]

pub mod laws;
mod stop;

pub use stop::Stop;
