//! The machine that does a script, with a stack of its own, on which conversations of built-in functions
//! wait for the ends of their asks. It stands on the tables of scripts, the store, the trace, the
//! conversations (`widl_calls`) and the definition of runs. The contract that the crates above use: [`run`] emits the lines of
//! the one trace of a script for its budget and tells how it ends, or emits a first part of them.
#![tactic(auto)]

mod acts;
mod advance;
mod answering;
mod arrays;
mod asks;
mod at_once;
mod bindings;
mod calls;
mod calls_at_once;
mod changes;
mod charges;
mod contexts;
mod conversations;
mod due;
mod ends;
mod entering;
mod errors;
mod expressions;
mod following;
mod frames;
mod giving;
mod globals;
mod indexed_bindings;
mod jobs;
mod looks;
mod machine;
mod members;
mod moves;
mod new_objects;
mod objects;
mod parts;
mod paying;
mod perform;
mod properties;
mod rows;
mod runs;
mod same_values;
mod statements;
mod suspended;

pub use runs::{Counts, End, run};
pub use widl_runs::Stop;
