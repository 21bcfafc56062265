//! Calls of operations and of the functions that are there before a script begins.
//!
//! It stands on the steps of calls (`widl_steps`), where `call_rule` gives each task its steps, on the
//! conversions (`widl_convert`), which are parts of a call, and on the tables of scripts for the steps
//! blocks. A [`CallAsker`] is a call that is suspended at each ask. The contract that the crates above use:
//! what [`CallAsker::resume`] answers is exactly what comes next in the talk of its task, tasks alone lead to
//! it from what was left, and less is left after each ask that takes no charge.
#![tactic(auto)]

mod arguments;
mod array_functions;
mod array_turns;
mod call_asker;
mod conversions;
mod default_results;
mod ends;
mod frames;
mod functions;
mod inside;
mod jobs;
mod moves;
mod object_functions;
mod operations;
mod overload;
mod settle;
mod step_lines;
mod steps;
mod waits;

pub use call_asker::CallAsker;
