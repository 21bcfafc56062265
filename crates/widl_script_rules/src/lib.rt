//! The rules on the names, the places and the steps of a script over a list of definitions, asked of its words as they
//! stand, before a table is made. The main contract is that of [`least_break::least_break`]: it answers the first of
//! these rules that is broken, at its place.
#![tactic(auto)]

mod arguments;
mod blocks;
mod callbacks_and_pairs;
mod fits;
mod known_names;
pub mod least_break;
mod list_tables;
mod misfits;
mod names;
pub mod operation_target;
mod overloads;
mod owner_names;
mod places;
mod placing;
mod repeated_functions;
mod repeated_parameters;
mod repeated_targets;
mod same_types;
mod slots;
mod standings;
mod step_lines;
mod step_uses;
mod step_walk;
mod targets;
mod unknown_names;
mod wanted;
