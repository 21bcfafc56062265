//! Merging: the rules of the profile and of merging over the trees of a set of files, and the list of
//! definitions that the files declare. It stands on the trees, the predicates and the violations of
//! `widl_idl`, on the walk of `widl_graph`, and on the names of `widl_names`. The contract that is used above:
//! [`merge`] answers the merged list of files that break none of these rules, or exactly the first
//! refusal; [`merge_scope`] is the same where the tables of the files' names are at hand.
#![tactic(auto)]

mod callbacks;
mod cycles;
mod defs;
mod dictionary_parts;
mod enumerations;
mod long_texts;
mod member_parts;
mod merged_dictionaries;
mod merged_interfaces;
mod merged_members;
mod merged_set;
mod merging;
mod name_rules;
mod name_units;
mod nesting;
mod node_rules;
mod numbered_items;
mod operation_numbers;
mod operations;
mod parents;
mod profile;
mod reference_rules;
mod refusals;
mod signatures;
mod sources;
mod sums;
mod typedefs;

pub use merged_set::{MergeFault, merge, merge_scope};
