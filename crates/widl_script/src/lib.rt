//! What a script says over a list of definitions: its words, which `widl_lines` cuts and checks, are asked for the
//! rules on names, places and steps (`widl_script_rules`), and are put into the tables of `widl_script_tree`
//! (`widl_script_reader`); here the tables are told what each name and each steps block is for. Which words a tree has
//! is its spelling (`widl_script_words`), and a script is the spelling of one tree at most. The main contract is that
//! of [`read_script`]: it answers the script's tree, or its first broken rule at its place.
#![tactic(auto)]

mod callee_blocks;
mod owners;
mod read;
pub mod rule_laws;

pub use read::read_script;
