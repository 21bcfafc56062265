//! Laws on the grammar of a script's lines: whatever words spell one of the forms of lines, the grammar by which scripts are
//! read has them.
//!
//! It stands on `widl_lines`, which has the grammar, and on `widl_script_words`, which says how trees are spelled. No crate stands
//! on it.
#![tactic(auto)]

pub mod laws;
