//! The words of scripts: which words each tree is spelled by, and, by [`laws`], that words are those of one tree at
//! most; and a reader over the words of a line, with what it reads of them alone: constants, what a steps block is
//! for, and the lines of steps blocks. The words are those that `widl_lines` has cut and checked, so that nothing but
//! memory can be wanting.
#![tactic(auto)]

mod block_words;
mod constants;
pub mod laws;
mod reader;
mod steps;
mod targets;

pub use block_words::{BlockWord, block_word_of};
pub use constants::{number_of, text_of};
pub use reader::Reader;
