//! The lines of a script: its bytes cut into lines and words, each line read by the grammar of a script's lines,
//! blocks by a stack, and the first rule of form that the script breaks at its exact line and column.
//!
//! It stands on `widl_lex`, which tells where bytes stop being UTF-8, on `widl_predictive`, whose machine reads the
//! grammar of [`Rule`], and on `widl_first`, by which breaks come in order. The one contract that the crates above
//! use is that of [`ScriptWords::read`]: `Ok` exactly for the scripts without a break, with the words of every
//! line, and otherwise the first break. That a script has at most one is a law of [`laws`].
#![tactic(auto)]

mod blocks;
mod characters;
mod grammar;
mod integers;
pub mod laws;
mod line_break;
mod lines;
mod listed;
mod picks;
mod reading;
mod rows;
mod script_place;
mod script_words;
mod shape;
mod spelling;
mod terminal;
mod text_break;
mod texts;
mod word_bytes;
mod word_form;
mod words;

pub use blocks::Block;
pub use grammar::{Rule, Terminal};
pub use reading::LineWords;
pub use script_place::{ScriptFault, ScriptPlace};
pub use script_words::ScriptWords;
pub use terminal::terminal_of;
pub use texts::{is_large, units_of};
pub use widl_text::integer_of;
pub use word_form::WordForm;
pub use words::Word;
