//! The grammar of Web IDL as data, made by `tools/grammar.py`: its terminals and rules, the rows of each rule
//! with their look-ahead tables, the printed grammar with its options and repetitions, and which token lists
//! are sentences and where exactly the fault of any other list is.
//!
//! It stands on the tokens of `widl_lex` and on `widl_predictive`, whose machine reads the grammar of
//! [`Rule`]. The one contract that the crates above use is that of [`check_syntax`]: `Ok` exactly for the
//! sentences of the grammar without a type of level 17, and otherwise the place of the fault. That the
//! rows have the sentences of the printed grammar is a law of [`laws`].
#![tactic(auto)]

mod fault;
mod grammar;
pub mod laws;
mod lookup;
mod picks;
mod rows;
mod rule;
mod sentence;
mod source;
mod spelling;
mod table;
mod terminal;

pub use fault::SyntaxFault;
pub use lookup::quoted;
pub use rule::Rule;
pub use sentence::read_definitions;
pub use source::{check_syntax, check_terminals, terminal_of, terminals_of};
pub use table::is_same;
pub use terminal::Terminal;
