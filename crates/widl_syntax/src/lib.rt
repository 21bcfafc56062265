//! The syntax tree of a file of Web IDL.
//!
//! It stands on the tokens of `widl_lex`, on the grammar of `widl_grammar` and on the tree's types in
//! `widl_idl`. The one contract that the crates above use is that of [`parse`]: `Ok` exactly for the
//! sentences of the grammar without a type of level 17, with the tree that spells the file's tokens, and
//! otherwise the place of the fault.
#![tactic(auto)]

mod build;
mod fragment;
pub mod laws;

pub use fragment::parse;
pub use widl_grammar::SyntaxFault;
