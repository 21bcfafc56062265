//! The first of what has a property, in any order that a test tells: it has the property, and nothing that has it
//! stands before (`specs/First.antt`). Violations and refusals are such orders, and so are keys, lists of numbers in
//! the order of words, as a line, a column and a rule (`specs/Keys.antt`).
//!
//! It stands on nothing. What is used above is that the first of two kinds of things is the first of their firsts
//! (`proofs/Firsts.antt`; of keys [`laws`] and [`first_of`]). So what finds the first break of many rules asks each
//! rule alone and joins the answers.
#![tactic(auto)]

mod keyed;
pub mod laws;

pub use keyed::{Keyed, first_of};
