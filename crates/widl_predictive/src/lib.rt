//! Predictive parsing: which token lists a grammar of rows derives, and where exactly a list stops
//! being the beginning of a sentence or begins a nested part too deep.
//!
//! It stands on nothing. The theory, the computed check of a grammar's tables and the machine are
//! proved once, for every grammar that implements [`Rule`]. The crates above learn which lists are
//! accepted from the contract of [`read_sentence`]: `Ok` exactly for the sentences without a deep
//! place, and otherwise the fault of the list at its exact place. In tokens that are known to be a
//! sentence, [`next_token`] reads what one rule derives, token by token, however deep it is nested.
//! The laws on sentences and places are the contracts of the functions of [`laws`].
#![tactic(auto)]

mod fault;
mod grammar;
pub mod laws;
mod machine;
mod unfoldings;

pub use fault::Fault;
pub use grammar::{Rule, Symbol};
pub use machine::{Frame, next_token, read_sentence};
