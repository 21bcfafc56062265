//! The theory of conversations and of runs: what the steps of an algorithm ask and are answered, and
//! what they do in a world.
//!
//! It stands on nothing, and has definitions and laws but no code. Steps are a tree, `Dialog`: they end
//! with a completion, ask and go on by the answer, or perform the steps of a job and go on by its
//! completion. `Comes` is what comes next in a conversation, `At` where one stands, `Does` what steps
//! do to a world; `rename` puts steps into larger rules and `lift` into a world. The laws are the
//! contracts of the functions of [`laws`], for all rules: one thing comes next; a part's conversation
//! followed by the rest's is the whole's; a run of a conversation's steps is that conversation with its
//! asks done one after another, to its end or to one that stops; there is one outcome; each run ends
//! where charges are paid and rules are calm; what each action keeps, a run keeps. The crates above
//! state them again at their own rules, by the lemmas of `proofs/`.
#![tactic(auto)]

pub mod laws;
mod rules;

pub use rules::Rules;
