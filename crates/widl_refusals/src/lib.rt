//! What the crates that ask the rules of validity share: the first refusal by some of these rules, which is put
//! together from the first violation of each. It stands on the refusals of `widl_idl`, and on `widl_overload`,
//! where each rule is stated. The contracts that are used above: [`first`] and [`earlier_refusal`] answer the earlier of two refusals; `proofs/FirstRefusals.antt` says
//! that the first of a union is the earlier of the firsts.
#![tactic(auto)]

mod refusals;

pub use refusals::{earlier_refusal, first};
