//! The rules of validity that read a definition by itself, or one list of arguments in it. It stands on the trees of
//! `widl_idl`, on `widl_overload`, where each rule is stated, on `widl_inheritance`, which lists the arguments of a
//! definition, and on `widl_refusals`. The one contract that is used above: [`find_in_definitions`] answers exactly
//! the first refusal by these rules, or none.
#![tactic(auto)]

mod argument_rules;
mod definition_refusals;
mod definition_rules;
mod known_texts;

pub use definition_refusals::find_in_definitions;
