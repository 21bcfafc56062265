//! The rules of validity that read a type where it is written, with what it means there. It stands on the trees of
//! `widl_idl`, on the meanings of types of `widl_names`, on `widl_overload`, where each rule is stated, on the spans
//! of `widl_inheritance`, which tell related interfaces, and on `widl_refusals`. The one contract that is used above:
//! [`find_in_types`] answers exactly the first refusal by these rules, or none.
#![tactic(auto)]

mod annotation_rules;
mod clamp_rules;
mod copied;
mod indistinguishable_members;
mod kinds_seen;
mod lineages;
mod nullable_rules;
mod related_interfaces;
mod resolved_uses;
mod role_rules;
mod type_refusals;
mod type_uses;
mod unasked_uses;
mod union_rules;

pub use type_refusals::find_in_types;
