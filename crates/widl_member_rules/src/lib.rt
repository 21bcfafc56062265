//! The rules of validity that read members: one by itself with what its type means, or all of an interface or a
//! namespace in merged order. It stands on the trees of `widl_idl`, on the meanings and parts of `widl_names`, on
//! `widl_overload`, where each rule is stated, and on `widl_refusals`. The one contract that is used above:
//! [`find_in_members`] answers exactly the first refusal by these rules, or none.
#![tactic(auto)]

mod apart_members;
mod constant_values;
mod kept_names;
mod member_refusals;
mod member_types;
mod overload_counts;
mod owner_members;
mod owners;
mod promise_overloads;
mod repeated_members;
mod stringifiers;

pub use member_refusals::find_in_members;
