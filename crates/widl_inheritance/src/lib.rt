//! The rules of validity that read what is inherited, and default values: on dictionaries and the types of
//! their members, on arguments that a call may leave out, and on iterables. It stands on the merged list of
//! `widl_idl`, on the names of `widl_names`, on `widl_fits`, which tells whether a literal fits a type, and on
//! `widl_overload`, where each rule is stated. The contract that is used above: each function answers exactly the first place at which its rule is broken, or none.
#![tactic(auto)]

mod argument_lists;
mod defaulted;
mod defaults;
mod empty_defaults;
mod fitting;
mod holding;
mod interface_lines;
mod interface_members;
mod iterables;
mod iterations;
pub mod laws;
mod long_chains;
mod member_names;
mod written_fitting;

pub use argument_lists::arguments_in;
pub use defaults::first_other_default;
pub use empty_defaults::first_without_empty_default;
pub use holding::{Holdings, first_holding_itself};
pub use iterables::{IterableViolations, find_iterables};
pub use long_chains::first_long_chain;
pub use member_names::first_repeated_member;
