//! The rules of validity over a set of files whose definitions are put together: those on definitions, on types and
//! on members, which have a crate each, those of `widl_inheritance`, and those of `widl_overload` on overloads, where
//! each rule is stated. It joins their first refusals. The one contract that is used above: [`validate`] accepts
//! exactly the sets that break none of these rules, and otherwise answers the first refusal; [`find_invalid`] is the same
//! test where the tables of the files' names are at hand.
#![tactic(auto)]

mod acceptance;
mod inherited_refusals;
mod invalidity;

pub use acceptance::{ValidFault, validate};
pub use invalidity::find_invalid;
