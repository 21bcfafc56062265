//! Overloads of Web IDL and what validity means: which types are distinguishable, the effective overload
//! set of a callee, the argument by which overloads are distinguished, the statements of all 36 rules of
//! validity (`specs/rules/Validity.antt` and the files that it joins; two of them, on overloads, are asked here,
//! the others in the crates above), and [`Accepted`], a set of files that breaks none of
//! them. It stands on `widl_text`, `widl_graph` and `widl_idl`. The contract that the crates above use:
//! [`effective_set`] lists each tuple of the standard's set once.
#![tactic(auto)]

mod accepted;
mod callees;
mod category;
mod differing;
mod distinct;
mod index;
mod inheritance;
mod operations_alone;
mod overload_names;
mod overload_rules;
mod overload_sizes;
mod overload_violations;
mod sets;
mod span;
mod standing;
mod telling;
mod tuple;
mod type_role;
mod validity_rule;

pub use accepted::Accepted;
pub use callees::{overload_list, overloads};
pub use category::Category;
pub use distinct::{
    any_dictionary, category_of, distinguishable, distinguishable_by_rules,
    distinguishable_from_itself, distinguishable_is_symmetric,
};
pub use index::distinguishing_index;
pub use inheritance::inherits;
pub use operations_alone::has_operations_alone;
pub use overload_rules::first_overload_violations;
pub use overload_violations::OverloadViolations;
pub use sets::{all_free, effective_set, effective_set_is_as_constructed, is_free, longest_list};
pub use standing::{Standing, standing_in, type_at};
pub use tuple::{OverloadSet, Tuple};
pub use type_role::TypeRole;
pub use validity_rule::ValidityRule;
