//! Whether a literal fits a type (Web IDL, "Default values"). The rule on default values is stated in
//! `widl_overload`; here it is for a literal and a type of a merged list of `widl_idl`, for those who ask it of
//! default values and for those who ask it of other literals. The contract that is used above is that of
//! [`literal_fits`], over the [`Tables`] of a list, which are made once for all questions.
#![tactic(auto)]

mod choice_values;
mod literals;
mod machine;
mod required_members;
mod tables;

pub use literals::{any_takes, literal_fits};
pub use tables::Tables;
