//! The definitions and types of Web IDL as plain data: what a set of files declares once its partials and
//! mixins are put together and its types are resolved (`src/*.rt`), the syntax trees of files ([`tree`]), and
//! what the rules of the profile and of merging say (`specs/Profile.antt`, `specs/MergingRules.antt`). It
//! stands on `widl_text` and, for one definition, on `widl_graph`. Each list in it is a
//! [`widl_text::Items`], which contracts see as a list, but for [`IdlTypes`]; a type holds itself in boxes,
//! and contracts speak of its term without them. The contracts that the crates above use most: [`flattened`]
//! gives the flattened member types of a union, [`same_type`] tells whether two terms are equal, [`Merged`]
//! holds a set of files with its merged list, and [`earlier_violation`] and [`joined`] choose the first
//! violation and the first refusal.
//!
//! Short names: an [`Iface`] is an interface, a [`Space`] a namespace, a [`Dict`] a dictionary, a [`Choice`]
//! an enumeration, an [`OpName`] the operations of one name, a [`Sig`] one overload's signature, an [`Arg`] an
//! argument, an [`Attr`] an attribute; `ctors` are constructors, `fixed` means static, a [`Slot`] is a member
//! in its place among all members, a [`Callee`] is what can be called.
#![tactic(auto)]

mod argument;
mod attribute;
mod callback;
mod callee;
mod constant;
mod defs;
mod dictionary;
mod enumeration;
mod first_refusal;
mod int_kind;
mod interface;
mod kind;
mod literal;
mod merged;
mod merging_rule;
mod namespace;
mod operation;
mod profile_rule;
mod ranges;
mod refusal;
mod sameness;
mod signature;
mod string_types;
mod text_kind;
pub mod tree;
mod types;
mod unions;
mod violation;

pub use argument::{Arg, Args, Optionalities, Optionality};
pub use attribute::{Attr, Attrs};
pub use callback::{Callback, Callbacks};
pub use callee::{Callee, Owner, Part};
pub use constant::{Constant, Constants};
pub use defs::Defs;
pub use dictionary::{Dict, Dicts, Member, Members};
pub use enumeration::{Choice, Choices, Texts};
pub use first_refusal::joined;
pub use int_kind::{IntKind, Mode};
pub use interface::{Iface, Ifaces, Pair, Slot, Slots, Stringify};
pub use kind::Kind;
pub use literal::Literal;
pub use merged::Merged;
pub use merging_rule::MergingRule;
pub use namespace::{Space, Spaces};
pub use operation::{OpName, OpNames};
pub use profile_rule::{ProfileRule, Unsupported};
pub use ranges::{greatest_value, is_in_range, least_value};
pub use refusal::Refusal;
pub use sameness::same_type;
pub use signature::{Sig, Sigs};
pub use string_types::is_unit_string;
pub use text_kind::TextKind;
pub use tree::{Fragment, Fragments};
pub use types::{IdlType, IdlTypes};
pub use unions::{flattened, includes_nullable, nullable_count};
pub use violation::{Violation, comes_before, earlier_violation};
