//! The lines that list what can be called: the effective overload set of each operation name and of the
//! constructors of each interface, a line a tuple, and the distinguishing argument index of each length
//! that several tuples have. It stands on the merged list of `widl_idl`, the sets of `widl_overload` and
//! the texts of `widl_spell` and `widl_trace`. The contract that is used above: [`set_lines`] answers exactly these lines, the interfaces in the order of their ids.
#![tactic(auto)]

mod lines;
mod listing;

pub use listing::set_lines;
