//! What is kept of a callee's overloads.

use widl_idl::Callee;
use widl_text::Items;

/// The overloads of a callee that a number of arguments keeps (Web IDL, "overload resolution algorithm",
/// steps 1 to 8). Their tuples aren't built.
#[derive(Drop)]
pub struct Kept {
    /// The callee.
    pub callee: Callee,
    /// The numbers of the overloads that have a tuple of this length, in order.
    pub overloads: Items<u32>,
    /// How many arguments count, which is the length of the tuples.
    pub argcount: u32,
    /// The lowest place at which each two of the tuples have distinguishable types (Web IDL,
    /// "distinguishing argument index"). It is there exactly where several overloads are kept. Where no
    /// place tells them apart, which is so in no valid list, it is `argcount`.
    pub place: Option<u32>,
}
