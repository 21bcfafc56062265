//! Functions of a script.

use crate::local_names::LocalNames;
use crate::row::Row;
use widl_text::Items;

/// Numbers of names, in order.
pub type Params = Items<u32>;

/// A function, with the names by their numbers.
#[derive(Drop)]
pub struct Function {
    /// The function's name.
    pub name: u32,
    /// The parameters.
    pub params: Params,
    /// The names that are local in the function.
    pub names: LocalNames,
    /// The statements.
    pub body: Row,
}
