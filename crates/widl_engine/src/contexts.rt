//! The part of a machine that actions change, but for the store.

use crate::bindings::Bindings;
use widl_value::Value;

/// The context of an open call.
#[derive(Drop)]
pub struct Context {
    /// The value of `this`.
    pub this: Value,
    /// The function of the script, by its number.
    pub function: Option<u32>,
    /// What is bound to the names that are local in it.
    pub locals: Bindings,
}

/// Names, symbols and contexts.
#[derive(Drop)]
pub struct Place {
    /// What is bound to the other names.
    pub globals: Bindings,
    /// The number of the next symbol.
    pub next_symbol: u32,
    /// The innermost context: none outside calls.
    pub here: Option<Context>,
    /// The contexts around it, the innermost last.
    pub outer: Vec<Context>,
}
