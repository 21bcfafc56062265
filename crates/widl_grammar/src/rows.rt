//! The grammar: the rows of each rule.

pub mod all;
pub mod arguments;
pub mod definitions;
pub mod members;
pub mod types;
