//! The tables that pick a row by the token ahead.

pub mod all;
pub mod arguments;
pub mod definitions;
pub mod members;
pub mod types;
