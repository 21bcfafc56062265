//! The tree of tokens that are known to be a sentence of the grammar without a type of level 17.
//!
//! What a sentence must have at a place is taken there unseen, so only memory can be wanting. Each
//! function reads what one rule of the grammar derives, by its rows: its contract says that the tokens are
//! those that the part of the tree is spelled with, wherever the rule's tokens come first. Types are the
//! only parts that are built by recursion; the arguments of extended attributes, which nest without a
//! bound, are read by the machine of the grammar.

mod arguments;
mod definitions;
mod dictionaries;
mod extended_attributes;
mod iterables;
mod literals;
mod members;
mod names;
mod reader;
mod type_words;
mod types;

pub use reader::Reader;
