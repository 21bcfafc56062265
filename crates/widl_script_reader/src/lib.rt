//! Tables out of the words that `widl_lines` has checked: the main contract is that of [`build`], by which a script's
//! words are those of the tree that its tables have.
//!
//! Each function reads the words of one rule of the grammar of lines, and takes those unseen of which the rule
//! leaves no choice; only memory can be wanting. Its contract ties the words that it took to the part of the tree
//! that it put, for whatever the tables grow to, wherever words of that rule come next. Brackets are read by
//! recursion, since a line nests 32 of them at most; members, calls and lists are loops, and the blocks that are
//! open lie on a stack.
#![tactic(auto)]

mod blocks;
mod calls;
mod expressions;
mod forms;
mod frames;
mod functions;
mod members;
mod nodes;
mod script;
mod statements;

pub use script::{Built, build};
