//! The tables of a script: its expressions and its statements as nodes, its functions, its steps blocks
//! and its names. It stands on `widl_text`, `widl_idl` and `widl_value`. What a script says is a tree,
//! in which names are texts; code reads the tables, whose nodes name their parts by lower places. The
//! contracts that the crates above use: each call of [`ScriptTables`] puts one thing at the end of its
//! table and answers the place, and [`Script::expression`], [`Script::statement`] and
//! [`Script::function`] answer the node whose parts' trees make the tree of its place.
#![tactic(auto)]

mod expression;
mod function;
mod items;
pub mod laws;
mod local_names;
mod row;
mod script;
mod statement;
mod steps;
mod tables;
mod units;

pub use expression::{Expression, MemberKey, MemberOf};
pub use function::{Function, Params};
pub use local_names::LocalNames;
pub use row::Row;
pub use script::Script;
pub use statement::Statement;
pub use steps::{Invoke, Source, Sources, StepLine, StepLines, StepsBlock, Target};
pub use tables::ScriptTables;
