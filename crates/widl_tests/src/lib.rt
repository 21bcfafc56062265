//! The tests of the crates below, in a crate of their own: a crate with tests is proved twice, once with and once
//! without them. A module holds the tests of the crate of its name, `streamed` those of the writer of `widl_sink` and
//! `line_levels` those of the levels of `widl_lines`; [`shared`] has the definitions, types and values that several make. It
//! stands on crates up to `widl_front` and `widl_tables`, and knows none of the crates that convert, call and run, whose runs
//! stand on the pages of `widl_rows` and in `widl_top_tests`: so do all sets that can be written as files. Each test is a few calls of
//! helpers over constant tables, since each function is proved. Nothing stands on it.
#![tactic(auto)]

#[cfg(test)]
mod first;
#[cfg(test)]
mod folder;
#[cfg(test)]
mod grammar;
#[cfg(test)]
mod graph;
#[cfg(test)]
mod idl;
#[cfg(test)]
mod lex;
#[cfg(test)]
mod line_levels;
#[cfg(test)]
mod lines;
#[cfg(test)]
mod overload;
#[cfg(test)]
mod scalar;
#[cfg(test)]
mod shared;
#[cfg(test)]
mod sink;
#[cfg(test)]
mod spell;
#[cfg(test)]
mod store;
#[cfg(test)]
mod streamed;
#[cfg(test)]
mod tables;
#[cfg(test)]
mod text;
#[cfg(test)]
mod trace;
#[cfg(test)]
mod value;
