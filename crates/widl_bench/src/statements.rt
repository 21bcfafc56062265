//! The word `statements`: the tables of scripts are built.

use crate::files::{read_short, words_of};
use anyhow::Result;
use std::alloc::Global;
use std::mem::ManuallyDrop;
use widl_lines::ScriptWords;
use widl_script_reader::build;

/// How many statements stand in the tables of a script, which are left to the end of the program.
fn statements_of(alloc: Global, words: &ScriptWords<'_>) -> Result<usize> {
    let built = ManuallyDrop::new(build(alloc, words)?);
    Ok(built.tables.statement_count() as usize)
}

/// Prints how many bytes the scripts have, how many lines with words, and how many statements stand in their tables
/// with those of the rows of blocks.
pub fn run(rt: &HostRuntime, names: &[String]) -> Result<()> {
    let mut bytes = 0usize;
    let mut lines = 0usize;
    let mut statements = 0usize;
    for name in names {
        let script = read_short(rt, name.as_str())?;
        bytes = bytes.saturating_add(script.len());
        if let Some(words) = words_of(rt.alloc(), name.as_str(), script.as_slice())? {
            lines = lines.saturating_add(words.lines().len());
            statements = statements.saturating_add(statements_of(rt.alloc(), &words)?);
        }
    }
    println!(rt; "{bytes} bytes, {lines} lines, {statements} statements")?;
    Ok(())
}
