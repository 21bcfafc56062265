//! The word `tree`: the trees of files are built.

use crate::files::{read, tokens_of};
use anyhow::{Result, bail};
use std::alloc::Global;
use std::mem::ManuallyDrop;
use widl_lex::Tokens;
use widl_syntax::parse;

/// How many definitions the tokens have. Their tree is left to the end of the program.
fn definitions(alloc: Global, name: &str, tokens: &Tokens<'_>) -> Result<usize> {
    match parse(alloc, tokens) {
        Ok(fragment) => Ok(ManuallyDrop::new(fragment).definitions.len()),
        Err(fault) => bail!("{name}: {fault:?}"),
    }
}

/// Prints how many bytes, tokens and definitions the files have.
pub fn run(rt: &HostRuntime, names: &[String]) -> Result<()> {
    let mut bytes = 0usize;
    let mut tokens = 0usize;
    let mut found = 0usize;
    for name in names {
        let file = read(rt, name.as_str())?;
        let listed = tokens_of(rt.alloc(), name.as_str(), file.as_slice())?;
        bytes = bytes.saturating_add(file.len());
        tokens = tokens.saturating_add(listed.len());
        found = found.saturating_add(definitions(rt.alloc(), name.as_str(), &listed)?);
    }
    println!(rt; "{bytes} bytes, {tokens} tokens, {found} definitions")?;
    Ok(())
}
