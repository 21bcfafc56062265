//! The word `tokens`: the tokens of files are listed.

use crate::files::{read, tokens_of};
use anyhow::Result;

/// Prints how many bytes and tokens the files have.
pub fn run(rt: &HostRuntime, names: &[String]) -> Result<()> {
    let mut bytes = 0usize;
    let mut tokens = 0usize;
    for name in names {
        let file = read(rt, name.as_str())?;
        let listed = tokens_of(rt.alloc(), name.as_str(), file.as_slice())?;
        bytes = bytes.saturating_add(file.len());
        tokens = tokens.saturating_add(listed.len());
    }
    println!(rt; "{bytes} bytes, {tokens} tokens")?;
    Ok(())
}
