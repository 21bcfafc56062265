//! The word `syntax`: the tokens of files are checked against the grammar.

use crate::files::{read, tokens_of};
use anyhow::Result;
use widl_grammar::check_syntax;

/// Prints how many bytes and tokens the files have, and how many of them are Web IDL.
pub fn run(rt: &HostRuntime, names: &[String]) -> Result<()> {
    let mut bytes = 0usize;
    let mut tokens = 0usize;
    let mut accepted = 0usize;
    for name in names {
        let file = read(rt, name.as_str())?;
        let listed = tokens_of(rt.alloc(), name.as_str(), file.as_slice())?;
        bytes = bytes.saturating_add(file.len());
        tokens = tokens.saturating_add(listed.len());
        let found = usize::from(check_syntax(rt.alloc(), &listed).is_ok());
        accepted = accepted.saturating_add(found);
    }
    println!(rt; "{bytes} bytes, {tokens} tokens, {accepted} accepted")?;
    Ok(())
}
