//! The word `script`: the words of scripts are read and their form is checked.

use crate::files::{read_short, words_of};
use anyhow::Result;

/// Prints how many bytes the scripts have, how many lines with words, and how many scripts break no rule of form.
pub fn run(rt: &HostRuntime, names: &[String]) -> Result<()> {
    let mut bytes = 0usize;
    let mut lines = 0usize;
    let mut unbroken = 0usize;
    for name in names {
        let script = read_short(rt, name.as_str())?;
        bytes = bytes.saturating_add(script.len());
        if let Some(words) = words_of(rt.alloc(), name.as_str(), script.as_slice())? {
            lines = lines.saturating_add(words.lines().len());
            unbroken = unbroken.saturating_add(1);
        }
    }
    println!(rt; "{bytes} bytes, {lines} lines, {unbroken} without a break")?;
    Ok(())
}
