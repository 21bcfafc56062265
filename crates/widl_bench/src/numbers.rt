//! Numbers among the arguments.

use anyhow::{Result, bail};

/// The number that an argument is.
pub fn number_of(text: &str) -> Result<usize> {
    match text.parse::<usize>() {
        Ok(number) => Ok(number),
        Err(_) => bail!("{text} is no number"),
    }
}
