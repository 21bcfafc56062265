//! The word `compile`: what a run looks up in a set of files is made, or for comparison the set is only read.

use crate::sets::{set_of, tables_of};
use anyhow::{Result, bail};
use widl_overload::Accepted;

/// Prints how many dictionaries a set has.
fn show(rt: &HostRuntime, list: &Accepted) -> Result<()> {
    let count = list.defs().dicts.len();
    println!(rt; "{count} dictionaries")?;
    Ok(())
}

/// Reads the set of the files.
fn read(rt: &HostRuntime, names: &[String]) -> Result<()> {
    let list = set_of(rt, names)?;
    show(rt, &list)
}

/// Reads the set of the files and makes its tables.
fn make(rt: &HostRuntime, names: &[String]) -> Result<()> {
    let tables = tables_of(rt, names)?;
    show(rt, tables.list())
}

/// Reads the set of the files, makes its tables if the first argument is `tables`, and leaves it at that if it is
/// `set`. Prints how many dictionaries the set has.
pub fn run(rt: &HostRuntime, args: &[String]) -> Result<()> {
    let [what, names @ ..] = args else {
        bail!("set or tables, and names of files are wanted");
    };
    match what.as_str() {
        "set" => read(rt, names),
        "tables" => make(rt, names),
        _ => bail!("set or tables is wanted"),
    }
}
