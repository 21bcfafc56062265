//! The word `whole`: scripts are read over the set of one file of Web IDL.

ghost use Rattle.std.specs.Prelude.{◌≤◌, length};
ghost use Rattle.widl_idl.specs.DefinitionTerms.{defs_term};
ghost use Rattle.widl_overload.specs.OperationsAlone.{HasOperationsAlone};
ghost use Rattle.widl_text.specs.Limits.{most_file_bytes};

use crate::files::read_short;
use crate::sets::set_of;
use anyhow::{Result, bail};
use std::alloc::Global;
use std::mem;
use widl_lines::ScriptFault;
use widl_overload::{Accepted, has_operations_alone};
use widl_script::read_script;

/// Whether a script breaks no rule. Its tables are left to the end of the program.
fn is_unbroken(alloc: Global, script: &[u8], list: &Accepted) -> Result<bool>
    requires short { length script.now ≤ most_file_bytes }
    requires rules { HasOperationsAlone (defs_term list.now.defs) }
{
    match read_script(alloc, script, list) {
        Ok(read) => {
            mem::forget(read);
            Ok(true)
        }
        Err(ScriptFault::Refused(_)) => Ok(false),
        Err(ScriptFault::Memory) => bail!("out of memory"),
    }
}

/// Prints how many bytes the scripts of all names but the first have, and how many of them break no rule over the
/// set of the first.
pub fn run(rt: &HostRuntime, args: &[String]) -> Result<()> {
    if args.is_empty() {
        bail!("a file of Web IDL is wanted, and then scripts");
    }
    let (file, names) = args.split_at(1);
    let set = set_of(rt, file)?;
    let list: &Accepted = &set;
    let mut bytes = 0usize;
    let mut unbroken = 0usize;
    for name in names {
        let script = read_short(rt, name.as_str())?;
        bytes = bytes.saturating_add(script.len());
        if !has_operations_alone(list) {
            bail!("scripts are not read over this set yet");
        }
        if is_unbroken(rt.alloc(), script.as_slice(), list)? {
            unbroken = unbroken.saturating_add(1);
        }
    }
    println!(rt; "{bytes} bytes, {unbroken} without a break")?;
    Ok(())
}
