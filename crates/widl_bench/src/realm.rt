//! The word `realm`: the first store of a set of files is made, some number of times.

ghost use Rattle.widl_idl.specs.DefinitionTerms.{defs_term};
ghost use Rattle.widl_overload.specs.OperationsAlone.{HasOperationsAlone};

use crate::numbers::number_of;
use crate::sets::set_of;
use anyhow::{Result, bail};
use std::alloc::{AllocError, Global};
use std::mem;
use widl_overload::{Accepted, has_operations_alone};
use widl_store::realm;

/// Makes so many first stores of a list, and leaves them all to the end of the program.
fn make_stores(alloc: Global, list: &Accepted, count: usize) -> Result<(), AllocError>
    requires { HasOperationsAlone (defs_term list.now.defs) }
{
    for _ in 0..count {
        match realm(alloc, list) {
            Ok(store) => mem::forget(store),
            Err(error) => return Err(error),
        }
    }
    Ok(())
}

/// Makes as many stores of the set of the files as the first argument says, keeps them all, and prints their number.
pub fn run(rt: &HostRuntime, args: &[String]) -> Result<()> {
    let [count, names @ ..] = args else {
        bail!("a count and names of files are wanted");
    };
    let count = number_of(count.as_str())?;
    let set = set_of(rt, names)?;
    let list: &Accepted = &set;
    if has_operations_alone(list) {
        make_stores(rt.alloc(), list, count)?;
        println!(rt; "{count} stores")?;
        Ok(())
    } else {
        bail!("the first store of the set of files is not supported")
    }
}
