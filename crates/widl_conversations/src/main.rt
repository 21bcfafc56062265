//! Holds the conversations of conversions, resolutions, results and calls that standard input has as rows, and
//! prints for each row all that is asked, what each ask came to, and how it ends. It stands on the crates of
//! conversions and calls (`widl_convert`, `widl_calls`), and above `widl_front`, which reads the definitions that
//! they need. The gate runs it on `stdin` and compares what it prints with `stdout`, where each end is worked from
//! the steps of the standards; the head of `stdin` says how rows are written. A line that can't be read ends the
//! program, so that no row is passed over. Values of many forms are dropped by name: what stands behind a drop at the end of a
//! scope is proved once for each form of the value.
#![tactic(auto)]

mod answers;
mod asker;
mod asks;
mod calls;
mod fault;
mod idl;
mod literals;
mod many;
mod page;
mod repeats;
mod rows;
mod steps;
mod task;
mod values;
mod words;

use anyhow::{Context, Result};
use page::Page;
use std::io;

fn main(rt: HostRuntime) -> Result<()> {
    let text = io::read_to_string(rt.alloc(), rt.reader())?;
    let mut page = Page::new();
    for line in text.as_str().lines() {
        let mut told = String::new(rt.alloc());
        page.tell(rt.alloc(), line, &mut told)
            .context(format_args!("at the line {line:?}"))?;
        println!(rt; "{told}")?;
    }
    Ok(())
}
