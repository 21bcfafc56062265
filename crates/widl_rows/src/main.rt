//! Runs the command over the pages that standard input names, a name a line, and writes each run of a page whose
//! status or output isn't the wanted one, and at last how many runs there were and how many differ. It stands on the
//! top call (`widl` of `widl_top`), with files and a sink in memory. The gate runs it on `stdin` over the pages in
//! `data/`, and compares what it writes with `stdout`. The page `differing.md` has runs whose wanted output is wrong on
//! purpose: these alone may differ. [`page`] says how pages are written.
#![tactic(auto)]

mod budgets;
mod fault;
mod page;
mod report;
mod run;

use anyhow::{Context, Result};
use page::read_page;
use report::Report;
use std::{fs, io};

fn main(rt: HostRuntime) -> Result<()> {
    let names = io::read_to_string(rt.alloc(), rt.reader())?;
    let mut report = Report::new(rt.alloc());
    for name in names.as_str().lines() {
        let text = fs::read_to_string(&rt, name).context(format_args!("the page {name}"))?;
        read_page(rt.alloc(), name, text.as_str(), &mut report).context(format_args!(
            "in the page {name}"
        ))?;
    }
    println!(rt;
        "{}{} runs, {} differ",
        report.text(),
        report.runs(),
        report.differing()
    )?;
    Ok(())
}
