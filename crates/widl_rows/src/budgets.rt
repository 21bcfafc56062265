//! Runs with lesser budgets: with each that is too small the lines are the first ones of the whole, and the last is that
//! of the stop.

use crate::fault::Fault;
use crate::report::Report;
use crate::run::{Answer, Run, is_same, run_with, sink};
use std::alloc::Global;
use widl_top::Files;

/// The exit status of a run that is stopped.
const STOPPED: u8 = 9;

/// Whether a run wrote the first lines of a text and then stopped for want of units.
fn is_stopped(given: &Answer<'_>, text: &str) -> bool {
    match given.text.strip_suffix("stop budget\n") {
        Some(lines) => {
            given.status == STOPPED
                && text.starts_with(lines)
                && (lines.is_empty() || lines.ends_with("\n"))
        }
        None => false,
    }
}

/// The budget of a run.
fn budget_of(words: &str) -> Result<u32, Fault> {
    match words.split(' ').nth(1) {
        Some(word) => Ok(word.parse::<u32>()?),
        None => Err(Fault::Page("a budget is wanted")),
    }
}

/// Runs the command with each lesser budget, from one unit on, and reports the first with which it neither gives the wanted
/// answer nor is stopped in the midst of it. No budget after the first that is enough is tried; where the run's own is to be
/// the least that is enough, such a one is reported.
///
/// # Errors
///
/// `Memory` where there is no memory, `Page` where the run has no budget.
pub fn try_lesser(
    alloc: Global,
    files: &Files,
    run: &Run<'_>,
    is_least: bool,
    report: &mut Report,
) -> Result<(), Fault> {
    for budget in 1..budget_of(run.words)? {
        let mut out = sink(alloc)?;
        let given = run_with(alloc, files, run.words, Some(budget), &mut out)?;
        let is_enough = is_same(&run.wanted, &given);
        if is_enough && !is_least {
            return Ok(());
        }
        if is_enough || !is_stopped(&given, run.wanted.text) {
            return Ok(report.tell(run, Some(budget), &given)?);
        }
    }
    Ok(())
}
