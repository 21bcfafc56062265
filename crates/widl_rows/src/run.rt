//! One run of the command over files in memory.

use crate::budgets::try_lesser;
use crate::fault::Fault;
use crate::report::Report;
use std::alloc::{AllocError, Global};
use widl_sink::{MemorySink, Numbers};
use widl_top::{Files, MemoryFolder, NamedFile, Words, widl};

/// The most bytes that a run may write.
const ROOM: u32 = 100_000;

/// What a run answers and writes.
#[derive(Clone, Copy)]
pub struct Answer<'a> {
    /// The exit status.
    pub status: u8,
    /// What is written.
    pub text: &'a str,
}

/// How a run is compared with what is wanted.
#[derive(Clone, Copy)]
pub enum Comparison {
    /// It gives the wanted answer.
    Whole,
    /// So it does, and with each lesser budget the first part of it, up to the first budget that is enough.
    WholeAndParts,
    /// So it does, and with each lesser budget it is stopped.
    LeastBudget,
    /// It isn't refused: nothing else is wanted.
    Runs,
}

/// A run of a page.
#[derive(Clone, Copy)]
pub struct Run<'a> {
    /// The name of the page.
    pub page: &'a str,
    /// The heading above it.
    pub heading: &'a str,
    /// The words of the command line, with blanks between.
    pub words: &'a str,
    /// What is wanted.
    pub wanted: Answer<'a>,
    /// How it is compared with that.
    pub comparison: Comparison,
}

/// The answer that the lines below a command want. The last one is `[N]` where the status is the number N and not 0.
pub fn wanted_of(lines: &str) -> Answer<'_> {
    match status_line(lines) {
        Some((text, status)) => Answer { status, text },
        None => Answer {
            status: 0,
            text: lines,
        },
    }
}

/// The lines before the one that says the status, and the status.
fn status_line(lines: &str) -> Option<(&str, u8)> {
    let (text, digits) = lines.strip_suffix("]\n")?.rsplit_once('[')?;
    if !(text.is_empty() || text.ends_with("\n")) {
        return None;
    }
    Some((text, digits.parse::<u8>().ok()?))
}

/// Whether two answers are the same.
pub fn is_same(one: &Answer<'_>, other: &Answer<'_>) -> bool {
    one.status == other.status && one.text == other.text
}

/// Runs the command as a page says, and reports what differs.
///
/// # Errors
///
/// `Memory` where there is no memory, `Page` where the run isn't written as runs are.
pub fn try_run(
    alloc: Global,
    files: &Files,
    run: &Run<'_>,
    report: &mut Report,
) -> Result<(), Fault> {
    report.count();
    let mut out = sink(alloc)?;
    let given = run_with(alloc, files, run.words, None, &mut out)?;
    if !is_wanted(run, &given) {
        return Ok(report.tell(run, None, &given)?);
    }
    match run.comparison {
        Comparison::WholeAndParts => try_lesser(alloc, files, run, false, report),
        Comparison::LeastBudget => try_lesser(alloc, files, run, true, report),
        Comparison::Whole | Comparison::Runs => Ok(()),
    }
}

/// Whether an answer is what a run wants.
fn is_wanted(run: &Run<'_>, given: &Answer<'_>) -> bool {
    match run.comparison {
        Comparison::Runs => matches!(given.status, 0 | 9 | 10),
        _ => is_same(&run.wanted, given),
    }
}

/// A sink with room for what a run writes.
pub fn sink(alloc: Global) -> Result<MemorySink, AllocError> {
    MemorySink::new(alloc, ROOM, ROOM, Numbers::new(alloc))
}

/// Runs the command over copies of the files, with this budget in place of its own if one is given.
pub fn run_with<'a>(
    alloc: Global,
    files: &Files,
    words: &str,
    budget: Option<u32>,
    out: &'a mut MemorySink,
) -> Result<Answer<'a>, Fault> {
    let words = words_of(alloc, words, budget)?;
    let mut folder = MemoryFolder::new(copy_of(alloc, files)?, Numbers::new(alloc));
    let status = widl(alloc, &words, &mut folder, out).number();
    match std::str::from_utf8(out.held()) {
        Ok(text) => Ok(Answer { status, text }),
        Err(_) => Err(Fault::Page("a run writes what isn't UTF-8")),
    }
}

/// The words of a command line, with this budget as the second one if one is given.
fn words_of(alloc: Global, text: &str, budget: Option<u32>) -> Result<Words, AllocError> {
    let mut words = Words::new(alloc);
    for (place, word) in text.split(' ').enumerate() {
        let word = match budget {
            Some(budget) if place == 1 => format!(in alloc; "{budget}")?,
            _ => String::from_str(alloc, word)?,
        };
        words.push(word)?;
    }
    Ok(words)
}

/// The same files once more.
fn copy_of(alloc: Global, files: &Files) -> Result<Files, AllocError> {
    let mut copy = Files::new(alloc);
    for place in 0..files.len() {
        copy.push(named(alloc, files.at(place).name(), files.at(place).bytes())?)?;
    }
    Ok(copy)
}

/// A file with this name and these bytes.
pub fn named(alloc: Global, name: &str, bytes: &[u8]) -> Result<NamedFile, AllocError> {
    let name = String::from_str(alloc, name)?;
    let bytes = Vec::from_slice(alloc, bytes)?;
    Ok(NamedFile::new(name, bytes))
}
