//! The pages of runs.
//!
//! A page is text, with runs in its indented lines:
//!
//! ```text
//! ## A number is taken modulo 256
//!
//! An `octet` keeps the lowest eight bits.
//!
//!     $ cat n.idl
//!     namespace N { undefined f(octet a); };
//!     $ cat s
//!     do N.f(300)
//!     $ widl run 5 s n.idl  # and each lesser budget
//!     call #19 this #18 (300)
//!     op N.f#0 (44)
//!     ret undefined
//!     done
//! ```
//!
//! 1. Below `$ cat NAME` stands a file. The files of a heading `##` are there for all runs below it, up to the next one; a
//!    file that stands there once more takes the place of the former one.
//! 2. Below `$ widl WORDS..` stands all that is written, and then `[N]` where the status is N and not 0.
//! 3. Where `# and each lesser budget` follows a run, it is also run with each budget from one unit on, until the whole is
//!    written. Before that the lines are the first ones of the whole, and then `stop budget`, with status 9. Where
//!    `# and stops with each lesser budget` follows, no lesser one is enough. Where `# is read` follows, the script is to break
//!    no rule, and what the run writes isn't compared.
//! 4. A fragment, whose name ends with `.idl`, has no line feed after its last line; any other file has one. It is the other
//!    way round where `# with a last line feed` or `# without a last line feed` follows the name.
//! 5. An empty line belongs to a file or an output where an indented line of it follows. All other lines are remarks.

ghost use Rattle.std.specs.Prelude.{◌<◌, IfSome, length};

use crate::fault::Fault;
use crate::report::Report;
use crate::run::{Comparison, Run, named, try_run, wanted_of};
use std::alloc::{AllocError, Global};
use std::mem;
use widl_top::Files;

/// Reads the page of this name, and tries its runs.
///
/// # Errors
///
/// `Memory` where there is no memory, `Page` where the page isn't written as pages are.
pub fn read_page<'a>(
    alloc: Global,
    name: &'a str,
    text: &'a str,
    report: &mut Report,
) -> Result<(), Fault> {
    let mut page = Page::new(alloc, name);
    for line in text.lines() {
        page.read_line(alloc, line, report)?;
    }
    page.end_command(alloc, report)
}

/// A page that is being read: its files so far, and the last command with the lines below it.
#[derive(Drop)]
struct Page<'a> {
    name: &'a str,
    heading: &'a str,
    files: Files,
    command: Option<&'a str>,
    lines: String,
    empty: u64,
}

impl<'a> Page<'a> {
    /// The beginning of the page of this name.
    fn new(alloc: Global, name: &'a str) -> Page<'a> {
        Page {
            name,
            heading: "",
            files: Files::new(alloc),
            command: None,
            lines: String::new(alloc),
            empty: 0,
        }
    }

    /// Reads one line.
    fn read_line(
        &mut self,
        alloc: Global,
        line: &'a str,
        report: &mut Report,
    ) -> Result<(), Fault> {
        if line.is_empty() {
            self.empty = self.empty.saturating_add(1);
            return Ok(());
        }
        if let Some(command) = line.strip_prefix("    $ ") {
            self.end_command(alloc, report)?;
            self.command = Some(command);
            return Ok(());
        }
        match line.strip_prefix("    ") {
            Some(text) => self.add_line(text),
            None => {
                self.end_command(alloc, report)?;
                self.read_remark(alloc, line);
                Ok(())
            }
        }
    }

    /// Reads a remark: below a heading there are no files at first.
    fn read_remark(&mut self, alloc: Global, line: &'a str) {
        if let Some(heading) = line.strip_prefix("## ") {
            self.heading = heading;
            self.files = Files::new(alloc);
        }
    }

    /// Adds a line to those below the command.
    fn add_line(&mut self, line: &str) -> Result<(), Fault> {
        if self.command.is_none() {
            return Err(Fault::Page("an indented line stands below no command"));
        }
        for _ in 0..self.empty {
            self.lines.push_str("\n")?;
        }
        self.empty = 0;
        self.lines.push_str(line)?;
        Ok(self.lines.push_str("\n")?)
    }

    /// Does what the last command says with the lines below it.
    fn end_command(&mut self, alloc: Global, report: &mut Report) -> Result<(), Fault> {
        self.empty = 0;
        let lines = mem::replace(&mut self.lines, String::new(alloc));
        match mem::replace(&mut self.command, None) {
            Some(command) => self.do_command(alloc, command, lines.as_str(), report),
            None => Ok(()),
        }
    }

    /// Does a command with the lines below it.
    fn do_command(
        &mut self,
        alloc: Global,
        command: &str,
        lines: &str,
        report: &mut Report,
    ) -> Result<(), Fault> {
        let (command, remark) = command.split_once("  # ").unwrap_or((command, ""));
        match command.split_once(' ') {
            Some(("cat", name)) => {
                let text = file_text(name, lines, remark)?;
                Ok(self.put(alloc, name, text)?)
            }
            Some(("widl", words)) => {
                let run = Run {
                    page: self.name,
                    heading: self.heading,
                    words,
                    wanted: wanted_of(lines),
                    comparison: comparison_of(remark)?,
                };
                try_run(alloc, &self.files, &run, report)
            }
            _ => Err(Fault::Page("a command is `cat` or `widl`")),
        }
    }

    /// Puts a file in the place of the one of its name, or behind all others.
    fn put(&mut self, alloc: Global, name: &str, text: &str) -> Result<(), AllocError> {
        let file = named(alloc, name, text.as_bytes())?;
        match place_of(&self.files, name) {
            Some(place) => {
                drop(self.files.replace(place, file));
                Ok(())
            }
            None => self.files.push(file),
        }
    }
}

/// The place of the file of this name.
fn place_of(files: &Files, name: &str) -> Option<usize>
    ensures { IfSome result (λ place. place < length files.now) }
{
    for place in 0..files.len() {
        if files.at(place).name() == name {
            return Some(place);
        }
    }
    None
}

/// The text of a file that stands in these lines, with the remark behind its name.
fn file_text<'a>(name: &str, lines: &'a str, remark: &str) -> Result<&'a str, Fault> {
    let is_ended = match remark {
        "" => !name.ends_with(".idl"),
        "with a last line feed" => true,
        "without a last line feed" => false,
        _ => return Err(Fault::Page("a remark on a file says whether it has a last line feed")),
    };
    if is_ended {
        Ok(lines)
    } else {
        Ok(lines.strip_suffix("\n").unwrap_or(lines))
    }
}

/// What a remark behind a run says.
fn comparison_of(remark: &str) -> Result<Comparison, Fault> {
    match remark {
        "" => Ok(Comparison::Whole),
        "and each lesser budget" => Ok(Comparison::WholeAndParts),
        "and stops with each lesser budget" => Ok(Comparison::LeastBudget),
        "is read" => Ok(Comparison::Runs),
        _ => Err(Fault::Page("there is no such remark on a run")),
    }
}
