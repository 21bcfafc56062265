//! The lines of standard input.
//!
//! A line is empty, or a remark that begins with `#`; it is the name of a task, which the rows below it do; it begins
//! with `definitions`, which those rows need beside their own; or it is a row. A row has three fields, with a bar
//! after the first and after the second:
//!
//! ```text
//! octet | 300 / obj 1 | undefined; fn 2; 3
//! ```
//!
//! 1. What is done ([`Task`] says what stands here).
//! 2. What it is given. Where there are several with slashes between, the row tells one conversation for each.
//! 3. What its asks come to, with semicolons between; the bar before it may be left out.
//!
//! A field that is `"` is that of the row above. In the definitions and in each field `%(N TEXT)%` stands for N times
//! the text.

use crate::fault::Fault;
use crate::rows::{Row, tell_row};
use crate::task::Task;
use std::alloc::Global;

/// What the lines so far say about those below them.
#[derive(Clone, Copy)]
pub struct Page<'a> {
    task: Option<Task>,
    definitions: &'a str,
    above: Row<'a>,
}

/// A field, or that of the row above.
fn field<'a>(text: &'a str, above: &'a str) -> &'a str {
    let text = text.trim();
    if text == "\"" { above } else { text }
}

/// The row of a line, from its first bar on, below another row.
fn row_below<'a>(above: &Row<'a>, of: &'a str, rest: &'a str) -> Row<'a> {
    let (given, answers) = rest.split_once('|').unwrap_or((rest, ""));
    Row {
        of: field(of, above.of),
        given: field(given, above.given),
        answers: field(answers, above.answers),
    }
}

impl<'a> Page<'a> {
    /// The beginning.
    pub fn new() -> Page<'a> {
        let above = Row {
            of: "",
            given: "",
            answers: "",
        };
        Page {
            task: None,
            definitions: "",
            above,
        }
    }

    /// Tells the conversations of a row, or repeats another line.
    pub fn tell(&mut self, alloc: Global, line: &'a str, told: &mut String) -> Result<(), Fault> {
        if line.is_empty() || line.starts_with('#') {
            return Ok(told.push_str(line)?);
        }
        if let Some(definitions) = line.strip_prefix("definitions ") {
            self.definitions = definitions;
            return Ok(told.push_str(line)?);
        }
        match line.split_once('|') {
            Some((of, rest)) => {
                self.above = row_below(&self.above, of, rest);
                self.tell_row(alloc, told)
            }
            None => {
                self.task = Some(Task::named(line).ok_or(Fault::Line("no task has this name"))?);
                Ok(told.push_str(line)?)
            }
        }
    }

    /// Tells the conversations of the last row.
    fn tell_row(&self, alloc: Global, told: &mut String) -> Result<(), Fault> {
        match self.task {
            Some(task) => tell_row(alloc, self.definitions, task, &self.above, told),
            None => Err(Fault::Line("a task is wanted above a row")),
        }
    }
}
