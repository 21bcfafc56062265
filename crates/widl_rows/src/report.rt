//! What is told of the runs.

use crate::run::{Answer, Comparison, Run};
use std::alloc::{AllocError, Global};

/// How many runs there were, and the text of those that differ.
#[derive(Drop)]
pub struct Report {
    runs: u64,
    differing: u64,
    text: String,
}

impl Report {
    /// No run.
    pub fn new(alloc: Global) -> Report {
        Report {
            runs: 0,
            differing: 0,
            text: String::new(alloc),
        }
    }

    /// How many runs there were.
    pub fn runs(&self) -> u64 {
        self.runs
    }

    /// How many of them differ from what is wanted.
    pub fn differing(&self) -> u64 {
        self.differing
    }

    /// The runs that differ, with what is wanted of each and what it gave.
    pub fn text(&self) -> &str {
        self.text.as_str()
    }

    /// Counts a run.
    pub fn count(&mut self) {
        self.runs = self.runs.saturating_add(1);
    }

    /// Tells of a run that it gave another answer than the one that is wanted, where its budget was this.
    ///
    /// # Errors
    ///
    /// `AllocError` where there is no memory.
    pub fn tell(
        &mut self,
        run: &Run<'_>,
        budget: Option<u32>,
        given: &Answer<'_>,
    ) -> Result<(), AllocError> {
        self.differing = self.differing.saturating_add(1);
        write!(
            self.text,
            "{}: {}\n$ widl {}\n",
            run.page, run.heading, run.words
        )?;
        match run.comparison {
            Comparison::Runs => self.text.push_str("wanted: it isn't refused\n")?,
            _ => self.tell_answer("wanted: it ends", &run.wanted)?,
        }
        if let Some(budget) = budget {
            write!(self.text, "with a budget of {budget} ")?;
        }
        self.tell_answer("it ends", given)?;
        self.text.push_str("\n")
    }

    /// Tells an answer.
    fn tell_answer(&mut self, verb: &str, answer: &Answer<'_>) -> Result<(), AllocError> {
        write!(
            self.text,
            "{verb} with status {} and writes\n{}",
            answer.status, answer.text
        )
    }
}
