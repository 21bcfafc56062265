//! What asks come to.
//!
//! Answers stand in a row with semicolons between; `asks.rt` says what is answered to each ask.

ghost use Rattle.std.specs.Prelude.{IfOk, IfSome};
ghost use Rattle.widl_steps.specs.AskTerms.{Fits, answer_term, ask_term};

use crate::asks::{answer_to, is_done_at_once};
use crate::fault::Fault;
use crate::words::Told;
use std::alloc::Global;
use widl_convert::{Answer, Ask, Next};

/// Of a longer answer only that it is long is told.
const LONG_ANSWER: usize = 64;

/// The answers that a row has left.
#[derive(Clone, Copy)]
pub struct Answers<'a> {
    alloc: Global,
    left: &'a str,
}

impl<'a> Answers<'a> {
    /// The answers of a text, with semicolons between.
    pub fn new(alloc: Global, text: &'a str) -> Answers<'a> {
        Answers { alloc, left: text }
    }

    /// Takes the next answer and tells it, or else that the ask waits.
    fn take(&mut self, told: &mut String) -> Result<Option<&'a str>, Fault> {
        if self.left.is_empty() {
            told.push_str("; waits")?;
            return Ok(None);
        }
        let (first, left) = self.left.split_once(';').unwrap_or((self.left, ""));
        self.left = left;
        let first = first.trim();
        let shown = if first.len() > LONG_ANSWER {
            "a long text"
        } else {
            first
        };
        write!(told, " -> {shown}; ")?;
        Ok(Some(first))
    }

    /// Tells an ask with its answer, which fits it; where no answer is left, that it waits.
    pub fn answer(&mut self, ask: &Ask, told: &mut String) -> Result<Option<Answer>, Fault>
        ensures { IfOk result (λ next. IfSome next (λ answer. Fits (ask_term ask.now) (answer_term answer))) }
    {
        write!(told, "{}", Told(ask))?;
        if is_done_at_once(ask) {
            told.push_str("; ")?;
            return Ok(Some(answer_to(self.alloc, ask, "")?));
        }
        match self.take(told)? {
            Some(text) => Ok(Some(answer_to(self.alloc, ask, text)?)),
            None => Ok(None),
        }
    }
}

/// Tells how a conversation ends.
pub fn tell_end(end: &Next, told: &mut String) -> Result<(), Fault> {
    Ok(write!(told, "{}", Told(end))?)
}
