//! The lines of a script, read up to the first that breaks a rule.

ghost use Rattle.std.specs.Prelude.{◌≡◌, ◌≤◌, ◌+◌, ◌^◌, ◌<◌, length, map, OnOk, IfOk, IfErr};
ghost use Rattle.widl_text.specs.Limits.{most_file_bytes};
ghost use Rattle.widl_lines.specs.Words.{words_of};
ghost use Rattle.widl_lines.specs.WordTerms.{lexeme_of};
ghost use Rattle.widl_lines.specs.TextBreaks.{place_in, numbered};
ghost use Rattle.widl_lines.specs.LineTerms.{state_of, Reads, RefusedIn, IsRead, IsRefusedBy};

use crate::blocks::{Block, innermost};
use crate::line_break::{LineBreak, number};
use crate::lines::first_line;
use crate::text_break::{column_of, pass_line};
use crate::words::words_of;
use crate::{ScriptFault, ScriptPlace, Terminal, Word};
use std::alloc::Global;

/// A line that has words.
#[derive(Drop)]
pub struct LineWords<'a> {
    /// Its number, from 1.
    pub number: u32,
    /// The column one past its last byte.
    pub end: u32,
    /// The innermost block that it stands in, if it stands in one.
    pub inside: Option<Block>,
    /// Its words.
    pub words: Vec<Word<'a>>,
}

/// Lists that are filled anew for each line, so that memory is seldom asked for.
#[derive(Drop)]
struct Room<'a> {
    words: Vec<Word<'a>>,
    terminals: Vec<Terminal>,
}

/// What was read of a script so far.
#[derive(Drop)]
pub struct Reading<'a> {
    /// The open blocks, the innermost last.
    pub open_blocks: Vec<Block>,
    /// The lines that have words.
    pub lines: Vec<LineWords<'a>>,
    /// The number of the last of them.
    pub last: u32,
}

fn place_in(number_of_line: u32, end: u32, words: &[Word<'_>], found: LineBreak) -> ScriptPlace
    ensures { result ≡ place_in (record { number = number_of_line; end = end; words = map lexeme_of words.now }) found }
{
    ScriptPlace {
        rule: number(found.rule),
        line: number_of_line,
        column: column_of(words, found.word, end),
    }
}

impl<'a> Reading<'a> {
    /// Reads the next line.
    fn read_line(
        &mut self,
        alloc: Global,
        room: &mut Room<'a>,
        number: u32,
        line: &'a [u8],
    ) -> Result<(), ScriptFault>
        requires { length line.now + 1 < 2 ^ 32 }
        ensures ok { OnOk result (Reads (state_of self.old) (state_of self.new) (numbered number (length line.now + 1) (words_of line.now))) }
        ensures refused { IfErr result (RefusedIn (state_of self.old) (numbered number (length line.now + 1) (words_of line.now))) }
    {
        let words = words_of(alloc, &mut room.words, line)?;
        if words.is_empty() {
            return Ok(());
        }
        let end = line.len() as u32 + 1;
        let inside = innermost(&self.open_blocks);
        if let Some(found) = pass_line(alloc, &mut room.terminals, &mut self.open_blocks, &words)? {
            return Err(ScriptFault::Refused(place_in(number, end, &words, found)));
        }
        self.last = number;
        self.lines.push(LineWords {
            number,
            end,
            inside,
            words,
        })?;
        Ok(())
    }
}

/// Reads the lines of a text up to the first that breaks a rule.
pub fn read_lines<'a>(alloc: Global, text: &'a [u8]) -> Result<Reading<'a>, ScriptFault>
    requires { length text.now ≤ most_file_bytes }
    ensures ok { IfOk result (λ reading. IsRead text.now (state_of reading)) }
    ensures refused { IfErr result (IsRefusedBy text.now) }
{
    let mut reading = Reading {
        open_blocks: Vec::new(alloc),
        lines: Vec::new(alloc),
        last: 1,
    };
    let mut room = Room {
        words: Vec::new(alloc),
        terminals: Vec::new(alloc),
    };
    let mut number = 0;
    let mut left = Some(text);
    while let Some(rest) = left {
        let first = first_line(rest);
        number += 1;
        reading.read_line(alloc, &mut room, number, first.line)?;
        left = first.rest;
    }
    Ok(reading)
}
