//! The words of a line that are still to be read.

ghost use Rattle.std.specs.Prelude.{◌≡◌, ◌≢◌, drop, IsTrue, false};
ghost use Rattle.widl_script_words.specs.Reading.{terminal_ahead, IfAhead};

use std::alloc::Global;
use std::marker::Model;
use widl_lines::{Rule, Terminal, Word, WordForm};
use widl_predictive::Rule as Grammar;

/// The words of a line from one of them on, which contracts see as a list.
#[derive(Drop)]
pub struct Reader<'w, 's> {
    alloc: Global,
    words: &'w [Word<'s>],
    next: usize,
}

impl<'w, 's> Model for Reader<'w, 's> {
    ghost use Rattle.std.specs.Prelude.{List, drop, map};
    ghost use Rattle.widl_lines.specs.Words.{Lexeme};
    ghost use Rattle.widl_lines.specs.WordTerms.{lexeme_of};

    ghost Value = { List Lexeme };

    ghost view = { λ r. map lexeme_of (drop r.next r.words.now) };
}

impl<'w, 's> Reader<'w, 's> {
    ghost use Rattle.std.specs.Prelude.{map};
    ghost use Rattle.widl_lines.specs.WordTerms.{lexeme_of};

    /// All words of a line.
    pub fn new(alloc: Global, words: &'w [Word<'s>]) -> Self
        ensures { result ≡ map lexeme_of words.now }
    {
        Reader {
            alloc,
            words,
            next: 0,
        }
    }

    /// The memory that what is read is made in.
    pub fn alloc(&self) -> Global {
        self.alloc
    }

    /// The terminal of the word ahead; `Unknown`, which no line has, at the end.
    pub fn ahead(&self) -> Terminal
        ensures { result ≡ terminal_ahead self.now }
    {
        if self.next < self.words.len() {
            self.words[self.next].terminal
        } else {
            Terminal::Unknown
        }
    }

    /// Whether this terminal is ahead.
    pub fn is_ahead(&self, terminal: Terminal) -> bool
        ensures yes { IsTrue result → terminal_ahead self.now ≡ terminal }
        ensures no { result ≡ false → terminal_ahead self.now ≢ terminal }
    {
        <Rule as Grammar>::is_same(self.ahead(), terminal)
    }

    /// The bytes of the word ahead; none at the end.
    pub fn text(&self) -> &'s [u8]
        ensures { IfAhead self.now (λ w. result.now ≡ w.text) }
    {
        if self.next < self.words.len() {
            self.words[self.next].text
        } else {
            &[]
        }
    }

    /// The form of the word ahead.
    pub fn form(&self) -> WordForm
        ensures { IfAhead self.now (λ w. result ≡ w.form) }
    {
        if self.next < self.words.len() {
            self.words[self.next].form
        } else {
            WordForm::Missing
        }
    }

    /// Takes the word ahead.
    pub fn take(&mut self)
        ensures { self.new ≡ drop 1 self.old }
    {
        if self.next < self.words.len() {
            self.next += 1;
        }
    }
}
