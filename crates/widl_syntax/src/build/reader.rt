//! The tokens that are still to be read.

ghost use Rattle.std.specs.Prelude.{◌≡◌, ◌≢◌, ◌≤◌, ◌-◌, ℕ, List, drop, length, MatchOption, IsUtf8, IsTrue, false, map};
ghost use Rattle.widl_predictive.specs.Predictive.{ahead};
ghost use Rattle.widl_grammar.specs.Source.{terminal_of, terminals_of};
ghost use Rattle.widl_lex.specs.Tokens.{Lexeme, IsSound};
ghost use Rattle.widl_syntax.specs.Reading.{terminal_ahead, IfAhead, IsTaken, IsTakenAs, IsPassedBy};

use std::alloc::Global;
use std::marker::Model;
use widl_grammar::{Terminal, is_same};
use widl_lex::Tokens;
use widl_text::Place;

/// The tokens of a file from one of them on.
#[derive(Drop)]
pub struct Reader<'t, 's> {
    /// Where the parts of the tree are put.
    alloc: Global,
    tokens: &'t Tokens<'s>,
    /// The terminals that the tokens are.
    terminals: &'t [Terminal],
    next: usize,
    ahead: Terminal,
}

impl<'t, 's> Model for Reader<'t, 's> {
    ghost use Rattle.std.specs.Prelude.{◌≡◌, List, drop};
    ghost use Rattle.widl_lex.specs.Tokens.{Lexeme};
    ghost use Rattle.widl_grammar.specs.Source.{terminals_of};
    ghost use Rattle.widl_syntax.specs.Reading.{terminal_ahead};

    ghost Value = { List Lexeme };

    ghost view = { λ r. drop r.next r.tokens.now.lexemes };

    ghost invariant = { λ r. (r.terminals.now ≡ terminals_of r.tokens.now) × (r.ahead ≡ terminal_ahead (drop r.next r.tokens.now.lexemes)) };
}

/// The terminal of that number; [`Terminal::Other`] after the last one.
fn terminal_at(terminals: &[Terminal], number: usize) -> Terminal
    ensures { (tokens : List Lexeme) → terminals.now ≡ map terminal_of tokens → result ≡ terminal_ahead (drop number tokens) }
{
    if number < terminals.len() {
        terminals[number]
    } else {
        Terminal::Other
    }
}

impl<'t, 's> Reader<'t, 's> {
    /// All tokens of the file, with the terminals that they are.
    pub fn new(alloc: Global, tokens: &'t Tokens<'s>, terminals: &'t [Terminal]) -> Reader<'t, 's>
        requires { terminals.now ≡ terminals_of tokens.now }
        ensures { result ≡ tokens.now.lexemes }
    {
        Reader {
            alloc,
            tokens,
            terminals,
            next: 0,
            ahead: terminal_at(terminals, 0),
        }
    }

    /// Where the parts of the tree are put.
    pub fn alloc(&self) -> Global {
        self.alloc
    }

    /// The terminal ahead; [`Terminal::Other`] at the end.
    pub fn ahead(&self) -> Terminal
        ensures { result ≡ terminal_ahead self.now }
    {
        self.ahead
    }

    /// The terminal ahead, or `None` at the end.
    pub fn ahead_or_end(&self) -> Option<Terminal>
        ensures { result ≡ ahead (map terminal_of self.now) }
    {
        if self.next < self.tokens.len() {
            Some(self.ahead)
        } else {
            None
        }
    }

    /// Whether this terminal is ahead.
    pub fn is_ahead(&self, terminal: Terminal) -> bool
        ensures yes { IsTrue result → terminal_ahead self.now ≡ terminal }
        ensures no { result ≡ false → terminal_ahead self.now ≢ terminal }
    {
        is_same(self.ahead, terminal)
    }

    /// How many of these separators stand outside of brackets before the terminal that ends a list. Room for the
    /// list's items is made by it.
    pub fn separators_ahead(&self, separator: Terminal, end: Terminal) -> usize {
        let mut depth: usize = 0;
        let mut separators: usize = 0;
        for number in self.next..self.terminals.len() {
            let terminal = self.terminals[number];
            if depth == 0 && is_same(terminal, end) {
                break;
            }
            match terminal {
                Terminal::OpenParen | Terminal::OpenBracket | Terminal::OpenBrace => {
                    depth = depth.saturating_add(1);
                }
                Terminal::CloseParen | Terminal::CloseBracket | Terminal::CloseBrace => {
                    depth = depth.saturating_sub(1);
                }
                _ => if depth == 0 && is_same(terminal, separator) {
                    separators = separators.saturating_add(1);
                },
            }
        }
        separators
    }

    /// How many tokens are left.
    pub fn left(&self) -> usize
        ensures { result ≡ length self.now }
    {
        self.tokens.len().saturating_sub(self.next)
    }

    /// Where the token ahead stands, or the length of the file.
    pub fn at(&self) -> Place
        ensures { IfAhead self.now (λ lexeme. result ≡ lexeme.at) }
    {
        if self.next < self.tokens.len() {
            self.tokens.at(self.next).at
        } else {
            Place {
                file: self.tokens.file(),
                at: self.tokens.end(),
            }
        }
    }

    /// The bytes of the token ahead; none at the end.
    pub fn text(&self) -> &[u8]
        ensures bytes { IfAhead self.now (λ lexeme. result.now ≡ lexeme.text) }
        ensures utf8 { IsUtf8 result.now }
        ensures sound { IfAhead self.now (λ lexeme. (file : ℕ) × IsSound file lexeme) }
    {
        if self.next < self.tokens.len() {
            self.tokens.at(self.next).text
        } else {
            &[]
        }
    }

    /// Takes the token ahead, and tells where it stands.
    pub fn take(&mut self) -> Place
        ensures { IsTaken result self.old self.new }
    {
        let at = self.at();
        self.next = self.next.saturating_add(1).min(self.tokens.len());
        self.ahead = terminal_at(self.terminals, self.next);
        at
    }

    /// Takes the token ahead if it is this one, and tells where it stands.
    pub fn take_if(&mut self, terminal: Terminal) -> Option<Place>
        ensures { MatchOption result (IsPassedBy terminal self.old self.new) (λ at. IsTakenAs terminal at self.old self.new) }
    {
        if is_same(self.ahead, terminal) {
            Some(self.take())
        } else {
            None
        }
    }
}
