//! The tokens of a file.

use crate::cut::{longest_piece, push_piece, still_closes};
use crate::fault::LexFault;
use crate::token::Token;
use crate::utf8::utf8_fault;
use std::alloc::Global;
use std::marker::Model;
use widl_text::Place;

/// How many bytes of a file there are to a token, or more, in most files. Room is made by it.
const BYTES_A_TOKEN: usize = 6;

/// The tokens of a file in order, without white space and comments.
#[derive(Drop)]
pub struct Tokens<'a> {
    file: u16,
    end: u32,
    items: Vec<Token<'a>>,
}

impl<'a> Model for Tokens<'a> {
    ghost use Rattle.std.specs.Prelude.{map};
    ghost use Rattle.widl_lex.specs.Tokens.{TokenList, AreSound, lexeme_of};

    ghost Value = { TokenList };

    ghost view = { λ t. record { file = t.file; end = t.end; lexemes = map lexeme_of t.items.items } };

    ghost invariant = { λ t. AreSound (record { file = t.file; end = t.end; lexemes = map lexeme_of t.items.items }) };
}

impl<'a> Tokens<'a> {
    ghost use Rattle.std.specs.Prelude.{◌≡◌, ◌+◌, ◌^◌, ◌<◌, ◌≤◌, ℕ, List, All, IsUtf8, length, slice_get, Some, IfOk, IfErr};
    ghost use Rattle.widl_lex.specs.Faults.{IsLexFault};
    ghost use Rattle.widl_lex.specs.Tokens.{AreTokensOf, IsSliceOf, IsSound, InOrder, lexeme_of};

    /// The tokens of a file: its cut into longest pieces (Web IDL, "IDL grammar"), without white space and
    /// comments.
    ///
    /// # Errors
    ///
    /// `NotUtf8` where the bytes are not UTF-8, and `Memory` where there is none for the list.
    pub fn read(alloc: Global, file: u16, bytes: &'a [u8]) -> Result<Tokens<'a>, LexFault>
        requires { length bytes.now < 2 ^ 32 }
        ensures tokens { IfOk result (λ tokens. AreTokensOf file bytes.now tokens) }
        ensures slices { IfOk result (λ tokens. All (IsSliceOf bytes.now) tokens.lexemes) }
        ensures in_order { IfOk result (λ tokens. InOrder 0 tokens.end tokens.lexemes) }
        ensures utf8 { IfOk result (λ _. IsUtf8 bytes.now) }
        ensures fault { IfErr result (IsLexFault file bytes.now) }
    {
        if let Some(place) = utf8_fault(bytes) {
            return Err(LexFault::NotUtf8(Place {
                file,
                at: place as u32,
            }));
        }
        let Ok(mut items) = Vec::with_capacity(alloc, bytes.len() / BYTES_A_TOKEN) else {
            return Err(LexFault::Memory);
        };
        let mut rest = bytes;
        let mut closes = true;
        while !rest.is_empty() {
            let at = Place {
                file,
                at: (bytes.len() - rest.len()) as u32,
            };
            let (len, kind) = longest_piece(rest, closes);
            closes = still_closes(rest, len, closes);
            let (text, after) = rest.split_at(len);
            push_piece(&mut items, kind, at, text)?;
            rest = after;
        }
        Ok(Tokens {
            file,
            end: bytes.len() as u32,
            items,
        })
    }

    /// The number of tokens.
    pub fn len(&self) -> usize
        ensures { result ≡ length self.now.lexemes }
    {
        self.items.len()
    }

    /// The token at a place of the list.
    pub fn at(&self, place: usize) -> &Token<'a>
        requires { place < length self.now.lexemes }
        ensures token { slice_get self.now.lexemes place ≡ Some (lexeme_of result.now) }
        ensures sound { IsSound self.now.file (lexeme_of result.now) }
        ensures within { result.now.at.at + length result.now.text.now ≤ self.now.end }
    {
        &self.items[place]
    }

    /// The number of the file.
    pub fn file(&self) -> u16
        ensures { result ≡ self.now.file }
    {
        self.file
    }

    /// The length of the file in bytes.
    pub fn end(&self) -> u32
        ensures { result ≡ self.now.end }
    {
        self.end
    }
}
