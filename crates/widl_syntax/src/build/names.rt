//! Names and other texts.

ghost use Rattle.std.specs.Prelude.{◌≡◌, ℕ, true, List, ◌∷◌, if◌then◌else◌, IfOk, IsUtf8, drop, length};
ghost use Rattle.widl_grammar.specs.declared.terminal.Terminal.TheVariants as terminal;
ghost use Rattle.widl_grammar.specs.Source.{terminal_of};
ghost use Rattle.widl_syntax.specs.Reading.{IfAhead, IsTaken, IsName};
ghost use Rattle.widl_syntax.specs.UnparsedNames.{name_bytes, is_escape_apart, quoted_bytes};

use super::Reader;
use std::alloc::AllocError;
use widl_idl::tree::{Name, SourceText, SourceToken};

/// Whether a `_` stands before a name, and the name without it.
fn unescaped(text: &[u8]) -> (bool, &[u8])
    ensures bytes { (if result.0 then 0x5F ∷ result.1.now else result.1.now) ≡ text.now }
    ensures utf8 { IsUtf8 text.now → IsUtf8 result.1.now }
    ensures escape { is_escape_apart result.0 result.1.now ≡ true }
{
    match text {
        [b'_', name @ ..] => (true, name),
        _ => (false, text),
    }
}

/// A text without its quotation marks.
fn unquoted(text: &[u8]) -> &[u8]
    ensures bytes { (inner : List ℕ) → text.now ≡ quoted_bytes inner → result.now ≡ inner }
    ensures utf8 { IsUtf8 text.now → IsUtf8 result.now }
{
    match text {
        [b'"', inner @ .., b'"'] => inner,
        _ => text,
    }
}

impl<'t, 's> Reader<'t, 's> {
    /// A name: an identifier, or a word that is allowed as a name here.
    pub fn name(&mut self) -> Result<Name, AllocError>
        ensures { IfOk result (λ name. IsName name self.old self.new) }
    {
        let (escaped, name) = unescaped(self.text());
        let text = SourceText::of_utf8(self.alloc(), name)?;
        let at = self.take();
        Ok(Name { at, escaped, text })
    }

    /// The bytes of the token ahead, as a text.
    pub fn token_text(&self) -> Result<SourceText, AllocError>
        ensures { IfOk result (λ text. IfAhead self.now (λ lexeme. text ≡ lexeme.text)) }
    {
        SourceText::of_utf8(self.alloc(), self.text())
    }

    /// What stands between the quotation marks of the token ahead.
    pub fn quoted_text(&self) -> Result<SourceText, AllocError>
        ensures { IfOk result (λ text. IfAhead self.now (λ lexeme. terminal_of lexeme ≡ terminal.String → quoted_bytes text ≡ lexeme.text)) }
    {
        SourceText::of_utf8(self.alloc(), unquoted(self.text()))
    }

    /// The token ahead as it stands.
    pub fn source_token(&mut self) -> Result<SourceToken, AllocError>
        ensures taken { IfOk result (λ token. IsTaken token.at self.old self.new) }
        ensures bytes { IfOk result (λ token. IfAhead self.old (λ lexeme. token.text ≡ lexeme.text)) }
    {
        let text = self.token_text()?;
        let at = self.take();
        Ok(SourceToken { at, text })
    }
}
