//! The values of constants, and default values.

ghost use Rattle.std.specs.Prelude.{◌≡◌, ◌++◌, List, IfOk};
ghost use Rattle.widl_text.specs.declared.place.Place.{Place};
ghost use Rattle.widl_lex.specs.Tokens.{Lexeme};
ghost use Rattle.widl_grammar.specs.declared.rule.Rule.TheVariants as rule;
ghost use Rattle.widl_grammar.specs.declared.terminal.Terminal.{Terminal};
ghost use Rattle.widl_grammar.specs.declared.terminal.Terminal.TheVariants as terminal;
ghost use Rattle.widl_syntax.specs.Reading.{Reads, IsTaken, part, token};
ghost use Rattle.widl_syntax.specs.Signs.{word, ◌⧺◌};
ghost use Rattle.widl_syntax.specs.UnparsedNames.{literal, literal_value, default_value};

use super::Reader;
use std::alloc::AllocError;
use widl_grammar::Terminal;
use widl_idl::tree::{Literal, LiteralValue};

impl<'t, 's> Reader<'t, 's> {
    /// The value of a constant.
    pub fn constant_value(&mut self) -> Result<Literal, AllocError>
        ensures { IfOk result (λ value. Reads (part rule.ConstValue) (literal value) self.old self.new) }
    {
        let value = self.number_value()?;
        let at = self.take();
        Ok(Literal { at, value })
    }

    /// The boolean or the number of the token ahead.
    fn number_value(&self) -> Result<LiteralValue, AllocError>
        ensures { IfOk result (λ value. (at : Place) (after : List Lexeme) → IsTaken at self.now after → Reads (part rule.ConstValue) (literal (record { at = at; value = value })) self.now after) }
    {
        match self.ahead() {
            Terminal::True => Ok(LiteralValue::Boolean(true)),
            Terminal::False => Ok(LiteralValue::Boolean(false)),
            Terminal::Integer => Ok(LiteralValue::Integer(self.token_text()?)),
            Terminal::Decimal => Ok(LiteralValue::Decimal(self.token_text()?)),
            Terminal::Infinity => Ok(LiteralValue::Infinity),
            Terminal::MinusInfinity => Ok(LiteralValue::MinusInfinity),
            _ => Ok(LiteralValue::NotANumber),
        }
    }

    /// A value after the `=` of a default value.
    fn literal(&mut self) -> Result<Literal, AllocError>
        ensures { IfOk result (λ value. Reads (part rule.DefaultValue) (literal value) self.old self.new) }
    {
        match self.ahead() {
            Terminal::String => self.text_literal(),
            Terminal::OpenBracket => Ok(self.empty_literal(LiteralValue::EmptySequence)),
            Terminal::OpenBrace => Ok(self.empty_literal(LiteralValue::EmptyDictionary)),
            Terminal::Null => Ok(self.word_literal(LiteralValue::Null)),
            Terminal::Undefined => Ok(self.word_literal(LiteralValue::Undefined)),
            _ => self.constant_value(),
        }
    }

    /// A literal in quotation marks.
    fn text_literal(&mut self) -> Result<Literal, AllocError>
        ensures { IfOk result (λ value. Reads (token terminal.String) (literal value) self.old self.new) }
    {
        let value = LiteralValue::Text(self.quoted_text()?);
        let at = self.take();
        Ok(Literal { at, value })
    }

    /// A literal of one token.
    fn word_literal(&mut self, value: LiteralValue) -> Literal
        ensures { (t : Terminal) → literal_value value ≡ word t → Reads (token t) (literal result) self.old self.new }
    {
        let at = self.take();
        Literal { at, value }
    }

    /// A literal of two brackets or braces.
    fn empty_literal(&mut self, value: LiteralValue) -> Literal
        ensures { (opening closing : Terminal) → literal_value value ≡ word opening ⧺ word closing → Reads (token opening ++ token closing) (literal result) self.old self.new }
    {
        let at = self.take();
        let _close = self.take();
        Literal { at, value }
    }

    /// A default value, if there is one.
    pub fn default_value(&mut self) -> Result<Option<Box<Literal>>, AllocError>
        ensures { IfOk result (λ value. Reads (part rule.Default) (default_value value) self.old self.new) }
    {
        if self.take_if(Terminal::Equals).is_none() {
            return Ok(None);
        }
        let value = self.literal()?;
        Ok(Some(Box::new(self.alloc(), value)?))
    }
}
