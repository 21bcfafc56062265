//! Constants: what single words stand for, and the literals and the thrown values of step lines.

ghost use Rattle.std.specs.Prelude.{◌≡◌, ◌-◌, ◌^◌, ◌<◌, ◌≤◌, ◌≤ℤ◌, [], false, length, min, neg_ℤ, pos, unwrap_or, IfOk, OnOk, MatchOption};
ghost use Rattle.widl_text.specs.IntegerTokens.{integer_of, magnitude};
ghost use Rattle.widl_value.specs.Rounding.{nearest_of};
ghost use Rattle.widl_lines.specs.declared.grammar.Rule.TheVariants as rule;
ghost use Rattle.widl_lines.specs.Texts.{units_of};
ghost use Rattle.widl_script_words.specs.Words.{within_bound};
ghost use Rattle.widl_script_words.specs.SpelledSteps.{literal_signs, value_signs};
ghost use Rattle.widl_script_words.specs.Reading.{part, terminal_ahead, Reads};
ghost use Rattle.widl_script_words.specs.Signs.{word};
ghost use Rattle.widl_script_words.specs.StepReading.{is_plain_literal, IsPlainLiteral, is_plain_value, IsPlainValue, IsTextAhead};

use crate::reader::Reader;
use std::alloc::{AllocError, Global};
use widl_idl::Literal;
use widl_lines::{Terminal, WordForm, integer_of, units_of};
use widl_text::{Units, magnitude};
use widl_value::{Number, Value, nearest};

/// The Number that is nearest to an integer: of at most 53 bits, as most are, it is one itself.
#[tactic(auto, using(crate::proofs::ExactNumbers::exact_number))]
fn nearest_number(integer: i128) -> Number
    requires low { neg_ℤ (pos (2 ^ 64)) ≤ℤ integer }
    requires high { integer ≤ℤ pos (2 ^ 64) }
    ensures { result ≡ nearest_of integer }
{
    if integer.unsigned_abs() < 1 << 53 {
        return Number::Whole(integer);
    }
    nearest(integer)
}

/// The Number that is nearest to an integer of at most 2^64 in magnitude.
pub fn number_of(text: &[u8]) -> Number
    ensures { result ≡ nearest_of (within_bound (integer_of text.now)) }
{
    nearest_number(integer_of(text).clamp(-(1 << 64), 1 << 64))
}

/// The units of a text; none of a word that is no text.
pub fn text_of(alloc: Global, form: WordForm, text: &[u8]) -> Result<Units, AllocError>
    ensures { IfOk result (λ units. units ≡ unwrap_or (units_of form text.now) []) }
{
    match units_of(alloc, form, text)? {
        Some(units) => Ok(units),
        None => Ok(Units::new(alloc)),
    }
}

/// The number of an argument or an overload; the greatest one where 32 bits are too few.
pub(crate) fn index_of(text: &[u8]) -> u32
    ensures { result ≡ min (magnitude text.now) (2 ^ 32 - 1) }
{
    u32::try_from(magnitude(text)).unwrap_or(u32::MAX)
}

/// The value that one word says, whatever its text.
fn plain_value(terminal: Terminal) -> Option<Value>
    ensures { MatchOption result (is_plain_value terminal ≡ false) (λ value. IsPlainValue terminal value) }
{
    match terminal {
        Terminal::Undefined => Some(Value::Undefined),
        Terminal::Null => Some(Value::Null),
        Terminal::True => Some(Value::Bool(true)),
        Terminal::False => Some(Value::Bool(false)),
        Terminal::Nan => Some(Value::Num(Number::NaN)),
        Terminal::Infinity => Some(Value::Num(Number::PosInf)),
        Terminal::MinusInfinity => Some(Value::Num(Number::NegInf)),
        _ => None,
    }
}

/// The literal that one word says, whatever its text.
fn plain_literal(terminal: Terminal) -> Option<Literal>
    ensures { MatchOption result (is_plain_literal terminal ≡ false) (λ literal. IsPlainLiteral terminal literal) }
{
    match terminal {
        Terminal::Undefined => Some(Literal::Undefined),
        Terminal::Null => Some(Literal::Null),
        Terminal::True => Some(Literal::Bool(true)),
        Terminal::False => Some(Literal::Bool(false)),
        _ => None,
    }
}

impl<'w, 's> Reader<'w, 's> {
    /// The value behind `throw` in a step line.
    pub(crate) fn thrown(&mut self) -> Result<Value, AllocError>
        ensures { IfOk result (λ value. Reads (part rule.StepThrown) [] (value_signs value) self.old self.new) }
    {
        if let Some(value) = plain_value(self.ahead()) {
            self.take();
            return Ok(value);
        }
        if self.is_ahead(Terminal::Text) {
            let text = text_of(self.alloc(), self.form(), self.text())?;
            self.take();
            return Ok(Value::Str(text));
        }
        let number = number_of(self.text());
        self.take();
        Ok(Value::Num(number))
    }

    /// The literal behind `literal`.
    pub(crate) fn literal(&mut self) -> Result<Literal, AllocError>
        ensures shorter { OnOk result (length self.new ≤ length self.old) }
        ensures tree { IfOk result (λ literal. Reads (part rule.Literal) [] (literal_signs literal) self.old self.new) }
    {
        if let Some(literal) = plain_literal(self.ahead()) {
            self.take();
            return Ok(literal);
        }
        if self.is_ahead(Terminal::Text) {
            let text = text_of(self.alloc(), self.form(), self.text())?;
            self.take();
            return Ok(Literal::Text(text));
        }
        if self.is_ahead(Terminal::OpenBracket) {
            self.take();
            self.take();
            return Ok(Literal::EmptyList);
        }
        if self.is_ahead(Terminal::OpenBrace) {
            self.take();
            self.take();
            return Ok(Literal::EmptyDict);
        }
        let number = integer_of(self.text());
        self.take();
        Ok(Literal::Int(number))
    }

    /// The name ahead, of a target or a slot.
    pub(crate) fn target_name(&mut self) -> Result<Units, AllocError>
        ensures { IfOk result (λ name. IsTextAhead name self.old self.new) }
    {
        let name = Units::of_bytes(self.alloc(), self.text())?;
        self.take();
        Ok(name)
    }
}
