//! Expressions.

ghost use Rattle.std.specs.Prelude.{◌≡◌, ◌≤◌, [], IfOk, OnOk, length, false};
ghost use Rattle.widl_lines.specs.declared.grammar.Rule.TheVariants as rule;
ghost use Rattle.widl_lines.specs.declared.grammar.Terminal.TheVariants as terminal;
ghost use Rattle.widl_script_reader.specs.declared.forms.Form.TheVariants as form;
ghost use Rattle.widl_script_reader.specs.ReadExpressions.{Widens, Holds, IsNameAhead, Begins, is_leaf, is_formed};
ghost use Rattle.widl_script_words.specs.Reading.{part, terminal_ahead};
ghost use Rattle.widl_script_reader.specs.Room.{HasRoom, Pays};

use crate::forms::{Form, form_of, leaf_of, link_of};
use crate::nodes::Nodes;
use std::alloc::AllocError;
use widl_script_tree::Expression;
use widl_script_words::{Reader, number_of, text_of};
use widl_text::Units;

impl Nodes {
    /// The number of the name ahead.
    pub(crate) fn name_number(&mut self, reader: &mut Reader<'_, '_>) -> Result<u32, AllocError>
        requires room { HasRoom 1 self.old reader.old }
        ensures grown { OnOk result (Widens self.old self.new) }
        ensures name { IfOk result (λ number. IsNameAhead self.old self.new number reader.old reader.new) }
        ensures paid { Pays 1 self.old reader.old self.new reader.new }
    {
        let text = Units::of_bytes(reader.alloc(), reader.text())?;
        reader.take();
        self.name(text)
    }

    /// A name.
    fn named(&mut self, reader: &mut Reader<'_, '_>) -> Result<u32, AllocError>
        requires leaf { is_leaf (terminal_ahead reader.old) ≡ false }
        requires formed { is_formed (terminal_ahead reader.old) ≡ false }
        requires room { HasRoom 2 self.old reader.old }
        ensures grown { OnOk result (Widens self.old self.new) }
        ensures tree { IfOk result (λ place. Holds (part rule.Primary) [] self.new place reader.old reader.new) }
        ensures shorter { OnOk result (length reader.new ≤ length reader.old) }
        ensures paid { Pays 2 self.old reader.old self.new reader.new }
    {
        let number = self.name_number(reader)?;
        self.put(Expression::Name(number))
    }

    /// An integer.
    fn integer(&mut self, reader: &mut Reader<'_, '_>) -> Result<u32, AllocError>
        requires begins { Begins form.Integer (terminal_ahead reader.old) }
        requires room { HasRoom 1 self.old reader.old }
        ensures grown { OnOk result (Widens self.old self.new) }
        ensures tree { IfOk result (λ place. Holds (part rule.Primary) [] self.new place reader.old reader.new) }
        ensures shorter { OnOk result (length reader.new ≤ length reader.old) }
        ensures paid { Pays 1 self.old reader.old self.new reader.new }
    {
        let number = number_of(reader.text());
        reader.take();
        self.put(Expression::Number(number))
    }

    /// A text.
    fn text_literal(&mut self, reader: &mut Reader<'_, '_>) -> Result<u32, AllocError>
        requires begins { terminal_ahead reader.old ≡ terminal.Text }
        requires room { HasRoom 1 self.old reader.old }
        ensures grown { OnOk result (Widens self.old self.new) }
        ensures tree { IfOk result (λ place. Holds (part rule.Primary) [] self.new place reader.old reader.new) }
        ensures shorter { OnOk result (length reader.new ≤ length reader.old) }
        ensures paid { Pays 1 self.old reader.old self.new reader.new }
    {
        let text = text_of(reader.alloc(), reader.form(), reader.text())?;
        reader.take();
        self.put(Expression::Text(text))
    }

    /// `symbol()`.
    fn new_symbol(&mut self, reader: &mut Reader<'_, '_>) -> Result<u32, AllocError>
        requires begins { terminal_ahead reader.old ≡ terminal.Symbol }
        requires room { HasRoom 1 self.old reader.old }
        ensures grown { OnOk result (Widens self.old self.new) }
        ensures tree { IfOk result (λ place. Holds (part rule.Primary) [] self.new place reader.old reader.new) }
        ensures shorter { OnOk result (length reader.new ≤ length reader.old) }
        ensures paid { Pays 1 self.old reader.old self.new reader.new }
    {
        reader.take();
        reader.take();
        reader.take();
        self.put(Expression::NewSymbol)
    }

    /// An expression without the members and calls behind it.
    #[cycle(expression)]
    pub(crate) fn primary(&mut self, reader: &mut Reader<'_, '_>) -> Result<u32, AllocError>
        requires room { HasRoom 2 self.old reader.old }
        ensures grown { OnOk result (Widens self.old self.new) }
        ensures tree { IfOk result (λ place. Holds (part rule.Primary) [] self.new place reader.old reader.new) }
        ensures shorter { OnOk result (length reader.new ≤ length reader.old) }
        ensures paid { Pays 2 self.old reader.old self.new reader.new }
    {
        let ahead = reader.ahead();
        if let Some(node) = leaf_of(ahead) {
            reader.take();
            return self.put(node);
        }
        match form_of(ahead) {
            Some(Form::Integer) => self.integer(reader),
            Some(Form::Text) => self.text_literal(reader),
            Some(Form::Symbol) => self.new_symbol(reader),
            Some(Form::Object) => self.new_object(reader),
            Some(Form::Array) => self.new_array(reader),
            Some(Form::CallWith) => self.call_with(reader),
            Some(Form::New) => self.new_of(reader),
            None => self.named(reader),
        }
    }

    /// An expression.
    #[cycle(expression)]
    pub(crate) fn expression(&mut self, reader: &mut Reader<'_, '_>) -> Result<u32, AllocError>
        requires room { HasRoom 2 self.old reader.old }
        ensures grown { OnOk result (Widens self.old self.new) }
        ensures tree { IfOk result (λ place. Holds (part rule.Expression) [] self.new place reader.old reader.new) }
        ensures shorter { OnOk result (length reader.new ≤ length reader.old) }
        ensures paid { Pays 2 self.old reader.old self.new reader.new }
    {
        let mut place = self.primary(reader)?;
        'links: while let Some(link) = link_of(reader.ahead()) {
            place = self.follow_link(reader, place, link)?;
        }
        Ok(place)
    }
}
