//! Calls, and the other forms with a list in parentheses.

ghost use Rattle.std.specs.Prelude.{◌≡◌, ◌≤◌, ◌<◌, ◌++◌, [], IfOk, OnOk, length};
ghost use Rattle.widl_lines.specs.declared.grammar.Rule.TheVariants as rule;
ghost use Rattle.widl_lines.specs.declared.grammar.Terminal.TheVariants as terminal;
ghost use Rattle.widl_script_reader.specs.declared.forms.Link.TheVariants as link;
ghost use Rattle.widl_script_words.specs.SpelledExpressions.{list_signs, more_signs};
ghost use Rattle.widl_script_reader.specs.ReadExpressions.{Widens, Holds, Continues, link_part, Lists, HoldsRow};
ghost use Rattle.widl_script_words.specs.Reading.{part, token, terminal_ahead};
ghost use Rattle.widl_script_reader.specs.Room.{HasRoom, Pays, Saves};

use crate::nodes::Nodes;
use std::alloc::AllocError;
use widl_lines::Terminal;
use widl_script_tree::{Expression, Row};
use widl_script_words::Reader;

impl Nodes {
    /// A call.
    #[cycle(expression)]
    pub(crate) fn call(
        &mut self,
        reader: &mut Reader<'_, '_>,
        callee: u32,
    ) -> Result<u32, AllocError>
        requires begins { terminal_ahead reader.old ≡ terminal.OpenParen }
        requires within { callee < length self.old.expressions }
        requires room { HasRoom 0 self.old reader.old }
        ensures grown { OnOk result (Widens self.old self.new) }
        ensures tree { IfOk result (λ place. Continues (link_part link.Paren) self.new callee place reader.old reader.new) }
        ensures shorter { OnOk result (length reader.new < length reader.old) }
        ensures paid { Pays 0 self.old reader.old self.new reader.new }
    {
        reader.take();
        let args = self.list(reader)?;
        self.put(Expression::Call { callee, args })
    }

    /// A list, and what closes it.
    #[cycle(expression)]
    fn list(&mut self, reader: &mut Reader<'_, '_>) -> Result<Row, AllocError>
        requires room { HasRoom 3 self.old reader.old }
        ensures grown { OnOk result (Widens self.old self.new) }
        ensures row { IfOk result (λ row. HoldsRow (part rule.ExpressionList ++ token terminal.CloseParen) list_signs self.new row reader.old reader.new) }
        ensures shorter { OnOk result (length reader.new ≤ length reader.old) }
        ensures paid { Pays 3 self.old reader.old self.new reader.new }
    {
        let places = self.items(reader)?;
        reader.take();
        self.put_row(&places)
    }

    /// The items of a list.
    #[cycle(expression)]
    fn items(&mut self, reader: &mut Reader<'_, '_>) -> Result<Vec<u32>, AllocError>
        requires room { HasRoom 3 self.old reader.old }
        ensures grown { OnOk result (Widens self.old self.new) }
        ensures lists { IfOk result (λ places. Lists (part rule.ExpressionList) [] list_signs self.new [] places.items reader.old reader.new) }
        ensures shorter { OnOk result (length reader.new ≤ length reader.old) }
        ensures paid { Pays 3 self.old reader.old self.new reader.new }
        ensures saved { IfOk result (λ places. Saves (length places.items) 3 self.old reader.old self.new reader.new) }
    {
        let mut places = Vec::new(reader.alloc());
        if reader.is_ahead(Terminal::CloseParen) {
            return Ok(places);
        }
        let place = self.expression(reader)?;
        places.push(place)?;
        self.more_items(reader, &mut places)?;
        Ok(places)
    }

    /// Further items, with a comma before each, and what closes them.
    #[cycle(expression)]
    fn more_list(&mut self, reader: &mut Reader<'_, '_>) -> Result<Row, AllocError>
        requires room { HasRoom 0 self.old reader.old }
        ensures grown { OnOk result (Widens self.old self.new) }
        ensures row { IfOk result (λ row. HoldsRow (part rule.MoreExpressions ++ token terminal.CloseParen) more_signs self.new row reader.old reader.new) }
        ensures shorter { OnOk result (length reader.new ≤ length reader.old) }
        ensures paid { Pays 0 self.old reader.old self.new reader.new }
    {
        let mut places = Vec::new(reader.alloc());
        self.more_items(reader, &mut places)?;
        reader.take();
        self.put_row(&places)
    }

    /// Further items, with a comma before each.
    #[cycle(expression)]
    fn more_items(
        &mut self,
        reader: &mut Reader<'_, '_>,
        places: &mut Vec<u32>,
    ) -> Result<(), AllocError>
        requires room { HasRoom (length places.old.items) self.old reader.old }
        ensures grown { OnOk result (Widens self.old self.new) }
        ensures lists { OnOk result (Lists (part rule.MoreExpressions) [] more_signs self.new places.old.items places.new.items reader.old reader.new) }
        ensures shorter { OnOk result (length reader.new ≤ length reader.old) }
        ensures paid { Saves (length places.new.items) (length places.old.items) self.old reader.old self.new reader.new }
    {
        'items: while reader.is_ahead(Terminal::Comma) {
            reader.take();
            let place = self.expression(reader)?;
            places.push(place)?;
        }
        Ok(())
    }

    /// `object()`, or `object(E)` with a prototype.
    #[cycle(expression)]
    pub(crate) fn new_object(&mut self, reader: &mut Reader<'_, '_>) -> Result<u32, AllocError>
        requires begins { terminal_ahead reader.old ≡ terminal.Object }
        requires room { HasRoom 2 self.old reader.old }
        ensures grown { OnOk result (Widens self.old self.new) }
        ensures tree { IfOk result (λ place. Holds (part rule.Primary) [] self.new place reader.old reader.new) }
        ensures shorter { OnOk result (length reader.new ≤ length reader.old) }
        ensures paid { Pays 2 self.old reader.old self.new reader.new }
    {
        reader.take();
        reader.take();
        if reader.is_ahead(Terminal::CloseParen) {
            reader.take();
            return self.put(Expression::NewObject { proto: None });
        }
        let proto = self.expression(reader)?;
        reader.take();
        self.put(Expression::NewObject { proto: Some(proto) })
    }

    /// `array` with its items.
    #[cycle(expression)]
    pub(crate) fn new_array(&mut self, reader: &mut Reader<'_, '_>) -> Result<u32, AllocError>
        requires begins { terminal_ahead reader.old ≡ terminal.Array }
        requires room { HasRoom 2 self.old reader.old }
        ensures grown { OnOk result (Widens self.old self.new) }
        ensures tree { IfOk result (λ place. Holds (part rule.Primary) [] self.new place reader.old reader.new) }
        ensures shorter { OnOk result (length reader.new ≤ length reader.old) }
        ensures paid { Pays 2 self.old reader.old self.new reader.new }
    {
        reader.take();
        reader.take();
        let row = self.list(reader)?;
        self.put(Expression::NewArray(row))
    }

    /// `call` with a function, a value as `this` and arguments.
    #[cycle(expression)]
    pub(crate) fn call_with(&mut self, reader: &mut Reader<'_, '_>) -> Result<u32, AllocError>
        requires begins { terminal_ahead reader.old ≡ terminal.Call }
        requires room { HasRoom 2 self.old reader.old }
        ensures grown { OnOk result (Widens self.old self.new) }
        ensures tree { IfOk result (λ place. Holds (part rule.Primary) [] self.new place reader.old reader.new) }
        ensures shorter { OnOk result (length reader.new ≤ length reader.old) }
        ensures paid { Pays 2 self.old reader.old self.new reader.new }
    {
        reader.take();
        reader.take();
        let callee = self.expression(reader)?;
        reader.take();
        let this = self.expression(reader)?;
        let args = self.more_list(reader)?;
        self.put(Expression::CallWith { callee, this, args })
    }

    /// `new` with an interface object and arguments.
    #[cycle(expression)]
    pub(crate) fn new_of(&mut self, reader: &mut Reader<'_, '_>) -> Result<u32, AllocError>
        requires begins { terminal_ahead reader.old ≡ terminal.New }
        requires room { HasRoom 2 self.old reader.old }
        ensures grown { OnOk result (Widens self.old self.new) }
        ensures tree { IfOk result (λ place. Holds (part rule.Primary) [] self.new place reader.old reader.new) }
        ensures shorter { OnOk result (length reader.new ≤ length reader.old) }
        ensures paid { Pays 2 self.old reader.old self.new reader.new }
    {
        reader.take();
        reader.take();
        let callee = self.expression(reader)?;
        let args = self.more_list(reader)?;
        self.put(Expression::New { callee, args })
    }
}
