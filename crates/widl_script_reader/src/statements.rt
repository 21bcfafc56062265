//! Statements of one line, and what the first lines of blocks say.

ghost use Rattle.std.specs.Prelude.{◌≡◌, IfOk, OnOk, MatchOption, false};
ghost use Rattle.widl_lines.specs.declared.grammar.Terminal.TheVariants as terminal;
ghost use Rattle.widl_script_reader.specs.ReadExpressions.{Widens};
ghost use Rattle.widl_script_words.specs.Reading.{terminal_ahead};
ghost use Rattle.widl_script_words.specs.StepReading.{is_block_word};
ghost use Rattle.widl_script_reader.specs.ReadLines.{any_member, is_head, HoldsLine, HoldsAssigned, HoldsAccessor, HoldsIf};
ghost use Rattle.widl_script_reader.specs.Room.{HasRoom, Pays};

use crate::forms::{Head, head_of};
use crate::nodes::Nodes;
use std::alloc::AllocError;
use widl_lines::Terminal;
use widl_script_tree::{MemberKey, MemberOf, Statement};
use widl_script_words::Reader;

/// The member; any where there is none.
fn member_or_any(member: Option<MemberOf>) -> MemberOf
    ensures { MatchOption member (result ≡ any_member) (λ m. result ≡ m) }
{
    match member {
        Some(member) => member,
        None => MemberOf {
            of: 0,
            key: MemberKey::Computed(0),
        },
    }
}

impl Nodes {
    /// `let` with a name and a value.
    fn let_line(&mut self, reader: &mut Reader<'_, '_>) -> Result<Statement, AllocError>
        requires begins { terminal_ahead reader.old ≡ terminal.Let }
        requires room { HasRoom 2 self.old reader.old }
        ensures grown { OnOk result (Widens self.old self.new) }
        ensures tree { IfOk result (λ statement. HoldsLine self.new statement reader.old reader.new) }
        ensures paid { Pays 2 self.old reader.old self.new reader.new }
    {
        reader.take();
        let name = self.name_number(reader)?;
        reader.take();
        let value = self.expression(reader)?;
        Ok(Statement::Let { name, value })
    }

    /// `do` with an expression.
    fn do_line(&mut self, reader: &mut Reader<'_, '_>) -> Result<Statement, AllocError>
        requires begins { terminal_ahead reader.old ≡ terminal.Do }
        requires room { HasRoom 2 self.old reader.old }
        ensures grown { OnOk result (Widens self.old self.new) }
        ensures tree { IfOk result (λ statement. HoldsLine self.new statement reader.old reader.new) }
        ensures paid { Pays 2 self.old reader.old self.new reader.new }
    {
        reader.take();
        Ok(Statement::Do(self.expression(reader)?))
    }

    /// `return` with an expression.
    fn return_line(&mut self, reader: &mut Reader<'_, '_>) -> Result<Statement, AllocError>
        requires begins { terminal_ahead reader.old ≡ terminal.Return }
        requires room { HasRoom 2 self.old reader.old }
        ensures grown { OnOk result (Widens self.old self.new) }
        ensures tree { IfOk result (λ statement. HoldsLine self.new statement reader.old reader.new) }
        ensures paid { Pays 2 self.old reader.old self.new reader.new }
    {
        reader.take();
        Ok(Statement::Return(self.expression(reader)?))
    }

    /// `throw` with an expression.
    fn throw_line(&mut self, reader: &mut Reader<'_, '_>) -> Result<Statement, AllocError>
        requires begins { terminal_ahead reader.old ≡ terminal.Throw }
        requires room { HasRoom 2 self.old reader.old }
        ensures grown { OnOk result (Widens self.old self.new) }
        ensures tree { IfOk result (λ statement. HoldsLine self.new statement reader.old reader.new) }
        ensures paid { Pays 2 self.old reader.old self.new reader.new }
    {
        reader.take();
        Ok(Statement::Throw(self.expression(reader)?))
    }

    /// `show` with an expression.
    fn show_line(&mut self, reader: &mut Reader<'_, '_>) -> Result<Statement, AllocError>
        requires begins { terminal_ahead reader.old ≡ terminal.Show }
        requires room { HasRoom 2 self.old reader.old }
        ensures grown { OnOk result (Widens self.old self.new) }
        ensures tree { IfOk result (λ statement. HoldsLine self.new statement reader.old reader.new) }
        ensures paid { Pays 2 self.old reader.old self.new reader.new }
    {
        reader.take();
        Ok(Statement::Show(self.expression(reader)?))
    }

    /// `set` with a member and a value.
    fn set_line(&mut self, reader: &mut Reader<'_, '_>) -> Result<Statement, AllocError>
        requires begins { terminal_ahead reader.old ≡ terminal.Set }
        requires room { HasRoom 2 self.old reader.old }
        ensures grown { OnOk result (Widens self.old self.new) }
        ensures tree { IfOk result (λ statement. HoldsLine self.new statement reader.old reader.new) }
        ensures paid { Pays 2 self.old reader.old self.new reader.new }
    {
        reader.take();
        let member = member_or_any(self.member(reader)?);
        let value = self.assigned(reader)?;
        Ok(Statement::Set { member, value })
    }

    /// `delete` with a member.
    fn delete_line(&mut self, reader: &mut Reader<'_, '_>) -> Result<Statement, AllocError>
        requires begins { terminal_ahead reader.old ≡ terminal.Delete }
        requires room { HasRoom 2 self.old reader.old }
        ensures grown { OnOk result (Widens self.old self.new) }
        ensures tree { IfOk result (λ statement. HoldsLine self.new statement reader.old reader.new) }
        ensures paid { Pays 2 self.old reader.old self.new reader.new }
    {
        reader.take();
        let member = member_or_any(self.member(reader)?);
        Ok(Statement::Delete(member))
    }

    /// `define` with a member and what becomes of it.
    fn define_line(&mut self, reader: &mut Reader<'_, '_>) -> Result<Statement, AllocError>
        requires begins { terminal_ahead reader.old ≡ terminal.Define }
        requires room { HasRoom 2 self.old reader.old }
        ensures grown { OnOk result (Widens self.old self.new) }
        ensures tree { IfOk result (λ statement. HoldsLine self.new statement reader.old reader.new) }
        ensures paid { Pays 2 self.old reader.old self.new reader.new }
    {
        reader.take();
        if reader.is_ahead(Terminal::Hidden) {
            reader.take();
            let member = member_or_any(self.member(reader)?);
            let value = self.assigned(reader)?;
            return Ok(Statement::Define {
                member,
                value,
                hidden: true,
            });
        }
        let member = member_or_any(self.member(reader)?);
        if reader.is_ahead(Terminal::Get) {
            let (getter, setter) = self.accessor(reader)?;
            return Ok(Statement::DefineAccessor {
                member,
                getter,
                setter,
            });
        }
        let value = self.assigned(reader)?;
        Ok(Statement::Define {
            member,
            value,
            hidden: false,
        })
    }

    /// `=` with a value.
    fn assigned(&mut self, reader: &mut Reader<'_, '_>) -> Result<u32, AllocError>
        requires room { HasRoom 2 self.old reader.old }
        ensures grown { OnOk result (Widens self.old self.new) }
        ensures tree { IfOk result (λ value. HoldsAssigned self.new value reader.old reader.new) }
        ensures paid { Pays 2 self.old reader.old self.new reader.new }
    {
        reader.take();
        self.expression(reader)
    }

    /// `get` with a getter, and perhaps `set` with a setter.
    fn accessor(&mut self, reader: &mut Reader<'_, '_>) -> Result<(u32, Option<u32>), AllocError>
        requires begins { terminal_ahead reader.old ≡ terminal.Get }
        requires room { HasRoom 2 self.old reader.old }
        ensures grown { OnOk result (Widens self.old self.new) }
        ensures tree { IfOk result (λ parts. HoldsAccessor self.new parts.0 parts.1 reader.old reader.new) }
        ensures paid { Pays 2 self.old reader.old self.new reader.new }
    {
        reader.take();
        let getter = self.expression(reader)?;
        if reader.is_ahead(Terminal::Set) {
            reader.take();
            let setter = self.expression(reader)?;
            return Ok((getter, Some(setter)));
        }
        Ok((getter, None))
    }

    /// What no statement begins with.
    fn no_line(&mut self, reader: &mut Reader<'_, '_>) -> Result<Statement, AllocError>
        requires head { is_head (terminal_ahead reader.old) ≡ false }
        requires other { is_block_word (terminal_ahead reader.old) ≡ false }
        requires room { HasRoom 2 self.old reader.old }
        ensures grown { OnOk result (Widens self.old self.new) }
        ensures tree { IfOk result (λ statement. HoldsLine self.new statement reader.old reader.new) }
        ensures paid { Pays 2 self.old reader.old self.new reader.new }
    {
        Ok(Statement::Do(self.expression(reader)?))
    }

    /// A statement of one line.
    pub(crate) fn statement_line(
        &mut self,
        reader: &mut Reader<'_, '_>,
    ) -> Result<Statement, AllocError>
        requires other { is_block_word (terminal_ahead reader.old) ≡ false }
        requires room { HasRoom 2 self.old reader.old }
        ensures grown { OnOk result (Widens self.old self.new) }
        ensures tree { IfOk result (λ statement. HoldsLine self.new statement reader.old reader.new) }
        ensures paid { Pays 2 self.old reader.old self.new reader.new }
    {
        match head_of(reader.ahead()) {
            Some(Head::Let) => self.let_line(reader),
            Some(Head::Do) => self.do_line(reader),
            Some(Head::Set) => self.set_line(reader),
            Some(Head::Define) => self.define_line(reader),
            Some(Head::Delete) => self.delete_line(reader),
            Some(Head::Return) => self.return_line(reader),
            Some(Head::Throw) => self.throw_line(reader),
            Some(Head::Show) => self.show_line(reader),
            None => self.no_line(reader),
        }
    }

    /// The two expressions after `if`.
    pub(crate) fn if_head(&mut self, reader: &mut Reader<'_, '_>) -> Result<(u32, u32), AllocError>
        requires room { HasRoom 4 self.old reader.old }
        ensures grown { OnOk result (Widens self.old self.new) }
        ensures tree { IfOk result (λ parts. HoldsIf self.new parts.0 parts.1 reader.old reader.new) }
        ensures paid { Pays 4 self.old reader.old self.new reader.new }
    {
        let left = self.expression(reader)?;
        reader.take();
        let right = self.expression(reader)?;
        Ok((left, right))
    }
}
