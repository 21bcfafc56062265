//! The tables while they are made.

ghost use Rattle.std.specs.Prelude.{◌≡◌, ◌+◌, ◌<◌, ◌≤◌, All, length, IfOk, OnOk, OnErr, MatchOption, [], false};
ghost use Rattle.widl_script_tree.specs.declared.expression.Expression.TheVariants as node;
ghost use Rattle.widl_script_tree.specs.Parts.{IsBodyLower, IsFunction, IsLower, IsLowerStatement};
ghost use Rattle.widl_script_tree.specs.Puts.{no_tables};
ghost use Rattle.widl_script_tree.specs.Tables.{expression_at};
ghost use Rattle.widl_script_reader.specs.StatementPuts.{AllStatements, IsBlockPut, IsFunctionPut, IsStatementPut, IsStatementRow};
ghost use Rattle.widl_script_reader.specs.ReadExpressions.{Widens, is_member, IsPut, IsNamed, IsRow};
ghost use Rattle.widl_script_reader.specs.Room.{entries};

use std::alloc::{AllocError, Global};
use std::marker::Model;
use widl_script_tree::{Expression, Function, MemberOf, Row, ScriptTables, Statement, StepsBlock};
use widl_text::Units;

/// The tables of a script, which contracts see.
#[derive(Drop)]
pub(crate) struct Nodes {
    pub(crate) tables: ScriptTables,
}

impl Model for Nodes {
    ghost use Rattle.widl_script_tree.specs.Tables.{Tables};

    ghost Value = { Tables };

    ghost view = { λ n. n.tables };
}

impl Nodes {
    /// No nodes.
    pub(crate) fn new(alloc: Global) -> Nodes
        ensures { result ≡ no_tables }
    {
        Nodes {
            tables: ScriptTables::new(alloc),
        }
    }

    /// Puts an expression, and answers its place.
    #[inline(always)]
    pub(crate) fn put(&mut self, node: Expression) -> Result<u32, AllocError>
        requires lower { IsLower self.old (length self.old.expressions) node }
        requires room { entries self.old + 1 ≤ u32.MAX }
        ensures put { IfOk result (λ place. IsPut node place self.old self.new) }
        ensures one { entries self.new ≤ entries self.old + 1 }
    {
        self.tables.put_expression(node)
    }

    /// Puts a row of the expressions at these places.
    pub(crate) fn put_row(&mut self, places: &[u32]) -> Result<Row, AllocError>
        requires lower { All (λ place. place < length self.old.expressions) places.now }
        requires room { entries self.old + length places.now ≤ u32.MAX }
        ensures grown { OnOk result (Widens self.old self.new) }
        ensures row { IfOk result (λ row. IsRow self.new row places.now) }
        ensures each { entries self.new ≤ entries self.old + length places.now }
    {
        self.tables.put_row(places)
    }

    /// The number of a name.
    pub(crate) fn name(&mut self, text: Units) -> Result<u32, AllocError>
        requires room { entries self.old + 1 ≤ u32.MAX }
        ensures named { IfOk result (λ number. IsNamed text number self.old self.new) }
        ensures one { entries self.new ≤ entries self.old + 1 }
    {
        self.tables.put_name(text)
    }

    /// The member at the place, if a member stands there.
    pub(crate) fn member_at(&self, place: u32) -> Option<MemberOf>
        ensures { MatchOption result (is_member (expression_at self.now place) ≡ false) (λ m. (expression_at self.now place ≡ node.Member m) × IsLower self.now place (node.Member m)) }
    {
        match self.tables.expression(place) {
            Expression::Member(member) => Some(*member),
            _ => None,
        }
    }

    /// Puts a statement, and answers its place.
    pub(crate) fn put_statement(&mut self, node: Statement) -> Result<u32, AllocError>
        requires lower { IsLowerStatement self.old (length self.old.statements) node }
        requires body { IsBodyLower self.old (length self.old.statements) node }
        requires room { entries self.old + 1 ≤ u32.MAX }
        ensures put { IfOk result (λ place. IsStatementPut node place self.old self.new) }
        ensures one { entries self.new ≤ entries self.old + 1 }
    {
        self.tables.put_statement(node)
    }

    /// Puts a row of the statements at these places.
    pub(crate) fn put_statements(&mut self, places: &[u32]) -> Result<Row, AllocError>
        requires lower { AllStatements self.old places.now }
        requires room { entries self.old + length places.now ≤ u32.MAX }
        ensures row { IfOk result (λ row. IsStatementRow row places.now self.old self.new) }
        ensures each { OnOk result (entries self.new ≤ entries self.old + length places.now) }
        ensures none { OnErr result (entries self.new ≤ entries self.old) }
    {
        self.tables.put_statement_row(places)
    }

    /// Puts a function, and answers its number.
    pub(crate) fn put_function(&mut self, function: Function) -> Result<u32, AllocError>
        requires parts { IsFunction self.old function }
        requires room { entries self.old + 1 ≤ u32.MAX }
        ensures put { IfOk result (λ number. IsFunctionPut function number self.old self.new) }
        ensures one { entries self.new ≤ entries self.old + 1 }
    {
        self.tables.put_function(function)
    }

    /// Puts a steps block, and answers its number.
    pub(crate) fn put_steps(&mut self, block: StepsBlock) -> Result<u32, AllocError>
        requires room { entries self.old + 1 ≤ u32.MAX }
        ensures put { IfOk result (λ number. IsBlockPut block number self.old self.new) }
        ensures one { entries self.new ≤ entries self.old + 1 }
    {
        self.tables.put_steps(block)
    }
}
