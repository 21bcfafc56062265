//! The tables of a script while they are made.

ghost use Rattle.std.specs.Prelude.{◌≡◌, ◌<◌, ◌≤◌, ◌+◌, All, ℕ, length, slice_get, IfOk, OnErr, OnOk, Some};
ghost use Rattle.std.specs.Option.{option_copied};
ghost use Rattle.widl_script_tree.specs.Parts.{IsFunction, IsLower, IsLowerItem, IsLowerRow, IsLowerStatement, IsWhole};
ghost use Rattle.widl_script_tree.specs.Tables.{expression_at, expression_tree, function_at, is_local_in, key_at, opened, opened_statement, owner_at, statement_at, statement_tree, steps_at};
ghost use Rattle.widl_script_tree.specs.Real.{IsRealStatement};
ghost use Rattle.widl_script_tree.specs.Puts.{finished, no_tables, with_block, with_expression, with_function, with_items, with_name, with_statement, with_statement_items};

use crate::expression::Expression;
use crate::function::Function;
use crate::items::{put_items, put_statement_items};
use crate::local_names::LocalNames;
use crate::row::Row;
use crate::script::Script;
use crate::statement::Statement;
use crate::steps::{StepLines, StepsBlock};
use crate::units::units_fit;
use indexmap::{IndexMap, IndexSet};
use std::alloc::{AllocError, Global};
use std::marker::Model;
use widl_idl::{Callee, Owner};
use widl_text::{Items, Units};

/// The tables of a script: its nodes, its functions, its steps blocks and its names.
///
/// A node is put after its parts, so the places that it names are lower than its own. Each table has
/// fewer than 4,294,967,296 entries.
#[derive(Drop)]
pub struct ScriptTables {
    expressions: Vec<Expression>,
    statements: Vec<Statement>,
    functions: Vec<Function>,
    blocks: Vec<StepsBlock>,
    names: IndexSet<Units>,
    owners: IndexMap<u32, Owner>,
    targets: IndexMap<(Callee, Option<u32>), u32>,
    top: Row,
    // What stands past the ends.
    default_expression: Expression,
    default_statement: Statement,
    default_function: Function,
    default_name: Units,
}

impl Model for ScriptTables {
    ghost use Rattle.widl_script_tree.specs.Tables.{Tables};

    ghost Value = { Tables };

    ghost use Rattle.widl_script_tree.specs.Made.{tables_of, IsMade};

    ghost view = { tables_of };

    ghost invariant = { IsMade };
}

impl ScriptTables {
    /// Empty tables.
    pub fn new(alloc: Global) -> ScriptTables
        ensures { result ≡ no_tables }
    {
        let empty = Row { first: 0, count: 0 };
        ScriptTables {
            expressions: Vec::new(alloc),
            statements: Vec::new(alloc),
            functions: Vec::new(alloc),
            blocks: Vec::new(alloc),
            names: IndexSet::new(alloc),
            owners: IndexMap::new(alloc),
            targets: IndexMap::new(alloc),
            top: empty,
            default_expression: Expression::Undefined,
            default_statement: Statement::Do(u32::MAX),
            default_function: Function {
                name: 0,
                params: Items::new(alloc),
                names: LocalNames::new(alloc),
                body: empty,
            },
            default_name: Units::new(alloc),
        }
    }

    /// That the tables are whole: a law, which takes no step.
    pub(crate) fn is_whole(&self)
        ensures { IsWhole self.now }
    {
        let _nodes = &self.expressions;
    }

    /// How many expressions there are, with their items.
    pub fn expression_count(&self) -> u32
        ensures { result ≡ length self.now.expressions }
    {
        self.expressions.len() as u32
    }

    /// How many statements there are, with their items.
    pub fn statement_count(&self) -> u32
        ensures { result ≡ length self.now.statements }
    {
        self.statements.len() as u32
    }

    /// How many functions there are.
    pub fn function_count(&self) -> u32
        ensures { result ≡ length self.now.functions }
    {
        self.functions.len() as u32
    }

    /// How many steps blocks there are.
    pub fn steps_count(&self) -> u32
        ensures { result ≡ length self.now.blocks }
    {
        self.blocks.len() as u32
    }

    /// How many names there are.
    pub fn name_count(&self) -> u32
        ensures { result ≡ length self.now.names }
    {
        self.names.len() as u32
    }

    /// Puts an expression after those that are there, and answers its place.
    ///
    /// # Errors
    ///
    /// `AllocError` where there is no memory; the tables are unchanged, as after each call below.
    pub fn put_expression(&mut self, node: Expression) -> Result<u32, AllocError>
        requires lower { IsLower self.old (length self.old.expressions) node }
        requires room { length self.old.expressions < u32.MAX }
        ensures place { IfOk result (λ place. place ≡ length self.old.expressions) }
        ensures tables { OnOk result (self.new ≡ with_expression self.old node) }
        ensures err { OnErr result (self.new ≡ self.old) }
    {
        let place = self.expressions.len() as u32;
        self.expressions.push(node)?;
        Ok(place)
    }

    /// Puts a row of the expressions at these places.
    ///
    /// # Errors
    ///
    /// `AllocError` where there is no memory.
    pub fn put_row(&mut self, places: &[u32]) -> Result<Row, AllocError>
        requires lower { All (λ place. place < length self.old.expressions) places.now }
        requires room { length self.old.expressions + length places.now ≤ u32.MAX }
        ensures first { IfOk result (λ row. row.first ≡ length self.old.expressions) }
        ensures count { IfOk result (λ row. row.count ≡ length places.now) }
        ensures tables { OnOk result (self.new ≡ with_items self.old places.now) }
        ensures err { OnErr result (self.new ≡ self.old) }
    {
        let first = self.expressions.len() as u32;
        put_items(&mut self.expressions, places)?;
        Ok(Row {
            first,
            count: places.len() as u32,
        })
    }

    /// Puts a statement after those that are there, and answers its place.
    ///
    /// # Errors
    ///
    /// `AllocError` where there is no memory.
    pub fn put_statement(&mut self, node: Statement) -> Result<u32, AllocError>
        requires lower { IsLowerStatement self.old (length self.old.statements) node }
        requires room { length self.old.statements < u32.MAX }
        ensures place { IfOk result (λ place. place ≡ length self.old.statements) }
        ensures tables { OnOk result (self.new ≡ with_statement self.old node) }
        ensures err { OnErr result (self.new ≡ self.old) }
    {
        let place = self.statements.len() as u32;
        self.statements.push(node)?;
        Ok(place)
    }

    /// Puts a row of the statements at these places.
    ///
    /// # Errors
    ///
    /// `AllocError` where there is no memory.
    pub fn put_statement_row(&mut self, places: &[u32]) -> Result<Row, AllocError>
        requires lower { All (λ place. place < length self.old.statements) places.now }
        requires room { length self.old.statements + length places.now ≤ u32.MAX }
        ensures first { IfOk result (λ row. row.first ≡ length self.old.statements) }
        ensures count { IfOk result (λ row. row.count ≡ length places.now) }
        ensures tables { OnOk result (self.new ≡ with_statement_items self.old places.now) }
        ensures err { OnErr result (self.new ≡ self.old) }
    {
        let first = self.statements.len() as u32;
        put_statement_items(&mut self.statements, places)?;
        Ok(Row {
            first,
            count: places.len() as u32,
        })
    }

    /// Puts a function, and answers its number.
    ///
    /// # Errors
    ///
    /// `AllocError` where there is no memory.
    pub fn put_function(&mut self, function: Function) -> Result<u32, AllocError>
        requires parts { IsFunction self.old function }
        requires room { length self.old.functions < u32.MAX }
        ensures number { IfOk result (λ number. number ≡ length self.old.functions) }
        ensures tables { OnOk result (self.new ≡ with_function self.old function) }
        ensures err { OnErr result (self.new ≡ self.old) }
    {
        let number = self.functions.len() as u32;
        self.functions.push(function)?;
        Ok(number)
    }

    /// Puts a steps block, and answers its number.
    ///
    /// # Errors
    ///
    /// `AllocError` where there is no memory.
    pub fn put_steps(&mut self, block: StepsBlock) -> Result<u32, AllocError>
        requires room { length self.old.blocks < u32.MAX }
        ensures number { IfOk result (λ number. number ≡ length self.old.blocks) }
        ensures tables { OnOk result (self.new ≡ with_block self.old block) }
        ensures err { OnErr result (self.new ≡ self.old) }
    {
        let number = self.blocks.len() as u32;
        self.blocks.push(block)?;
        Ok(number)
    }

    /// Puts a name, unless it is there, and answers its number.
    ///
    /// # Errors
    ///
    /// `AllocError` where there is no memory.
    pub fn put_name(&mut self, text: Units) -> Result<u32, AllocError>
        requires room { length self.old.names < u32.MAX }
        ensures number { IfOk result (λ number. slice_get self.new.names number ≡ Some text) }
        ensures tables { OnOk result (self.new ≡ with_name self.old text) }
        ensures err { OnErr result (self.new ≡ self.old) }
    {
        units_fit(text.as_slice());
        let (number, _) = self.names.insert_full(text)?;
        Ok(number as u32)
    }

    /// The script of these tables.
    ///
    /// `top` has the statements outside functions, `owners` the interfaces and namespaces of names, by the
    /// names' numbers, and `targets` the numbers of the steps blocks for callees, where they are operations or
    /// constructors with their overloads.
    pub fn finish(
        self,
        top: Row,
        owners: IndexMap<u32, Owner>,
        targets: IndexMap<(Callee, Option<u32>), u32>,
    ) -> Script
        requires { IsLowerRow (length self.statements) top }
        ensures { result ≡ finished self top owners.entries targets.entries }
    {
        let mut tables = self;
        tables.top = top;
        tables.owners = owners;
        tables.targets = targets;
        Script::of(tables)
    }

    /// The node at a place: an item where the place is one of a row, and `Undefined` past the end.
    pub fn expression(&self, place: u32) -> &Expression
        ensures node { result.now ≡ expression_at self.now place }
        ensures lower { IsLower self.now place result.now }
        ensures tree { expression_tree self.now place ≡ opened self.now (expression_tree self.now) result.now }
    {
        self.is_whole();
        self.expression_here(place)
    }

    fn expression_here(&self, place: u32) -> &Expression
        ensures { result.now ≡ expression_at self.now place }
    {
        match self.expressions.get(place as usize) {
            Some(node) => node,
            None => &self.default_expression,
        }
    }

    /// The node at a place: an item where the place is one of a row, and a `Do` of nothing past the end.
    pub fn statement(&self, place: u32) -> &Statement
        ensures node { result.now ≡ statement_at self.now place }
        ensures lower { place < length self.now.statements → IsLowerStatement self.now place result.now }
        ensures item { IsLowerItem place result.now }
        ensures tree { statement_tree self.now place ≡ opened_statement self.now (statement_tree self.now) result.now }
    {
        self.is_whole();
        self.statement_here(place)
    }

    /// The statement at a place, which is no item. A `Do` of nothing past the end.
    pub fn real_statement(&self, place: u32) -> &Statement
        ensures tree { statement_tree self.now place ≡ opened_statement self.now (statement_tree self.now) result.now }
        ensures real { IsRealStatement result.now }
    {
        let mut node = self.statement(place);
        let mut at = place;
        'through: loop {
            match node {
                Statement::Item(lower) => {
                    at = *lower;
                    node = self.statement(at);
                }
                _ => return node,
            }
        }
    }

    fn statement_here(&self, place: u32) -> &Statement
        ensures { result.now ≡ statement_at self.now place }
    {
        match self.statements.get(place as usize) {
            Some(node) => node,
            None => &self.default_statement,
        }
    }

    /// The function of a number; past the end one without a body.
    pub fn function(&self, number: u32) -> &Function
        ensures function { result.now ≡ function_at self.now number }
        ensures parts { number < length self.now.functions → IsFunction self.now result.now }
    {
        match self.functions.get(number as usize) {
            Some(function) => function,
            None => &self.default_function,
        }
    }

    /// The name of a number; past the end the empty text.
    pub fn name(&self, number: u32) -> &Units
        ensures { result.now ≡ key_at self.now number }
    {
        match self.names.get_index(number as usize) {
            Some(name) => name,
            None => &self.default_name,
        }
    }

    /// The interface or the namespace that has the name of this number.
    pub fn owner(&self, name: u32) -> Option<Owner>
        ensures { result ≡ owner_at self.now name }
    {
        self.owners.get(&name).copied()
    }

    /// Whether a name is local in a function, both by their numbers.
    pub fn is_local(&self, function: u32, name: u32) -> bool
        ensures { result ≡ is_local_in self.now function name }
    {
        self.function(function).names.has(name)
    }

    /// The steps block of a number.
    pub fn steps(&self, number: u32) -> Option<&StepsBlock>
        ensures { option_copied result ≡ slice_get self.now.blocks number }
    {
        self.blocks.get(number as usize)
    }

    /// The lines of the steps block for a callee and, where it is an operation or a constructor, its
    /// overload.
    pub fn steps_of(&self, callee: &Callee, overload: Option<u32>) -> Option<&StepLines>
        ensures { option_copied result ≡ steps_at self.now callee.now overload }
    {
        match self.targets.get(&(*callee, overload)) {
            Some(number) => match self.blocks.get(*number as usize) {
                Some(block) => Some(&block.lines),
                None => None,
            },
            None => None,
        }
    }

    /// The statements outside functions.
    pub fn top(&self) -> Row
        ensures { result ≡ self.now.top }
    {
        self.top
    }
}
