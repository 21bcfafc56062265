//! A script as its readers see it.

ghost use Rattle.std.specs.Prelude.{◌≡◌, ◌<◌, length, slice_get};
ghost use Rattle.std.specs.Option.{option_copied};
ghost use Rattle.widl_script_tree.specs.Parts.{IsFunction};
ghost use Rattle.widl_script_tree.specs.Real.{IsReal, IsRealStatement};
ghost use Rattle.widl_script_tree.specs.Tables.{expression_tree, function_at, is_local_in, key_at, opened, opened_statement, owner_at, statement_tree, steps_at};

use crate::expression::Expression;
use crate::function::Function;
use crate::row::Row;
use crate::statement::Statement;
use crate::steps::{StepLines, StepsBlock};
use crate::tables::ScriptTables;
use std::marker::Model;
use widl_idl::{Callee, Owner};
use widl_text::Units;

/// A script, which doesn't change.
///
/// No call takes memory, and each takes any place or number: past the end of a table it answers a plain
/// default, which is also what the tree has there.
#[derive(Drop)]
pub struct Script {
    tables: ScriptTables,
}

impl Model for Script {
    ghost use Rattle.widl_script_tree.specs.Tables.{Tables};

    ghost Value = { Tables };

    ghost view = { λ s. s.tables };
}

impl Script {
    /// The script of these tables.
    pub(crate) fn of(tables: ScriptTables) -> Script
        ensures { result ≡ tables }
    {
        Script { tables }
    }

    /// The tables.
    pub(crate) fn tables(&self) -> &ScriptTables
        ensures { result.now ≡ self.now }
    {
        &self.tables
    }

    /// The statements outside functions.
    pub fn top(&self) -> Row
        ensures { result ≡ self.now.top }
    {
        self.tables.top()
    }

    /// The expression at a place, which is no item: where the place is one of a row, the expression that
    /// its item names. `Undefined` past the end.
    pub fn expression(&self, place: u32) -> &Expression
        ensures tree { expression_tree self.now place ≡ opened self.now (expression_tree self.now) result.now }
        ensures real { IsReal result.now }
    {
        let mut node = self.tables.expression(place);
        let mut at = place;
        'through: loop {
            match node {
                Expression::Item(lower) => {
                    at = *lower;
                    node = self.tables.expression(at);
                }
                _ => return node,
            }
        }
    }

    /// The statement at a place, which is no item. A `Do` of nothing past the end.
    pub fn statement(&self, place: u32) -> &Statement
        ensures tree { statement_tree self.now place ≡ opened_statement self.now (statement_tree self.now) result.now }
        ensures real { IsRealStatement result.now }
    {
        self.tables.real_statement(place)
    }

    /// The function of a number; past the end one without a body.
    pub fn function(&self, number: u32) -> &Function
        ensures function { result.now ≡ function_at self.now number }
        ensures parts { number < length self.now.functions → IsFunction self.now result.now }
    {
        self.tables.function(number)
    }

    /// The name of a number; past the end the empty text.
    pub fn name(&self, number: u32) -> &Units
        ensures { result.now ≡ key_at self.now number }
    {
        self.tables.name(number)
    }

    /// The interface or the namespace that has the name of this number.
    pub fn owner(&self, name: u32) -> Option<Owner>
        ensures { result ≡ owner_at self.now name }
    {
        self.tables.owner(name)
    }

    /// Whether a name is local in a function, both by their numbers.
    pub fn is_local(&self, function: u32, name: u32) -> bool
        ensures { result ≡ is_local_in self.now function name }
    {
        self.tables.is_local(function, name)
    }

    /// The steps block of a number.
    pub fn steps(&self, number: u32) -> Option<&StepsBlock>
        ensures { option_copied result ≡ slice_get self.now.blocks number }
    {
        self.tables.steps(number)
    }

    /// The lines of the steps block for a callee and, where it is an operation or a constructor, its
    /// overload.
    pub fn steps_of(&self, callee: &Callee, overload: Option<u32>) -> Option<&StepLines>
        ensures { option_copied result ≡ steps_at self.now callee.now overload }
    {
        self.tables.steps_of(callee, overload)
    }
}
