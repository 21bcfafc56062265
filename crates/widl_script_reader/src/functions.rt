//! What the first line of a function says.

ghost use Rattle.std.specs.Prelude.{◌≡◌, [], IfOk, OnOk};
ghost use Rattle.widl_lines.specs.declared.grammar.Rule.TheVariants as rule;
ghost use Rattle.widl_script_words.specs.SpelledStatements.{name_list, more_names};
ghost use Rattle.widl_script_reader.specs.ReadExpressions.{Widens};
ghost use Rattle.widl_script_words.specs.Reading.{part};
ghost use Rattle.widl_script_reader.specs.ReadLines.{HoldsFunction, NameLists};
ghost use Rattle.widl_script_reader.specs.Room.{HasRoom, Pays};

use crate::nodes::Nodes;
use std::alloc::AllocError;
use widl_lines::Terminal;
use widl_script_tree::Params;
use widl_script_words::Reader;
use widl_text::Items;

/// What the first line of a function says.
#[derive(Drop)]
pub(crate) struct FunctionHead {
    /// The number of the function's name.
    pub(crate) name: u32,
    /// The parameters, by the numbers of their names.
    pub(crate) params: Params,
}

impl Nodes {
    /// The name and the parameters after `function`.
    pub(crate) fn function_head(
        &mut self,
        reader: &mut Reader<'_, '_>,
    ) -> Result<FunctionHead, AllocError>
        requires room { HasRoom 2 self.old reader.old }
        ensures grown { OnOk result (Widens self.old self.new) }
        ensures tree { IfOk result (λ head. HoldsFunction self.new head.name head.params reader.old reader.new) }
        ensures paid { Pays 2 self.old reader.old self.new reader.new }
    {
        let name = self.name_number(reader)?;
        reader.take();
        let params = self.params(reader)?;
        reader.take();
        Ok(FunctionHead { name, params })
    }

    /// The parameters of a function.
    fn params(&mut self, reader: &mut Reader<'_, '_>) -> Result<Params, AllocError>
        requires room { HasRoom 1 self.old reader.old }
        ensures grown { OnOk result (Widens self.old self.new) }
        ensures lists { IfOk result (λ params. NameLists (part rule.ParameterList) [] name_list self.new [] params reader.old reader.new) }
        ensures paid { Pays 1 self.old reader.old self.new reader.new }
    {
        let mut params = Items::new(reader.alloc());
        if reader.is_ahead(Terminal::CloseParen) {
            return Ok(params);
        }
        let name = self.name_number(reader)?;
        params.push(name)?;
        self.more_params(reader, &mut params)?;
        Ok(params)
    }

    /// Further parameters, with a comma before each.
    fn more_params(
        &mut self,
        reader: &mut Reader<'_, '_>,
        params: &mut Params,
    ) -> Result<(), AllocError>
        requires room { HasRoom 0 self.old reader.old }
        ensures grown { OnOk result (Widens self.old self.new) }
        ensures lists { OnOk result (NameLists (part rule.MoreParameters) [] more_names self.new params.old params.new reader.old reader.new) }
        ensures paid { Pays 0 self.old reader.old self.new reader.new }
    {
        'names: while reader.is_ahead(Terminal::Comma) {
            reader.take();
            let name = self.name_number(reader)?;
            params.push(name)?;
        }
        Ok(())
    }
}
