//! What holds of every script, as the contracts of functions that do nothing.

ghost use Rattle.widl_script_tree.specs.Laws.{ExpressionsOpen, KeepsTrees, RowsOpen, StatementsOpen};
ghost use Rattle.widl_script_tree.specs.Parts.{IsWhole};

use crate::script::Script;
use crate::tables::ScriptTables;

/// The parts of each node stand before it, and each name stands once.
pub fn parts_are_lower(script: &Script)
    ensures { IsWhole script.now }
{
    script.tables().is_whole();
}

/// The tree at each place is what its node says of the trees at the places that it names.
pub fn expressions_open(script: &Script)
    ensures { ExpressionsOpen script.now }
{
    script.tables().is_whole();
}

/// The same for statements.
pub fn statements_open(script: &Script)
    ensures { StatementsOpen script.now }
{
    script.tables().is_whole();
}

/// The trees of each row are the tree of its first place and those of the rest.
pub fn rows_open(script: &Script)
    ensures { RowsOpen script.now }
{
    script.tables().is_whole();
}

/// Tables that grow keep their trees.
pub fn trees_are_kept(tables: &ScriptTables)
    ensures { KeepsTrees tables.now }
{
    tables.is_whole();
}
