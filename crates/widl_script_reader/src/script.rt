//! The tables of a whole script.

ghost use Rattle.std.specs.Prelude.{◌≤◌, IfOk, List, length, ℕ};
ghost use Rattle.widl_idl.specs.declared.callee.Owner.{Owner};
ghost use Rattle.widl_lines.specs.LineTerms.{line_of};
ghost use Rattle.widl_script_tree.specs.Parts.{IsLowerRow};
ghost use Rattle.widl_script_tree.specs.Puts.{finished};
ghost use Rattle.widl_script_tree.specs.Tables.{CalleeOverload, script_tree};
ghost use Rattle.widl_script_reader.specs.Building.{Sound};
ghost use Rattle.widl_script_reader.specs.ReadScript.{EndsAs, ReadTo};
ghost use Rattle.widl_script_reader.specs.Room.{weight};
ghost use Rattle.widl_script_words.specs.SpelledStatements.{IsTreeOf, words_of};

use crate::frames::Builder;
use std::alloc::{AllocError, Global};
use widl_lines::ScriptWords;
use widl_script_tree::{Row, ScriptTables};

/// The tables of a script.
///
/// What a name or a steps block is for isn't told yet ([`ScriptTables::finish`]).
#[derive(Drop)]
pub struct Built {
    /// The tables.
    pub tables: ScriptTables,
    /// The statements outside functions.
    pub top: Row,
}

/// The builder's tables with the statements outside functions.
fn finish(builder: Builder) -> Result<Built, AllocError>
    requires sound { Sound builder }
    requires room { weight builder ≤ u32.MAX }
    ensures { IfOk result (λ built. EndsAs builder built.tables built.top) }
{
    let mut builder = builder;
    let top = builder.nodes.put_statements(&builder.places)?;
    let nodes = builder.nodes;
    Ok(Built {
        tables: nodes.tables,
        top,
    })
}

/// The tables of the words of a script, whoever the owners and the targets are that [`ScriptTables::finish`] is told.
///
/// # Errors
///
/// `AllocError` where there is no memory.
pub fn build(alloc: Global, words: &ScriptWords<'_>) -> Result<Built, AllocError>
    ensures tree { IfOk result (λ built. (owners : List (ℕ × Owner)) (targets : List (CalleeOverload × ℕ)) → IsTreeOf (script_tree (finished built.tables built.top owners targets)) (words_of words.now)) }
    ensures top { IfOk result (λ built. IsLowerRow (length built.tables.statements) built.top) }
{
    let mut builder = Builder::new(alloc);
    let mut rest = words.lines();
    'lines: while let [line, after @ ..] = rest {
        builder.read_line(alloc, line)?;
        rest = after;
    }
    finish(builder)
}
