//! What steps blocks and their lines break.

ghost use Rattle.std.specs.Prelude.{◌≡◌, [], length, IfOk, None};
ghost use Rattle.widl_first.specs.Keys.{IsFirst};
ghost use Rattle.widl_fits.specs.Hierarchies.{IsHierarchy};
ghost use Rattle.widl_idl.specs.DefinitionTerms.{defs_term};
ghost use Rattle.widl_lines.specs.TextBreaks.{TextBreak};
ghost use Rattle.widl_overload.specs.rules.Dictionaries.{dictionary_terms};
ghost use Rattle.widl_script_rules.specs.BrokenRules.{BreaksBlocks};
ghost use Rattle.widl_script_rules.specs.LeastBreak.{place_key};
ghost use Rattle.widl_script_rules.specs.Standings.{standings};
ghost use Rattle.widl_script_rules.specs.Surroundings.{first_words, plain_lines, AreAround};

use crate::list_tables::ListTables;
use crate::overloads::Namespaces;
use crate::places::first_of;
use crate::repeated_targets::first_repeated_target;
use crate::standings::Around;
use crate::step_walk::first_step_break;
use crate::targets::{first_missing_target, openings};
use std::alloc::{AllocError, Global};
use widl_idl::Defs;
use widl_lines::{LineWords, ScriptPlace, Terminal};

/// The first of the rules on steps blocks and on their lines, 9 to 14, that is broken by lines that break no rule of
/// form, over a list without interfaces.
pub(crate) fn first_block_break(
    alloc: Global,
    list: &Defs,
    lines: &[LineWords<'_>],
    words: &[Terminal],
    around: &[Around],
) -> Result<Option<ScriptPlace>, AllocError>
    requires interfaces { (defs_term list.now).ifaces ≡ [] }
    requires hierarchy { IsHierarchy (dictionary_terms list.now) }
    requires formed { TextBreak 1 [] (plain_lines lines.now) None }
    requires words { words.now ≡ first_words (plain_lines lines.now) }
    requires words_count { length words.now ≡ length lines.now }
    requires around { AreAround (plain_lines lines.now) around.now }
    requires arounds { length around.now ≡ length lines.now }
    ensures { IfOk result (IsFirst place_key (BreaksBlocks (defs_term list.now) (standings (plain_lines lines.now)))) }
{
    let namespaces = Namespaces::of(alloc, list)?;
    let tables = ListTables::of(alloc, list)?;
    let opened = openings(alloc, &namespaces, lines, words)?;
    let missing = first_missing_target(lines, &opened);
    let repeated = first_repeated_target(alloc, lines, &opened)?;
    let step = first_step_break(alloc, &tables, lines, around, &opened)?;
    let target = first_of(missing, repeated);
    Ok(first_of(target, step))
}
