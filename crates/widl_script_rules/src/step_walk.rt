//! What the lines of steps blocks break.

ghost use Rattle.std.specs.Prelude.{◌≡◌, ℕ, length, option_map, IfOk, List};
ghost use Rattle.widl_first.specs.Keys.{IsFirst};
ghost use Rattle.widl_idl.specs.DefinitionTerms.{DefsTerm};
ghost use Rattle.widl_lines.specs.Blocks.{first_word};
ghost use Rattle.widl_lines.specs.TextBreaks.{Line};
ghost use Rattle.widl_script_rules.specs.FormedLines.{AreFormed, IsFormed};
ghost use Rattle.widl_script_rules.specs.ListLookups.{AreListTables};
ghost use Rattle.widl_script_rules.specs.LeastBreak.{place_key};
ghost use Rattle.widl_script_rules.specs.Lookups.{AreOpenings, overload_term};
ghost use Rattle.widl_script_rules.specs.Standings.{standings};
ghost use Rattle.widl_script_words.specs.StepReading.{is_block_word};
ghost use Rattle.widl_script_rules.specs.StepWalks.{InLine, InScript, InStep, IsFor, IsForOne};
ghost use Rattle.widl_script_rules.specs.Surroundings.{plain_line, plain_lines, AreAround, IsAround};

use crate::arguments::first_lost_argument;
use crate::callbacks_and_pairs::first_refused_step;
use crate::list_tables::ListTables;
use crate::misfits::first_misfit;
use crate::overloads::Overload;
use crate::places::first_of;
use crate::slots::first_lost_slot;
use crate::standings::{Around, first_word};
use crate::step_lines::step_of;
use crate::step_uses::uses_of;
use crate::targets::Opening;
use std::alloc::{AllocError, Global};
use widl_lines::{LineWords, ScriptPlace};
use widl_script_tree::StepLine;
use widl_script_words::block_word_of;

/// The first place of a step line at which it breaks a rule.
fn first_in_step(
    alloc: Global,
    tables: &ListTables<'_>,
    overload: Overload<'_>,
    line: &LineWords<'_>,
    step: &StepLine,
) -> Result<Option<ScriptPlace>, AllocError>
    ensures { IfOk result (λ first. (list : DefsTerm) → AreListTables list tables.now → IsFirst place_key (InStep list (overload_term overload.entry) (plain_line line.now) step.now) first) }
{
    let used = uses_of(alloc, step)?;
    let lost = first_lost_argument(overload, line, step, &used);
    let slot = first_lost_slot(overload, line, step, &used);
    let refused = first_refused_step(&tables.callbacks, overload, line, step);
    let first = first_of(lost, slot);
    let misfit = first_misfit(tables.list, &tables.fits, overload, line, step, &used);
    let all = first_of(first, refused);
    Ok(first_of(all, misfit))
}

/// The overload that the innermost of these blocks is for, if it is a steps block whose target is there.
fn overload_around<'d>(openings: &[Option<Opening<'d>>], around: Around) -> Option<Overload<'d>>
    ensures { (list : DefsTerm) (lines : List Line) (limit : ℕ) (outer : List Line) → length openings.now ≡ length lines → AreOpenings list lines openings.now → IsAround lines limit around outer → IsForOne list outer (option_map overload_term result) }
{
    match around.block {
        Some(place) => match openings.get(place) {
            Some(opening) => match opening {
                Some(opening) => opening.overload,
                None => None,
            },
            None => None,
        },
        None => None,
    }
}

/// Whether a line opens, turns or closes a block.
fn is_block_line(line: &LineWords<'_>) -> bool
    ensures { result ≡ is_block_word (first_word (plain_line line.now).words) }
{
    block_word_of(first_word(line)).is_some()
}

/// The first place at which a line of the overload's block breaks a rule on step lines.
fn first_in_block(
    alloc: Global,
    tables: &ListTables<'_>,
    overload: Overload<'_>,
    line: &LineWords<'_>,
) -> Result<Option<ScriptPlace>, AllocError>
    ensures { IfOk result (λ first. (list : DefsTerm) (around : List Line) → AreListTables list tables.now → IsFor list around (overload_term overload.entry) → IsFormed around (plain_line line.now) → IsFirst place_key (InLine list around (plain_line line.now)) first) }
{
    if is_block_line(line) {
        return Ok(None);
    }
    let step = step_of(alloc, line)?;
    first_in_step(alloc, tables, overload, line, &step)
}

/// The same of a line whose innermost block is for this overload, if it is for one.
fn first_in_line(
    alloc: Global,
    tables: &ListTables<'_>,
    overload: Option<Overload<'_>>,
    line: &LineWords<'_>,
) -> Result<Option<ScriptPlace>, AllocError>
    ensures { IfOk result (λ first. (list : DefsTerm) (around : List Line) → AreListTables list tables.now → IsForOne list around (option_map overload_term overload.entry) → IsFormed around (plain_line line.now) → IsFirst place_key (InLine list around (plain_line line.now)) first) }
{
    match overload {
        Some(overload) => first_in_block(alloc, tables, overload, line),
        None => Ok(None),
    }
}

/// The first place at which a line of a steps block, whose target is there, breaks a rule on step lines.
pub(crate) fn first_step_break(
    alloc: Global,
    tables: &ListTables<'_>,
    lines: &[LineWords<'_>],
    around: &[Around],
    openings: &[Option<Opening<'_>>],
) -> Result<Option<ScriptPlace>, AllocError>
    requires formed { AreFormed (plain_lines lines.now) }
    requires around { AreAround (plain_lines lines.now) around.now }
    requires arounds { length around.now ≡ length lines.now }
    requires openings { length openings.now ≡ length lines.now }
    ensures { IfOk result (λ first. (list : DefsTerm) → AreListTables list tables.now → AreOpenings list (plain_lines lines.now) openings.now → IsFirst place_key (InScript list (standings (plain_lines lines.now))) first) }
{
    let mut first = None;
    'lines: for (place, line) in lines.iter().enumerate() {
        let overload = overload_around(openings, around[place]);
        let found = first_in_line(alloc, tables, overload, line)?;
        first = first_of(first, found);
    }
    Ok(first)
}
