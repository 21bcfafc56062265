//! What steps blocks are for.

ghost use Rattle.std.specs.Prelude.{◌≡◌, length, IfOk, List};
ghost use Rattle.widl_first.specs.Keys.{IsFirst};
ghost use Rattle.widl_idl.specs.DefinitionTerms.{DefsTerm};
ghost use Rattle.widl_lines.specs.Blocks.{first_word};
ghost use Rattle.widl_lines.specs.TextBreaks.{Line};
ghost use Rattle.widl_script_rules.specs.FormedLines.{AreFormed, IsFormed};
ghost use Rattle.widl_script_rules.specs.LeastBreak.{place_key};
ghost use Rattle.widl_script_rules.specs.Lookups.{AreNamespaces, AreOpenings, IsOpening, LacksIn};
ghost use Rattle.widl_script_rules.specs.Standings.{standings};
ghost use Rattle.widl_script_rules.specs.Surroundings.{first_words, plain_line, plain_lines};
ghost use Rattle.widl_script_rules.specs.Targets.{LacksTarget};

use crate::overloads::{Namespaces, Overload};
use crate::places::{first_of, place_at};
use crate::step_lines::target_of;
use std::alloc::{AllocError, Global};
use widl_lines::{LineWords, ScriptPlace, Terminal};
use widl_script_tree::Target;

/// What a line that opens a steps block says.
#[derive(Drop)]
pub(crate) struct Opening<'d> {
    /// What the block is for.
    pub(crate) target: Box<Target>,
    /// The overload that the target names, where it is there.
    pub(crate) overload: Option<Overload<'d>>,
}

/// What a line says, which begins with the word, if it opens a steps block.
fn opening_of<'d>(
    alloc: Global,
    namespaces: &Namespaces<'d>,
    word: Terminal,
    line: &LineWords<'_>,
) -> Result<Option<Opening<'d>>, AllocError>
    requires { word ≡ first_word (plain_line line.now).words }
    ensures { IfOk result (λ opening. (list : DefsTerm) (around : List Line) → AreNamespaces list namespaces.now → IsFormed around (plain_line line.now) → IsOpening list (plain_line line.now) opening) }
{
    match word {
        Terminal::Steps => {
            let target = target_of(alloc, line)?;
            let overload = namespaces.overload(&target);
            Ok(Some(Opening {
                target: Box::new(alloc, target)?,
                overload,
            }))
        }
        _ => Ok(None),
    }
}

/// What each line says, if it opens a steps block.
pub(crate) fn openings<'d>(
    alloc: Global,
    namespaces: &Namespaces<'d>,
    lines: &[LineWords<'_>],
    words: &[Terminal],
) -> Result<Vec<Option<Opening<'d>>>, AllocError>
    requires formed { AreFormed (plain_lines lines.now) }
    requires words { words.now ≡ first_words (plain_lines lines.now) }
    requires words_count { length words.now ≡ length lines.now }
    ensures each { IfOk result (λ all. (list : DefsTerm) → AreNamespaces list namespaces.now → AreOpenings list (plain_lines lines.now) all.items) }
    ensures count { IfOk result (λ all. length all.items ≡ length lines.now) }
{
    let mut all = Vec::with_capacity(alloc, lines.len())?;
    'lines: for (place, line) in lines.iter().enumerate() {
        let opening = opening_of(alloc, namespaces, words[place], line)?;
        all.push(opening)?;
    }
    Ok(all)
}

/// The target of a line, where it isn't there.
fn missing_in(line: &LineWords<'_>, opening: &Option<Opening<'_>>) -> Option<ScriptPlace>
    ensures { (list : DefsTerm) → IsOpening list (plain_line line.now) opening.now → IsFirst place_key (LacksIn list (plain_line line.now)) result }
{
    match opening {
        Some(opening) => match opening.overload {
            Some(_) => None,
            None => place_at(9, line, 1),
        },
        None => None,
    }
}

/// Rule 9: the first target that isn't there.
pub(crate) fn first_missing_target(
    lines: &[LineWords<'_>],
    openings: &[Option<Opening<'_>>],
) -> Option<ScriptPlace>
    requires { length openings.now ≡ length lines.now }
    ensures { (list : DefsTerm) → AreOpenings list (plain_lines lines.now) openings.now → IsFirst place_key (LacksTarget list (standings (plain_lines lines.now))) result }
{
    let mut first = None;
    'lines: for (place, line) in lines.iter().enumerate() {
        first = first_of(first, missing_in(line, &openings[place]));
    }
    first
}
