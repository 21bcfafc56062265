//! Targets that two blocks are for.

ghost use Rattle.std.specs.Prelude.{◌≡◌, false, length, IfOk, OnOk};
ghost use Rattle.widl_first.specs.Keys.{IsFirst};
ghost use Rattle.widl_idl.specs.DefinitionTerms.{DefsTerm};
ghost use Rattle.widl_lines.specs.TextBreaks.{Line};
ghost use Rattle.widl_script_rules.specs.LeastBreak.{place_key};
ghost use Rattle.widl_script_rules.specs.Lookups.{AreOpenings, IsOpening};
ghost use Rattle.widl_script_rules.specs.PassedTargets.{IsPassed, IsThere, Passes, RepeatsIn};
ghost use Rattle.widl_script_rules.specs.Standings.{standings};
ghost use Rattle.widl_script_rules.specs.Surroundings.{plain_line, plain_lines};
ghost use Rattle.widl_script_rules.specs.Targets.{RepeatsTarget};

use crate::operation_target::{OperationTarget, operation_target};
use crate::places::{first_of, place_at};
use crate::targets::Opening;
use indexmap::IndexSet;
use std::alloc::{AllocError, Global};
use widl_lines::{LineWords, ScriptPlace};

/// The target of a block, where it is there.
fn target_there<'t>(opening: &'t Option<Opening<'_>>) -> Option<OperationTarget<'t>>
    ensures { (list : DefsTerm) (line : Line) → IsOpening list line opening.now → IsThere list line result }
{
    match opening {
        Some(opening) => match opening.overload {
            Some(_) => operation_target(&opening.target),
            None => None,
        },
        None => None,
    }
}

/// Passes a line, and answers the place of its target where a block was for it.
fn repeated_in<'t>(
    passed: &mut IndexSet<OperationTarget<'t>>,
    line: &LineWords<'_>,
    opening: &'t Option<Opening<'_>>,
) -> Result<Option<ScriptPlace>, AllocError>
    ensures passed { OnOk result ((list : DefsTerm) → IsOpening list (plain_line line.now) opening.now → Passes list (plain_line line.now) (IsPassed passed.old.keys) (IsPassed passed.new.keys)) }
    ensures first { IfOk result (λ first. (list : DefsTerm) → IsOpening list (plain_line line.now) opening.now → IsFirst place_key (RepeatsIn list (IsPassed passed.old.keys) (plain_line line.now)) first) }
{
    match target_there(opening) {
        Some(target) => {
            if passed.insert(target)? {
                Ok(None)
            } else {
                Ok(place_at(10, line, 1))
            }
        }
        None => Ok(None),
    }
}

/// Rule 10: the first target that is there and for which a block on an earlier line is.
pub(crate) fn first_repeated_target(
    alloc: Global,
    lines: &[LineWords<'_>],
    openings: &[Option<Opening<'_>>],
) -> Result<Option<ScriptPlace>, AllocError>
    requires { length openings.now ≡ length lines.now }
    ensures { IfOk result (λ first. (list : DefsTerm) → AreOpenings list (plain_lines lines.now) openings.now → IsFirst place_key (RepeatsTarget list (standings (plain_lines lines.now))) first) }
{
    let mut passed = IndexSet::new(alloc);
    let mut first = None;
    'lines: for (place, line) in lines.iter().enumerate() {
        let repeated = repeated_in(&mut passed, line, &openings[place])?;
        first = first_of(first, repeated);
    }
    Ok(first)
}
