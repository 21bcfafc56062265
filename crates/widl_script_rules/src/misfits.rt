//! Sources and literals that don't fit what a step line does with them, in a list without interfaces.

ghost use Rattle.std.specs.Prelude.{◌≡◌, ◌↔◌, ℕ, [], IsTrue};
ghost use Rattle.widl_first.specs.Keys.{IsFirst};
ghost use Rattle.widl_fits.specs.Fitting.{Knows};
ghost use Rattle.widl_idl.specs.DefinitionTerms.{defs_term};
ghost use Rattle.widl_script_rules.specs.Fits.{Misfits};
ghost use Rattle.widl_script_tree.specs.declared.steps.StepLine.TheVariants.{ReturnInvoke};
ghost use Rattle.widl_script_rules.specs.LeastBreak.{place_key};
ghost use Rattle.widl_script_rules.specs.Lookups.{overload_term};
ghost use Rattle.widl_script_rules.specs.MisfitTerms.{IsResultMisfit, IsSourceMisfit, ResultMisfits, SourceMisfits};
ghost use Rattle.widl_script_rules.specs.Surroundings.{plain_line};
ghost use Rattle.widl_script_rules.specs.UsedPlaces.{AreListed, AtWords, capped};

use crate::fits::{source_fits, type_fits};
use crate::overloads::Overload;
use crate::places::{first_of, place_near};
use crate::step_uses::Used;
use crate::wanted::{callback_called, wanted};
use widl_fits::Tables;
use widl_idl::Defs;
use widl_lines::{LineWords, ScriptPlace};
use widl_script_tree::{Invoke, StepLine};

/// Whether a source doesn't fit what the line does with it.
fn is_source_misfit(
    list: &Defs,
    tables: &Tables<'_>,
    overload: Overload<'_>,
    step: &StepLine,
    used: Used<'_>,
) -> bool
    ensures { (word : ℕ) → Knows (defs_term list.now) tables.now → (defs_term list.now).ifaces ≡ [] → IsTrue result ↔ SourceMisfits (defs_term list.now) (overload_term overload.entry) step.now (record { word = word; source = used.entry.source.now; number = used.entry.number }) }
{
    match wanted(list, overload, step, used) {
        Some(t) => !source_fits(tables, overload, used.source, t),
        None => false,
    }
}

/// Whether the result of a callback that a line returns doesn't fit.
fn is_result_misfit(list: &Defs, overload: Overload<'_>, call: &Invoke) -> bool
    ensures { (defs_term list.now).ifaces ≡ [] → IsTrue result ↔ ResultMisfits (defs_term list.now) (overload_term overload.entry) (ReturnInvoke call.now) }
{
    match callback_called(list, overload, call.arg) {
        Some(callback) => !type_fits(&callback.sig.result, &overload.signature.result),
        None => false,
    }
}

/// The first word of a source that doesn't fit what the line does with it.
fn source_misfit(
    list: &Defs,
    tables: &Tables<'_>,
    overload: Overload<'_>,
    line: &LineWords<'_>,
    step: &StepLine,
    used: Used<'_>,
) -> Option<ScriptPlace>
    ensures { (word : ℕ) → used.entry.word ≡ capped word → Knows (defs_term list.now) tables.now → (defs_term list.now).ifaces ≡ [] → IsFirst place_key (IsSourceMisfit (defs_term list.now) (overload_term overload.entry) step.now (plain_line line.now) (record { word = word; source = used.entry.source.now; number = used.entry.number })) result }
{
    if is_source_misfit(list, tables, overload, step, used) {
        place_near(13, line, used.word)
    } else {
        None
    }
}

/// The word `invoke` of a line that returns the result of a callback that doesn't fit.
fn result_misfit(
    list: &Defs,
    overload: Overload<'_>,
    line: &LineWords<'_>,
    step: &StepLine,
) -> Option<ScriptPlace>
    ensures { (defs_term list.now).ifaces ≡ [] → IsFirst place_key (IsResultMisfit (defs_term list.now) (overload_term overload.entry) step.now (plain_line line.now)) result }
{
    match step {
        StepLine::ReturnInvoke(call) => {
            if is_result_misfit(list, overload, call) {
                place_near(13, line, 1)
            } else {
                None
            }
        }
        _ => None,
    }
}

/// Rule 13 in a line that uses these sources: the first word of a source or literal that doesn't fit, of `return
/// invoke` also `invoke`.
pub(crate) fn first_misfit(
    list: &Defs,
    tables: &Tables<'_>,
    overload: Overload<'_>,
    line: &LineWords<'_>,
    step: &StepLine,
    used: &[Used<'_>],
) -> Option<ScriptPlace>
    requires { AreListed used.now step.now }
    ensures { Knows (defs_term list.now) tables.now → (defs_term list.now).ifaces ≡ [] → IsFirst place_key (AtWords 13 (plain_line line.now) (Misfits (defs_term list.now) (overload_term overload.entry) step.now)) result }
{
    let mut first = result_misfit(list, overload, line, step);
    'used: for each in used {
        first = first_of(
            first,
            source_misfit(list, tables, overload, line, step, *each),
        );
    }
    first
}
