//! Which slots step lines may name.

ghost use Rattle.std.specs.Prelude.{◌≡◌, ℕ, option_map};
ghost use Rattle.widl_idl.specs.DefinitionTerms.{attr_term};
ghost use Rattle.widl_script_rules.specs.Lookups.{overload_term};
ghost use Rattle.widl_script_rules.specs.Slots.{attribute_named, lost_set_slot, lost_slot, lost_slots, lost_source_slot};
ghost use Rattle.widl_script_rules.specs.Surroundings.{plain_line};
ghost use Rattle.widl_script_rules.specs.UsedPlaces.{AreListed, FirstAt, capped};

use crate::overloads::Overload;
use crate::places::{first_of, place_near};
use crate::step_uses::Used;
use widl_idl::Attr;
use widl_lines::{LineWords, ScriptPlace};
use widl_script_tree::{Source, StepLine};

/// The attribute of an operation's namespace that `slot A` stands for.
pub(crate) fn attribute_named<'d>(overload: Overload<'d>, name: &[u16]) -> Option<&'d Attr>
    ensures { option_map (λ a. attr_term a.now) result ≡ attribute_named (overload_term overload.entry) name.now }
{
    'attributes: for attribute in overload.space.attrs.as_slice() {
        if name == attribute.name.as_slice() {
            return Some(attribute);
        }
    }
    None
}

/// The place of a word that names a slot, where there is no such attribute.
fn lost_slot(
    overload: Overload<'_>,
    line: &LineWords<'_>,
    word: usize,
    name: &[u16],
) -> Option<ScriptPlace>
    ensures { (number : ℕ) → word ≡ capped number → FirstAt 12 (plain_line line.now) (lost_slot (overload_term overload.entry) number name.now) result }
{
    if attribute_named(overload, name).is_some() {
        None
    } else {
        place_near(12, line, word)
    }
}

/// What a source breaks.
fn lost_source_slot(
    overload: Overload<'_>,
    line: &LineWords<'_>,
    used: Used<'_>,
) -> Option<ScriptPlace>
    ensures { (word : ℕ) → used.entry.word ≡ capped word → FirstAt 12 (plain_line line.now) (lost_source_slot (overload_term overload.entry) word used.entry.source.now) result }
{
    match used.source {
        Source::Slot(name) => {
            lost_slot(overload, line, used.word.saturating_add(1), name.as_slice())
        }
        _ => None,
    }
}

/// What a line breaks by the slot that it sets, if it sets one.
fn lost_set_slot(
    overload: Overload<'_>,
    line: &LineWords<'_>,
    step: &StepLine,
) -> Option<ScriptPlace>
    ensures { FirstAt 12 (plain_line line.now) (lost_set_slot (overload_term overload.entry) step.now) result }
{
    match step {
        StepLine::SetSlot { slot, source: _ } => lost_slot(overload, line, 1, slot.as_slice()),
        _ => None,
    }
}

/// Rule 12 in a line: the first name of a slot that is no attribute's.
pub(crate) fn first_lost_slot(
    overload: Overload<'_>,
    line: &LineWords<'_>,
    step: &StepLine,
    used: &[Used<'_>],
) -> Option<ScriptPlace>
    requires { AreListed used.now step.now }
    ensures { FirstAt 12 (plain_line line.now) (lost_slots (overload_term overload.entry) step.now) result }
{
    let mut first = lost_set_slot(overload, line, step);
    'used: for each in used {
        first = first_of(first, lost_source_slot(overload, line, *each));
    }
    first
}
