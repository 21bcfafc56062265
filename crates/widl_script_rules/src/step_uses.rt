//! What the lines of steps blocks use.

ghost use Rattle.std.specs.Prelude.{◌≡◌, ◌≤◌, ◌+◌, ◌++◌, length, map, IfOk, OnOk};
ghost use Rattle.widl_script_words.specs.SpelledSteps.{literal_signs};
ghost use Rattle.widl_script_rules.specs.StepUses.{source_words, used_alone, used_from};
ghost use Rattle.widl_script_rules.specs.UsedPlaces.{AreListed, capped_use, listed_term};

use std::alloc::{AllocError, Global};
use widl_idl::Literal;
use widl_script_tree::{Source, StepLine};

/// A source, the number of its first word in its line, and its number among the sources of a call.
#[derive(Clone, Copy)]
pub(crate) struct Used<'t> {
    /// The number of the first word; the greatest number where that is greater.
    pub(crate) word: usize,
    /// The source.
    pub(crate) source: &'t Source,
    /// The number of the source.
    pub(crate) number: usize,
}

/// How many words a literal has.
fn literal_words(literal: &Literal) -> usize
    ensures { result ≡ length (literal_signs literal.now) }
{
    match literal {
        Literal::EmptyList | Literal::EmptyDict => 2,
        Literal::Bool(value) => { if *value { 1 } else { 1 } }
        Literal::Null | Literal::Undefined | Literal::Int(_) | Literal::Text(_) => 1,
    }
}

/// How many words a source has.
fn source_words(source: &Source) -> usize
    ensures value { result ≡ source_words source.now }
    ensures few { result ≤ 3 }
{
    match source {
        Source::Arg(_) | Source::Slot(_) => 2,
        Source::This => 1,
        Source::Literal(literal) => literal_words(literal) + 1,
    }
}

/// Lists the sources of a call, of which the first begins at the word.
fn list_sources<'t>(
    used: &mut Vec<Used<'t>>,
    first: usize,
    sources: &'t [Source],
) -> Result<(), AllocError>
    ensures { OnOk result (map listed_term used.new.items ≡ map listed_term used.old.items ++ map capped_use (used_from first 0 sources.now)) }
{
    let mut word = first;
    'sources: for (number, source) in sources.iter().enumerate() {
        used.push(Used {
            word,
            source,
            number,
        })?;
        word = word.saturating_add(source_words(source) + 1);
    }
    Ok(())
}

/// Lists a source that is none of a call's.
fn list_alone<'t>(
    used: &mut Vec<Used<'t>>,
    word: usize,
    source: &'t Source,
) -> Result<(), AllocError>
    ensures { OnOk result (map listed_term used.new.items ≡ map listed_term used.old.items ++ used_alone word source.now) }
{
    used.push(Used {
        word,
        source,
        number: 0,
    })?;
    Ok(())
}

/// The sources of a line.
pub(crate) fn uses_of(alloc: Global, step: &StepLine) -> Result<Vec<Used<'_>>, AllocError>
    ensures { IfOk result (λ used. AreListed used.items step.now) }
{
    let mut used = Vec::new(alloc);
    match step {
        StepLine::Return(source) => list_alone(&mut used, 1, source)?,
        StepLine::SetSlot { slot: _, source } => list_alone(&mut used, 3, source)?,
        StepLine::Append(key, value) => {
            list_alone(&mut used, 1, key)?;
            list_alone(&mut used, source_words(key) + 1, value)?;
        }
        StepLine::Clear | StepLine::Throw(_) => {}
        StepLine::Invoke(call) => list_sources(&mut used, 4, call.sources.as_slice())?,
        StepLine::ReturnInvoke(call) => list_sources(&mut used, 5, call.sources.as_slice())?,
    }
    Ok(used)
}
