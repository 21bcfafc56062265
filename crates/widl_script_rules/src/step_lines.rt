//! What the lines that open steps blocks, and those in them, say. The words of a line were checked for form, so
//! they are read again with nothing but memory that can be wanting.

ghost use Rattle.std.specs.Prelude.{◌≡◌, false, IfOk, List};
ghost use Rattle.widl_lines.specs.Blocks.{first_word};
ghost use Rattle.widl_lines.specs.TextBreaks.{Line};
ghost use Rattle.widl_lines.specs.declared.grammar.Rule.TheVariants as rule;
ghost use Rattle.widl_lines.specs.declared.grammar.Terminal.TheVariants as terminal;
ghost use Rattle.widl_script_rules.specs.FormedLines.{IsFormed};
ghost use Rattle.widl_script_words.specs.Reading.{Runs, part};
ghost use Rattle.widl_script_words.specs.Signs.{SpellsLine};
ghost use Rattle.widl_script_words.specs.SpelledSteps.{step_signs};
ghost use Rattle.widl_script_words.specs.StepReading.{is_block_word};
ghost use Rattle.widl_script_rules.specs.Surroundings.{plain_line};
ghost use Rattle.widl_script_rules.specs.Targets.{Opens};

use std::alloc::{AllocError, Global};
use widl_lines::LineWords;
use widl_script_tree::{StepLine, Target};
use widl_script_words::Reader;

/// The target of a line that opens a steps block.
pub(crate) fn target_of(alloc: Global, line: &LineWords<'_>) -> Result<Target, AllocError>
    requires { first_word (plain_line line.now).words ≡ terminal.Steps }
    ensures { IfOk result (λ target. (around : List Line) → IsFormed around (plain_line line.now) → Opens (plain_line line.now) target) }
{
    let mut reader = Reader::new(alloc, &line.words);
    reader.take();
    reader.target()
}

/// What a line of a steps block says that opens, turns or closes no block.
pub(crate) fn step_of(alloc: Global, line: &LineWords<'_>) -> Result<StepLine, AllocError>
    requires { is_block_word (first_word (plain_line line.now).words) ≡ false }
    ensures { IfOk result (λ step. Runs (part rule.StepLine) (plain_line line.now).words → SpellsLine (step_signs step) (plain_line line.now).words) }
{
    let mut reader = Reader::new(alloc, &line.words);
    reader.step_line()
}
