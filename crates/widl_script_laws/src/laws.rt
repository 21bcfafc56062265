//! Laws on the forms of lines. Each function does nothing: its contract is the law.

ghost use Rattle.widl_lines.specs.declared.grammar.Rule.TheVariants.{Line, StepLine};
ghost use Rattle.widl_script_laws.specs.Forms.{AreSentences, LineForm, StepForm};

/// A line that spells a statement, or opens, turns or closes a block, is a line of the grammar.
pub fn lines_of_each_form_are_sentences()
    ensures { AreSentences LineForm Line }
{}

/// A line of a steps block that spells a step, or opens, turns or closes a block, is a step line of the grammar.
pub fn step_lines_of_each_form_are_sentences()
    ensures { AreSentences StepForm StepLine }
{}
