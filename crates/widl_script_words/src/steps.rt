//! The lines of steps blocks.

ghost use Rattle.std.specs.Prelude.{◌≡◌, ◌≤◌, [], false, length, IfOk, OnOk};
ghost use Rattle.widl_lines.specs.declared.grammar.Rule.TheVariants as rule;
ghost use Rattle.widl_lines.specs.declared.grammar.Terminal.TheVariants as terminal;
ghost use Rattle.widl_script_words.specs.SpelledSteps.{called_signs, slot_source_signs, source_list, source_signs, step_signs};
ghost use Rattle.widl_script_words.specs.Reading.{part, terminal_ahead, Reads};
ghost use Rattle.widl_script_words.specs.StepReading.{is_block_word};

use crate::constants::index_of;
use crate::reader::Reader;
use std::alloc::AllocError;
use widl_lines::Terminal;
use widl_script_tree::{Invoke, Source, Sources, StepLine};
use widl_text::Items;

impl<'w, 's> Reader<'w, 's> {
    /// `arg K` or `literal L`.
    fn slot_source(&mut self) -> Result<Source, AllocError>
        ensures shorter { OnOk result (length self.new ≤ length self.old) }
        ensures tree { IfOk result (λ source. Reads (part rule.SlotSource) [] (slot_source_signs source) self.old self.new) }
    {
        if self.is_ahead(Terminal::Arg) {
            self.take();
            let number = index_of(self.text());
            self.take();
            return Ok(Source::Arg(number));
        }
        self.take();
        Ok(Source::Literal(self.literal()?))
    }

    /// A source.
    fn source(&mut self) -> Result<Source, AllocError>
        ensures shorter { OnOk result (length self.new ≤ length self.old) }
        ensures tree { IfOk result (λ source. Reads (part rule.Source) [] (source_signs source) self.old self.new) }
    {
        if self.is_ahead(Terminal::This) {
            self.take();
            return Ok(Source::This);
        }
        if self.is_ahead(Terminal::Slot) {
            self.take();
            return Ok(Source::Slot(self.target_name()?));
        }
        self.slot_source()
    }

    /// Sources with commas between, up to what closes them.
    fn sources(&mut self) -> Result<Sources, AllocError>
        ensures { IfOk result (λ sources. Reads (part rule.SourceList) [] (source_list sources) self.old self.new) }
    {
        let mut sources = Items::new(self.alloc());
        if self.is_ahead(Terminal::CloseParen) {
            return Ok(sources);
        }
        sources.push(self.source()?)?;
        'more: while self.is_ahead(Terminal::Comma) {
            self.take();
            sources.push(self.source()?)?;
        }
        Ok(sources)
    }

    /// The call behind the word `invoke`.
    fn invoke(&mut self) -> Result<Invoke, AllocError>
        ensures { IfOk result (λ invoke. Reads (part rule.Invoke) [] (called_signs invoke) self.old self.new) }
    {
        self.take();
        let arg = index_of(self.text());
        self.take();
        self.take();
        let sources = self.sources()?;
        self.take();
        Ok(Invoke { arg, sources })
    }

    /// `return` with what is returned.
    fn return_step(&mut self) -> Result<StepLine, AllocError>
        requires { terminal_ahead self.old ≡ terminal.Return }
        ensures { IfOk result (λ line. Reads (part rule.StepLine) [] (step_signs line) self.old self.new) }
    {
        self.take();
        if self.is_ahead(Terminal::Invoke) {
            self.take();
            return Ok(StepLine::ReturnInvoke(self.invoke()?));
        }
        Ok(StepLine::Return(self.source()?))
    }

    /// `slot` with the attribute that is set.
    fn slot_step(&mut self) -> Result<StepLine, AllocError>
        requires { terminal_ahead self.old ≡ terminal.Slot }
        ensures { IfOk result (λ line. Reads (part rule.StepLine) [] (step_signs line) self.old self.new) }
    {
        self.take();
        let slot = self.target_name()?;
        self.take();
        let source = self.slot_source()?;
        Ok(StepLine::SetSlot { slot, source })
    }

    /// `append` with a key and a value.
    fn append_step(&mut self) -> Result<StepLine, AllocError>
        requires { terminal_ahead self.old ≡ terminal.Append }
        ensures { IfOk result (λ line. Reads (part rule.StepLine) [] (step_signs line) self.old self.new) }
    {
        self.take();
        let key = self.source()?;
        let value = self.source()?;
        Ok(StepLine::Append(key, value))
    }

    /// A line of a steps block that says a step.
    pub fn step_line(&mut self) -> Result<StepLine, AllocError>
        requires { is_block_word (terminal_ahead self.old) ≡ false }
        ensures { IfOk result (λ line. Reads (part rule.StepLine) [] (step_signs line) self.old self.new) }
    {
        if self.is_ahead(Terminal::Return) {
            return self.return_step();
        }
        if self.is_ahead(Terminal::Slot) {
            return self.slot_step();
        }
        if self.is_ahead(Terminal::Append) {
            return self.append_step();
        }
        let is_throw = self.is_ahead(Terminal::Throw);
        let is_clear = self.is_ahead(Terminal::Clear);
        self.take();
        if is_throw {
            return Ok(StepLine::Throw(self.thrown()?));
        }
        if is_clear {
            return Ok(StepLine::Clear);
        }
        Ok(StepLine::Invoke(self.invoke()?))
    }
}
