//! The targets of steps blocks.

ghost use Rattle.std.specs.Prelude.{◌≡◌, ◌≢◌, [], IfOk};
ghost use Rattle.widl_lines.specs.declared.grammar.Rule.TheVariants as rule;
ghost use Rattle.widl_lines.specs.declared.grammar.Terminal.TheVariants as terminal;
ghost use Rattle.widl_script_words.specs.SpelledTargets.{overload_signs, target_signs};
ghost use Rattle.widl_script_words.specs.Reading.{part, terminal_ahead, Reads};
ghost use Rattle.widl_script_words.specs.StepReading.{HoldsOperation, HoldsPart};

use crate::constants::index_of;
use crate::reader::Reader;
use std::alloc::AllocError;
use widl_lines::Terminal;
use widl_script_tree::Target;
use widl_text::Units;

impl<'w, 's> Reader<'w, 's> {
    /// `#K`.
    fn overload(&mut self) -> u32
        ensures { Reads (part rule.OverloadNumber) [] (overload_signs result) self.old self.new }
    {
        self.take();
        let number = index_of(self.text());
        self.take();
        number
    }

    /// An operation whose name was read, with its `#K`.
    fn operation(&mut self, owner: Units, name: Units, fixed: bool) -> Target
        ensures { HoldsOperation owner name fixed result self.old self.new }
    {
        let overload = self.overload();
        Target::Operation {
            owner,
            name,
            fixed,
            overload,
        }
    }

    /// `constructor#K`.
    fn constructor_part(&mut self, owner: Units) -> Target
        requires { terminal_ahead self.old ≡ terminal.Constructor }
        ensures { HoldsPart owner result self.old self.new }
    {
        self.take();
        let overload = self.overload();
        Target::Constructor { owner, overload }
    }

    /// `f#K`, where `f` isn't a word of a target.
    fn plain_part(&mut self, owner: Units) -> Result<Target, AllocError>
        requires no_static { terminal_ahead self.old ≢ terminal.Static }
        requires no_get { terminal_ahead self.old ≢ terminal.Get }
        requires no_set { terminal_ahead self.old ≢ terminal.Set }
        requires no_string { terminal_ahead self.old ≢ terminal.ToString }
        ensures { IfOk result (λ target. HoldsPart owner target self.old self.new) }
    {
        if self.is_ahead(Terminal::Constructor) {
            return Ok(self.constructor_part(owner));
        }
        let name = self.target_name()?;
        Ok(self.operation(owner, name, false))
    }

    /// `static f#K`, or `static#K`.
    fn static_part(&mut self, owner: Units) -> Result<Target, AllocError>
        requires { terminal_ahead self.old ≡ terminal.Static }
        ensures { IfOk result (λ target. HoldsPart owner target self.old self.new) }
    {
        let word = self.target_name()?;
        if self.is_ahead(Terminal::NumberSign) {
            return Ok(self.operation(owner, word, false));
        }
        let name = self.target_name()?;
        Ok(self.operation(owner, name, true))
    }

    /// `get A`, or `get#K`.
    fn get_part(&mut self, owner: Units) -> Result<Target, AllocError>
        requires { terminal_ahead self.old ≡ terminal.Get }
        ensures { IfOk result (λ target. HoldsPart owner target self.old self.new) }
    {
        let word = self.target_name()?;
        if self.is_ahead(Terminal::NumberSign) {
            return Ok(self.operation(owner, word, false));
        }
        let name = self.target_name()?;
        Ok(Target::Getter { owner, name })
    }

    /// `set A`, or `set#K`.
    fn set_part(&mut self, owner: Units) -> Result<Target, AllocError>
        requires { terminal_ahead self.old ≡ terminal.Set }
        ensures { IfOk result (λ target. HoldsPart owner target self.old self.new) }
    {
        let word = self.target_name()?;
        if self.is_ahead(Terminal::NumberSign) {
            return Ok(self.operation(owner, word, false));
        }
        let name = self.target_name()?;
        Ok(Target::Setter { owner, name })
    }

    /// `toString`, or `toString#K`.
    fn string_part(&mut self, owner: Units) -> Result<Target, AllocError>
        requires { terminal_ahead self.old ≡ terminal.ToString }
        ensures { IfOk result (λ target. HoldsPart owner target self.old self.new) }
    {
        let word = self.target_name()?;
        if self.is_ahead(Terminal::NumberSign) {
            return Ok(self.operation(owner, word, false));
        }
        Ok(Target::Stringifier { owner })
    }

    /// What stands behind the dot of a target.
    fn target_part(&mut self, owner: Units) -> Result<Target, AllocError>
        ensures { IfOk result (λ target. HoldsPart owner target self.old self.new) }
    {
        if self.is_ahead(Terminal::Static) {
            return self.static_part(owner);
        }
        if self.is_ahead(Terminal::Get) {
            return self.get_part(owner);
        }
        if self.is_ahead(Terminal::Set) {
            return self.set_part(owner);
        }
        if self.is_ahead(Terminal::ToString) {
            return self.string_part(owner);
        }
        self.plain_part(owner)
    }

    /// The target behind the word `steps`.
    pub fn target(&mut self) -> Result<Target, AllocError>
        ensures { IfOk result (λ target. Reads (part rule.Target) [] (target_signs target) self.old self.new) }
    {
        let owner = self.target_name()?;
        self.take();
        self.target_part(owner)
    }
}
