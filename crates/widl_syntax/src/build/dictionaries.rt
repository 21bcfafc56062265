//! Dictionaries and enumerations.

ghost use Rattle.std.specs.Prelude.{◌≡◌, ◌≢◌, ◌++◌, IfOk, List, true, false};
ghost use Rattle.widl_grammar.specs.declared.rule.Rule.TheVariants as rule;
ghost use Rattle.widl_grammar.specs.declared.terminal.Terminal.TheVariants as terminal;
ghost use Rattle.widl_idl.specs.declared.tree.enumerations.EnumerationValue.{EnumerationValue};
ghost use Rattle.widl_syntax.specs.Reading.{Reads, part, token, terminal_ahead};
ghost use Rattle.widl_syntax.specs.Signs.{all_signs, after, ◌⧺◌};
ghost use Rattle.widl_syntax.specs.UnparsedDefinitions.{dictionary, dictionary_member, dictionary_member_rest, enumeration, enumeration_value};
ghost use Rattle.widl_syntax.specs.UnparsedNames.{word_if};

use super::Reader;
use std::alloc::AllocError;
use widl_grammar::Terminal;
use widl_idl::tree::{
    Dictionary, DictionaryMember, DictionaryMembers, Enumeration, EnumerationValue,
    EnumerationValues, ExtendedAttributes,
};

impl<'t, 's> Reader<'t, 's> {
    /// A dictionary.
    pub fn dictionary(&mut self) -> Result<Dictionary, AllocError>
        ensures partial { IfOk result (λ read. read.partial ≡ false) }
        ensures reads { IfOk result (λ read. Reads (part rule.Dictionary) (dictionary read) self.old self.new) }
    {
        let _word = self.take();
        let name = self.name()?;
        let Ok(parent) = self.parent() else {
            drop(name);
            return Err(AllocError);
        };
        let _open = self.take();
        let Ok(members) = self.dictionary_members() else {
            drop(name);
            drop(parent);
            return Err(AllocError);
        };
        let _close = self.take();
        let _semicolon = self.take();
        Ok(Dictionary {
            partial: false,
            name,
            parent,
            members,
        })
    }

    /// A part of a dictionary from the word `dictionary` on.
    pub fn partial_dictionary(&mut self) -> Result<Dictionary, AllocError>
        ensures partial { IfOk result (λ read. read.partial ≡ true) }
        ensures reads { IfOk result (λ read. Reads (token terminal.Dictionary ++ token terminal.Identifier ++ token terminal.OpenBrace ++ part rule.DictionaryMembers ++ token terminal.CloseBrace ++ token terminal.Semicolon) (dictionary read) self.old self.new) }
    {
        let _word = self.take();
        let name = self.name()?;
        let _open = self.take();
        let members = self.dictionary_members()?;
        let _close = self.take();
        let _semicolon = self.take();
        Ok(Dictionary {
            partial: true,
            name,
            parent: None,
            members,
        })
    }

    /// The members between two braces.
    fn dictionary_members(&mut self) -> Result<DictionaryMembers, AllocError>
        ensures { IfOk result (λ members. Reads (part rule.DictionaryMembers) (all_signs dictionary_member members) self.old self.new) }
    {
        let count = self.separators_ahead(Terminal::Semicolon, Terminal::CloseBrace);
        let mut members = DictionaryMembers::with_room(self.alloc(), count)?;
        for _ in 0..self.left() {
            if self.is_ahead(Terminal::CloseBrace) {
                break;
            }
            members.push(self.dictionary_member()?)?;
        }
        Ok(members)
    }

    /// A member of a dictionary.
    fn dictionary_member(&mut self) -> Result<DictionaryMember, AllocError>
        ensures { IfOk result (λ read. Reads (part rule.DictionaryMember) (dictionary_member read) self.old self.new) }
    {
        let attributes = self.extended_attributes()?;
        if self.is_ahead(Terminal::Required) {
            self.required_member(attributes)
        } else {
            self.optional_member(attributes)
        }
    }

    /// A member from the word `required` on.
    fn required_member(
        &mut self,
        attributes: ExtendedAttributes,
    ) -> Result<DictionaryMember, AllocError>
        requires { terminal_ahead self.old ≡ terminal.Required }
        ensures attributes { IfOk result (λ read. read.attributes ≡ attributes) }
        ensures reads { IfOk result (λ read. Reads (part rule.DictionaryMemberRest) (dictionary_member_rest read) self.old self.new) }
    {
        let _word = self.take();
        let Ok(ty) = self.annotated_type() else {
            drop(attributes);
            return Err(AllocError);
        };
        let Ok(name) = self.name() else {
            drop(attributes);
            drop(ty);
            return Err(AllocError);
        };
        let _semicolon = self.take();
        Ok(DictionaryMember {
            attributes,
            required: true,
            ty,
            name,
            default: None,
        })
    }

    /// A member from its type on.
    fn optional_member(
        &mut self,
        attributes: ExtendedAttributes,
    ) -> Result<DictionaryMember, AllocError>
        requires { terminal_ahead self.old ≢ terminal.Required }
        ensures attributes { IfOk result (λ read. read.attributes ≡ attributes) }
        ensures reads { IfOk result (λ read. Reads (part rule.DictionaryMemberRest) (dictionary_member_rest read) self.old self.new) }
    {
        let Ok(ty) = self.unannotated_type() else {
            drop(attributes);
            return Err(AllocError);
        };
        let Ok(name) = self.name() else {
            drop(attributes);
            drop(ty);
            return Err(AllocError);
        };
        let Ok(default) = self.default_value() else {
            drop(attributes);
            drop(ty);
            drop(name);
            return Err(AllocError);
        };
        let _semicolon = self.take();
        Ok(DictionaryMember {
            attributes,
            required: false,
            ty,
            name,
            default,
        })
    }

    /// An enumeration.
    pub fn enumeration(&mut self) -> Result<Enumeration, AllocError>
        ensures { IfOk result (λ read. Reads (part rule.Enum) (enumeration read) self.old self.new) }
    {
        let _word = self.take();
        let name = self.name()?;
        let _open = self.take();
        let mut values = EnumerationValues::new(self.alloc());
        let Ok(first) = self.enumeration_value() else {
            drop(name);
            drop(values);
            return Err(AllocError);
        };
        let Ok(()) = values.push(first) else {
            drop(name);
            drop(values);
            return Err(AllocError);
        };
        let Ok(trailing_comma) = self.more_values(&mut values) else {
            drop(name);
            drop(values);
            return Err(AllocError);
        };
        let _close = self.take();
        let _semicolon = self.take();
        Ok(Enumeration {
            name,
            values,
            trailing_comma,
        })
    }

    /// Adds the values after the first one, and tells whether a comma stands after the last.
    fn more_values(&mut self, values: &mut EnumerationValues) -> Result<bool, AllocError>
        ensures { IfOk result (λ trailing_comma. (more : List EnumerationValue) × (values.new ≡ values.old ++ more) × Reads (part rule.EnumMore) (all_signs (after terminal.Comma enumeration_value) more ⧺ word_if trailing_comma terminal.Comma) self.old self.new) }
    {
        for _ in 0..self.left() {
            if self.take_if(Terminal::Comma).is_none() {
                return Ok(false);
            }
            if !self.is_ahead(Terminal::String) {
                return Ok(true);
            }
            values.push(self.enumeration_value()?)?;
        }
        Ok(false)
    }

    /// A value of an enumeration.
    fn enumeration_value(&mut self) -> Result<EnumerationValue, AllocError>
        ensures { IfOk result (λ value. Reads (token terminal.String) (enumeration_value value) self.old self.new) }
    {
        let text = self.quoted_text()?;
        let at = self.take();
        Ok(EnumerationValue { at, text })
    }
}
