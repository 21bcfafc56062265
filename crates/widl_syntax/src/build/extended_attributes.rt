//! Extended attributes.

ghost use Rattle.std.specs.Prelude.{◌≤◌, IfOk, length};
ghost use Rattle.widl_grammar.specs.declared.rule.Rule.TheVariants as rule;
ghost use Rattle.widl_grammar.specs.declared.terminal.Terminal.TheVariants as terminal;
ghost use Rattle.widl_syntax.specs.Reading.{Reads, Appends, part};
ghost use Rattle.widl_syntax.specs.Signs.{after};
ghost use Rattle.widl_syntax.specs.UnparsedNames.{extended_attribute, extended_attributes, attribute_rest};

use super::Reader;
use std::alloc::AllocError;
use widl_grammar::{Rule, Terminal};
use widl_idl::tree::{ExtendedAttribute, ExtendedAttributes, SourceTokens};
use widl_predictive::{Frame, next_token};

impl<'t, 's> Reader<'t, 's> {
    /// The extended attributes between two brackets, or none where no bracket stands here.
    pub fn extended_attributes(&mut self) -> Result<ExtendedAttributes, AllocError>
        ensures reads { IfOk result (λ attributes. Reads (part rule.ExtendedAttributeList) (extended_attributes attributes) self.old self.new) }
        ensures shorter { IfOk result (λ _. length self.new ≤ length self.old) }
    {
        let mut attributes = ExtendedAttributes::new(self.alloc());
        if self.take_if(Terminal::OpenBracket).is_none() {
            return Ok(attributes);
        }
        let Ok(first) = self.extended_attribute() else {
            drop(attributes);
            return Err(AllocError);
        };
        let Ok(()) = attributes.push(first) else {
            drop(attributes);
            return Err(AllocError);
        };
        let Ok(()) = self.more_extended_attributes(&mut attributes) else {
            drop(attributes);
            return Err(AllocError);
        };
        let _close = self.take();
        Ok(attributes)
    }

    /// Adds the extended attributes after the first one.
    fn more_extended_attributes(
        &mut self,
        attributes: &mut ExtendedAttributes,
    ) -> Result<(), AllocError>
        ensures appends { IfOk result (λ _. Appends rule.MoreExtendedAttributes (after terminal.Comma extended_attribute) attributes.old attributes.new self.old self.new) }
        ensures shorter { IfOk result (λ _. length self.new ≤ length self.old) }
    {
        for _ in 0..self.left() {
            if self.take_if(Terminal::Comma).is_none() {
                break;
            }
            attributes.push(self.extended_attribute()?)?;
        }
        Ok(())
    }

    /// An extended attribute.
    fn extended_attribute(&mut self) -> Result<ExtendedAttribute, AllocError>
        ensures reads { IfOk result (λ attribute. Reads (part rule.ExtendedAttribute) (extended_attribute attribute) self.old self.new) }
        ensures shorter { IfOk result (λ _. length self.new ≤ length self.old) }
    {
        let name = self.name()?;
        let arguments = self.attribute_rest()?;
        Ok(ExtendedAttribute { name, arguments })
    }

    /// The tokens of an attribute after its name. Most attributes have none.
    fn attribute_rest(&mut self) -> Result<SourceTokens, AllocError>
        ensures reads { IfOk result (λ tokens. Reads (part rule.ExtendedAttributeRest) (attribute_rest tokens) self.old self.new) }
        ensures shorter { IfOk result (λ _. length self.new ≤ length self.old) }
    {
        if self.is_ahead(Terminal::CloseBracket) {
            return Ok(SourceTokens::new(self.alloc()));
        }
        if self.is_ahead(Terminal::Comma) {
            return Ok(SourceTokens::new(self.alloc()));
        }
        self.attribute_arguments()
    }

    /// The tokens of an attribute after its name. The machine of the grammar reads them, since they nest
    /// without a bound.
    fn attribute_arguments(&mut self) -> Result<SourceTokens, AllocError>
        ensures reads { IfOk result (λ tokens. Reads (part rule.ExtendedAttributeRest) (attribute_rest tokens) self.old self.new) }
        ensures shorter { IfOk result (λ _. length self.new ≤ length self.old) }
    {
        let mut tokens = SourceTokens::new(self.alloc());
        let mut stack = Vec::new(self.alloc());
        stack.push(Frame::Open(Rule::ExtendedAttributeRest, 1))?;
        for _ in 0..self.left() {
            if !next_token(&mut stack, self.ahead_or_end())? {
                return Ok(tokens);
            }
            tokens.push(self.source_token()?)?;
        }
        let _over = next_token(&mut stack, None)?;
        Ok(tokens)
    }
}
