//! Arguments.

ghost use Rattle.std.specs.Prelude.{◌≡◌, ◌≢◌, ◌++◌, List, IfOk};
ghost use Rattle.widl_idl.specs.declared.tree.types.AnnotatedType.{AnnotatedType as TypeOfTree};
ghost use Rattle.widl_lex.specs.Tokens.{Lexeme};
ghost use Rattle.widl_grammar.specs.declared.rule.Rule.TheVariants as rule;
ghost use Rattle.widl_grammar.specs.declared.terminal.Terminal.TheVariants as terminal;
ghost use Rattle.widl_syntax.specs.Reading.{Symbols, Reads, Appends, part, token, terminal_ahead};
ghost use Rattle.widl_syntax.specs.Signs.{Sign, after, separated};
ghost use Rattle.widl_syntax.specs.UnparsedMembers.{argument, argument_rest, in_parentheses};
ghost use Rattle.widl_syntax.specs.UnparsedNames.{extended_attributes};
ghost use Rattle.widl_syntax.specs.UnparsedTypes.{bare_type};

use super::Reader;
use std::alloc::AllocError;
use widl_grammar::Terminal;
use widl_idl::tree::{Argument, ArgumentKind, Arguments, ExtendedAttributes};

impl<'t, 's> Reader<'t, 's> {
    /// Arguments between parentheses.
    pub fn arguments(&mut self) -> Result<Arguments, AllocError>
        ensures { IfOk result (λ arguments. Reads (token terminal.OpenParen ++ part rule.ArgumentList ++ token terminal.CloseParen) (in_parentheses arguments) self.old self.new) }
    {
        let _open = self.take();
        let arguments = self.argument_list()?;
        let _close = self.take();
        Ok(arguments)
    }

    /// The arguments up to the parenthesis after them.
    fn argument_list(&mut self) -> Result<Arguments, AllocError>
        ensures { IfOk result (λ arguments. Reads (part rule.ArgumentList) (separated terminal.Comma argument arguments) self.old self.new) }
    {
        if self.is_ahead(Terminal::CloseParen) {
            return Ok(Arguments::new(self.alloc()));
        }
        let commas = self.separators_ahead(Terminal::Comma, Terminal::CloseParen);
        let mut arguments = Arguments::with_room(self.alloc(), commas.saturating_add(1))?;
        let Ok(first) = self.argument() else {
            drop(arguments);
            return Err(AllocError);
        };
        let Ok(()) = arguments.push(first) else {
            drop(arguments);
            return Err(AllocError);
        };
        let Ok(()) = self.more_arguments(&mut arguments) else {
            drop(arguments);
            return Err(AllocError);
        };
        Ok(arguments)
    }

    /// Adds the arguments after the first one.
    fn more_arguments(&mut self, arguments: &mut Arguments) -> Result<(), AllocError>
        ensures { IfOk result (λ _. Appends rule.MoreArguments (after terminal.Comma argument) arguments.old arguments.new self.old self.new) }
    {
        for _ in 0..self.left() {
            if self.take_if(Terminal::Comma).is_none() {
                break;
            }
            arguments.push(self.argument()?)?;
        }
        Ok(())
    }

    /// An argument with the extended attributes before it.
    fn argument(&mut self) -> Result<Argument, AllocError>
        ensures { IfOk result (λ read. Reads (part rule.Argument) (argument read) self.old self.new) }
    {
        let attributes = self.extended_attributes()?;
        if self.is_ahead(Terminal::Optional) {
            self.optional_argument(attributes)
        } else {
            self.other_argument(attributes)
        }
    }

    /// An argument from the word `optional` on.
    fn optional_argument(&mut self, attributes: ExtendedAttributes) -> Result<Argument, AllocError>
        ensures { IfOk result (λ read. (start : List Lexeme) → Reads (part rule.ExtendedAttributeList) (extended_attributes attributes) start self.old → terminal_ahead self.old ≡ terminal.Optional → Reads (part rule.Argument) (argument read) start self.new) }
    {
        let _optional = self.take();
        let Ok(ty) = self.annotated_type() else {
            drop(attributes);
            return Err(AllocError);
        };
        let Ok(name) = self.name() else {
            drop(attributes);
            drop(ty);
            return Err(AllocError);
        };
        let Ok(default) = self.default_value() else {
            drop(attributes);
            drop(ty);
            drop(name);
            return Err(AllocError);
        };
        Ok(Argument {
            attributes,
            kind: ArgumentKind::Optional(default),
            ty,
            name,
        })
    }

    /// An argument from its type on.
    fn other_argument(&mut self, attributes: ExtendedAttributes) -> Result<Argument, AllocError>
        ensures { IfOk result (λ read. (start : List Lexeme) → Reads (part rule.ExtendedAttributeList) (extended_attributes attributes) start self.old → terminal_ahead self.old ≢ terminal.Optional → Reads (part rule.Argument) (argument read) start self.new) }
    {
        let Ok(ty) = self.unannotated_type() else {
            drop(attributes);
            return Err(AllocError);
        };
        let kind = self.ellipsis();
        let Ok(name) = self.name() else {
            drop(attributes);
            drop(ty);
            return Err(AllocError);
        };
        Ok(Argument {
            attributes,
            kind,
            ty,
            name,
        })
    }

    /// Whether an ellipsis stands here, between a type and a name.
    fn ellipsis(&mut self) -> ArgumentKind
        ensures { (start end : List Lexeme) (before after : Symbols) (ty : TypeOfTree) (name : List Sign) → Reads before (bare_type ty) start self.old → Reads after name self.new end → Reads (before ++ (part rule.Ellipsis ++ after)) (argument_rest result ty name) start end }
    {
        match self.take_if(Terminal::Ellipsis) {
            Some(at) => ArgumentKind::Variadic(at),
            None => ArgumentKind::Required,
        }
    }
}
