//! Definitions.

ghost use Rattle.std.specs.Prelude.{◌≡◌, ◌++◌, IfOk, true, false};
ghost use Rattle.widl_grammar.specs.declared.rule.Rule.TheVariants as rule;
ghost use Rattle.widl_grammar.specs.declared.terminal.Terminal.TheVariants as terminal;
ghost use Rattle.widl_syntax.specs.Reading.{Reads, part, token};
ghost use Rattle.widl_syntax.specs.Signs.{all_signs};
ghost use Rattle.widl_syntax.specs.UnparsedDefinitions.{definition, definition_kind, is_partial, after_partial, callback_rest, callback_interface_rest, interface_rest, mixin_rest, namespace, parent, typedef, includes};

use super::Reader;
use super::members::MemberList;
use std::alloc::AllocError;
use widl_grammar::Terminal;
use widl_idl::tree::{
    Callback, CallbackInterface, Definition, DefinitionKind, Definitions, Includes, Interface,
    Mixin, Name, Namespace, Typedef,
};

impl<'t, 's> Reader<'t, 's> {
    /// All definitions of the file.
    pub fn definitions(&mut self) -> Result<Definitions, AllocError>
        ensures { IfOk result (λ definitions. Reads (part rule.Definitions) (all_signs definition definitions) self.old self.new) }
    {
        let mut definitions = Definitions::new(self.alloc());
        for _ in 0..self.left() {
            if self.left() == 0 {
                break;
            }
            definitions.push(self.definition()?)?;
        }
        Ok(definitions)
    }

    /// A definition with the extended attributes before it.
    fn definition(&mut self) -> Result<Definition, AllocError>
        ensures { IfOk result (λ read. Reads (part rule.ExtendedAttributeList ++ part rule.Definition) (definition read) self.old self.new) }
    {
        let attributes = self.extended_attributes()?;
        let kind = self.definition_kind()?;
        Ok(Definition { attributes, kind })
    }

    /// A definition after its extended attributes.
    fn definition_kind(&mut self) -> Result<DefinitionKind, AllocError>
        ensures { IfOk result (λ kind. Reads (part rule.Definition) (definition_kind kind) self.old self.new) }
    {
        match self.ahead() {
            Terminal::Callback => self.callback(),
            Terminal::Interface => self.interface(),
            Terminal::Namespace => Ok(DefinitionKind::Namespace(self.namespace(false)?)),
            Terminal::Partial => self.partial_definition(),
            Terminal::Dictionary => Ok(DefinitionKind::Dictionary(self.dictionary()?)),
            Terminal::Enum => Ok(DefinitionKind::Enumeration(self.enumeration()?)),
            Terminal::Typedef => Ok(DefinitionKind::Typedef(self.typedef()?)),
            _ => Ok(DefinitionKind::Includes(self.includes()?)),
        }
    }

    /// A callback function or a callback interface.
    fn callback(&mut self) -> Result<DefinitionKind, AllocError>
        ensures { IfOk result (λ kind. Reads (token terminal.Callback ++ part rule.CallbackRest) (definition_kind kind) self.old self.new) }
    {
        let _word = self.take();
        if self.is_ahead(Terminal::Interface) {
            return Ok(DefinitionKind::CallbackInterface(self.callback_interface()?));
        }
        Ok(DefinitionKind::Callback(self.callback_function()?))
    }

    /// A callback function from its name on.
    fn callback_function(&mut self) -> Result<Callback, AllocError>
        ensures { IfOk result (λ read. Reads (token terminal.Identifier ++ token terminal.Equals ++ part rule.WholeType ++ token terminal.OpenParen ++ part rule.ArgumentList ++ token terminal.CloseParen ++ token terminal.Semicolon) (callback_rest read) self.old self.new) }
    {
        let name = self.name()?;
        let _equals = self.take();
        let Ok(result) = self.written_type() else {
            drop(name);
            return Err(AllocError);
        };
        let Ok(arguments) = self.arguments() else {
            drop(name);
            drop(result);
            return Err(AllocError);
        };
        let _semicolon = self.take();
        Ok(Callback {
            name,
            result,
            arguments,
        })
    }

    /// A callback interface from the word `interface` on.
    fn callback_interface(&mut self) -> Result<CallbackInterface, AllocError>
        ensures { IfOk result (λ read. Reads (token terminal.Interface ++ token terminal.Identifier ++ token terminal.OpenBrace ++ part rule.CallbackMembers ++ token terminal.CloseBrace ++ token terminal.Semicolon) (callback_interface_rest read) self.old self.new) }
    {
        let _word = self.take();
        let name = self.name()?;
        let _open = self.take();
        let members = self.members(MemberList::CallbackInterface)?;
        let _close = self.take();
        let _semicolon = self.take();
        Ok(CallbackInterface { name, members })
    }

    /// An interface or a mixin.
    fn interface(&mut self) -> Result<DefinitionKind, AllocError>
        ensures { IfOk result (λ kind. Reads (token terminal.Interface ++ part rule.InterfaceRest) (definition_kind kind) self.old self.new) }
    {
        let _word = self.take();
        if self.is_ahead(Terminal::Mixin) {
            return Ok(DefinitionKind::Mixin(self.mixin(false)?));
        }
        Ok(DefinitionKind::Interface(self.whole_interface()?))
    }

    /// An interface from its name on.
    fn whole_interface(&mut self) -> Result<Interface, AllocError>
        ensures partial { IfOk result (λ read. read.partial ≡ false) }
        ensures reads { IfOk result (λ read. Reads (token terminal.Identifier ++ part rule.Parent ++ token terminal.OpenBrace ++ part rule.InterfaceMembers ++ token terminal.CloseBrace ++ token terminal.Semicolon) (interface_rest read) self.old self.new) }
    {
        let name = self.name()?;
        let Ok(parent) = self.parent() else {
            drop(name);
            return Err(AllocError);
        };
        let _open = self.take();
        let Ok(members) = self.members(MemberList::Interface) else {
            drop(name);
            drop(parent);
            return Err(AllocError);
        };
        let _close = self.take();
        let _semicolon = self.take();
        Ok(Interface {
            partial: false,
            name,
            parent,
            members,
        })
    }

    /// A mixin from the word `mixin` on.
    fn mixin(&mut self, partial: bool) -> Result<Mixin, AllocError>
        ensures partial { IfOk result (λ read. read.partial ≡ partial) }
        ensures reads { IfOk result (λ read. Reads (part rule.MixinRest) (mixin_rest read) self.old self.new) }
    {
        let _word = self.take();
        let name = self.name()?;
        let _open = self.take();
        let members = self.members(MemberList::Mixin)?;
        let _close = self.take();
        let _semicolon = self.take();
        Ok(Mixin {
            partial,
            name,
            members,
        })
    }

    /// A namespace from its word on.
    fn namespace(&mut self, partial: bool) -> Result<Namespace, AllocError>
        ensures partial { IfOk result (λ read. read.partial ≡ partial) }
        ensures reads { IfOk result (λ read. Reads (part rule.Namespace) (namespace read) self.old self.new) }
    {
        let _word = self.take();
        let name = self.name()?;
        let _open = self.take();
        let members = self.members(MemberList::Namespace)?;
        let _close = self.take();
        let _semicolon = self.take();
        Ok(Namespace {
            partial,
            name,
            members,
        })
    }

    /// The name after a colon, if there is one.
    pub fn parent(&mut self) -> Result<Option<Name>, AllocError>
        ensures { IfOk result (λ name. Reads (part rule.Parent) (parent name) self.old self.new) }
    {
        if self.take_if(Terminal::Colon).is_none() {
            return Ok(None);
        }
        Ok(Some(self.name()?))
    }

    /// A part of an interface, a mixin, a namespace or a dictionary.
    fn partial_definition(&mut self) -> Result<DefinitionKind, AllocError>
        ensures { IfOk result (λ kind. Reads (token terminal.Partial ++ part rule.PartialRest) (definition_kind kind) self.old self.new) }
    {
        let _partial = self.take();
        match self.ahead() {
            Terminal::Interface => self.partial_interface(),
            Terminal::Namespace => Ok(DefinitionKind::Namespace(self.namespace(true)?)),
            _ => Ok(DefinitionKind::Dictionary(self.partial_dictionary()?)),
        }
    }

    /// A part of an interface or a mixin from the word `interface` on.
    fn partial_interface(&mut self) -> Result<DefinitionKind, AllocError>
        ensures { IfOk result (λ kind. (is_partial kind ≡ true) × Reads (token terminal.Interface ++ part rule.PartialInterfaceRest) (after_partial kind) self.old self.new) }
    {
        let _word = self.take();
        if self.is_ahead(Terminal::Mixin) {
            return Ok(DefinitionKind::Mixin(self.mixin(true)?));
        }
        Ok(DefinitionKind::Interface(self.interface_part()?))
    }

    /// A part of an interface from its name on.
    fn interface_part(&mut self) -> Result<Interface, AllocError>
        ensures partial { IfOk result (λ read. read.partial ≡ true) }
        ensures reads { IfOk result (λ read. Reads (token terminal.Identifier ++ token terminal.OpenBrace ++ part rule.PartialMembers ++ token terminal.CloseBrace ++ token terminal.Semicolon) (interface_rest read) self.old self.new) }
    {
        let name = self.name()?;
        let _open = self.take();
        let members = self.members(MemberList::PartialInterface)?;
        let _close = self.take();
        let _semicolon = self.take();
        Ok(Interface {
            partial: true,
            name,
            parent: None,
            members,
        })
    }

    /// A typedef.
    fn typedef(&mut self) -> Result<Typedef, AllocError>
        ensures { IfOk result (λ read. Reads (part rule.Typedef) (typedef read) self.old self.new) }
    {
        let _word = self.take();
        let ty = self.annotated_type()?;
        let Ok(name) = self.name() else {
            drop(ty);
            return Err(AllocError);
        };
        let _semicolon = self.take();
        Ok(Typedef { ty, name })
    }

    /// An includes statement.
    fn includes(&mut self) -> Result<Includes, AllocError>
        ensures { IfOk result (λ read. Reads (part rule.Includes) (includes read) self.old self.new) }
    {
        let interface = self.name()?;
        let _word = self.take();
        let mixin = self.name()?;
        let _semicolon = self.take();
        Ok(Includes { interface, mixin })
    }
}
