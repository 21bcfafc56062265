//! Members of interfaces, mixins, namespaces and callback interfaces.

ghost use Rattle.std.specs.Prelude.{◌≡◌, ◌++◌, IfOk};
ghost use Rattle.widl_grammar.specs.declared.rule.Rule.TheVariants as rule;
ghost use Rattle.widl_grammar.specs.declared.terminal.Terminal.TheVariants as terminal;
ghost use Rattle.widl_syntax.specs.MemberLists.{member_rule, members_rule};
ghost use Rattle.widl_syntax.specs.Reading.{Reads, part, token, terminal_ahead};
ghost use Rattle.widl_syntax.specs.Signs.{all_signs};
ghost use Rattle.widl_syntax.specs.UnparsedNames.{optional_name};
ghost use Rattle.widl_syntax.specs.UnparsedMembers.{member, member_kind, constant, constructor, attribute_rest, operation_rest, special_terminal};

use super::Reader;
use std::alloc::AllocError;
use widl_grammar::Terminal;
use widl_idl::tree::{
    Attribute, AttributeKind, Constant, Constructor, Member, MemberKind, Members, Name, Operation,
    OperationKind, SpecialWord, Stringifier,
};

/// Whose members are read.
#[derive(Clone, Copy)]
pub enum MemberList {
    Interface,
    PartialInterface,
    Mixin,
    Namespace,
    CallbackInterface,
}

impl<'t, 's> Reader<'t, 's> {
    /// The members between two braces.
    pub fn members(&mut self, list: MemberList) -> Result<Members, AllocError>
        ensures { IfOk result (λ members. Reads (part (members_rule list)) (all_signs member members) self.old self.new) }
    {
        let count = self.separators_ahead(Terminal::Semicolon, Terminal::CloseBrace);
        let mut members = Members::with_room(self.alloc(), count)?;
        for _ in 0..self.left() {
            if self.is_ahead(Terminal::CloseBrace) {
                break;
            }
            members.push(self.member(list)?)?;
        }
        Ok(members)
    }

    /// A member with the extended attributes before it.
    fn member(&mut self, list: MemberList) -> Result<Member, AllocError>
        ensures { IfOk result (λ read. Reads (part rule.ExtendedAttributeList ++ part (member_rule list)) (member read) self.old self.new) }
    {
        let attributes = self.extended_attributes()?;
        let kind = self.member_kind(list)?;
        Ok(Member { attributes, kind })
    }

    /// A member after its extended attributes.
    fn member_kind(&mut self, list: MemberList) -> Result<MemberKind, AllocError>
        ensures { IfOk result (λ kind. Reads (part (member_rule list)) (member_kind kind) self.old self.new) }
    {
        match list {
            MemberList::Interface => self.interface_member(),
            MemberList::PartialInterface => self.partial_interface_member(),
            MemberList::Mixin => self.mixin_member(),
            MemberList::Namespace => self.namespace_member(),
            MemberList::CallbackInterface => self.callback_interface_member(),
        }
    }

    /// A member of a callback interface.
    fn callback_interface_member(&mut self) -> Result<MemberKind, AllocError>
        ensures { IfOk result (λ kind. Reads (part rule.CallbackMember) (member_kind kind) self.old self.new) }
    {
        if self.is_ahead(Terminal::Const) {
            return Ok(MemberKind::Constant(self.constant()?));
        }
        self.regular_operation()
    }

    /// A member of a namespace.
    fn namespace_member(&mut self) -> Result<MemberKind, AllocError>
        ensures { IfOk result (λ kind. Reads (part rule.NamespaceMember) (member_kind kind) self.old self.new) }
    {
        match self.ahead() {
            Terminal::Const => Ok(MemberKind::Constant(self.constant()?)),
            Terminal::Readonly => self.readonly_attribute(),
            _ => self.regular_operation(),
        }
    }

    /// A member of a mixin.
    fn mixin_member(&mut self) -> Result<MemberKind, AllocError>
        ensures { IfOk result (λ kind. Reads (part rule.MixinMember) (member_kind kind) self.old self.new) }
    {
        match self.ahead() {
            Terminal::Const => Ok(MemberKind::Constant(self.constant()?)),
            Terminal::Stringifier => self.stringifier(),
            Terminal::Readonly => self.readonly_attribute(),
            Terminal::Attribute => self.regular_attribute(),
            _ => self.regular_operation(),
        }
    }

    /// A member of an interface.
    fn interface_member(&mut self) -> Result<MemberKind, AllocError>
        ensures { IfOk result (λ kind. Reads (part rule.InterfaceMember) (member_kind kind) self.old self.new) }
    {
        if self.is_ahead(Terminal::Constructor) {
            return Ok(MemberKind::Constructor(self.constructor()?));
        }
        self.partial_interface_member()
    }

    /// A member of a part of an interface: any but a constructor.
    fn partial_interface_member(&mut self) -> Result<MemberKind, AllocError>
        ensures { IfOk result (λ kind. Reads (part rule.Member) (member_kind kind) self.old self.new) }
    {
        match self.ahead() {
            Terminal::Const => Ok(MemberKind::Constant(self.constant()?)),
            Terminal::Stringifier => self.stringifier(),
            Terminal::Static => self.static_member(),
            Terminal::Iterable => Ok(MemberKind::Iterable(self.iterable()?)),
            Terminal::Async | Terminal::AsyncIterable => {
                Ok(MemberKind::AsyncIterable(self.async_iterable()?))
            }
            Terminal::Readonly => self.readonly_member(),
            Terminal::Attribute => self.regular_attribute(),
            Terminal::Maplike => Ok(MemberKind::Maplike(self.maplike(false)?)),
            Terminal::Setlike => Ok(MemberKind::Setlike(self.setlike(false)?)),
            Terminal::Inherit => self.inherited_attribute(),
            Terminal::Getter => self.special_operation(SpecialWord::Getter),
            Terminal::Setter => self.special_operation(SpecialWord::Setter),
            Terminal::Deleter => self.special_operation(SpecialWord::Deleter),
            _ => self.regular_operation(),
        }
    }

    /// A constant.
    fn constant(&mut self) -> Result<Box<Constant>, AllocError>
        ensures { IfOk result (λ read. Reads (part rule.Const) (constant read.value) self.old self.new) }
    {
        let at = self.take();
        let ty = self.constant_type()?;
        let Ok(name) = self.name() else {
            drop(ty);
            return Err(AllocError);
        };
        let _equals = self.take();
        let Ok(value) = self.constant_value() else {
            drop(ty);
            drop(name);
            return Err(AllocError);
        };
        let _semicolon = self.take();
        let constant = Constant {
            at,
            ty,
            name,
            value,
        };
        Ok(Box::new(self.alloc(), constant)?)
    }

    /// A constructor.
    fn constructor(&mut self) -> Result<Constructor, AllocError>
        ensures { IfOk result (λ read. Reads (part rule.Constructor) (constructor read) self.old self.new) }
    {
        let at = self.take();
        let arguments = self.arguments()?;
        let _semicolon = self.take();
        Ok(Constructor { at, arguments })
    }

    /// A stringifier, with its attribute if it has one.
    fn stringifier(&mut self) -> Result<MemberKind, AllocError>
        ensures { IfOk result (λ kind. Reads (part rule.Stringifier) (member_kind kind) self.old self.new) }
    {
        let at = self.take();
        match self.ahead() {
            Terminal::Semicolon => {
                let _semicolon = self.take();
                Ok(MemberKind::Stringifier(Stringifier { at }))
            }
            Terminal::Readonly => {
                let _readonly = self.take();
                let attribute = self.attribute(AttributeKind::Stringifier(at), true)?;
                Ok(MemberKind::Attribute(attribute))
            }
            _ => {
                let attribute = self.attribute(AttributeKind::Stringifier(at), false)?;
                Ok(MemberKind::Attribute(attribute))
            }
        }
    }

    /// A member from the word `static` on.
    fn static_member(&mut self) -> Result<MemberKind, AllocError>
        ensures { IfOk result (λ kind. Reads (part rule.Static) (member_kind kind) self.old self.new) }
    {
        let _static = self.take();
        match self.ahead() {
            Terminal::Readonly => {
                let _readonly = self.take();
                let attribute = self.attribute(AttributeKind::Static, true)?;
                Ok(MemberKind::Attribute(attribute))
            }
            Terminal::Attribute => {
                let attribute = self.attribute(AttributeKind::Static, false)?;
                Ok(MemberKind::Attribute(attribute))
            }
            _ => Ok(MemberKind::Operation(self.operation(OperationKind::Static)?)),
        }
    }

    /// A member from the word `readonly` on.
    fn readonly_member(&mut self) -> Result<MemberKind, AllocError>
        ensures { IfOk result (λ kind. Reads (token terminal.Readonly ++ part rule.ReadonlyRest) (member_kind kind) self.old self.new) }
    {
        let _readonly = self.take();
        match self.ahead() {
            Terminal::Maplike => Ok(MemberKind::Maplike(self.maplike(true)?)),
            Terminal::Setlike => Ok(MemberKind::Setlike(self.setlike(true)?)),
            _ => {
                let attribute = self.attribute(AttributeKind::Regular, true)?;
                Ok(MemberKind::Attribute(attribute))
            }
        }
    }

    /// A regular attribute from the word `readonly` on.
    fn readonly_attribute(&mut self) -> Result<MemberKind, AllocError>
        ensures { IfOk result (λ kind. Reads (token terminal.Readonly ++ part rule.Attribute) (member_kind kind) self.old self.new) }
    {
        let _readonly = self.take();
        let attribute = self.attribute(AttributeKind::Regular, true)?;
        Ok(MemberKind::Attribute(attribute))
    }

    /// A regular attribute without the word `readonly`.
    fn regular_attribute(&mut self) -> Result<MemberKind, AllocError>
        ensures { IfOk result (λ kind. Reads (part rule.Attribute) (member_kind kind) self.old self.new) }
    {
        let attribute = self.attribute(AttributeKind::Regular, false)?;
        Ok(MemberKind::Attribute(attribute))
    }

    /// An attribute from the word `inherit` on.
    fn inherited_attribute(&mut self) -> Result<MemberKind, AllocError>
        ensures { IfOk result (λ kind. Reads (token terminal.Inherit ++ part rule.Attribute) (member_kind kind) self.old self.new) }
    {
        let at = self.take();
        let attribute = self.attribute(AttributeKind::Inherited(at), false)?;
        Ok(MemberKind::Attribute(attribute))
    }

    /// An attribute from the word `attribute` on.
    fn attribute(&mut self, kind: AttributeKind, readonly: bool) -> Result<Attribute, AllocError>
        ensures kind { IfOk result (λ attribute. attribute.kind ≡ kind) }
        ensures readonly { IfOk result (λ attribute. attribute.readonly ≡ readonly) }
        ensures reads { IfOk result (λ attribute. Reads (part rule.Attribute) (attribute_rest attribute) self.old self.new) }
    {
        let _word = self.take();
        let ty = self.annotated_type()?;
        let Ok(name) = self.name() else {
            drop(ty);
            return Err(AllocError);
        };
        let _semicolon = self.take();
        Ok(Attribute {
            kind,
            readonly,
            ty,
            name,
        })
    }

    /// A special operation, whose word is ahead.
    fn special_operation(&mut self, word: SpecialWord) -> Result<MemberKind, AllocError>
        requires { terminal_ahead self.old ≡ special_terminal word }
        ensures { IfOk result (λ kind. Reads (part rule.Special) (member_kind kind) self.old self.new) }
    {
        let at = self.take();
        let operation = self.operation(OperationKind::Special(word, at))?;
        Ok(MemberKind::Operation(operation))
    }

    /// An operation without a word before it.
    fn regular_operation(&mut self) -> Result<MemberKind, AllocError>
        ensures { IfOk result (λ kind. Reads (part rule.Operation) (member_kind kind) self.old self.new) }
    {
        Ok(MemberKind::Operation(self.operation(OperationKind::Regular)?))
    }

    /// An operation from its return type on.
    fn operation(&mut self, kind: OperationKind) -> Result<Operation, AllocError>
        ensures kind { IfOk result (λ operation. operation.kind ≡ kind) }
        ensures reads { IfOk result (λ operation. Reads (part rule.Operation) (operation_rest operation) self.old self.new) }
    {
        let result = self.written_type()?;
        let Ok(name) = self.operation_name() else {
            drop(result);
            return Err(AllocError);
        };
        let open = self.at();
        let Ok(arguments) = self.arguments() else {
            drop(result);
            drop(name);
            return Err(AllocError);
        };
        let _semicolon = self.take();
        Ok(Operation {
            kind,
            result,
            name,
            open,
            arguments,
        })
    }

    /// The name of an operation, if it has one.
    fn operation_name(&mut self) -> Result<Option<Name>, AllocError>
        ensures { IfOk result (λ name. Reads (part rule.OperationName) (optional_name name) self.old self.new) }
    {
        if self.is_ahead(Terminal::OpenParen) {
            return Ok(None);
        }
        Ok(Some(self.name()?))
    }
}
