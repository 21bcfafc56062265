//! Types. They nest at most 16 levels in a sentence without a type of level 17, which bounds the
//! recursion here; that it ends is proved by the tokens that are left.

ghost use Rattle.std.specs.Prelude.{◌≡◌, ◌≤◌, ◌++◌, ◌∷◌, [], IfOk, length};
ghost use Rattle.widl_predictive.specs.declared.grammar.Symbol.TheVariants.{Token, Part, Inner};
ghost use Rattle.widl_idl.specs.PlainTypes.{PlainUnion, form_term, type_of, annotated_of, plain_union};
ghost use Rattle.widl_idl.specs.TypeTrees.{form_of, trees_of_members};
ghost use Rattle.widl_idl.specs.Written.{members_in};
ghost use Rattle.widl_grammar.specs.declared.rule.Rule.TheVariants as rule;
ghost use Rattle.widl_grammar.specs.declared.terminal.Terminal.TheVariants as terminal;
ghost use Rattle.widl_syntax.specs.Reading.{Reads, part, token, terminal_ahead};
ghost use Rattle.widl_syntax.specs.Nesting.{form_levels, type_levels, annotated_levels};
ghost use Rattle.widl_syntax.specs.TypeLevels.{Nests, BeginsNested};
ghost use Rattle.widl_syntax.specs.UnparsedTypes.{inner_type, inner_annotated, written_type, annotated_type, bare_type, form_signs, question_mark, union_signs, container_terminal};

use super::Reader;
use super::type_words::{container, is_primitive, word_form};
use std::alloc::AllocError;
use widl_grammar::Terminal;
use widl_idl::tree::{
    AnnotatedType, Container, ExtendedAttributes, TypeForm, UnionMembers, WrittenType,
};
use widl_text::Place;

impl<'t, 's> Reader<'t, 's> {
    /// A type where no extended attributes may stand.
    pub fn unannotated_type(&mut self) -> Result<AnnotatedType, AllocError>
        ensures { IfOk result (λ ty. Reads (part rule.WholeType) (bare_type ty) self.old self.new) }
    {
        let ty = self.written_type()?;
        Ok(AnnotatedType {
            at: ty.at,
            attributes: ExtendedAttributes::new(self.alloc()),
            ty,
        })
    }

    /// A type with the extended attributes before it.
    #[cycle(types)]
    pub fn annotated_type(&mut self) -> Result<AnnotatedType, AllocError>
        ensures reads { IfOk result (λ ty. Reads (part rule.ExtendedAttributeList ++ part rule.WholeType) (annotated_type ty) self.old self.new) }
        ensures inner { IfOk result (λ ty. Reads (part rule.ExtendedAttributeList ++ part rule.WholeType) (inner_annotated ty) self.old self.new) }
        ensures nests { IfOk result (λ ty. BeginsNested (Part rule.ExtendedAttributeList ∷ Part rule.WholeType ∷ []) (annotated_levels (annotated_of ty)) self.old) }
        ensures shorter { IfOk result (λ _. length self.new ≤ length self.old) }
    {
        let at = self.at();
        let attributes = self.extended_attributes()?;
        let ty = self.written_type()?;
        Ok(AnnotatedType { at, attributes, ty })
    }

    /// A type.
    #[cycle(types)]
    pub fn written_type(&mut self) -> Result<WrittenType, AllocError>
        ensures reads { IfOk result (λ ty. Reads (part rule.WholeType) (written_type ty) self.old self.new) }
        ensures inner { IfOk result (λ ty. Reads (part rule.WholeType) (inner_type ty) self.old self.new) }
        ensures nests { IfOk result (λ ty. BeginsNested (Part rule.WholeType ∷ []) (type_levels (type_of ty)) self.old) }
        ensures shorter { IfOk result (λ _. length self.new ≤ length self.old) }
    {
        match self.ahead() {
            Terminal::Any => Ok(self.any_type()),
            Terminal::Promise => self.promise_type(),
            Terminal::OpenParen => self.union_type(),
            _ => self.distinguishable_type(),
        }
    }

    /// The type `any`, which has no `?`.
    fn any_type(&mut self) -> WrittenType
        ensures reads { Reads (token terminal.Any) (inner_type result) self.old self.new }
        ensures flat { type_levels (type_of result) ≡ 1 }
        ensures shorter { length self.new ≤ length self.old }
    {
        let at = self.take();
        WrittenType {
            at,
            form: TypeForm::Any,
            question: None,
        }
    }

    /// A promise type, which has no `?`.
    #[cycle(types)]
    fn promise_type(&mut self) -> Result<WrittenType, AllocError>
        requires { terminal_ahead self.old ≡ terminal.Promise }
        ensures reads { IfOk result (λ ty. Reads (part rule.WholeType) (inner_type ty) self.old self.new) }
        ensures nests { IfOk result (λ ty. BeginsNested (Part rule.WholeType ∷ []) (type_levels (type_of ty)) self.old) }
        ensures shorter { IfOk result (λ _. length self.new ≤ length self.old) }
    {
        let at = self.take();
        let _less = self.take();
        let value = self.written_type()?;
        let _greater = self.take();
        Ok(WrittenType {
            at,
            form: TypeForm::Promise(Box::new(self.alloc(), value)?),
            question: None,
        })
    }

    /// A union with its `?`.
    #[cycle(types)]
    fn union_type(&mut self) -> Result<WrittenType, AllocError>
        requires { terminal_ahead self.old ≡ terminal.OpenParen }
        ensures reads { IfOk result (λ ty. Reads (part rule.Union ++ part rule.Nullable) (inner_type ty) self.old self.new) }
        ensures nests { IfOk result (λ ty. Nests (Part rule.Union ∷ Part rule.Nullable ∷ []) (type_levels (type_of ty)) self.old) }
        ensures shorter { IfOk result (λ _. length self.new ≤ length self.old) }
    {
        let at = self.take();
        let members = self.union_members()?;
        let _close = self.take();
        let question = self.question();
        Ok(WrittenType {
            at,
            form: TypeForm::Union(members),
            question,
        })
    }

    /// The members of a union between its parentheses.
    #[cycle(types)]
    fn union_members(&mut self) -> Result<UnionMembers, AllocError>
        ensures reads { IfOk result (λ members. Reads (part rule.UnionMember ++ token terminal.Or ++ part rule.UnionMember ++ part rule.MoreUnionMembers) (union_signs (members_in members)) self.old self.new) }
        ensures nests { IfOk result (λ members. Nests (Inner rule.UnionMember ∷ Token terminal.Or ∷ Inner rule.UnionMember ∷ Part rule.MoreUnionMembers ∷ []) (form_levels (PlainUnion (plain_union (trees_of_members members)))) self.old) }
        ensures shorter { IfOk result (λ _. length self.new ≤ length self.old) }
    {
        let mut members = UnionMembers::new(self.alloc());
        members.push(self.union_member()?)?;
        let _or = self.take();
        members.push(self.union_member()?)?;
        for _ in 0..self.left() {
            if self.take_if(Terminal::Or).is_none() {
                break;
            }
            members.push(self.union_member()?)?;
        }
        Ok(members)
    }

    /// A member of a union. A union in it has no extended attributes.
    #[cycle(types)]
    fn union_member(&mut self) -> Result<AnnotatedType, AllocError>
        ensures reads { IfOk result (λ ty. Reads (part rule.UnionMember) (inner_annotated ty) self.old self.new) }
        ensures nests { IfOk result (λ ty. BeginsNested (Part rule.UnionMember ∷ []) (annotated_levels (annotated_of ty)) self.old) }
        ensures shorter { IfOk result (λ _. length self.new ≤ length self.old) }
    {
        let at = self.at();
        if self.is_ahead(Terminal::OpenParen) {
            let ty = self.union_type()?;
            return Ok(AnnotatedType {
                at,
                attributes: ExtendedAttributes::new(self.alloc()),
                ty,
            });
        }
        let attributes = self.extended_attributes()?;
        let ty = self.distinguishable_type()?;
        Ok(AnnotatedType { at, attributes, ty })
    }

    /// A type other than `any`, a promise or a union, with its `?`.
    #[cycle(types)]
    fn distinguishable_type(&mut self) -> Result<WrittenType, AllocError>
        ensures reads { IfOk result (λ ty. Reads (part rule.Distinguishable) (inner_type ty) self.old self.new) }
        ensures nests { IfOk result (λ ty. Nests (Part rule.Distinguishable ∷ []) (type_levels (type_of ty)) self.old) }
        ensures shorter { IfOk result (λ _. length self.new ≤ length self.old) }
    {
        let at = self.at();
        let form = self.distinguishable_form()?;
        let question = self.question();
        Ok(WrittenType { at, form, question })
    }

    /// The place of a `?`, if one stands here.
    fn question(&mut self) -> Option<Place>
        ensures reads { Reads (part rule.Nullable) (question_mark result) self.old self.new }
        ensures shorter { length self.new ≤ length self.old }
    {
        self.take_if(Terminal::Question)
    }

    /// The form of a type other than `any`, a promise or a union.
    #[cycle(types)]
    fn distinguishable_form(&mut self) -> Result<TypeForm, AllocError>
        ensures reads { IfOk result (λ form. Reads (part rule.DistinguishableBase) (form_signs (form_of form)) self.old self.new) }
        ensures nests { IfOk result (λ form. Nests (Part rule.DistinguishableBase ∷ []) (form_levels (form_term form)) self.old) }
        ensures shorter { IfOk result (λ _. length self.new ≤ length self.old) }
    {
        let ahead = self.ahead();
        if is_primitive(ahead) {
            return Ok(self.primitive_form());
        }
        if let Some(form) = word_form(ahead) {
            let _word = self.take();
            return Ok(form);
        }
        if let Some(kind) = container(ahead) {
            return self.container_form(kind);
        }
        if self.is_ahead(Terminal::Record) {
            return self.record_form();
        }
        Ok(TypeForm::Named(self.name()?))
    }

    /// A generic type with one argument, whose word is ahead.
    #[cycle(types)]
    fn container_form(&mut self, kind: Container) -> Result<TypeForm, AllocError>
        requires { terminal_ahead self.old ≡ container_terminal kind }
        ensures reads { IfOk result (λ form. Reads (part rule.DistinguishableBase) (form_signs (form_of form)) self.old self.new) }
        ensures nests { IfOk result (λ form. Nests (Part rule.DistinguishableBase ∷ []) (form_levels (form_term form)) self.old) }
        ensures shorter { IfOk result (λ _. length self.new ≤ length self.old) }
    {
        let _word = self.take();
        let _less = self.take();
        let element = self.annotated_type()?;
        let _greater = self.take();
        Ok(TypeForm::Container(kind, Box::new(self.alloc(), element)?))
    }

    /// A record type, whose word is ahead.
    #[cycle(types)]
    fn record_form(&mut self) -> Result<TypeForm, AllocError>
        requires { terminal_ahead self.old ≡ terminal.Record }
        ensures reads { IfOk result (λ form. Reads (part rule.DistinguishableBase) (form_signs (form_of form)) self.old self.new) }
        ensures nests { IfOk result (λ form. Nests (Part rule.DistinguishableBase ∷ []) (form_levels (form_term form)) self.old) }
        ensures shorter { IfOk result (λ _. length self.new ≤ length self.old) }
    {
        let _word = self.take();
        let _less = self.take();
        let key = self.string_type();
        let _comma = self.take();
        let value = self.annotated_type()?;
        let _greater = self.take();
        Ok(TypeForm::Record(key, Box::new(self.alloc(), value)?))
    }
}
