//! Iterable, maplike and setlike declarations.

ghost use Rattle.std.specs.Prelude.{◌≡◌, IfOk};
ghost use Rattle.widl_grammar.specs.declared.rule.Rule.TheVariants as rule;
ghost use Rattle.widl_syntax.specs.Reading.{Reads, part};
ghost use Rattle.widl_syntax.specs.UnparsedMembers.{iterable, async_iterable, async_words, maplike_rest, setlike_rest, optional_arguments};
ghost use Rattle.widl_syntax.specs.UnparsedTypes.{second_type};

use super::Reader;
use std::alloc::AllocError;
use widl_grammar::Terminal;
use widl_idl::tree::{
    AnnotatedType, Arguments, AsyncIterable, AsyncWord, Iterable, Maplike, Setlike,
};

impl<'t, 's> Reader<'t, 's> {
    /// A second type after a comma, if there is one.
    fn second_type(&mut self) -> Result<Option<AnnotatedType>, AllocError>
        ensures { IfOk result (λ ty. Reads (part rule.SecondType) (second_type ty) self.old self.new) }
    {
        if self.take_if(Terminal::Comma).is_none() {
            return Ok(None);
        }
        Ok(Some(self.annotated_type()?))
    }

    /// Arguments between parentheses, if a parenthesis stands here.
    fn arguments_if(&mut self) -> Result<Option<Arguments>, AllocError>
        ensures { IfOk result (λ arguments. Reads (part rule.AsyncArguments) (optional_arguments arguments) self.old self.new) }
    {
        if self.is_ahead(Terminal::OpenParen) {
            return Ok(Some(self.arguments()?));
        }
        Ok(None)
    }

    /// An iterable declaration.
    pub fn iterable(&mut self) -> Result<Box<Iterable>, AllocError>
        ensures { IfOk result (λ read. Reads (part rule.Iterable) (iterable read.value) self.old self.new) }
    {
        let at = self.take();
        let _less = self.take();
        let first = self.annotated_type()?;
        let Ok(second) = self.second_type() else {
            drop(first);
            return Err(AllocError);
        };
        let _greater = self.take();
        let _semicolon = self.take();
        let iterable = Iterable { at, first, second };
        Ok(Box::new(self.alloc(), iterable)?)
    }

    /// The word or the two words that such a declaration begins with.
    fn async_word(&mut self) -> AsyncWord
        ensures { Reads (part rule.AsyncWord) (async_words result) self.old self.new }
    {
        match self.ahead() {
            Terminal::AsyncIterable => {
                let _word = self.take();
                AsyncWord::OneWord
            }
            _ => {
                let _async = self.take();
                let _iterable = self.take();
                AsyncWord::TwoWords
            }
        }
    }

    /// An asynchronously iterable declaration.
    pub fn async_iterable(&mut self) -> Result<Box<AsyncIterable>, AllocError>
        ensures { IfOk result (λ read. Reads (part rule.AsyncIterable) (async_iterable read.value) self.old self.new) }
    {
        let at = self.at();
        let word = self.async_word();
        let _less = self.take();
        let first = self.annotated_type()?;
        let Ok(second) = self.second_type() else {
            drop(first);
            return Err(AllocError);
        };
        let _greater = self.take();
        let Ok(arguments) = self.arguments_if() else {
            drop(first);
            drop(second);
            return Err(AllocError);
        };
        let _semicolon = self.take();
        let iterable = AsyncIterable {
            at,
            word,
            first,
            second,
            arguments,
        };
        Ok(Box::new(self.alloc(), iterable)?)
    }

    /// A maplike declaration from its word on.
    pub fn maplike(&mut self, readonly: bool) -> Result<Box<Maplike>, AllocError>
        ensures readonly { IfOk result (λ read. read.value.readonly ≡ readonly) }
        ensures reads { IfOk result (λ read. Reads (part rule.Maplike) (maplike_rest read.value) self.old self.new) }
    {
        let at = self.take();
        let _less = self.take();
        let key = self.annotated_type()?;
        let _comma = self.take();
        let Ok(value) = self.annotated_type() else {
            drop(key);
            return Err(AllocError);
        };
        let _greater = self.take();
        let _semicolon = self.take();
        let maplike = Maplike {
            at,
            readonly,
            key,
            value,
        };
        Ok(Box::new(self.alloc(), maplike)?)
    }

    /// A setlike declaration from its word on.
    pub fn setlike(&mut self, readonly: bool) -> Result<Box<Setlike>, AllocError>
        ensures readonly { IfOk result (λ read. read.value.readonly ≡ readonly) }
        ensures reads { IfOk result (λ read. Reads (part rule.Setlike) (setlike_rest read.value) self.old self.new) }
    {
        let at = self.take();
        let _less = self.take();
        let value = self.annotated_type()?;
        let _greater = self.take();
        let _semicolon = self.take();
        let setlike = Setlike {
            at,
            readonly,
            value,
        };
        Ok(Box::new(self.alloc(), setlike)?)
    }
}
