//! How many types stand in the types of typedefs.
//!
//! Typedefs of typedefs mean types that grow far faster than their text. So the size of each typedef's type is
//! counted before one of them is made: in rounds, each of which takes the sizes of the typedefs that a
//! typedef's type names from the table. Types nest at most 16 levels where no rule of merging is broken, so as many
//! rounds find all sizes. The sizes tell where to give up, and nothing is proved of them.

use crate::extent::Extent;
use crate::meanings::Meanings;
use crate::typedef_ends::{count_question, more_questions};
use crate::typedef_links::{meaning_of_form, typedef_at};
use std::alloc::{AllocError, Global};
use widl_idl::tree::{AnnotatedType, Container, TypeForm, WrittenType};
use widl_text::limits::MOST_TYPE_LEVELS;

/// How many types a type is, with those inside it; 2^64 - 1 where it is more.
#[derive(Clone, Copy)]
pub struct TypeSize {
    /// The whole type without its `?`s.
    whole: usize,
    /// The same of its outline.
    outline: usize,
    /// How many `?`s stand after it, or two where they are more.
    questions: usize,
}

impl TypeSize {
    /// The size of a type without parts.
    fn one() -> TypeSize {
        TypeSize {
            whole: 1,
            outline: 1,
            questions: 0,
        }
    }

    /// How many types are made of the type.
    pub fn total(&self, extent: Extent) -> usize {
        match extent {
            Extent::Whole => self.whole.saturating_add(self.questions),
            Extent::Outline => self.outline.saturating_add(self.questions),
        }
    }

    /// The size of the type with so many `?`s more.
    fn with_questions(&self, questions: usize) -> TypeSize {
        TypeSize {
            whole: self.whole,
            outline: self.outline,
            questions: more_questions(self.questions, questions),
        }
    }

    /// The size of a sequence, a record or a promise of the type.
    fn around(&self) -> TypeSize {
        TypeSize {
            whole: self.total(Extent::Whole).saturating_add(1),
            outline: 2,
            questions: 0,
        }
    }

    /// The size of a union that has one member more.
    fn with_member(&self, member: &TypeSize) -> TypeSize {
        TypeSize {
            whole: self.whole.saturating_add(member.total(Extent::Whole)),
            outline: self.outline.saturating_add(member.total(Extent::Outline)),
            questions: self.questions,
        }
    }

    fn is(&self, other: &TypeSize) -> bool {
        self.whole == other.whole
            && self.outline == other.outline
            && self.questions == other.questions
    }
}

/// The sizes of definitions as types, by their numbers. Each that is no typedef is one type.
#[derive(Drop)]
pub struct TypedefSizes {
    sizes: Vec<TypeSize>,
}

impl TypedefSizes {
    /// The sizes of all definitions, where typedefs are taken in this order.
    ///
    /// # Errors
    ///
    /// `AllocError` where there is no memory.
    pub fn of(
        alloc: Global,
        meanings: &Meanings<'_, '_>,
        order: &[usize],
    ) -> Result<TypedefSizes, AllocError> {
        let sizes = vec![in alloc; TypeSize::one(); meanings.all().len()]?;
        let mut table = TypedefSizes { sizes };
        for _level in 0..MOST_TYPE_LEVELS {
            if !table.recount(meanings, order) {
                return Ok(table);
            }
        }
        Ok(table)
    }

    /// Counts all typedefs by the sizes that are known. Whether one of these has changed.
    fn recount(&mut self, meanings: &Meanings<'_, '_>, order: &[usize]) -> bool {
        let mut changed = false;
        for number in order {
            if self.recount_typedef(meanings, *number) {
                changed = true;
            }
        }
        changed
    }

    /// The same of the definition with this number, if it is a typedef.
    fn recount_typedef(&mut self, meanings: &Meanings<'_, '_>, number: usize) -> bool {
        let Some(ty) = typedef_at(meanings, number) else {
            return false;
        };
        let size = self.of_type(meanings, &ty.ty);
        self.keep(number, size)
    }

    /// Keeps the size under the number. Whether it was another one.
    fn keep(&mut self, number: usize, size: TypeSize) -> bool {
        match self.sizes.get_mut(number) {
            None => false,
            Some(kept) => {
                let changed = !kept.is(&size);
                *kept = size;
                changed
            }
        }
    }

    /// The size of a type.
    #[cycle(size)]
    fn of_type(&self, meanings: &Meanings<'_, '_>, ty: &WrittenType) -> TypeSize {
        let size = self.of_form(meanings, &ty.form);
        size.with_questions(count_question(ty.question))
    }

    /// The size of a type without its `?`.
    #[cycle(size)]
    pub fn of_form(&self, meanings: &Meanings<'_, '_>, form: &TypeForm) -> TypeSize {
        match form {
            TypeForm::Named(_) => self.of_meaning(meaning_of_form(meanings, form)),
            TypeForm::Container(Container::Sequence, inner) => {
                self.of_type(meanings, &inner.ty).around()
            }
            TypeForm::Record(_, inner) => self.of_type(meanings, &inner.ty).around(),
            TypeForm::Promise(inner) => self.of_type(meanings, inner).around(),
            TypeForm::Union(members) => self.of_members(meanings, members.as_slice()),
            _ => TypeSize::one(),
        }
    }

    /// The size of a union.
    #[cycle(size)]
    pub fn of_members(&self, meanings: &Meanings<'_, '_>, members: &[AnnotatedType]) -> TypeSize {
        let mut size = TypeSize::one();
        for member in members {
            let one = self.of_type(meanings, &member.ty);
            size = size.with_member(&one);
        }
        size
    }

    /// The size of the definition that a name means.
    fn of_meaning(&self, meaning: Option<usize>) -> TypeSize {
        match meaning {
            None => TypeSize::one(),
            Some(number) => self.at(number),
        }
    }

    /// The size of the definition with this number.
    fn at(&self, number: usize) -> TypeSize {
        match self.sizes.get(number) {
            None => TypeSize::one(),
            Some(size) => *size,
        }
    }
}
