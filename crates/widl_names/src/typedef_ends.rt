//! Where the chains of typedefs end whose types are names of typedefs.
//!
//! Such a chain is as long as a file allows, and each type that is written may lead into it. So its end
//! is found once for each typedef, in an order in which the typedef that a typedef's type names stands
//! before it. The work grows with the definitions alone. A typedef that comes back to itself has an end
//! too, which is the name of a typedef again.

ghost use Rattle.std.specs.Prelude.{◌≡◌, ◌+◌, ◌↔◌, List, IfOk, IfSome, IsTrue};
ghost use Rattle.widl_idl.specs.PlainTrees.{PlainDefinition, plain_definitions};
ghost use Rattle.widl_idl.specs.PlainTypes.{annotated_of, form_term};
ghost use Rattle.widl_names.specs.TypedefEnds.{AreEnds, CanGrow, EndsAt, IsEndOf};
ghost use Rattle.widl_names.specs.TypeUses.{capped, question_count, typedef_at, typedef_of_form};

use crate::annotations::Annotations;
use crate::meanings::Meanings;
use crate::typedef_links::{number_named, typedef_at};
use std::alloc::{AllocError, Global};
use widl_idl::tree::{AnnotatedType, TypeForm};
use widl_text::Place;

/// How many `?`s after a type and the typedefs that it leads to are counted. A rule allows one, and more
/// than two mean the same as two.
const MOST_QUESTIONS: usize = 2;

/// Where a chain of typedefs ends that begins with a type.
#[derive(Clone, Copy)]
pub struct ChainEnd<'a> {
    /// The last type of the chain without its `?`.
    pub form: &'a TypeForm,
    /// What the annotations of the chain's types say, in their order.
    pub annotations: Annotations,
    /// How many typedefs are passed after the first type.
    pub passed: u32,
    /// How many `?`s stand after the chain's types, or two where they are more.
    pub questions: usize,
}

impl<'a> ChainEnd<'a> {
    /// The end of the chain that is this type alone.
    pub fn of(ty: &'a AnnotatedType) -> ChainEnd<'a>
        ensures end { (definitions : List PlainDefinition) → EndsAt definitions (annotated_of ty.now) result }
        ensures passed { result.passed ≡ 0 }
    {
        ChainEnd {
            form: &ty.ty.form,
            annotations: Annotations::of(ty.attributes.as_slice()),
            passed: 0,
            questions: count_question(ty.ty.question),
        }
    }

    /// The end of the chain that begins with a type which names the typedef whose chain ends here.
    fn after(&self, ty: &'a AnnotatedType) -> ChainEnd<'a>
        requires { CanGrow self.now }
        ensures { (definitions : List PlainDefinition) → IsEndOf definitions (typedef_of_form definitions (form_term ty.now.ty.form)) self.now → EndsAt definitions (annotated_of ty.now) result }
    {
        let own = Annotations::of(ty.attributes.as_slice());
        ChainEnd {
            form: self.form,
            annotations: own.followed_by(self.annotations),
            passed: self.passed + 1,
            questions: more_questions(count_question(ty.ty.question), self.questions),
        }
    }

    /// Whether the chain may be one typedef longer.
    fn can_grow(&self) -> bool
        ensures { IsTrue result ↔ CanGrow self.now }
    {
        self.passed < u32::MAX
    }
}

/// For each definition the end of its chain, if it is a typedef, where typedefs are taken in this order.
///
/// # Errors
///
/// `AllocError` where there is no memory.
pub fn typedef_ends<'a>(
    alloc: Global,
    meanings: &Meanings<'_, 'a>,
    order: &[usize],
) -> Result<Vec<Option<ChainEnd<'a>>>, AllocError>
    ensures { IfOk result (λ ends. AreEnds (plain_definitions meanings.now) ends.items) }
{
    let mut ends = vec![in alloc; None; meanings.all().len()]?;
    for number in order {
        let end = end_of(meanings, ends.as_slice(), *number);
        keep_end(&mut ends, *number, end);
    }
    Ok(ends)
}

/// The end of the chain of a definition, if it is a typedef, where those of others are kept.
fn end_of<'a>(
    meanings: &Meanings<'_, 'a>,
    ends: &[Option<ChainEnd<'a>>],
    number: usize,
) -> Option<ChainEnd<'a>>
    requires { AreEnds (plain_definitions meanings.now) ends.now }
    ensures { IfSome result (IsEndOf (plain_definitions meanings.now) (typedef_at (plain_definitions meanings.now) number)) }
{
    match typedef_at(meanings, number) {
        None => None,
        Some(ty) => Some(chain_end(meanings, ends, ty)),
    }
}

/// The end of the chain that begins with a type.
fn chain_end<'a>(
    meanings: &Meanings<'_, 'a>,
    ends: &[Option<ChainEnd<'a>>],
    ty: &'a AnnotatedType,
) -> ChainEnd<'a>
    requires { AreEnds (plain_definitions meanings.now) ends.now }
    ensures { EndsAt (plain_definitions meanings.now) (annotated_of ty.now) result }
{
    match end_named(meanings, ends, &ty.ty.form) {
        None => ChainEnd::of(ty),
        Some(next) => if next.can_grow() {
            next.after(ty)
        } else {
            ChainEnd::of(ty)
        },
    }
}

/// The end of the chain of the typedef that a form names, if it is kept.
fn end_named<'a>(
    meanings: &Meanings<'_, 'a>,
    ends: &[Option<ChainEnd<'a>>],
    form: &TypeForm,
) -> Option<ChainEnd<'a>>
    requires { AreEnds (plain_definitions meanings.now) ends.now }
    ensures { IfSome result (λ end. IsEndOf (plain_definitions meanings.now) (typedef_of_form (plain_definitions meanings.now) (form_term form.now)) end) }
{
    match number_named(meanings, form) {
        None => None,
        Some(number) => kept_end(ends, number),
    }
}

/// What is kept under the number.
pub fn kept_end<'a>(ends: &[Option<ChainEnd<'a>>], number: usize) -> Option<ChainEnd<'a>>
    ensures { (definitions : List PlainDefinition) → AreEnds definitions ends.now → IfSome result (IsEndOf definitions (typedef_at definitions number)) }
{
    match ends.get(number) {
        None => None,
        Some(end) => *end,
    }
}

/// Keeps an end under the number, if there is a place for it.
fn keep_end<'a>(ends: &mut Vec<Option<ChainEnd<'a>>>, number: usize, end: Option<ChainEnd<'a>>)
    ensures { (definitions : List PlainDefinition) → AreEnds definitions ends.old.items → IfSome end.entry (IsEndOf definitions (typedef_at definitions number)) → AreEnds definitions ends.new.items }
{
    if let Some(place) = ends.get_mut(number) {
        *place = end;
    }
}

/// How many `?`s stand after a type: 1 or none.
pub fn count_question(question: Option<Place>) -> usize
    ensures { result ≡ question_count question }
{
    match question {
        None => 0,
        Some(_) => 1,
    }
}

/// So many `?`s and so many more, or two where they are more.
pub fn more_questions(questions: usize, more: usize) -> usize
    ensures { result ≡ capped (questions + more) }
{
    if questions < MOST_QUESTIONS && more < MOST_QUESTIONS - questions {
        questions + more
    } else {
        MOST_QUESTIONS
    }
}
