//! What the types of a set of files mean: their typedefs are replaced by their types, and other names
//! by the numbers of their definitions.
//!
//! A chain of typedefs whose types are names of typedefs is as long as a file allows. Where it ends is
//! kept for each typedef, so following it is one look-up. Only where fewer typedefs may still be followed
//! than the chain has is it followed by one at a time. The recursion goes down into the parts of types
//! alone, as deep as the type that results: at most 16 levels where no rule of merging is broken.

ghost use Rattle.std.specs.Prelude.{◌≡◌, ◌<◌, ◌+◌, ◌^◌, ◌++◌, List, [], Some, IfOk, OnOk, false, length, map};
ghost use Rattle.widl_idl.specs.Meanings.{meaning, meant_kind};
ghost use Rattle.widl_idl.specs.declared.kind.Kind.{Kind as KindType};
ghost use Rattle.widl_idl.specs.MergedList.{number_of_meaning};
ghost use Rattle.widl_idl.specs.PlainTrees.{plain_definitions};
ghost use Rattle.widl_idl.specs.PlainTypes.{annotated_of, attribute_of, form_term, type_of, union_of};
ghost use Rattle.widl_idl.specs.Resolution.{Note, is_nullable, is_nullable_twice, nullable_of, resolved_members, typedef_in};
ghost use Rattle.widl_idl.specs.Terms.{packed, type_term, type_terms};
ghost use Rattle.widl_idl.specs.WrittenTypes.{meaning_alone, meaning_of_annotated, meaning_of_type, meaning_with, type_of_kind, type_of_meaning, typedefs, written_members};
ghost use Rattle.widl_names.specs.Extents.{made, made_inside, made_members, outline};
ghost use Rattle.widl_names.specs.SaidNotes.{Says};
ghost use Rattle.widl_names.specs.TypedefEnds.{GoesTo, IsNext};
ghost use Rattle.widl_names.specs.TypeUses.{After, IsKnown, IsLast, Leads, MeansWritten, container_meaning, form_in, form_meaning, meaning_at, meaning_of_use, numbered_kind, own_meaning, questioned, typedef_at, typedef_notes, without_parts};

use crate::annotations::Annotations;
use crate::extent::Extent;
use crate::kind_numbers::{KindNumbers, number_kinds};
use crate::meanings::{Meanings, kind_at};
use crate::most_types::MOST_TYPES;
use crate::names::kind_of;
use crate::typedef_ends::{ChainEnd, count_question, kept_end, more_questions, typedef_ends};
use crate::typedef_links::{meaning_of_form, typedef_at, typedef_order};
use crate::typedef_sizes::TypedefSizes;
use std::alloc::{AllocError, Global};
use std::marker::Model;
use widl_idl::tree::{AnnotatedType, Container, ExtendedAttribute, TypeForm, WrittenType};
use widl_idl::{IdlType, IdlTypes, Kind};

/// The definitions of a set of files with their numbers, by which types are resolved.
#[derive(Drop)]
pub struct Resolver<'d, 'a> {
    meanings: Meanings<'d, 'a>,
    kinds: KindNumbers,
    /// For each definition the end of its chain, if it is a typedef.
    ends: Vec<Option<ChainEnd<'a>>>,
    sizes: TypedefSizes,
}

impl<'d, 'a> Model for Resolver<'d, 'a> {
    ghost use Rattle.std.specs.Prelude.{List};
    ghost use Rattle.std.specs.Coded.{codes};
    ghost use Rattle.widl_idl.specs.contracts.tree.types.TypeForm as written;
    ghost use Rattle.widl_idl.specs.declared.tree.definitions.Definition.{Definition as DefinitionType};
    ghost use Rattle.widl_idl.specs.PlainTrees.{plain_definitions};
    ghost use Rattle.widl_names.specs.KindNumbers.{AreCounts, AreNumbers};
    ghost use Rattle.widl_names.specs.TypedefEnds.{AreEnds};

    ghost Value = { List DefinitionType };

    ghost coded = { Prim.hlevel (codes, written.the_row.coded) };

    ghost view = { λ r. r.meanings };

    ghost invariant = { λ r. AreNumbers (plain_definitions r.meanings) r.kinds.numbers.items × AreCounts (plain_definitions r.meanings) r.kinds.counts × AreEnds (plain_definitions r.meanings) r.ends.items };
}

/// A type as it is used.
#[derive(Clone, Copy)]
pub struct Use<'t> {
    /// The type without its `?`.
    pub form: &'t TypeForm,
    /// What the annotations before it say.
    pub annotations: Annotations,
    /// How many typedefs it may still lead to.
    pub typedefs: u32,
    /// How many `?`s stand after it, or two where they are more.
    pub questions: usize,
}

impl<'t> Use<'t> {
    /// A type after these annotations.
    fn of(ty: &'t WrittenType, annotations: Annotations, typedefs: u32) -> Use<'t>
        ensures annotations { result.annotations ≡ annotations }
        ensures same { MeansWritten result (type_of ty.now) }
        ensures form { form_term result.form.now ≡ form_in (type_of ty.now) }
        ensures count { result.typedefs ≡ typedefs }
    {
        Use {
            form: &ty.form,
            annotations,
            typedefs,
            questions: count_question(ty.question),
        }
    }

    /// The end of the chain of the typedef that is named where this one stands.
    fn through(&self, end: &ChainEnd<'t>) -> Use<'t>
        requires { end.now.passed < self.now.typedefs }
        ensures { GoesTo self.now end.now result }
    {
        Use {
            form: end.form,
            annotations: self.annotations.followed_by(end.annotations),
            typedefs: self.typedefs - 1 - end.passed,
            questions: more_questions(self.questions, end.questions),
        }
    }
}

/// A use of a type whose name is looked up.
#[derive(Clone, Copy)]
pub struct KnownUse<'t> {
    pub usage: Use<'t>,
    /// The number of the definition that the type names, if it is a name with a meaning.
    pub meaning: Option<usize>,
}

impl<'d, 'a> Resolver<'d, 'a> {
    /// What resolves the types of these definitions.
    ///
    /// # Errors
    ///
    /// `AllocError` where there is no memory.
    pub fn of(alloc: Global, meanings: Meanings<'d, 'a>) -> Result<Resolver<'d, 'a>, AllocError>
        requires few { length meanings < 2 ^ 32 }
        ensures { IfOk result (λ resolver. resolver ≡ meanings.entry) }
    {
        let kinds = number_kinds(alloc, meanings.all())?;
        let order = typedef_order(alloc, &meanings)?;
        let ends = typedef_ends(alloc, &meanings, &order)?;
        let sizes = TypedefSizes::of(alloc, &meanings, &order)?;
        Ok(Resolver {
            meanings,
            kinds,
            ends,
            sizes,
        })
    }

    /// What names mean.
    pub fn meanings(&self) -> &Meanings<'d, 'a>
        ensures { result.now ≡ self.now }
    {
        &self.meanings
    }

    /// What a type means after these annotations (Web IDL, "Typedefs" and "Annotated types"), made so
    /// far.
    ///
    /// Typedefs of typedefs may mean types that grow far faster than their source. So `room` counts down
    /// by the types that stand in the type of a typedef, before one of them is made.
    ///
    /// # Errors
    ///
    /// `AllocError` where there is no memory, also where typedefs mean more types than `room` has.
    fn make(
        &self,
        alloc: Global,
        extent: Extent,
        room: &mut usize,
        annotations: Annotations,
        ty: &'a WrittenType,
    ) -> Result<IdlType, AllocError>
        ensures { IfOk result (λ t. (notes : List Note) → Says annotations notes → type_term t ≡ made extent (meaning_of_type (plain_definitions self.now) notes (type_of ty.now))) }
    {
        let start = Use::of(ty, annotations, self.kinds.counts.count(Kind::Typedef));
        self.use_type(alloc, extent, room, &start)
    }

    /// What a type means after these annotations, as far as the rules on types look into it.
    ///
    /// # Errors
    ///
    /// Those of [`Resolver::resolve`] for at most [`MOST_TYPES`].
    pub fn outline(
        &self,
        alloc: Global,
        annotations: Annotations,
        ty: &'a WrittenType,
    ) -> Result<IdlType, AllocError>
        ensures { IfOk result (λ t. (notes : List Note) → Says annotations notes → type_term t ≡ outline (meaning_of_type (plain_definitions self.now) notes (type_of ty.now))) }
    {
        let mut room = MOST_TYPES;
        self.make(alloc, Extent::Outline, &mut room, annotations, ty)
    }

    /// What a type means after these annotations (Web IDL, "Typedefs" and "Annotated types").
    ///
    /// # Errors
    ///
    /// Those of [`Resolver::make`].
    pub fn resolve(
        &self,
        alloc: Global,
        room: &mut usize,
        annotations: Annotations,
        ty: &'a WrittenType,
    ) -> Result<IdlType, AllocError>
        ensures { IfOk result (λ t. (notes : List Note) → Says annotations notes → type_term t ≡ meaning_of_type (plain_definitions self.now) notes (type_of ty.now)) }
    {
        self.make(alloc, Extent::Whole, room, annotations, ty)
    }

    /// What a type without annotations means, as that of a result or a constant.
    ///
    /// # Errors
    ///
    /// Those of [`Resolver::resolve`].
    pub fn resolve_alone(
        &self,
        alloc: Global,
        room: &mut usize,
        ty: &'a WrittenType,
    ) -> Result<IdlType, AllocError>
        ensures { IfOk result (λ t. type_term t ≡ meaning_alone (plain_definitions self.now) (type_of ty.now)) }
    {
        self.resolve(alloc, room, Annotations::none(), ty)
    }

    /// What the type of an argument, an attribute or a dictionary member means, whose own extended
    /// attributes are annotations of its type too.
    ///
    /// # Errors
    ///
    /// Those of [`Resolver::resolve`].
    pub fn resolve_with(
        &self,
        alloc: Global,
        room: &mut usize,
        attributes: &[ExtendedAttribute],
        ty: &'a AnnotatedType,
    ) -> Result<IdlType, AllocError>
        ensures { IfOk result (λ t. type_term t ≡ meaning_with (plain_definitions self.now) (map attribute_of attributes.now) (annotated_of ty.now)) }
    {
        let before = Annotations::of(attributes);
        let own = Annotations::of(ty.attributes.as_slice());
        self.resolve(alloc, room, before.followed_by(own), &ty.ty)
    }

    /// The outline of a type without annotations, as that of a result or a constant.
    ///
    /// # Errors
    ///
    /// Those of [`Resolver::outline`].
    pub fn outline_alone(&self, alloc: Global, ty: &'a WrittenType) -> Result<IdlType, AllocError>
        ensures { IfOk result (λ t. type_term t ≡ outline (meaning_alone (plain_definitions self.now) (type_of ty.now))) }
    {
        self.outline(alloc, Annotations::none(), ty)
    }

    /// The outline of a type after its own annotations alone.
    ///
    /// # Errors
    ///
    /// Those of [`Resolver::outline`].
    pub fn outline_annotated(
        &self,
        alloc: Global,
        ty: &'a AnnotatedType,
    ) -> Result<IdlType, AllocError>
        ensures { IfOk result (λ t. type_term t ≡ outline (meaning_of_annotated (plain_definitions self.now) [] (annotated_of ty.now))) }
    {
        self.outline(alloc, Annotations::of(ty.attributes.as_slice()), &ty.ty)
    }

    /// What the annotations of a type say: these, and then those of the typedefs that it leads to.
    pub fn all_annotations(&self, before: Annotations, ty: &'a WrittenType) -> Annotations
        ensures { (notes : List Note) → Says before notes → Says result (notes ++ typedef_notes (plain_definitions self.now) (type_of ty.now)) }
    {
        let start = Use::of(ty, before, self.kinds.counts.count(Kind::Typedef));
        self.follow(&start).usage.annotations
    }

    /// The number of the definition that a name means among the main ones of its kind, which is this
    /// one.
    pub fn kind_number(&self, text: &str, kind: Kind) -> Option<u32>
        requires { (other : KindType) → meant_kind (plain_definitions self.now) text.now ≡ Some other → other ≡ kind }
        ensures { result ≡ number_of_meaning (plain_definitions self.now) kind (meaning (plain_definitions self.now) text.now) }
    {
        match self.meanings.number(text) {
            None => None,
            Some(number) => Some(self.kinds.numbers[number]),
        }
    }

    /// The type that a name with this meaning stands for, where a typedef is `any`.
    fn meant_type(&self, meaning: Option<usize>) -> IdlType
        ensures { type_term result ≡ without_parts (type_of_meaning (plain_definitions self.now) meaning (numbered_kind (plain_definitions self.now) meaning)) }
    {
        match meaning {
            None => IdlType::Any,
            Some(number) => self.numbered_type(number),
        }
    }

    /// The type that the definition of this number is, where a typedef is `any`.
    fn numbered_type(&self, number: usize) -> IdlType
        ensures { type_term result ≡ without_parts (type_of_meaning (plain_definitions self.now) (Some number) (numbered_kind (plain_definitions self.now) (Some number))) }
    {
        match kind_at(self.meanings.all(), number) {
            None => IdlType::Any,
            Some(definition) => type_of_kind(kind_of(definition), self.kinds.numbers[number]),
        }
    }

    /// Where a use of a type leads, if that type is a typedef's name.
    fn after(&self, from: &KnownUse<'a>) -> Option<Use<'a>>
        requires { IsKnown (plain_definitions self.now) from.now }
        ensures { After (plain_definitions self.now) from.now.usage result }
    {
        if from.usage.typedefs == 0 {
            return None;
        }
        match from.meaning {
            None => None,
            Some(number) => match self.next_end(from.usage.typedefs, number) {
                None => None,
                Some(end) => Some(from.usage.through(&end)),
            },
        }
    }

    /// The end of the chain of the definition with this number, if it is a typedef: the kept one, or its
    /// type alone where so few typedefs may be followed that the kept one is too far away.
    fn next_end(&self, typedefs: u32, number: usize) -> Option<ChainEnd<'a>>
        requires { 0 < typedefs }
        ensures { IsNext (plain_definitions self.now) typedefs (typedef_at (plain_definitions self.now) number) result }
    {
        match kept_end(&self.ends, number) {
            None => self.first_end(number),
            Some(end) => if end.passed < typedefs {
                Some(end)
            } else {
                self.first_end(number)
            },
        }
    }

    /// The type of the definition with this number as the end of a chain, if it is a typedef.
    fn first_end(&self, number: usize) -> Option<ChainEnd<'a>>
        ensures { IsNext (plain_definitions self.now) 1 (typedef_at (plain_definitions self.now) number) result }
    {
        match typedef_at(&self.meanings, number) {
            None => None,
            Some(ty) => Some(ChainEnd::of(ty)),
        }
    }

    /// The last type of a chain of typedefs.
    fn follow(&self, start: &Use<'a>) -> KnownUse<'a>
        ensures leads { Leads (plain_definitions self.now) start.now result.usage }
        ensures last { IsLast (plain_definitions self.now) result.usage }
        ensures known { IsKnown (plain_definitions self.now) result }
    {
        // Most types are no names, or names of other definitions.
        let first = self.look_up(*start);
        if self.leads_on(&first) {
            self.follow_on(&first)
        } else {
            first
        }
    }

    /// Whether a use of a type is the name of a typedef.
    fn leads_on(&self, from: &KnownUse<'a>) -> bool
        requires { IsKnown (plain_definitions self.now) from.now }
        ensures { result ≡ false → IsLast (plain_definitions self.now) from.now.usage }
    {
        match from.meaning {
            None => false,
            Some(number) => match typedef_at(&self.meanings, number) {
                None => false,
                Some(_) => true,
            },
        }
    }

    /// The same of a use of a type whose name is looked up.
    #[inline(never)]
    fn follow_on(&self, first: &KnownUse<'a>) -> KnownUse<'a>
        requires { IsKnown (plain_definitions self.now) first.now }
        ensures leads { Leads (plain_definitions self.now) first.now.usage result.usage }
        ensures last { IsLast (plain_definitions self.now) result.usage }
        ensures known { IsKnown (plain_definitions self.now) result }
    {
        let mut reached = *first;
        while let Some(next) = self.after(&reached) {
            reached = self.look_up(next);
        }
        reached
    }

    /// A use of a type with what its name means.
    fn look_up(&self, usage: Use<'a>) -> KnownUse<'a>
        ensures same { result.usage ≡ usage.entry }
        ensures known { IsKnown (plain_definitions self.now) result }
    {
        let meaning = meaning_of_form(&self.meanings, usage.form);
        KnownUse { usage, meaning }
    }

    /// What a use of a type means. Below, `left` is how many typedefs may still be followed.
    #[cycle(resolve)]
    fn use_type(
        &self,
        alloc: Global,
        extent: Extent,
        room: &mut usize,
        start: &Use<'a>,
    ) -> Result<IdlType, AllocError>
        ensures { IfOk result (λ t. (notes : List Note) → Says start.now.annotations notes → type_term t ≡ made extent (meaning_of_use (plain_definitions self.now) notes start.now)) }
    {
        let last = self.follow(start);
        self.count_followed(extent, room, start, &last.usage)?;
        let inner = self.form_type(alloc, extent, room, &last)?;
        with_questions(alloc, inner, last.usage.questions)
    }

    /// Counts down by the types that stand in the type of a typedef, if such a use leads there. What is used
    /// inside the type of a typedef is counted with it.
    fn count_followed(
        &self,
        extent: Extent,
        room: &mut usize,
        start: &Use<'_>,
        last: &Use<'_>,
    ) -> Result<(), AllocError> {
        if self.is_inside(start) || !self.is_inside(last) {
            return Ok(());
        }
        let size = self.sizes.of_form(&self.meanings, start.form);
        *room = room.checked_sub(size.total(extent)).ok_or(AllocError)?;
        Ok(())
    }

    /// Whether a use of a type stands in the type of a typedef.
    fn is_inside(&self, usage: &Use<'_>) -> bool {
        usage.typedefs < self.kinds.counts.count(Kind::Typedef)
    }

    /// The same of a use of a type that is no typedef's name, without its `?`s.
    #[cycle(resolve)]
    fn form_type(
        &self,
        alloc: Global,
        extent: Extent,
        room: &mut usize,
        last: &KnownUse<'a>,
    ) -> Result<IdlType, AllocError>
        requires last { IsLast (plain_definitions self.now) last.now.usage }
        requires known { IsKnown (plain_definitions self.now) last.now }
        ensures { IfOk result (λ t. (notes : List Note) → Says last.now.usage.annotations notes → type_term t ≡ made extent (form_meaning (plain_definitions self.now) last.now.usage.typedefs notes (form_term last.now.usage.form.now))) }
    {
        let left = last.usage.typedefs;
        match last.usage.form {
            TypeForm::Undefined => Ok(IdlType::Undefined),
            TypeForm::Boolean => Ok(IdlType::Boolean),
            TypeForm::Object => Ok(IdlType::Object),
            TypeForm::Integer(kind) => Ok(last.usage.annotations.integer(*kind)),
            TypeForm::Text(kind) => Ok(last.usage.annotations.text(*kind)),
            TypeForm::Named(_) => Ok(self.meant_type(last.meaning)),
            TypeForm::Container(container, inner) => {
                self.container_type(alloc, extent, room, left, *container, inner)
            }
            TypeForm::Record(key, inner) => {
                let value = self.boxed_type(alloc, extent, room, left, inner)?;
                Ok(IdlType::Rec(*key, value))
            }
            TypeForm::Promise(inner) => {
                let value = self.promised_type(alloc, extent, room, left, inner)?;
                Ok(IdlType::Promise(value))
            }
            TypeForm::Union(members) => {
                let types = self.member_types(alloc, extent, room, left, members.as_slice())?;
                Ok(IdlType::Union(types))
            }
            _ => Ok(IdlType::Any),
        }
    }

    /// What a container of this type means; only a sequence is a type.
    #[cycle(resolve)]
    fn container_type(
        &self,
        alloc: Global,
        extent: Extent,
        room: &mut usize,
        left: u32,
        container: Container,
        inner: &'a AnnotatedType,
    ) -> Result<IdlType, AllocError>
        ensures { IfOk result (λ t. type_term t ≡ made extent (container_meaning (plain_definitions self.now) left container (annotated_of inner.now))) }
    {
        match container {
            Container::Sequence => {
                let element = self.boxed_type(alloc, extent, room, left, inner)?;
                Ok(IdlType::Seq(element))
            }
            Container::AsyncSequence | Container::FrozenArray | Container::ObservableArray => {
                Ok(IdlType::Any)
            }
        }
    }

    /// What a type means after no annotations.
    #[cycle(resolve)]
    fn promised_type(
        &self,
        alloc: Global,
        extent: Extent,
        room: &mut usize,
        left: u32,
        ty: &'a WrittenType,
    ) -> Result<Box<IdlType>, AllocError>
        ensures { IfOk result (λ t. type_term t.value ≡ made_inside extent (meaning_at (plain_definitions self.now) left [] (type_of ty.now))) }
    {
        match extent {
            Extent::Whole => {
                let start = Use::of(ty, Annotations::none(), left);
                let value = self.use_type(alloc, Extent::Whole, room, &start)?;
                Ok(Box::new(alloc, value)?)
            }
            Extent::Outline => Ok(Box::new(alloc, IdlType::Any)?),
        }
    }

    /// What a type means after its own annotations alone.
    #[cycle(resolve)]
    fn annotated_type(
        &self,
        alloc: Global,
        extent: Extent,
        room: &mut usize,
        left: u32,
        ty: &'a AnnotatedType,
    ) -> Result<IdlType, AllocError>
        ensures { IfOk result (λ t. type_term t ≡ made extent (own_meaning (plain_definitions self.now) left (annotated_of ty.now))) }
    {
        let start = Use::of(&ty.ty, Annotations::of(ty.attributes.as_slice()), left);
        self.use_type(alloc, extent, room, &start)
    }

    /// The same in memory of its own.
    #[cycle(resolve)]
    fn boxed_type(
        &self,
        alloc: Global,
        extent: Extent,
        room: &mut usize,
        left: u32,
        ty: &'a AnnotatedType,
    ) -> Result<Box<IdlType>, AllocError>
        ensures { IfOk result (λ t. type_term t.value ≡ made_inside extent (own_meaning (plain_definitions self.now) left (annotated_of ty.now))) }
    {
        match extent {
            Extent::Whole => {
                let value = self.annotated_type(alloc, Extent::Whole, room, left, ty)?;
                Ok(Box::new(alloc, value)?)
            }
            Extent::Outline => Ok(Box::new(alloc, IdlType::Any)?),
        }
    }

    /// Checks that there is room for all members of a union that stands in no typedef's type, before the first of
    /// them is made.
    fn check_members(
        &self,
        extent: Extent,
        room: &usize,
        left: u32,
        members: &[AnnotatedType],
    ) -> Result<(), AllocError> {
        if left < self.kinds.counts.count(Kind::Typedef) {
            return Ok(());
        }
        let size = self.sizes.of_members(&self.meanings, members);
        if *room < size.total(extent) {
            return Err(AllocError);
        }
        Ok(())
    }

    /// What the members of a union mean.
    #[cycle(resolve)]
    fn member_types(
        &self,
        alloc: Global,
        extent: Extent,
        room: &mut usize,
        left: u32,
        members: &'a [AnnotatedType],
    ) -> Result<IdlTypes, AllocError>
        ensures { IfOk result (λ types. packed (type_terms types) ≡ made_members extent (resolved_members (typedef_in (typedefs (plain_definitions self.now)) left) (written_members (plain_definitions self.now) (union_of members.now)))) }
    {
        self.check_members(extent, room, left, members)?;
        let mut types = IdlTypes::new(alloc);
        for member in members {
            let ty = self.annotated_type(alloc, extent, room, left, member)?;
            types.push(ty)?;
        }
        Ok(types)
    }
}

/// The type that a definition of the kind is, by its number; what is no type stands as `any`.
fn type_of_kind(kind: Kind, number: u32) -> IdlType
    ensures { type_term result ≡ without_parts (type_of_kind kind number) }
{
    match kind {
        Kind::Interface => IdlType::Interface(number),
        Kind::Dictionary => IdlType::Dict(number),
        Kind::Enumeration => IdlType::Choice(number),
        Kind::CallbackFunction => IdlType::CallbackFn(number),
        Kind::CallbackInterface => IdlType::CallbackIface(number),
        Kind::Typedef | Kind::Mixin | Kind::Namespace | Kind::Includes => IdlType::Any,
    }
}

/// A type with so many `?`s after it.
fn with_questions(alloc: Global, inner: IdlType, questions: usize) -> Result<IdlType, AllocError>
    ensures { IfOk result (λ t. type_term t ≡ questioned questions (type_term inner)) }
{
    let mut ty = inner;
    for _question in 0..questions {
        ty = with_question(alloc, ty)?;
    }
    Ok(ty)
}

/// A type with one `?` after it, which adds nothing after two.
fn with_question(alloc: Global, inner: IdlType) -> Result<IdlType, AllocError>
    ensures { IfOk result (λ t. type_term t ≡ nullable_of (type_term inner)) }
{
    if is_nullable_twice(&inner) {
        Ok(inner)
    } else {
        Ok(IdlType::Nullable(Box::new(alloc, inner)?))
    }
}

fn is_nullable_twice(t: &IdlType) -> bool
    ensures { result ≡ is_nullable_twice (type_term t.now) }
{
    match t {
        IdlType::Nullable(inner) => is_nullable(inner),
        _ => false,
    }
}

fn is_nullable(t: &IdlType) -> bool
    ensures { result ≡ is_nullable (type_term t.now) }
{
    matches!(t, IdlType::Nullable(_))
}
