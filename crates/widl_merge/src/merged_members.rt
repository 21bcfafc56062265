//! The members of an interface or a namespace, put together from its parts: by kind, and operations by
//! their names.

ghost use Rattle.std.specs.Prelude.{◌≡◌, ◌<◌, ◌^◌, false, List, [], length, map, IfOk, OnOk};
ghost use Rattle.widl_idl.specs.MergedMembers.{is_stringifier_attribute, operation_text};
ghost use Rattle.widl_idl.specs.PlainTrees.{AttributeMember, ConstantMember, ConstructorMember, IterableMember, OperationMember, attribute_member_of, constant_of, constructor_of, iterable_of, member_of, operation_of, plain_definitions};
ghost use Rattle.widl_idl.specs.PlainTypes.{PlainAttribute, attribute_of};
ghost use Rattle.widl_idl.specs.WrittenLiterals.{units_of};
ghost use Rattle.widl_merge.specs.PutTogether.{ArePutTogether, GetsStringifier, Grows, GrowsByMember, GrowsByOperation, HasName, HasOverload, HasRoom, number_named};
ghost use Rattle.widl_names.specs.Listings.{listed_members};

use crate::long_texts::LongTexts;
use crate::member_parts::{attribute_meant, constant_meant, pair_meant};
use crate::numbered_items::push_numbered;
use crate::operation_numbers::OperationNumbers;
use crate::signatures::{constructor_sig, operation_sig};
use std::alloc::{AllocError, Global};
use widl_idl::tree::{
    Attribute, AttributeKind, Constant, Constructor, ExtendedAttribute, Iterable, Member,
    MemberKind, Operation,
};
use widl_idl::{Attrs, Constants, OpName, OpNames, Pair, Sig, Sigs, Slot, Slots, Stringify};
use widl_names::{Resolver, is_static};
use widl_text::{Items, Units};

/// The members of an interface or a namespace, by kind, as the list of definitions has them.
#[derive(Drop)]
pub struct MergedMembers {
    /// Its constructors.
    pub ctors: Sigs,
    /// Its operations.
    pub ops: OpNames,
    /// Its attributes.
    pub attrs: Attrs,
    /// Its constants.
    pub consts: Constants,
    /// Its stringifier.
    pub text: Stringify,
    /// Its pair iterable.
    pub pairs: Option<Pair>,
    /// All but its constructors, in order.
    pub order: Slots,
}

/// How many members of each kind there are. Room is made by it.
#[derive(Clone, Copy)]
struct MemberCounts {
    constructors: usize,
    operations: usize,
    attributes: usize,
    constants: usize,
    all: usize,
}

impl MemberCounts {
    fn of(members: &[&Member]) -> MemberCounts {
        let mut counts = MemberCounts {
            constructors: 0,
            operations: 0,
            attributes: 0,
            constants: 0,
            all: members.len(),
        };
        for member in members {
            counts.add(&member.kind);
        }
        counts
    }

    fn add(&mut self, kind: &MemberKind) {
        match kind {
            MemberKind::Constructor(_) => self.constructors = self.constructors.saturating_add(1),
            MemberKind::Operation(_) => self.operations = self.operations.saturating_add(1),
            MemberKind::Attribute(_) => self.attributes = self.attributes.saturating_add(1),
            MemberKind::Constant(_) => self.constants = self.constants.saturating_add(1),
            _ => {}
        }
    }
}

/// Puts members together that stand in merged order.
///
/// # Errors
///
/// `AllocError` where there is no memory, also where the types of the members take more steps than are
/// left.
pub fn put_together<'a>(
    alloc: Global,
    resolver: &Resolver<'_, 'a>,
    steps: &mut usize,
    texts: &mut LongTexts<'a>,
    members: &[&'a Member],
) -> Result<MergedMembers, AllocError>
    requires { length members.now < 2 ^ 32 }
    ensures { IfOk result (λ m. ArePutTogether (plain_definitions resolver.now) (listed_members members.now) m) }
{
    let mut merged = MergedMembers::with_room(alloc, &MemberCounts::of(members))?;
    let mut numbers = OperationNumbers::new(alloc);
    for member in members {
        merged.add(alloc, resolver, steps, texts, &mut numbers, *member)?;
    }
    Ok(merged)
}

impl MergedMembers {
    /// No members, with room for so many.
    fn with_room(alloc: Global, counts: &MemberCounts) -> Result<MergedMembers, AllocError>
        ensures { IfOk result (λ merged. merged ≡ record { ctors = []; ops = []; attrs = []; consts = []; text = Stringify.No; pairs = None; order = [] }) }
    {
        Ok(MergedMembers {
            ctors: Items::with_room(alloc, counts.constructors)?,
            ops: Items::with_room(alloc, counts.operations)?,
            attrs: Items::with_room(alloc, counts.attributes)?,
            consts: Items::with_room(alloc, counts.constants)?,
            text: Stringify::No,
            pairs: None,
            order: Items::with_room(alloc, counts.all)?,
        })
    }

    /// Adds a member. An asynchronous iterable, a maplike and a setlike are no members of the list.
    fn add<'a>(
        &mut self,
        alloc: Global,
        resolver: &Resolver<'_, 'a>,
        steps: &mut usize,
        texts: &mut LongTexts<'a>,
        numbers: &mut OperationNumbers<'a>,
        member: &'a Member,
    ) -> Result<(), AllocError>
        requires { HasRoom self.old (number_named numbers.old.regular numbers.old.fixed) }
        ensures { OnOk result (GrowsByMember (plain_definitions resolver.now) (member_of member.now) self.old (number_named numbers.old.regular numbers.old.fixed) self.new (number_named numbers.new.regular numbers.new.fixed)) }
    {
        let attributes = member.attributes.as_slice();
        match &member.kind {
            MemberKind::Constant(constant) => self.add_constant(
                alloc, resolver, steps, texts, constant,
            ),
            MemberKind::Attribute(attribute) => self.add_attribute(
                alloc, resolver, steps, texts, attributes, attribute,
            ),
            MemberKind::Operation(operation) => self.add_operation(
                alloc, resolver, steps, texts, numbers, operation,
            ),
            MemberKind::Constructor(constructor) => self.add_constructor(
                alloc,
                resolver,
                steps,
                texts,
                constructor,
            ),
            MemberKind::Stringifier(_) => self.add_stringifier(Stringify::Plain),
            MemberKind::Iterable(iterable) => self.add_iterable(alloc, resolver, steps, iterable),
            MemberKind::AsyncIterable(_) | MemberKind::Maplike(_) | MemberKind::Setlike(_) => Ok(
                (),
            ),
        }
    }

    fn add_constructor<'a>(
        &mut self,
        alloc: Global,
        resolver: &Resolver<'_, 'a>,
        steps: &mut usize,
        texts: &mut LongTexts<'a>,
        constructor: &'a Constructor,
    ) -> Result<(), AllocError>
        ensures { OnOk result ((attributes : List PlainAttribute) → Grows (plain_definitions resolver.now) attributes (ConstructorMember (constructor_of constructor.now)) self.old self.new) }
    {
        let sig = constructor_sig(alloc, resolver, steps, texts, constructor)?;
        self.ctors.push(sig)
    }

    fn add_constant<'a>(
        &mut self,
        alloc: Global,
        resolver: &Resolver<'_, 'a>,
        steps: &mut usize,
        texts: &mut LongTexts<'a>,
        constant: &'a Constant,
    ) -> Result<(), AllocError>
        requires { length self.old.consts < 2 ^ 32 }
        ensures { OnOk result ((attributes : List PlainAttribute) → Grows (plain_definitions resolver.now) attributes (ConstantMember (constant_of constant.now)) self.old self.new) }
    {
        let meant = constant_meant(alloc, resolver, steps, texts, constant)?;
        let number = push_numbered(&mut self.consts, meant)?;
        self.order.push(Slot::Constant(number))
    }

    fn add_attribute<'a>(
        &mut self,
        alloc: Global,
        resolver: &Resolver<'_, 'a>,
        steps: &mut usize,
        texts: &mut LongTexts<'a>,
        attributes: &'a [ExtendedAttribute],
        attribute: &'a Attribute,
    ) -> Result<(), AllocError>
        requires { length self.old.attrs < 2 ^ 32 }
        ensures { OnOk result (Grows (plain_definitions resolver.now) (map attribute_of attributes.now) (AttributeMember (attribute_member_of attribute.now)) self.old self.new) }
    {
        let meant = attribute_meant(alloc, resolver, steps, texts, attributes, attribute)?;
        let number = push_numbered(&mut self.attrs, meant)?;
        self.order.push(Slot::Attr(number))?;
        if is_stringifier(attribute.kind) {
            self.add_stringifier(Stringify::Attr(number))
        } else {
            Ok(())
        }
    }

    /// Keeps the first stringifier, and its place among the members.
    fn add_stringifier(&mut self, text: Stringify) -> Result<(), AllocError>
        ensures { OnOk result (GetsStringifier self.old self.new text) }
    {
        match self.text {
            Stringify::No => {
                self.text = text;
                self.order.push(Slot::Stringifier)
            }
            Stringify::Plain | Stringify::Attr(_) => Ok(()),
        }
    }

    /// Keeps the types of the first pair iterable, and its place among the members.
    fn add_iterable<'a>(
        &mut self,
        alloc: Global,
        resolver: &Resolver<'_, 'a>,
        steps: &mut usize,
        iterable: &'a Iterable,
    ) -> Result<(), AllocError>
        ensures { OnOk result ((attributes : List PlainAttribute) → Grows (plain_definitions resolver.now) attributes (IterableMember (iterable_of iterable.now)) self.old self.new) }
    {
        if self.pairs.is_some() {
            return Ok(());
        }
        match pair_meant(alloc, resolver, steps, iterable)? {
            None => Ok(()),
            Some(pair) => {
                self.pairs = Some(pair);
                self.order.push(Slot::Pairs)
            }
        }
    }

    fn add_operation<'a>(
        &mut self,
        alloc: Global,
        resolver: &Resolver<'_, 'a>,
        steps: &mut usize,
        texts: &mut LongTexts<'a>,
        numbers: &mut OperationNumbers<'a>,
        operation: &'a Operation,
    ) -> Result<(), AllocError>
        requires { HasRoom self.old (number_named numbers.old.regular numbers.old.fixed) }
        ensures { OnOk result (GrowsByOperation (plain_definitions resolver.now) (operation_of operation.now) self.old (number_named numbers.old.regular numbers.old.fixed) self.new (number_named numbers.new.regular numbers.new.fixed)) }
    {
        let sig = operation_sig(alloc, resolver, steps, texts, operation)?;
        let text = operation_text(operation);
        let fixed = is_static(operation.kind);
        match numbers.number(text, fixed) {
            Some(number) => add_overload(alloc, &mut self.ops, number as usize, sig),
            None => {
                let number = add_name(alloc, &mut self.ops, texts, text, fixed, sig)?;
                numbers.keep(text, fixed, number)?;
                self.order.push(Slot::Op(number))
            }
        }
    }
}

fn is_stringifier(kind: AttributeKind) -> bool
    ensures { result ≡ is_stringifier_attribute kind }
{
    match kind {
        AttributeKind::Stringifier(_) => true,
        AttributeKind::Regular | AttributeKind::Static | AttributeKind::Inherited(_) => false,
    }
}

/// The name of an operation. One without a name has the empty one.
fn operation_text(operation: &Operation) -> &str
    ensures { result.now ≡ operation_text (operation_of operation.now).name }
{
    match &operation.name {
        None => "",
        Some(name) => name.text.as_str(),
    }
}

/// Adds a signature to the operations of the name of this number.
fn add_overload(alloc: Global, ops: &mut OpNames, number: usize, sig: Sig) -> Result<(), AllocError>
    requires { number < length ops.old }
    ensures { OnOk result (HasOverload ops.old ops.new number sig) }
{
    let mut op = ops.replace(number, nameless(alloc));
    op.sigs.push(sig)?;
    ops.replace(number, op);
    Ok(())
}

/// No operations, of no name.
fn nameless(alloc: Global) -> OpName
    ensures { result ≡ record { name = []; fixed = false; sigs = [] } }
{
    OpName {
        name: Units::new(alloc),
        fixed: false,
        sigs: Items::new(alloc),
    }
}

/// Adds a name with one operation, and gives its number.
fn add_name<'a>(
    alloc: Global,
    ops: &mut OpNames,
    texts: &mut LongTexts<'a>,
    text: &'a str,
    fixed: bool,
    sig: Sig,
) -> Result<u32, AllocError>
    requires { length ops.old < 2 ^ 32 }
    ensures list { OnOk result (HasName ops.old ops.new (units_of text.now) fixed sig) }
    ensures number { IfOk result (λ number. number ≡ length ops.old) }
{
    let name = texts.units_of(alloc, text)?;
    let mut sigs = Items::new(alloc);
    sigs.push(sig)?;
    push_numbered(ops, OpName { name, fixed, sigs })
}
