//! Names, and what can be called, in lines.

ghost use Rattle.std.specs.Prelude.{◌≡◌, IfOk, map, slice_get};
ghost use Rattle.std.specs.Option.{option_copied, option_map};
ghost use Rattle.widl_idl.specs.DefinitionTerms.{attr_term, defs_term, iface_term, op_name_term, space_term};
ghost use Rattle.widl_trace.specs.CalleeTexts.{accessor_or_nothing, callee_text, constructor_text, interface_part, name_or_nothing, name_text, name_unit, namespace_part, operation_or_nothing, operation_text, overload_text, owner_part, part_text, static_text, stringifier_text};
ghost use Rattle.widl_trace.specs.Drafts.{Adds};

use crate::cut::Cut;
use crate::draft::Draft;
use crate::value_text::push_decimal;
use crate::whole::whole;
use std::alloc::{AllocError, Global};
use widl_idl::{Attr, Callee, Defs, Iface, OpName, Owner, Part, Space};
use widl_text::Units;

/// The spelling of the operations of a name: `N.f`, or `I.static f` if they are static.
///
/// # Errors
///
/// `AllocError` where there is no memory.
pub fn operation_text(alloc: Global, owner: &Units, op: &OpName) -> Result<Vec<u8>, AllocError>
    ensures { IfOk result (λ text. text.items ≡ operation_text owner.now op.now.fixed op.now.name) }
{
    let mut draft = Draft::new(alloc, usize::MAX)?;
    let written = push_operation(&mut draft, owner, op);
    whole(draft, written)
}

/// The spelling of the constructors of an interface: `I.constructor`.
///
/// # Errors
///
/// `AllocError` where there is no memory.
pub fn constructor_text(alloc: Global, owner: &Units) -> Result<Vec<u8>, AllocError>
    ensures { IfOk result (λ text. text.items ≡ constructor_text owner.now) }
{
    let mut draft = Draft::new(alloc, usize::MAX)?;
    let written = push_constructor(&mut draft, owner);
    whole(draft, written)
}

/// Adds a callee with the number of its overload, if it has overloads.
pub fn push_callee(
    draft: &mut Draft,
    defs: &Defs,
    callee: Callee,
    overload: Option<u32>,
) -> Result<(), Cut>
    ensures { Adds draft.old draft.new (callee_text (defs_term defs.now) callee overload) result }
{
    push_part_of(draft, defs, callee.owner, callee.part)?;
    push_overload(draft, overload)
}

/// Adds the name of a definition, if there is one.
pub fn push_name_of(draft: &mut Draft, name: Option<&Units>) -> Result<(), Cut>
    ensures { Adds draft.old draft.new (name_or_nothing (option_copied name.entry)) result }
{
    match name {
        None => Ok(()),
        Some(name) => push_name(draft, name),
    }
}

/// Adds a name as it stands in a list of definitions.
fn push_name(draft: &mut Draft, name: &Units) -> Result<(), Cut>
    ensures { Adds draft.old draft.new (name_text name.now) result }
{
    for unit in name.as_slice() {
        draft.push_byte(name_unit(*unit))?;
    }
    Ok(())
}

/// A unit of a name as a byte: names are ASCII.
fn name_unit(unit: u16) -> u8
    ensures { result ≡ name_unit unit }
{
    (unit % 128) as u8
}

/// Adds the number of an overload, if there is one.
fn push_overload(draft: &mut Draft, overload: Option<u32>) -> Result<(), Cut>
    ensures { Adds draft.old draft.new (overload_text overload) result }
{
    match overload {
        None => Ok(()),
        Some(number) => {
            draft.push(b"#")?;
            push_decimal(draft, number)
        }
    }
}

/// Adds a part of the interface or the namespace of a number.
fn push_part_of(draft: &mut Draft, defs: &Defs, owner: Owner, part: Part) -> Result<(), Cut>
    ensures { Adds draft.old draft.new (owner_part (defs_term defs.now) owner part) result }
{
    match owner {
        Owner::Iface(number) => push_interface_part(draft, interface_at(defs, number), part),
        Owner::Space(number) => push_namespace_part(draft, namespace_at(defs, number), part),
    }
}

/// Adds a part of an interface, if there is one.
fn push_interface_part(draft: &mut Draft, iface: Option<&Iface>, part: Part) -> Result<(), Cut>
    ensures { Adds draft.old draft.new (interface_part part (option_map iface_term (option_copied iface.entry))) result }
{
    match iface {
        None => Ok(()),
        Some(iface) => push_part(
            draft,
            &iface.name,
            iface.ops.as_slice(),
            iface.attrs.as_slice(),
            part,
        ),
    }
}

/// Adds a part of a namespace, if there is one.
fn push_namespace_part(draft: &mut Draft, space: Option<&Space>, part: Part) -> Result<(), Cut>
    ensures { Adds draft.old draft.new (namespace_part part (option_map space_term (option_copied space.entry))) result }
{
    match space {
        None => Ok(()),
        Some(space) => push_part(
            draft,
            &space.name,
            space.ops.as_slice(),
            space.attrs.as_slice(),
            part,
        ),
    }
}

fn interface_at(defs: &Defs, number: u32) -> Option<&Iface>
    ensures { option_map iface_term (option_copied result) ≡ slice_get (defs_term defs.now).ifaces number }
{
    defs.ifaces.as_slice().get(number as usize)
}

fn namespace_at(defs: &Defs, number: u32) -> Option<&Space>
    ensures { option_map space_term (option_copied result) ≡ slice_get (defs_term defs.now).spaces number }
{
    defs.spaces.as_slice().get(number as usize)
}

/// Adds a part of an owner that has this name, these operations and these attributes.
fn push_part(
    draft: &mut Draft,
    owner: &Units,
    ops: &[OpName],
    attrs: &[Attr],
    part: Part,
) -> Result<(), Cut>
    ensures { Adds draft.old draft.new (part_text owner.now (map op_name_term ops.now) (map attr_term attrs.now) part) result }
{
    match part {
        Part::Op(number) => push_operation_at(draft, owner, ops, number),
        Part::Constructor => push_constructor(draft, owner),
        Part::Get(number) => push_accessor(draft, owner, b".get ", attrs, number),
        Part::Set(number) => push_accessor(draft, owner, b".set ", attrs, number),
        Part::Text => push_stringifier(draft, owner),
    }
}

/// Adds the operations of a number, if there are any.
fn push_operation_at(
    draft: &mut Draft,
    owner: &Units,
    ops: &[OpName],
    number: u32,
) -> Result<(), Cut>
    ensures { Adds draft.old draft.new (operation_or_nothing owner.now (slice_get (map op_name_term ops.now) number)) result }
{
    match ops.get(number as usize) {
        None => Ok(()),
        Some(op) => push_operation(draft, owner, op),
    }
}

/// Adds the operations of a name.
fn push_operation(draft: &mut Draft, owner: &Units, op: &OpName) -> Result<(), Cut>
    ensures { Adds draft.old draft.new (operation_text owner.now op.now.fixed op.now.name) result }
{
    push_name(draft, owner)?;
    draft.push(b".")?;
    draft.push(static_text(op.fixed))?;
    push_name(draft, &op.name)
}

fn static_text(fixed: bool) -> &'static [u8]
    ensures { result.now ≡ static_text fixed }
{
    if fixed { b"static " } else { b"" }
}

/// Adds the constructors of an interface.
fn push_constructor(draft: &mut Draft, owner: &Units) -> Result<(), Cut>
    ensures { Adds draft.old draft.new (constructor_text owner.now) result }
{
    push_name(draft, owner)?;
    draft.push(b".constructor")
}

/// Adds the stringifier of an interface.
fn push_stringifier(draft: &mut Draft, owner: &Units) -> Result<(), Cut>
    ensures { Adds draft.old draft.new (stringifier_text owner.now) result }
{
    push_name(draft, owner)?;
    draft.push(b".toString")
}

/// Adds the getter or the setter of the attribute of a number, if there is one.
fn push_accessor(
    draft: &mut Draft,
    owner: &Units,
    word: &[u8],
    attrs: &[Attr],
    number: u32,
) -> Result<(), Cut>
    ensures { Adds draft.old draft.new (accessor_or_nothing owner.now word.now (slice_get (map attr_term attrs.now) number)) result }
{
    match attrs.get(number as usize) {
        None => Ok(()),
        Some(attr) => {
            push_name(draft, owner)?;
            draft.push(word)?;
            push_name(draft, &attr.name)
        }
    }
}
