//! The lines of all that can be called.

ghost use Rattle.std.specs.Prelude.{◌≡◌, ◌++◌, ◌<◌, ℕ, IfOk, IsSome, OnOk, Some, length, slice_get, map};
ghost use Rattle.std.specs.List.{flat_map};
ghost use Rattle.widl_idl.specs.Counts.{IsNumberedList};
ghost use Rattle.widl_idl.specs.declared.callee.Part.TheVariants as parts;
ghost use Rattle.widl_idl.specs.DefinitionTerms.{defs_term, iface_term, op_name_term, sig_term, space_term};
ghost use Rattle.widl_overload.specs.sets.Sets.{effective_set_of, overloads_in, overloads_named, overloads_of};
ghost use Rattle.widl_spell.specs.Ids.{id_order, parents_of};
ghost use Rattle.widl_sets.specs.Lines.{lines_of_set};
ghost use Rattle.widl_sets.specs.Listing.{all_lines, callee_lines, interface_lines, lines_at, namespace_lines, operation_lines};
ghost use Rattle.widl_trace.specs.CalleeTexts.{constructor_text};

use crate::lines::push_set;
use std::alloc::{AllocError, Global};
use widl_idl::{Callee, Defs, Iface, OpName, Owner, Part, Space};
use widl_overload::effective_set;
use widl_spell::id_order;
use widl_text::Units;
use widl_trace::{constructor_text, operation_text};

/// The lines of all that can be called, each ended by a line feed: for each operation name and for the
/// constructors of each interface the effective overload set for no arguments, one line a tuple, and
/// for each length of several tuples a line with their distinguishing argument index. The interfaces
/// stand in the order of their ids, the namespaces follow in list order.
///
/// # Errors
///
/// `AllocError` where there is no memory.
#[tactic(auto, unfolding(crate::specs::Listing::all_lines))]
pub fn set_lines(alloc: Global, defs: &Defs) -> Result<Vec<u8>, AllocError>
    requires { IsNumberedList defs.now }
    ensures { IfOk result (λ text. text.items ≡ all_lines (defs_term defs.now)) }
{
    let mut text = Vec::new(alloc);
    let order = id_order(alloc, defs.ifaces.as_slice())?;
    push_interfaces(alloc, &mut text, defs, &order)?;
    push_namespaces(alloc, &mut text, defs)?;
    Ok(text)
}

/// Adds the lines of the interfaces with these numbers.
fn push_interfaces(
    alloc: Global,
    text: &mut Vec<u8>,
    defs: &Defs,
    order: &[u32],
) -> Result<(), AllocError>
    requires { IsNumberedList defs.now }
    ensures { OnOk result (text.new.items ≡ text.old.items ++ flat_map (lines_at (defs_term defs.now)) order.now) }
{
    for number in order {
        push_interface(alloc, text, defs, *number)?;
    }
    Ok(())
}

/// Adds the lines of an interface: its constructors, then its operations.
fn push_interface(
    alloc: Global,
    text: &mut Vec<u8>,
    defs: &Defs,
    number: u32,
) -> Result<(), AllocError>
    requires { IsNumberedList defs.now }
    ensures { OnOk result (text.new.items ≡ text.old.items ++ lines_at (defs_term defs.now) number) }
{
    match defs.ifaces.as_slice().get(number as usize) {
        None => Ok(()),
        Some(iface) => push_callees(alloc, text, defs, number, iface),
    }
}

/// Adds the lines of an interface that has this number.
fn push_callees(
    alloc: Global,
    text: &mut Vec<u8>,
    defs: &Defs,
    number: u32,
    iface: &Iface,
) -> Result<(), AllocError>
    requires numbered { IsNumberedList defs.now }
    requires at { slice_get defs.now.ifaces number ≡ Some iface.now }
    ensures { OnOk result (text.new.items ≡ text.old.items ++ interface_lines (defs_term defs.now) (iface_term iface.now)) }
{
    let owner = Owner::Iface(number);
    push_constructors(alloc, text, defs, owner, iface)?;
    push_operations(alloc, text, defs, owner, &iface.name, iface.ops.as_slice())
}

/// Adds the lines of the constructors of an interface.
fn push_constructors(
    alloc: Global,
    text: &mut Vec<u8>,
    defs: &Defs,
    owner: Owner,
    iface: &Iface,
) -> Result<(), AllocError>
    requires numbered { IsNumberedList defs.now }
    requires constructors { overloads_in (defs_term defs.now) owner parts.Constructor ≡ Some (map sig_term iface.now.ctors) }
    ensures { OnOk result (text.new.items ≡ text.old.items ++ callee_lines (defs_term defs.now) (constructor_text iface.now.name) (map sig_term iface.now.ctors)) }
{
    let callee = Callee {
        owner,
        part: Part::Constructor,
    };
    let name = constructor_text(alloc, &iface.name)?;
    push_callee(alloc, text, defs, &name, &callee)
}

/// Adds the lines of the namespaces.
fn push_namespaces(alloc: Global, text: &mut Vec<u8>, defs: &Defs) -> Result<(), AllocError>
    requires { IsNumberedList defs.now }
    ensures { OnOk result (text.new.items ≡ text.old.items ++ flat_map (namespace_lines (defs_term defs.now)) (defs_term defs.now).spaces) }
{
    for (number, space) in defs.spaces.as_slice().iter().enumerate() {
        push_namespace(alloc, text, defs, number as u32, space)?;
    }
    Ok(())
}

/// Adds the lines of a namespace that has this number.
fn push_namespace(
    alloc: Global,
    text: &mut Vec<u8>,
    defs: &Defs,
    number: u32,
    space: &Space,
) -> Result<(), AllocError>
    requires numbered { IsNumberedList defs.now }
    requires at { slice_get defs.now.spaces number ≡ Some space.now }
    ensures { OnOk result (text.new.items ≡ text.old.items ++ namespace_lines (defs_term defs.now) (space_term space.now)) }
{
    push_operations(
        alloc,
        text,
        defs,
        Owner::Space(number),
        &space.name,
        space.ops.as_slice(),
    )
}

/// Adds the lines of the operations of an interface or a namespace, by their names.
fn push_operations(
    alloc: Global,
    text: &mut Vec<u8>,
    defs: &Defs,
    owner: Owner,
    name: &Units,
    ops: &[OpName],
) -> Result<(), AllocError>
    requires numbered { IsNumberedList defs.now }
    requires few { length ops.now < 4294967296 }
    requires overloads { (m : ℕ) → overloads_in (defs_term defs.now) owner (parts.Op m) ≡ overloads_named (map op_name_term ops.now) m }
    ensures { OnOk result (text.new.items ≡ text.old.items ++ flat_map (operation_lines (defs_term defs.now) name.now) (map op_name_term ops.now)) }
{
    for (number, op) in ops.iter().enumerate() {
        let callee = Callee {
            owner,
            part: Part::Op(number as u32),
        };
        push_operation(alloc, text, defs, name, op, &callee)?;
    }
    Ok(())
}

/// Adds the lines of the operations of a name.
fn push_operation(
    alloc: Global,
    text: &mut Vec<u8>,
    defs: &Defs,
    owner: &Units,
    op: &OpName,
    callee: &Callee,
) -> Result<(), AllocError>
    requires numbered { IsNumberedList defs.now }
    requires overloads { overloads_of (defs_term defs.now) callee.now ≡ Some (map sig_term op.now.sigs) }
    ensures { OnOk result (text.new.items ≡ text.old.items ++ operation_lines (defs_term defs.now) owner.now (op_name_term op.now)) }
{
    let name = operation_text(alloc, owner, op)?;
    push_callee(alloc, text, defs, &name, callee)
}

/// Adds the lines of a callee, which is spelled so.
fn push_callee(
    alloc: Global,
    text: &mut Vec<u8>,
    defs: &Defs,
    name: &[u8],
    callee: &Callee,
) -> Result<(), AllocError>
    requires numbered { IsNumberedList defs.now }
    requires callee { IsSome (overloads_of (defs_term defs.now) callee.now) }
    ensures { OnOk result (text.new.items ≡ text.old.items ++ lines_of_set (defs_term defs.now) name.now (effective_set_of (defs_term defs.now) callee.now 0)) }
{
    let set = effective_set(alloc, defs, callee, 0)?;
    push_set(alloc, text, defs, name, &set)
}
