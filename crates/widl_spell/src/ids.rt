//! The order of the ids of interfaces.
//!
//! A number is ready from when its parent has an id. The least that is ready has the next id, and makes
//! those ready whose parent it is. So each interface is added to the ready ones once, and taken once.

ghost use Rattle.std.specs.Prelude.{◌≡◌, ◌<◌, [], length, slice_index_or, IfOk, OnOk, Some, map};
ghost use Rattle.widl_idl.specs.DefinitionTerms.{iface_term};
ghost use Rattle.widl_spell.specs.Ids.{id_order, parents_of};
ghost use Rattle.widl_spell.specs.Ready.{AddsHeir, AddsParentless, AreHeirs, AreReady, Steps, is_ready};

use crate::ready::Ready;
use std::alloc::{AllocError, Global};
use widl_idl::Iface;
use widl_text::Items;

/// The interfaces in the order of their ids: the next is always the first in list order that has no id
/// yet and whose parent, if it has one, has its own.
///
/// # Errors
///
/// `AllocError` where there is no memory.
#[tactic(auto, unfolding(crate::specs::Ids::id_order))]
pub fn id_order(alloc: Global, ifaces: &[Iface]) -> Result<Vec<u32>, AllocError>
    requires { length ifaces.now < 4294967296 }
    ensures { IfOk result (λ order. order.items ≡ id_order (parents_of (map iface_term ifaces.now))) }
{
    let heirs = heirs_of(alloc, ifaces)?;
    let mut ready = without_parent(alloc, ifaces)?;
    let mut order = Vec::new(alloc);
    for _id in 0..ifaces.len() {
        give_next(&mut order, &mut ready, &heirs)?;
    }
    Ok(order)
}

/// Gives the next id, if a number is ready.
fn give_next(
    order: &mut Vec<u32>,
    ready: &mut Ready,
    heirs: &Vec<Items<u32>>,
) -> Result<(), AllocError>
    ensures { OnOk result (Steps heirs.now.items order.old.items order.new.items (is_ready ready.old) (is_ready ready.new)) }
{
    match ready.take_least() {
        None => Ok(()),
        Some(number) => {
            order.push(number)?;
            ready.add_each(heirs_at(heirs, number))
        }
    }
}

/// The heirs of a number.
fn heirs_at(heirs: &Vec<Items<u32>>, number: u32) -> &[u32]
    ensures { result.now ≡ slice_index_or heirs.now.items number [] }
{
    match heirs.get(number as usize) {
        None => &[],
        Some(heirs) => heirs.as_slice(),
    }
}

/// For each interface the numbers of those whose parent it is.
fn heirs_of(alloc: Global, ifaces: &[Iface]) -> Result<Vec<Items<u32>>, AllocError>
    requires { length ifaces.now < 4294967296 }
    ensures { IfOk result (λ heirs. AreHeirs (parents_of (map iface_term ifaces.now)) heirs.items (length ifaces.now)) }
{
    let mut heirs = no_heirs(alloc, ifaces.len())?;
    for (number, iface) in ifaces.iter().enumerate() {
        add_heir(&mut heirs, iface.parent, number as u32)?;
    }
    Ok(heirs)
}

/// So many empty lists.
fn no_heirs(alloc: Global, count: usize) -> Result<Vec<Items<u32>>, AllocError>
    ensures { IfOk result (λ heirs. AreHeirs [] heirs.items count) }
{
    let mut heirs = Vec::new(alloc);
    for _number in 0..count {
        heirs.push(Items::new(alloc))?;
    }
    Ok(heirs)
}

/// Adds an heir of a parent, if there is one.
fn add_heir(heirs: &mut Vec<Items<u32>>, parent: Option<u32>, heir: u32) -> Result<(), AllocError>
    ensures { OnOk result (AddsHeir parent heir heirs.old.items heirs.new.items) }
{
    match parent {
        None => Ok(()),
        Some(parent) => add_heir_at(heirs, parent as usize, heir),
    }
}

/// Adds an heir of a parent that is in the list.
fn add_heir_at(heirs: &mut Vec<Items<u32>>, parent: usize, heir: u32) -> Result<(), AllocError>
    ensures { OnOk result (AddsHeir (Some parent) heir heirs.old.items heirs.new.items) }
{
    if parent < heirs.len() {
        heirs[parent].push(heir)
    } else {
        Ok(())
    }
}

/// The interfaces without a parent.
fn without_parent(alloc: Global, ifaces: &[Iface]) -> Result<Ready, AllocError>
    requires { length ifaces.now < 4294967296 }
    ensures { IfOk result (λ ready. AreReady (parents_of (map iface_term ifaces.now)) [] (is_ready ready)) }
{
    let mut ready = Ready::new(alloc);
    for (number, iface) in ifaces.iter().enumerate() {
        add_if_parentless(&mut ready, iface.parent, number as u32)?;
    }
    Ok(ready)
}

/// Adds a number, if it has no parent.
fn add_if_parentless(ready: &mut Ready, parent: Option<u32>, number: u32) -> Result<(), AllocError>
    ensures { OnOk result (AddsParentless parent number (is_ready ready.old) (is_ready ready.new)) }
{
    match parent {
        None => ready.add(number),
        Some(_) => Ok(()),
    }
}
