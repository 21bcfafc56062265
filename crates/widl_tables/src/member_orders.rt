//! The members of dictionaries in the order in which they are converted.

ghost use Rattle.std.specs.Prelude.{◌≡◌, ◌<◌, ◌^◌, ℕ, List, length, map, IfOk};
ghost use Rattle.std.specs.Cmp.Lexicographic.{slice_cmp};
ghost use Rattle.std.specs.Ordering.{nat_cmp};
ghost use Rattle.widl_idl.specs.DefinitionTerms.{DictTerm, dict_term, member_term};
ghost use Rattle.widl_tables.specs.Levels.{level_of};
ghost use Rattle.widl_tables.specs.MemberOrder.{declared_from, own_order};
ghost use Rattle.widl_tables.specs.MemberTables.{AreFew, AreOrders, name_in, numbers_by_name};

use crate::level::{Level, learn, level_in, unknown};
use std::alloc::{AllocError, Global};
use std::cmp::Ordering;
use widl_idl::{Dict, Member};

/// The order of a dictionary's members: of its own ones, and where those that it inherits begin.
#[derive(Drop)]
pub(crate) struct MemberOrder {
    /// The numbers of its own members, in the order of their names.
    own: Vec<u32>,
    /// Where the dictionaries of its line with members begin.
    level: Option<Level>,
}

/// The orders of each dictionary's members. Each list of own members is sorted once.
///
/// # Errors
///
/// `AllocError` where there is no memory.
pub(crate) fn orders_of(alloc: Global, dicts: &[Dict]) -> Result<Vec<MemberOrder>, AllocError>
    requires { AreFew dicts.now }
    ensures { IfOk result (λ orders. AreOrders (map dict_term dicts.now) orders.items) }
{
    let mut known = unknown(alloc, dicts.len())?;
    let mut orders = Vec::new(alloc);
    for (place, dict) in dicts.iter().enumerate() {
        let number = place as u32;
        learn(alloc, dicts, &mut known, number)?;
        orders.push(MemberOrder {
            own: in_order(alloc, dict.members.as_slice())?,
            level: level_in(dicts, &known, number),
        })?;
    }
    Ok(orders)
}

/// The numbers of members in the order of their names.
///
/// # Errors
///
/// `AllocError` where there is no memory.
fn in_order(alloc: Global, members: &[Member]) -> Result<Vec<u32>, AllocError>
    requires { length members.now < 2 ^ 32 }
    ensures { IfOk result (λ numbers. (n : ℕ) → numbers.items ≡ numbers_by_name (declared_from n 0 (map member_term members.now))) }
{
    let mut numbers = Vec::with_capacity(alloc, members.len())?;
    for number in 0..members.len() {
        numbers.push(number as u32)?;
    }
    numbers.sort_by(|a, b| compare(members, *a, *b))?;
    Ok(numbers)
}

/// How the names of two members compare, unit by unit.
fn compare(members: &[Member], number: u32, other: u32) -> Ordering
    ensures { result ≡ slice_cmp nat_cmp (name_in (map member_term members.now) number) (name_in (map member_term members.now) other) }
{
    name_in(members, number).cmp(name_in(members, other))
}

/// The name of a member; that of one that isn't there is empty.
fn name_in(members: &[Member], number: u32) -> &[u16]
    ensures { result.now ≡ name_in (map member_term members.now) number }
{
    match members.get(number as usize) {
        None => &[],
        Some(member) => member.name.as_slice(),
    }
}

/// The numbers of a dictionary's own members in order; none where there is no such dictionary.
pub(crate) fn own_members(orders: &[MemberOrder], dictionary: u32) -> &[u32]
    ensures { (dicts : List DictTerm) → AreOrders dicts orders.now → result.now ≡ own_order dicts dictionary }
{
    match orders.get(dictionary as usize) {
        None => &[],
        Some(order) => &order.own,
    }
}

/// The nearest dictionary of a dictionary's line that declares a member.
pub(crate) fn level(orders: &[MemberOrder], dictionary: u32) -> Option<Level>
    ensures { (dicts : List DictTerm) → AreOrders dicts orders.now → result ≡ level_of dicts dictionary }
{
    match orders.get(dictionary as usize) {
        None => None,
        Some(order) => order.level,
    }
}
