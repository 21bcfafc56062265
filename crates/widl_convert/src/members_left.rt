//! The members of a dictionary that are left to be converted, in order.

ghost use Rattle.std.specs.Prelude.{◌≡◌, ◌≤◌, ◌<◌, ◌-◌, ◌^◌, ◌∷◌, ◌++◌, [], length, reverse, slice_get, IfOk, IfNone, IfSome};
ghost use Rattle.widl_idl.specs.DefinitionTerms.{defs_term};
ghost use Rattle.widl_tables.specs.Levels.{nearest};
ghost use Rattle.widl_tables.specs.MemberOrder.{members_in_order, own_order};
ghost use Rattle.widl_steps.specs.Dictionaries.{requires_member};
ghost use Rattle.widl_convert.specs.Members.{declared_at, member_at, members_left};

use crate::dictionary::declared_member;
use std::alloc::{AllocError, Global};
use widl_tables::{Level, Tables, parent_of};

/// A member of a dictionary, by its place in the list of definitions.
#[derive(Clone, Copy)]
pub struct MemberPlace {
    /// The dictionary that declares it.
    pub dictionary: u32,
    /// Its number among that dictionary's members.
    pub number: u32,
}

/// The members of a dictionary that are left, the inherited ones first and those of each dictionary by
/// their names (Web IDL, "Dictionary types", steps 3 and 4).
#[derive(Drop)]
pub struct MembersLeft {
    /// The dictionaries that declare them, the least derived last.
    pub levels: Vec<u32>,
    /// How many members of the last of these were taken.
    pub place: usize,
}

impl MembersLeft {
    /// All members of a dictionary. Only the dictionaries that declare a member are visited.
    ///
    /// # Errors
    ///
    /// `AllocError` where there is no memory.
    pub(crate) fn of(
        alloc: Global,
        tables: &Tables,
        dictionary: u32,
    ) -> Result<MembersLeft, AllocError>
        ensures { IfOk result (λ left. members_left (defs_term tables.now.defs) left ≡ members_in_order (defs_term tables.now.defs) dictionary) }
    {
        let dicts = tables.list().defs().dicts.as_slice();
        let mut levels = Vec::new(alloc);
        let mut at = Some(dictionary);
        let mut links = dicts.len();
        while let Some(level) = level_within(tables, at, links) {
            levels.push(level.dictionary)?;
            at = parent_of(dicts, level.dictionary);
            links -= level.links + 1;
        }
        Ok(MembersLeft { levels, place: 0 })
    }

    /// Takes the next member.
    pub(crate) fn next(&mut self, tables: &Tables) -> Option<MemberPlace>
        ensures none { IfNone result (members_left (defs_term tables.now.defs) self.old ≡ []) }
        ensures some { IfSome result (λ at. members_left (defs_term tables.now.defs) self.old ≡ declared_at (defs_term tables.now.defs) at ∷ members_left (defs_term tables.now.defs) self.new) }
    {
        while let Some(dictionary) = last(&self.levels) {
            if let Some(number) = number_at(tables, dictionary, self.place) {
                self.place += 1;
                return Some(MemberPlace { dictionary, number });
            }
            take_last(&mut self.levels);
            self.place = 0;
        }
        None
    }
}

/// The last of the dictionaries.
fn last(levels: &[u32]) -> Option<u32>
    ensures { result ≡ slice_get (reverse levels.now) 0 }
{
    levels.last().copied()
}

/// Takes the last of the dictionaries.
fn take_last(levels: &mut Vec<u32>) -> Option<u32>
    ensures some { IfSome result (λ level. levels.old.items ≡ levels.new.items ++ level ∷ []) }
    ensures none { IfNone result (levels.old.items ≡ []) }
{
    levels.pop()
}

/// The number of the member at a place in the order of a dictionary's own ones.
fn number_at(tables: &Tables, dictionary: u32, place: usize) -> Option<u32>
    ensures number { result ≡ slice_get (own_order (defs_term tables.now.defs).dicts dictionary) place }
    ensures small { IfSome result (λ _. place < 2 ^ 64 - 1) }
{
    tables.own_members(dictionary).get(place).copied()
}

/// The nearest dictionary with members of its own, among so many of a line.
fn level_within(tables: &Tables, at: Option<u32>, links: usize) -> Option<Level>
    requires { links ≤ length (defs_term tables.now.defs).dicts }
    ensures level { result ≡ nearest (defs_term tables.now.defs).dicts links 0 at }
    ensures below { IfSome result (λ level. level.links < links) }
{
    match at {
        None => None,
        Some(dictionary) => match tables.level(dictionary) {
            None => None,
            Some(level) => if level.links < links {
                Some(level)
            } else {
                None
            },
        },
    }
}

/// Whether a member of a dictionary is required, inherited ones included.
///
/// # Errors
///
/// `AllocError` where there is no memory.
pub fn requires_member(alloc: Global, tables: &Tables, dictionary: u32) -> Result<bool, AllocError>
    ensures { IfOk result (λ required. required ≡ requires_member (defs_term tables.now.defs) dictionary) }
{
    let mut left = MembersLeft::of(alloc, tables, dictionary)?;
    while let Some(at) = left.next(tables) {
        if is_required(tables, at) {
            return Ok(true);
        }
    }
    Ok(false)
}

/// Whether the member at a place is required.
fn is_required(tables: &Tables, at: MemberPlace) -> bool
    ensures { result ≡ (member_at (defs_term tables.now.defs) at).needed }
{
    match declared_member(tables.list().defs(), at) {
        None => false,
        Some(member) => member.required,
    }
}
