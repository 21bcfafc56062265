//! Copies of values that have others in them: these wait in a list while one of the others is copied, so that no nesting
//! takes native stack.

ghost use Rattle.std.specs.Prelude.{◌≡◌, ◌+◌, ◌<◌, [], length, None, Some, IfOk, OnOk, map, option_map, slice_get};
ghost use Rattle.widl_value.specs.Copies.{IsBegun, IsFront, IsLonger, copied, parts, source_term};
ghost use Rattle.widl_value.specs.IdlTerms.{entry_terms, idl_term, member_terms};

use crate::idl_entries::IdlEntries;
use crate::idl_members::IdlMembers;
use crate::idl_value::IdlValue;
use crate::idl_values::IdlValues;
use std::alloc::{AllocError, Global};
use std::mem;

/// The values in another one, and the copies of the first of them.
#[derive(Drop)]
pub enum Copying<'v> {
    /// Those of a sequence.
    Values(&'v IdlValues, IdlValues),
    /// Those of a record.
    Entries(&'v IdlEntries, IdlEntries),
    /// Those of a dictionary, by its number.
    Members(u32, &'v IdlMembers, IdlMembers),
}

/// How the copy of a value begins.
#[derive(Drop)]
pub enum Begun<'v> {
    /// It is made at once, since no other values are in the value.
    Whole(IdlValue),
    /// The values in the value are copied next.
    Within(Copying<'v>),
}

/// A value with the same parts.
///
/// # Errors
///
/// `AllocError` where there is no memory.
pub fn copy_of(value: &IdlValue) -> Result<IdlValue, AllocError>
    ensures { IfOk result (λ copy. idl_term copy ≡ idl_term value.now) }
{
    match begin(value)? {
        Begun::Whole(copy) => Ok(copy),
        Begun::Within(copying) => {
            let mut outer = Vec::new(copying.allocator());
            copy_within(copying, &mut outer)
        }
    }
}

/// Begins a copy.
fn begin<'v>(value: &'v IdlValue) -> Result<Begun<'v>, AllocError>
    ensures { IfOk result (IsBegun (idl_term value.now)) }
{
    match value {
        IdlValue::Undefined => Ok(Begun::Whole(IdlValue::Undefined)),
        IdlValue::Null => Ok(Begun::Whole(IdlValue::Null)),
        IdlValue::Missing => Ok(Begun::Whole(IdlValue::Missing)),
        IdlValue::Bool(b) => Ok(Begun::Whole(IdlValue::Bool(*b))),
        IdlValue::Int(n) => Ok(Begun::Whole(IdlValue::Int(*n))),
        IdlValue::Text(text) => Ok(Begun::Whole(IdlValue::Text(text.copy()?))),
        IdlValue::Choice {
            of: enumeration,
            index,
        } => Ok(Begun::Whole(IdlValue::Choice {
            of: *enumeration,
            index: *index,
        })),
        IdlValue::Object(object) => Ok(Begun::Whole(IdlValue::Object(*object))),
        IdlValue::Any(value) => Ok(Begun::Whole(IdlValue::Any(value.copy()?))),
        IdlValue::List(source) => Ok(Begun::Within(Copying::Values(source, source.room()?))),
        IdlValue::Entries(source) => Ok(Begun::Within(Copying::Entries(source, source.room()?))),
        IdlValue::Dict { of, members } => {
            let copy = members.room()?;
            Ok(Begun::Within(Copying::Members(*of, members, copy)))
        }
        IdlValue::Promise(promise) => Ok(Begun::Whole(IdlValue::Promise(*promise))),
    }
}

/// Copies a value whose copy is begun, with a list for those that it stands in.
fn copy_within<'v>(begun: Copying<'v>, outer: &mut Vec<Copying<'v>>) -> Result<IdlValue, AllocError>
    requires front { IsFront begun }
    requires alone { outer.old.items ≡ [] }
    ensures { IfOk result (λ copy. idl_term copy ≡ source_term begun.entry) }
{
    let mut inmost = begun;
    loop {
        match inmost.next() {
            Some(value) => match begin(value)? {
                Begun::Whole(copy) => inmost.add(copy)?,
                Begun::Within(inner) => outer.push(mem::replace(&mut inmost, inner))?,
            },
            None => {
                let copy = inmost.finish();
                let Some(next) = outer.pop() else {
                    return Ok(copy);
                };
                inmost = next;
                inmost.add(copy)?;
            }
        }
    }
}

impl<'v> Copying<'v> {
    fn allocator(&self) -> Global {
        match self {
            Copying::Values(source, _) => source.allocator(),
            Copying::Entries(source, _) => source.allocator(),
            Copying::Members(_, source, _) => source.allocator(),
        }
    }

    /// The value that is copied next.
    fn next(&self) -> Option<&'v IdlValue>
        ensures { option_map (λ value. idl_term value.now) result ≡ slice_get (parts self.now) (copied self.now) }
    {
        match self {
            Copying::Values(source, copy) => {
                if copy.len() < source.len() {
                    Some(source.at(copy.len()))
                } else {
                    None
                }
            }
            Copying::Entries(source, copy) => {
                if copy.len() < source.len() {
                    Some(&source.at(copy.len()).1)
                } else {
                    None
                }
            }
            Copying::Members(_, source, copy) => {
                if copy.len() < source.len() {
                    Some(&source.at(copy.len()).2)
                } else {
                    None
                }
            }
        }
    }

    /// Adds the copy of the next value.
    fn add(&mut self, value: IdlValue) -> Result<(), AllocError>
        requires front { IsFront self.old }
        requires next { slice_get (parts self.old) (copied self.old) ≡ Some (idl_term value) }
        ensures front { OnOk result (IsFront self.new) }
        ensures source { OnOk result (source_term self.new ≡ source_term self.old) }
        ensures parts { OnOk result (parts self.new ≡ parts self.old) }
        ensures copied { OnOk result (copied self.new ≡ copied self.old + 1) }
    {
        match self {
            Copying::Values(_, copy) => copy.push(value),
            Copying::Entries(source, copy) => add_entry(source, copy, value),
            Copying::Members(_, source, copy) => add_member(source, copy, value),
        }
    }

    /// The copy of the whole, where all values in it are copied.
    fn finish(self) -> IdlValue
        requires front { IsFront self }
        requires whole { slice_get (parts self) (copied self) ≡ None }
        ensures { idl_term result ≡ source_term self.entry }
    {
        match self {
            Copying::Values(_, copy) => IdlValue::List(copy),
            Copying::Entries(_, copy) => IdlValue::Entries(copy),
            Copying::Members(of, _, copy) => IdlValue::Dict { of, members: copy },
        }
    }
}

/// Adds an entry with the next key.
fn add_entry(source: &IdlEntries, copy: &mut IdlEntries, value: IdlValue) -> Result<(), AllocError>
    requires { slice_get (map (λ entry. entry.1) (entry_terms source.now)) (length (entry_terms copy.old)) ≡ Some (idl_term value) }
    ensures { OnOk result (IsLonger (entry_terms source.now) (entry_terms copy.old) (entry_terms copy.new)) }
{
    let key = source.at(copy.len()).0.copy()?;
    copy.push((key, value))
}

/// Adds a member with the next number.
fn add_member(source: &IdlMembers, copy: &mut IdlMembers, value: IdlValue) -> Result<(), AllocError>
    requires { slice_get (map (λ member. member.2) (member_terms source.now)) (length (member_terms copy.old)) ≡ Some (idl_term value) }
    ensures { OnOk result (IsLonger (member_terms source.now) (member_terms copy.old) (member_terms copy.new)) }
{
    let member = source.at(copy.len());
    copy.push((member.0, member.1, value))
}
