//! How many overloads operations and constructors have.

ghost use Rattle.std.specs.Prelude.{◌≡◌, ℕ, ◌+◌, ◌-◌, ◌^◌, ◌<◌, ◌&&◌, Bool, List, bytes_eq, nat_eq, if◌then◌else◌, IfOk, OnOk};
ghost use Rattle.widl_idl.specs.First.{AtOne, FirstWhere};
ghost use Rattle.widl_idl.specs.MergingRules.{both_or_none, is_static};
ghost use Rattle.widl_idl.specs.PlainTrees.{member_kind_of, operation_of};
ghost use Rattle.widl_overload.specs.rules.MemberRules.{HasOverloadPastLimit};
ghost use Rattle.widl_member_rules.specs.MemberTables.{count_in, has_overload, is_constructor, is_overload, overload_count, violation_of_name, violation_past_limit};
ghost use Rattle.widl_names.specs.Listings.{listed_members};

use crate::owner_members::operation_text;
use indexmap::IndexMap;
use std::alloc::{AllocError, Global};
use widl_idl::tree::{Member, MemberKind, Operation};
use widl_idl::{Violation, earlier_violation};
use widl_names::is_static;
use widl_text::limits::MOST_OVERLOADS;

/// The most overloads of one name.
const MOST: usize = MOST_OVERLOADS as usize;

/// How many operations have a name.
#[derive(Drop)]
struct NameCounts<'a> {
    /// Those that aren't static.
    regular: IndexMap<&'a str, usize>,
    /// Those that are static.
    fixed: IndexMap<&'a str, usize>,
}

/// How many overloads there are.
#[derive(Drop)]
struct OverloadCounts<'a> {
    operations: NameCounts<'a>,
    constructors: usize,
}

/// The first place of an operation's name or of the word `constructor` that follows 64 of its overloads.
///
/// # Errors
///
/// `AllocError` where there is no memory.
pub fn first_overload_past_limit(
    alloc: Global,
    members: &[&Member],
) -> Result<Option<Violation>, AllocError>
    ensures { IfOk result (λ found. FirstWhere (AtOne HasOverloadPastLimit (listed_members members.now)) found) }
{
    let mut counts = OverloadCounts::new(alloc);
    let mut best = None;
    for member in members {
        let found = counts.past_limit(&member.kind);
        best = earlier_violation(best, found);
        counts.add(&member.kind)?;
    }
    Ok(best)
}

impl<'a> OverloadCounts<'a> {
    fn new(alloc: Global) -> OverloadCounts<'a>
        ensures operations { (text : List ℕ) (static : Bool) → overload_count result.operations.regular result.operations.fixed text static ≡ 0 }
        ensures constructors { result.constructors ≡ 0 }
    {
        OverloadCounts {
            operations: NameCounts::new(alloc),
            constructors: 0,
        }
    }

    /// The place of a member that follows 64 of its overloads.
    fn past_limit(&self, kind: &MemberKind) -> Option<Violation>
        ensures { result ≡ violation_past_limit (overload_count self.now.operations.regular self.now.operations.fixed) self.now.constructors (member_kind_of kind.now) }
    {
        match kind {
            MemberKind::Operation(operation) => self.operations.past_limit(operation),
            MemberKind::Constructor(constructor) => if self.constructors == MOST {
                Some(Violation::at(constructor.at))
            } else {
                None
            },
            _ => None,
        }
    }

    /// Counts a member.
    fn add(&mut self, kind: &'a MemberKind) -> Result<(), AllocError>
        requires operations { (text : List ℕ) (static : Bool) → overload_count self.old.operations.regular self.old.operations.fixed text static < 2 ^ 64 - 1 }
        requires constructors { self.old.constructors < 2 ^ 64 - 1 }
        ensures operations { OnOk result ((text : List ℕ) (static : Bool) → overload_count self.new.operations.regular self.new.operations.fixed text static ≡ (if is_overload text static (member_kind_of kind.now) then overload_count self.old.operations.regular self.old.operations.fixed text static + 1 else overload_count self.old.operations.regular self.old.operations.fixed text static)) }
        ensures constructors { OnOk result (self.new.constructors ≡ (if is_constructor (member_kind_of kind.now) then self.old.constructors + 1 else self.old.constructors)) }
    {
        match kind {
            MemberKind::Operation(operation) => self.operations.add(operation),
            MemberKind::Constructor(_) => {
                self.constructors += 1;
                Ok(())
            }
            _ => Ok(()),
        }
    }
}

impl<'a> NameCounts<'a> {
    fn new(alloc: Global) -> NameCounts<'a>
        ensures { (text : List ℕ) (static : Bool) → overload_count result.regular result.fixed text static ≡ 0 }
    {
        NameCounts {
            regular: IndexMap::new(alloc),
            fixed: IndexMap::new(alloc),
        }
    }

    /// The place of the name of an operation that follows 64 of its overloads.
    fn past_limit(&self, operation: &Operation) -> Option<Violation>
        ensures { result ≡ violation_of_name (operation_of operation.now).name (λ text. nat_eq (overload_count self.now.regular self.now.fixed text (is_static operation.now.kind)) 64) }
    {
        let name = operation.name.as_ref()?;
        if self.count(name.text.as_str(), is_static(operation.kind)) == MOST {
            Some(Violation::at(name.at))
        } else {
            None
        }
    }

    fn count(&self, text: &str, fixed: bool) -> usize
        ensures { result ≡ overload_count self.now.regular self.now.fixed text.now fixed }
    {
        if fixed {
            count_in(&self.fixed, text)
        } else {
            count_in(&self.regular, text)
        }
    }

    /// Counts an operation.
    fn add(&mut self, operation: &'a Operation) -> Result<(), AllocError>
        requires { (text : List ℕ) (static : Bool) → overload_count self.old.regular self.old.fixed text static < 2 ^ 64 - 1 }
        ensures { OnOk result ((text : List ℕ) (static : Bool) → overload_count self.new.regular self.new.fixed text static ≡ (if has_overload text static (operation_of operation.now) then overload_count self.old.regular self.old.fixed text static + 1 else overload_count self.old.regular self.old.fixed text static)) }
    {
        self.add_name(operation_text(operation), is_static(operation.kind))
    }

    fn add_name(&mut self, text: &'a str, fixed: bool) -> Result<(), AllocError>
        requires { overload_count self.old.regular self.old.fixed text.now fixed < 2 ^ 64 - 1 }
        ensures { OnOk result ((other : List ℕ) (static : Bool) → overload_count self.new.regular self.new.fixed other static ≡ (if bytes_eq other text.now && both_or_none static fixed then overload_count self.old.regular self.old.fixed other static + 1 else overload_count self.old.regular self.old.fixed other static)) }
    {
        if fixed {
            add_one(&mut self.fixed, text)
        } else {
            add_one(&mut self.regular, text)
        }
    }
}

/// The count that is kept for a text.
fn count_in(counts: &IndexMap<&str, usize>, text: &str) -> usize
    ensures { result ≡ count_in counts.now text.now }
{
    counts.get(text).copied().unwrap_or(0)
}

/// Counts a text.
fn add_one<'a>(counts: &mut IndexMap<&'a str, usize>, text: &'a str) -> Result<(), AllocError>
    requires { count_in counts.old text.now < 2 ^ 64 - 1 }
    ensures { OnOk result ((other : List ℕ) → count_in counts.new other ≡ (if bytes_eq other text.now then count_in counts.old other + 1 else count_in counts.old other)) }
{
    let count = count_in(counts, text) + 1;
    counts.insert(text, count)?;
    Ok(())
}
