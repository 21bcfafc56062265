//! Members that have one name.

ghost use Rattle.std.specs.Prelude.{◌≡◌, ℕ, Bool, false, List, ◌&&◌, ◌||◌, not, bytes_eq, IfOk, OnOk};
ghost use Rattle.widl_idl.specs.First.{AtOne, FirstWhere};
ghost use Rattle.widl_idl.specs.PlainTrees.{member_kind_of};
ghost use Rattle.widl_overload.specs.rules.MemberRules.{RepeatsMember, identifier, is_named, is_operation};
ghost use Rattle.widl_member_rules.specs.MemberTables.{clashes, violation_of_name};
ghost use Rattle.widl_names.specs.Listings.{listed_members};

use crate::owner_members::{identifier, is_operation};
use indexmap::IndexSet;
use std::alloc::{AllocError, Global};
use widl_idl::tree::{Member, MemberKind};
use widl_idl::{Violation, earlier_violation};
use widl_names::add_text;

/// The names of members.
#[derive(Drop)]
struct MemberNames<'a> {
    /// Those of operations.
    operations: IndexSet<&'a str>,
    /// Those of constants and attributes.
    others: IndexSet<&'a str>,
}

/// The first place of the name of a member that an earlier one has too, where not both are operations.
///
/// # Errors
///
/// `AllocError` where there is no memory.
pub fn first_repeated_member(
    alloc: Global,
    members: &[&Member],
) -> Result<Option<Violation>, AllocError>
    ensures { IfOk result (λ found. FirstWhere (AtOne RepeatsMember (listed_members members.now)) found) }
{
    let mut names = MemberNames::new(alloc);
    let mut best = None;
    for member in members {
        let found = names.repeated(&member.kind);
        best = earlier_violation(best, found);
        names.add(&member.kind)?;
    }
    Ok(best)
}

impl<'a> MemberNames<'a> {
    fn new(alloc: Global) -> MemberNames<'a>
        ensures { (text : List ℕ) (operation : Bool) → clashes result.operations result.others text operation ≡ false }
    {
        MemberNames {
            operations: IndexSet::new(alloc),
            others: IndexSet::new(alloc),
        }
    }

    /// The place of the name of a member, where it may not have it.
    fn repeated(&self, kind: &MemberKind) -> Option<Violation>
        ensures { result ≡ violation_of_name (identifier (member_kind_of kind.now)) (λ text. clashes self.now.operations self.now.others text (is_operation (member_kind_of kind.now))) }
    {
        let name = identifier(kind)?;
        if self.clashes(name.text.as_str(), is_operation(kind)) {
            Some(Violation::at(name.at))
        } else {
            None
        }
    }

    fn clashes(&self, text: &str, operation: bool) -> bool
        ensures { result ≡ clashes self.now.operations self.now.others text.now operation }
    {
        self.others.contains(text) || !operation && self.operations.contains(text)
    }

    /// Adds the name of a member, if it has one.
    fn add(&mut self, kind: &'a MemberKind) -> Result<(), AllocError>
        ensures { OnOk result ((text : List ℕ) (operation : Bool) → clashes self.new.operations self.new.others text operation ≡ (clashes self.old.operations self.old.others text operation || (is_named text (identifier (member_kind_of kind.now)) && not (is_operation (member_kind_of kind.now) && operation)))) }
    {
        match identifier(kind) {
            None => Ok(()),
            Some(name) => self.insert(name.text.as_str(), is_operation(kind)),
        }
    }

    fn insert(&mut self, text: &'a str, operation: bool) -> Result<(), AllocError>
        ensures { OnOk result ((other : List ℕ) (asked : Bool) → clashes self.new.operations self.new.others other asked ≡ (clashes self.old.operations self.old.others other asked || (bytes_eq text.now other && not (operation && asked)))) }
    {
        if operation {
            add_text(&mut self.operations, text)
        } else {
            add_text(&mut self.others, text)
        }
    }
}
