//! Operations of which some overloads return promises and some don't.

ghost use Rattle.std.specs.Prelude.{◌≡◌, ℕ, Bool, false, List, ◌&&◌, ◌||◌, not, IfOk, OnOk};
ghost use Rattle.widl_idl.specs.First.{AtOne, FirstWhere};
ghost use Rattle.widl_idl.specs.MergingRules.{both_or_none, is_static};
ghost use Rattle.widl_idl.specs.PlainTrees.{member_kind_of, operation_of, plain_definitions};
ghost use Rattle.widl_idl.specs.Terms.{type_term};
ghost use Rattle.widl_overload.specs.rules.MemberRules.{MixesPromises, is_promise, returns_promise};
ghost use Rattle.widl_member_rules.specs.MemberTables.{gives_promise, has_overload, has_returned, is_overload, violation_of_name, violation_of_other};
ghost use Rattle.widl_names.specs.Listings.{listed_members};

use crate::owner_members::operation_text;
use std::alloc::{AllocError, Global};
use widl_idl::tree::{Member, MemberKind, Operation};
use widl_idl::{IdlType, Violation, earlier_violation};
use widl_names::{OperationNames, Resolver, is_static};

/// The names of operations, by what they return.
#[derive(Drop)]
struct ReturnedKinds<'a> {
    /// Those that return promises.
    promises: OperationNames<'a>,
    /// Those that return none.
    others: OperationNames<'a>,
}

/// The first place of the name of an operation that returns a promise where its earlier overloads return
/// none, or returns none where they return promises.
///
/// # Errors
///
/// Those of [`Resolver::outline_alone`].
pub fn first_mixing_promises<'a>(
    alloc: Global,
    resolver: &Resolver<'_, 'a>,
    members: &[&'a Member],
) -> Result<Option<Violation>, AllocError>
    ensures { IfOk result (λ found. FirstWhere (AtOne (MixesPromises (plain_definitions resolver.now)) (listed_members members.now)) found) }
{
    let mut names = ReturnedKinds::new(alloc);
    let mut best = None;
    for member in members {
        let promise = gives_promise(alloc, resolver, &member.kind)?;
        let found = names.differing(promise, &member.kind);
        best = earlier_violation(best, found);
        names.add(promise, &member.kind)?;
    }
    Ok(best)
}

/// Whether a member is an operation that returns a promise.
fn gives_promise<'a>(
    alloc: Global,
    resolver: &Resolver<'_, 'a>,
    kind: &'a MemberKind,
) -> Result<bool, AllocError>
    ensures { IfOk result (λ promise. promise ≡ gives_promise (plain_definitions resolver.now) (member_kind_of kind.now)) }
{
    match kind {
        MemberKind::Operation(operation) => returns_promise(alloc, resolver, operation),
        _ => Ok(false),
    }
}

fn returns_promise<'a>(
    alloc: Global,
    resolver: &Resolver<'_, 'a>,
    operation: &'a Operation,
) -> Result<bool, AllocError>
    ensures { IfOk result (λ promise. promise ≡ returns_promise (plain_definitions resolver.now) (operation_of operation.now)) }
{
    let returned = resolver.outline_alone(alloc, &operation.result)?;
    Ok(is_promise(&returned))
}

/// Whether a type is a promise.
pub fn is_promise(ty: &IdlType) -> bool
    ensures { result ≡ is_promise (type_term ty.now) }
{
    match ty {
        IdlType::Promise(_) => true,
        _ => false,
    }
}

impl<'a> ReturnedKinds<'a> {
    fn new(alloc: Global) -> ReturnedKinds<'a>
        ensures { (text : List ℕ) (static : Bool) (promise : Bool) → has_returned result.promises result.others text static promise ≡ false }
    {
        ReturnedKinds {
            promises: OperationNames::new(alloc),
            others: OperationNames::new(alloc),
        }
    }

    /// The place of the name of a member, an operation that returns a promise or not, where all that are
    /// known of its name return the other.
    fn differing(&self, promise: bool, kind: &MemberKind) -> Option<Violation>
        ensures { result ≡ violation_of_other (has_returned self.now.promises self.now.others) promise (member_kind_of kind.now) }
    {
        match kind {
            MemberKind::Operation(operation) => self.differing_operation(promise, operation),
            _ => None,
        }
    }

    fn differing_operation(&self, promise: bool, operation: &Operation) -> Option<Violation>
        ensures { result ≡ violation_of_name (operation_of operation.now).name (λ text. has_returned self.now.promises self.now.others text (is_static operation.now.kind) (not promise) && not (has_returned self.now.promises self.now.others text (is_static operation.now.kind) promise)) }
    {
        let name = operation.name.as_ref()?;
        if self.are_others(name.text.as_str(), is_static(operation.kind), promise) {
            Some(Violation::at(name.at))
        } else {
            None
        }
    }

    fn are_others(&self, text: &str, fixed: bool, promise: bool) -> bool
        ensures { result ≡ (has_returned self.now.promises self.now.others text.now fixed (not promise) && not (has_returned self.now.promises self.now.others text.now fixed promise)) }
    {
        self.contains(text, fixed, !promise) && !self.contains(text, fixed, promise)
    }

    fn contains(&self, text: &str, fixed: bool, promise: bool) -> bool
        ensures { result ≡ has_returned self.now.promises self.now.others text.now fixed promise }
    {
        if promise {
            self.promises.contains(text, fixed)
        } else {
            self.others.contains(text, fixed)
        }
    }

    /// Adds the name of a member, if it is an operation; it is empty where the operation has none.
    fn add(&mut self, promise: bool, kind: &'a MemberKind) -> Result<(), AllocError>
        ensures { OnOk result ((text : List ℕ) (static asked : Bool) → has_returned self.new.promises self.new.others text static asked ≡ (has_returned self.old.promises self.old.others text static asked || (is_overload text static (member_kind_of kind.now) && both_or_none asked promise))) }
    {
        match kind {
            MemberKind::Operation(operation) => self.insert(promise, operation),
            _ => Ok(()),
        }
    }

    fn insert(&mut self, promise: bool, operation: &'a Operation) -> Result<(), AllocError>
        ensures { OnOk result ((text : List ℕ) (static asked : Bool) → has_returned self.new.promises self.new.others text static asked ≡ (has_returned self.old.promises self.old.others text static asked || (has_overload text static (operation_of operation.now) && both_or_none asked promise))) }
    {
        let text = operation_text(operation);
        let fixed = is_static(operation.kind);
        if promise {
            self.promises.insert(text, fixed)
        } else {
            self.others.insert(text, fixed)
        }
    }
}
