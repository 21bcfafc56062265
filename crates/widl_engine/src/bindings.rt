//! What names are bound to, by their numbers.

ghost use Rattle.std.specs.Prelude.{◌≡◌, ◌∷◌, [], ◌++◌, None, nat_eq, IfNone, IfSome, IsTrue, OnOk};
ghost use Rattle.std.specs.Map.{lookup};
ghost use Rattle.std.specs.Option.{option_copied};
ghost use Rattle.indexmap.specs.IndexMap.{insert_entry};
ghost use Rattle.widl_engine.specs.Bound.{IsBoundAt, more_in};

use crate::indexed_bindings::IndexedBindings;
use std::alloc::{AllocError, Global};
use std::marker::Model;
use widl_value::Value;

/// How many names are bound without an index. A function has few names, and an index takes four allocations.
const MOST_FEW: usize = 8;

/// The names that are bound beside the first few.
#[derive(Drop)]
pub enum FurtherBindings {
    /// There are none.
    Nothing,
    /// These, with an index.
    Indexed(Box<IndexedBindings>),
}

/// Numbers of names with values, in the order in which they were first bound. Only what was bound is
/// kept, and the first few without an index.
#[derive(Drop)]
pub struct Bindings {
    few: Vec<(u32, Value)>,
    more: FurtherBindings,
}

impl Model for Bindings {
    ghost use Rattle.std.specs.Prelude.{List, ℕ, ◌++◌};
    ghost use Rattle.widl_value.specs.declared.value.Value as ValueType;
    ghost use Rattle.widl_engine.specs.Bound.{more_in};

    ghost Value = { List (ℕ × ValueType.Value) };

    ghost view = { λ b. b.few.items ++ more_in b.more };
}

/// The place of the first binding of a name.
fn place_of(bound: &[(u32, Value)], name: u32) -> Option<usize>
    ensures some { IfSome result (IsBoundAt name bound.now) }
    ensures none { IfNone result (lookup (nat_eq name) bound.now ≡ None) }
{
    let mut place = 0;
    'each: while place < bound.len() {
        if bound[place].0 == name {
            return Some(place);
        }
        place += 1;
    }
    None
}

/// What a name is bound to with an index.
fn get_more(more: &FurtherBindings, name: u32) -> Option<&Value>
    ensures { option_copied result ≡ lookup (nat_eq name) (more_in more.now) }
{
    match more {
        FurtherBindings::Nothing => None,
        FurtherBindings::Indexed(bound) => bound.get(name),
    }
}

/// Binds a name with an index.
fn set_more(
    alloc: Global,
    more: &mut FurtherBindings,
    name: u32,
    value: Value,
) -> Result<(), AllocError>
    ensures { OnOk result (more_in more.new ≡ insert_entry nat_eq (more_in more.old) name value) }
{
    match more {
        FurtherBindings::Nothing => {
            let mut bound = IndexedBindings::new(alloc);
            bound.set(name, value)?;
            *more = FurtherBindings::Indexed(Box::new(alloc, bound)?);
            Ok(())
        }
        FurtherBindings::Indexed(bound) => bound.set(name, value),
    }
}

/// Puts a binding last. There is first room for two, and then for one more at a time.
fn push_few(few: &mut Vec<(u32, Value)>, name: u32, value: Value) -> Result<(), AllocError>
    ensures { OnOk result (few.new.items ≡ few.old.items ++ (name, value) ∷ []) }
{
    let more = if few.is_empty() { 2 } else { 1 };
    few.reserve_exact(more)?;
    few.push_reserved((name, value));
    Ok(())
}

/// Whether there are no bindings with an index.
fn is_nothing(more: &FurtherBindings) -> bool
    ensures { IsTrue result → more_in more.now ≡ [] }
{
    match more {
        FurtherBindings::Nothing => true,
        FurtherBindings::Indexed(_) => false,
    }
}

/// Binds a name that isn't among the few.
fn add(
    few: &mut Vec<(u32, Value)>,
    more: &mut FurtherBindings,
    name: u32,
    value: Value,
) -> Result<(), AllocError>
    requires { lookup (nat_eq name) few.old.items ≡ None }
    ensures { OnOk result (few.new.items ++ more_in more.new ≡ insert_entry nat_eq (few.old.items ++ more_in more.old) name value) }
{
    if few.len() < MOST_FEW && is_nothing(more) {
        return push_few(few, name, value);
    }
    set_more(*few.allocator(), more, name, value)
}

impl Bindings {
    /// Nothing is bound.
    pub(crate) fn new(alloc: Global) -> Bindings
        ensures { result ≡ [] }
    {
        Bindings {
            few: Vec::new(alloc),
            more: FurtherBindings::Nothing,
        }
    }

    /// What a name is bound to.
    pub(crate) fn get(&self, name: u32) -> Option<&Value>
        ensures { option_copied result ≡ lookup (nat_eq name) self.now }
    {
        match place_of(self.few.as_slice(), name) {
            Some(place) => Some(&self.few[place].1),
            None => get_more(&self.more, name),
        }
    }

    /// Binds a name: in its place where it is bound, else last.
    ///
    /// # Errors
    ///
    /// `AllocError` where there is no memory.
    pub(crate) fn set(&mut self, name: u32, value: Value) -> Result<(), AllocError>
        ensures { OnOk result (self.new ≡ insert_entry nat_eq self.old name value) }
    {
        match place_of(self.few.as_slice(), name) {
            Some(place) => {
                self.few[place].1 = value;
                Ok(())
            }
            None => add(&mut self.few, &mut self.more, name, value),
        }
    }
}
