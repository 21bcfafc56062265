//! Names of operations, static and regular apart.

ghost use Rattle.std.specs.Prelude.{◌≡◌, ℕ, Bool, false, List, ◌||◌, ◌&&◌, bytes_eq, OnOk};
ghost use Rattle.widl_idl.specs.MergingRules.{both_or_none, is_static};
ghost use Rattle.widl_names.specs.KnownTexts.{has_name, has_text};

use indexmap::IndexSet;
use std::alloc::{AllocError, Global};
use widl_idl::tree::OperationKind;

/// Names of operations.
#[derive(Drop)]
pub struct OperationNames<'a> {
    /// Those of operations that aren't static.
    regular: IndexSet<&'a str>,
    /// Those of static operations, which are of the interface object.
    of_interface_object: IndexSet<&'a str>,
}

impl<'a> OperationNames<'a> {
    /// No names.
    pub fn new(alloc: Global) -> OperationNames<'a>
        ensures { (text : List ℕ) (static : Bool) → has_name result text static ≡ false }
    {
        OperationNames {
            regular: IndexSet::new(alloc),
            of_interface_object: IndexSet::new(alloc),
        }
    }

    /// Whether the name is among those of static operations, or of others.
    pub fn contains(&self, text: &str, fixed: bool) -> bool
        ensures { result ≡ has_name self.now text.now fixed }
    {
        if fixed {
            self.of_interface_object.contains(text)
        } else {
            self.regular.contains(text)
        }
    }

    /// Adds the name of a static operation, or of another one.
    ///
    /// # Errors
    ///
    /// `AllocError` where there is no memory.
    pub fn insert(&mut self, text: &'a str, fixed: bool) -> Result<(), AllocError>
        ensures { OnOk result ((other : List ℕ) (static : Bool) → has_name self.new other static ≡ (has_name self.old other static || (bytes_eq text.now other && both_or_none static fixed))) }
    {
        if fixed {
            add_text(&mut self.of_interface_object, text)
        } else {
            add_text(&mut self.regular, text)
        }
    }
}

/// Adds a text to a set.
///
/// # Errors
///
/// `AllocError` where there is no memory.
pub fn add_text<'a>(texts: &mut IndexSet<&'a str>, text: &'a str) -> Result<(), AllocError>
    ensures { OnOk result ((other : List ℕ) → has_text texts.new other ≡ (has_text texts.old other || bytes_eq text.now other)) }
{
    texts.insert(text)?;
    Ok(())
}

/// Whether an operation is one of the interface object.
pub fn is_static(kind: OperationKind) -> bool
    ensures { result ≡ is_static kind }
{
    match kind {
        OperationKind::Static => true,
        _ => false,
    }
}
