//! The numbers of the names of operations.

ghost use Rattle.std.specs.Prelude.{◌≡◌, ℕ, Bool, List, ◌&&◌, None, Some, bytes_eq, if◌then◌else◌, OnOk};
ghost use Rattle.widl_idl.specs.MergingRules.{both_or_none};
ghost use Rattle.widl_names.specs.Numbers.{number_in};
ghost use Rattle.widl_merge.specs.PutTogether.{number_named};

use indexmap::IndexMap;
use std::alloc::{AllocError, Global};

/// The numbers of the names of operations. Static operations have names of their own.
#[derive(Drop)]
pub struct OperationNumbers<'a> {
    /// Those of operations that aren't static.
    regular: IndexMap<&'a str, u32>,
    /// Those of static operations.
    fixed: IndexMap<&'a str, u32>,
}

impl<'a> OperationNumbers<'a> {
    /// No names.
    pub fn new(alloc: Global) -> OperationNumbers<'a>
        ensures { (text : List ℕ) (static : Bool) → number_named result.regular result.fixed text static ≡ None }
    {
        OperationNumbers {
            regular: IndexMap::new(alloc),
            fixed: IndexMap::new(alloc),
        }
    }

    /// The number of a name, if it has one.
    pub fn number(&self, text: &str, fixed: bool) -> Option<u32>
        ensures { result ≡ number_named self.now.regular self.now.fixed text.now fixed }
    {
        if fixed {
            self.fixed.get(text).copied()
        } else {
            self.regular.get(text).copied()
        }
    }

    /// Gives a name this number.
    ///
    /// # Errors
    ///
    /// `AllocError` where there is no memory.
    pub fn keep(&mut self, text: &'a str, fixed: bool, number: u32) -> Result<(), AllocError>
        ensures { OnOk result ((other : List ℕ) (static : Bool) → number_named self.new.regular self.new.fixed other static ≡ (if bytes_eq text.now other && both_or_none static fixed then Some number else number_named self.old.regular self.old.fixed other static)) }
    {
        if fixed {
            keep_number(&mut self.fixed, text, number)
        } else {
            keep_number(&mut self.regular, text, number)
        }
    }
}

/// Gives a text this number.
fn keep_number<'a>(
    numbers: &mut IndexMap<&'a str, u32>,
    text: &'a str,
    number: u32,
) -> Result<(), AllocError>
    ensures { OnOk result ((other : List ℕ) → number_in numbers.new other ≡ (if bytes_eq text.now other then Some number else number_in numbers.old other)) }
{
    numbers.insert(text, number)?;
    Ok(())
}
