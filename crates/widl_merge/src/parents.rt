//! The rule on interfaces and dictionaries that inherit from themselves.

ghost use Rattle.std.specs.Prelude.{IfOk};
ghost use Rattle.widl_idl.specs.declared.merging_rule.MergingRule.TheVariants as rule;
ghost use Rattle.widl_idl.specs.First.{FirstWhere};
ghost use Rattle.widl_idl.specs.MergingRules.{BreaksMerging};
ghost use Rattle.widl_idl.specs.PlainTrees.{plain_definitions};

use crate::cycles::first_coming_back;
use std::alloc::{AllocError, Global};
use widl_graph::Walk;
use widl_idl::Violation;
use widl_names::{Meanings, parent_graph};

/// The first place of the name of an interface or a dictionary that inherits from itself.
///
/// # Errors
///
/// `AllocError` where there is no memory.
pub fn first_inheriting_from_itself(
    alloc: Global,
    meanings: &Meanings<'_, '_>,
) -> Result<Option<Violation>, AllocError>
    ensures { IfOk result (λ found. FirstWhere (BreaksMerging (plain_definitions meanings.now) rule.InheritsFromItself) found) }
{
    let graph = parent_graph(alloc, meanings)?;
    let walk = Walk::over(alloc, &graph)?;
    Ok(first_coming_back(walk.cyclic.as_slice(), meanings.all()))
}
