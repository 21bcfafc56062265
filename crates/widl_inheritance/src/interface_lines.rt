//! What interfaces have of iteration themselves, and what they inherit (Web IDL, "inherited interfaces").

ghost use Rattle.std.specs.Prelude.{◌≡◌, length, IfOk};
ghost use Rattle.widl_idl.specs.MergingRules.{parent_links};
ghost use Rattle.widl_idl.specs.PlainTrees.{plain_definitions};
ghost use Rattle.widl_inheritance.specs.Iterations.{TellsMembers};
ghost use Rattle.widl_graph.specs.Reaching.{IsAcyclic};
ghost use Rattle.widl_graph.specs.Flags.{TellsReached};
ghost use Rattle.widl_overload.specs.rules.IterableRules.{has_iterable, has_iteration_name};

use crate::interface_members::interface_members;
use crate::iterations::{has_iterable, has_iteration_name};
use std::alloc::{AllocError, Global};
use widl_graph::{Walk, flags_reached};
use widl_names::{Meanings, Scope, parent_graph};

/// Flags of interfaces, by the numbers of their definitions.
#[derive(Drop)]
pub struct InterfaceFlags {
    /// Whether there is an iterable.
    pub iterable: Vec<bool>,
    /// Whether there is a member that is named as one of an iterable's methods.
    pub named: Vec<bool>,
}

/// What each interface has among its own members and those of its partials and mixins.
///
/// # Errors
///
/// `AllocError` where there is no memory.
pub fn own_flags(alloc: Global, scope: &Scope<'_, '_>) -> Result<InterfaceFlags, AllocError>
    ensures iterable { IfOk result (λ own. TellsMembers has_iterable (plain_definitions scope.now) own.iterable.items) }
    ensures named { IfOk result (λ own. TellsMembers has_iteration_name (plain_definitions scope.now) own.named.items) }
{
    let mut iterable = Vec::new(alloc);
    let mut named = Vec::new(alloc);
    for number in 0..scope.all().len() {
        let members = interface_members(alloc, scope, number)?;
        iterable.push(has_iterable(&members))?;
        named.push(has_iteration_name(&members))?;
    }
    Ok(InterfaceFlags { iterable, named })
}

/// What each interface inherits, where its own flags and those of all others are at hand.
///
/// # Errors
///
/// `AllocError` where there is no memory.
pub fn inherited_flags(
    alloc: Global,
    meanings: &Meanings<'_, '_>,
    own: &InterfaceFlags,
) -> Result<InterfaceFlags, AllocError>
    requires { IsAcyclic (parent_links (plain_definitions meanings.now)) }
    ensures iterable { IfOk result (λ found. TellsReached (parent_links (plain_definitions meanings.now)) own.now.iterable.items found.iterable.items) }
    ensures named { IfOk result (λ found. TellsReached (parent_links (plain_definitions meanings.now)) own.now.named.items found.named.items) }
{
    let graph = parent_graph(alloc, meanings)?;
    let walk = Walk::over(alloc, &graph)?;
    let iterable = flags_reached(alloc, &graph, &walk, own.iterable.as_slice())?;
    let named = flags_reached(alloc, &graph, &walk, own.named.as_slice())?;
    Ok(InterfaceFlags { iterable, named })
}
