//! The first refusal of a set of files.

ghost use Rattle.std.specs.Prelude.{◌≡◌, IfOk, Some, None};
ghost use Rattle.widl_idl.specs.Nodes.{nodes_of};
ghost use Rattle.widl_idl.specs.PlainTrees.{plain_definitions};
ghost use Rattle.widl_names.specs.Listings.{nodes_listed};
ghost use Rattle.widl_merge.specs.Refusals.{IsRefusal};

use crate::merging::first_unmerged;
use crate::profile::first_unsupported;
use std::alloc::{AllocError, Global};
use widl_idl::Refusal;
use widl_names::{Node, Scope, list_nodes};

/// The first refusal of a set of files: by the rules of the profile, or, where none of these is broken, by
/// the rules of merging. None where all of them are kept. What is listed for it is given back with the
/// answer, before the merged list is made.
///
/// # Errors
///
/// `AllocError` where there is no memory.
pub fn find_refusal(alloc: Global, scope: &Scope<'_, '_>) -> Result<Option<Refusal>, AllocError>
    ensures { IfOk result (λ refusal. IsRefusal (plain_definitions scope.now) refusal) }
{
    let nodes = list_nodes(alloc, scope.all())?;
    find_in_nodes(alloc, scope, &nodes)
}

/// The same, where everything that is written in the definitions is listed.
///
/// # Errors
///
/// `AllocError` where there is no memory.
fn find_in_nodes(
    alloc: Global,
    scope: &Scope<'_, '_>,
    nodes: &[Node<'_>],
) -> Result<Option<Refusal>, AllocError>
    requires { nodes_listed nodes.now ≡ nodes_of (plain_definitions scope.now) }
    ensures { IfOk result (λ refusal. IsRefusal (plain_definitions scope.now) refusal) }
{
    match first_unsupported(nodes) {
        Some(refusal) => Ok(Some(refusal)),
        None => Ok(first_unmerged(alloc, scope, nodes)?),
    }
}
