//! The rules on overloads: those of one length are distinguishable, by the first argument at which they
//! differ.

ghost use Rattle.std.specs.Prelude.{◌≡◌, IfOk, [], ◌∷◌, map};
ghost use Rattle.widl_idl.specs.Counts.{IsNumbered, IsNumberedList, NumberedInterface, NumberedNamespace, NumberedOp};
ghost use Rattle.widl_idl.specs.DefinitionTerms.{defs_term, iface_term, op_name_term, sig_term, space_term};
ghost use Rattle.widl_overload.specs.sets.OverloadLists.{lists_of_interface, lists_of_interfaces, lists_of_namespaces};
ghost use Rattle.widl_overload.specs.rules.OverloadRules.{operation_lists, overload_lists};
ghost use Rattle.widl_overload.specs.rules.OverloadViolations.{AreViolationsAt, AreViolationsIn};
ghost use Rattle.widl_overload.specs.sets.Sets.{AreNumbered};

use crate::overload_names::at_names;
use crate::overload_sizes::breaking_lengths;
use crate::overload_violations::OverloadViolations;
use crate::sets::longest_list;
use crate::span::spans_of;
use std::alloc::{AllocError, Global};
use widl_idl::{Defs, Iface, OpName, Sig, Space, Violation};

/// The first violations by both rules, in one walk over all that can be called.
///
/// # Errors
///
/// `AllocError` where there is no memory.
pub fn first_overload_violations(
    alloc: Global,
    defs: &Defs,
) -> Result<OverloadViolations, AllocError>
    requires { IsNumberedList defs.now }
    ensures { IfOk result (λ violations. AreViolationsIn (defs_term defs.now).ifaces (overload_lists (defs_term defs.now)) violations) }
{
    let in_interfaces = violations_in_interfaces(alloc, defs, defs.ifaces.as_slice())?;
    let in_namespaces = violations_in_namespaces(alloc, defs, defs.spaces.as_slice())?;
    Ok(in_interfaces.earlier(in_namespaces))
}

fn violations_in_interfaces(
    alloc: Global,
    defs: &Defs,
    ifaces: &[Iface],
) -> Result<OverloadViolations, AllocError>
    requires { IsNumbered NumberedInterface ifaces.now }
    ensures { IfOk result (λ violations. AreViolationsIn (defs_term defs.now).ifaces (lists_of_interfaces (map iface_term ifaces.now)) violations) }
{
    let mut best = OverloadViolations::none();
    for iface in ifaces {
        let found = violations_in_interface(alloc, defs, iface)?;
        best = best.earlier(found);
    }
    Ok(best)
}

fn violations_in_interface(
    alloc: Global,
    defs: &Defs,
    iface: &Iface,
) -> Result<OverloadViolations, AllocError>
    requires { NumberedInterface iface.now }
    ensures { IfOk result (λ violations. AreViolationsIn (defs_term defs.now).ifaces (lists_of_interface (iface_term iface.now)) violations) }
{
    let constructors = violations_of_overloads(alloc, defs, iface.ctors.as_slice())?;
    let operations = violations_in_operations(alloc, defs, iface.ops.as_slice())?;
    Ok(constructors.earlier(operations))
}

fn violations_in_namespaces(
    alloc: Global,
    defs: &Defs,
    spaces: &[Space],
) -> Result<OverloadViolations, AllocError>
    requires { IsNumbered NumberedNamespace spaces.now }
    ensures { IfOk result (λ violations. AreViolationsIn (defs_term defs.now).ifaces (lists_of_namespaces (map space_term spaces.now)) violations) }
{
    let mut best = OverloadViolations::none();
    for space in spaces {
        let found = violations_in_operations(alloc, defs, space.ops.as_slice())?;
        best = best.earlier(found);
    }
    Ok(best)
}

fn violations_in_operations(
    alloc: Global,
    defs: &Defs,
    ops: &[OpName],
) -> Result<OverloadViolations, AllocError>
    requires { IsNumbered NumberedOp ops.now }
    ensures { IfOk result (λ violations. AreViolationsIn (defs_term defs.now).ifaces (operation_lists (map op_name_term ops.now)) violations) }
{
    let mut best = OverloadViolations::none();
    for op in ops {
        let found = violations_of_operation(alloc, defs, op)?;
        best = best.earlier(found);
    }
    Ok(best)
}

/// The violations of the operations of one name; those without a name can't be called.
fn violations_of_operation(
    alloc: Global,
    defs: &Defs,
    op: &OpName,
) -> Result<OverloadViolations, AllocError>
    requires { NumberedOp op.now }
    ensures { IfOk result (λ violations. AreViolationsIn (defs_term defs.now).ifaces (operation_lists (op_name_term op.now ∷ [])) violations) }
{
    if op.name.len() == 0 {
        Ok(OverloadViolations::none())
    } else {
        violations_of_overloads(alloc, defs, op.sigs.as_slice())
    }
}

/// The violations of the overloads of one callee. A single overload has one tuple of each length at most.
pub(crate) fn violations_of_overloads(
    alloc: Global,
    defs: &Defs,
    sigs: &[Sig],
) -> Result<OverloadViolations, AllocError>
    requires { AreNumbered (map sig_term sigs.now) }
    ensures { IfOk result (λ violations. AreViolationsAt (defs_term defs.now).ifaces (map sig_term sigs.now) violations) }
{
    if sigs.len() < 2 {
        return Ok(OverloadViolations::none());
    }
    let spans = spans_of(alloc, sigs)?;
    let most = longest_list(sigs);
    let lengths = breaking_lengths(alloc, defs, sigs, spans.as_slice(), most)?;
    let indistinguishable = at_names(alloc, sigs, spans.as_slice(), lengths.indistinguishable)?;
    let early = at_names(alloc, sigs, spans.as_slice(), lengths.early)?;
    Ok(OverloadViolations {
        indistinguishable,
        early,
    })
}
