//! The overloads that targets name, looked up by the names of namespaces and operations.

ghost use Rattle.std.specs.Prelude.{◌≡◌, bytes_eq, IfOk, List, None, OnOk, Option, Some, ℕ, option_map, if◌then◌else◌};
ghost use Rattle.std.specs.Option.{option_and_then, option_or};
ghost use Rattle.indexmap.specs.IndexMap.{get_by};
ghost use Rattle.widl_idl.specs.DefinitionTerms.{DefsTerm, SpaceTerm, defs_term, op_name_term, space_term};
ghost use Rattle.widl_script_rules.specs.Lookups.{AreNamespaces, HaveOperations, IsSpaceOf, operation_in, overload_term};
ghost use Rattle.widl_script_rules.specs.Targets.{overload_in, overload_of, space_named};

use indexmap::IndexMap;
use std::alloc::{AllocError, Global};
use widl_idl::{Defs, OpName, Sig, Space};
use widl_script_tree::Target;

/// An overload of a namespace's operation.
#[derive(Clone, Copy)]
pub(crate) struct Overload<'d> {
    /// The namespace.
    pub(crate) space: &'d Space,
    /// The overload's signature.
    pub(crate) signature: &'d Sig,
}

/// A namespace, and its operations by their names.
#[derive(Drop)]
pub(crate) struct Namespace<'d> {
    space: &'d Space,
    operations: IndexMap<&'d [u16], &'d OpName>,
}

/// The namespaces of a list, by their names.
#[derive(Drop)]
pub(crate) struct Namespaces<'d> {
    by_name: IndexMap<&'d [u16], Namespace<'d>>,
}

/// Keeps an operation under its name, unless there is one.
fn add_operation<'d>(
    operations: &mut IndexMap<&'d [u16], &'d OpName>,
    operation: &'d OpName,
) -> Result<(), AllocError>
    ensures { OnOk result ((text : List ℕ) → operation_in operations.new text ≡ option_or (operation_in operations.old text) (if bytes_eq text operation.now.name then Some (op_name_term operation.now) else None)) }
{
    let name = operation.name.as_slice();
    if !operations.contains_key(name) {
        operations.insert(name, operation)?;
    }
    Ok(())
}

/// The operations of a namespace, by their names.
fn operations_of(alloc: Global, space: &Space) -> Result<IndexMap<&[u16], &OpName>, AllocError>
    ensures { IfOk result (λ operations. HaveOperations operations (space_term space.now).members.ops) }
{
    let mut operations = IndexMap::new(alloc);
    'ops: for operation in space.ops.as_slice() {
        add_operation(&mut operations, operation)?;
    }
    Ok(operations)
}

/// Keeps a namespace under its name, unless there is one.
fn add_space<'d>(
    alloc: Global,
    spaces: &mut IndexMap<&'d [u16], Namespace<'d>>,
    space: &'d Space,
) -> Result<(), AllocError>
    ensures { OnOk result ((text : List ℕ) (found : Option SpaceTerm) → IsSpaceOf (get_by (λ k. bytes_eq text k.now) spaces.old) found → IsSpaceOf (get_by (λ k. bytes_eq text k.now) spaces.new) (option_or found (if bytes_eq text space.now.name then Some (space_term space.now) else None))) }
{
    let name = space.name.as_slice();
    if !spaces.contains_key(name) {
        let operations = operations_of(alloc, space)?;
        spaces.insert(name, Namespace { space, operations })?;
    }
    Ok(())
}

impl<'d> Namespaces<'d> {
    /// Those of a list.
    pub(crate) fn of(alloc: Global, list: &'d Defs) -> Result<Namespaces<'d>, AllocError>
        ensures { IfOk result (λ spaces. AreNamespaces (defs_term list.now) spaces) }
    {
        let mut by_name = IndexMap::new(alloc);
        'spaces: for space in list.spaces.as_slice() {
            add_space(alloc, &mut by_name, space)?;
        }
        Ok(Namespaces { by_name })
    }

    /// The overload of a number of a namespace's operation, by their names.
    fn named(&self, owner: &[u16], name: &[u16], number: u32) -> Option<Overload<'d>>
        ensures { (list : DefsTerm) → AreNamespaces list self.now → option_map overload_term result ≡ option_and_then (overload_in name.now number) (space_named list owner.now) }
    {
        let namespace = self.by_name.get(owner)?;
        let operation = namespace.operations.get(name)?;
        let signature = operation.sigs.as_slice().get(number as usize)?;
        Some(Overload {
            space: namespace.space,
            signature,
        })
    }

    /// The overload that a target names.
    pub(crate) fn overload(&self, target: &Target) -> Option<Overload<'d>>
        ensures { (list : DefsTerm) → AreNamespaces list self.now → option_map overload_term result ≡ overload_of list target.now }
    {
        match target {
            Target::Operation {
                owner,
                name,
                fixed: false,
                overload,
            } => self.named(owner.as_slice(), name.as_slice(), *overload),
            _ => None,
        }
    }
}
