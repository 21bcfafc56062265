//! Which steps blocks of a script are for which overloads of namespaces' operations.

ghost use Rattle.std.specs.Prelude.{◌≡◌, ◌&&◌, ◌<◌, Bool, nat_eq, length, map, slice_get, IfOk, List, None, OnOk, Some, ℕ, if◌then◌else◌};
ghost use Rattle.std.specs.Option.{option_or};
ghost use Rattle.widl_idl.specs.declared.callee.Callee.{Callee};
ghost use Rattle.widl_idl.specs.Counts.{IsNumbered, IsNumberedList, NumberedNamespace, NumberedOp};
ghost use Rattle.widl_idl.specs.DefinitionTerms.{OpNameTerm, SpaceTerm, defs_term, op_name_term, space_term};
ghost use Rattle.widl_script_tree.specs.declared.steps.Target.{Target};
ghost use Rattle.widl_script_tree.specs.Parts.{IsLowerRow};
ghost use Rattle.widl_script_tree.specs.Tables.{same_callee, statement_tree, statements_tree};
ghost use Rattle.widl_script.specs.CalleeBlocks.{block_for, block_in, block_of, first_lines, lines_asked, lines_for, lines_if, target_at, AreTargets};
ghost use Rattle.widl_script_rules.specs.OperationTargets.{names};
ghost use Rattle.widl_script.specs.Scripts.{callee_of};
ghost use Rattle.widl_script_rules.specs.Targets.{is_target_of};

use indexmap::IndexMap;
use std::alloc::{AllocError, Global};
use widl_idl::{Callee, Defs, OpName, Owner, Part, Space};
use widl_script_rules::operation_target::{OperationTarget, operation_target};
use widl_script_tree::{Row, ScriptTables, Statement};

/// The numbers of steps blocks, by what they are for.
type Blocks<'t> = IndexMap<OperationTarget<'t>, u32>;

/// The same, by the numbers in a list of definitions.
type Targets = IndexMap<(Callee, Option<u32>), u32>;

/// The number of the steps block that the statement at a place is.
fn block_at(tables: &ScriptTables, place: u32) -> Option<u32>
    ensures { (is_asked : Target → Bool) → lines_asked is_asked (statement_tree tables.now place) ≡ lines_if tables.now is_asked result }
{
    match tables.real_statement(place) {
        Statement::Steps(number) => Some(*number),
        _ => None,
    }
}

/// Keeps the number of a block for what it is for, unless there is one.
fn add_block<'t>(
    blocks: &mut Blocks<'t>,
    target: OperationTarget<'t>,
    number: u32,
) -> Result<(), AllocError>
    ensures { OnOk result ((owner name : List ℕ) (k : ℕ) → block_for blocks.new owner name k ≡ option_or (block_for blocks.old owner name k) (if names target.entry owner name k then Some number else None)) }
{
    if blocks.contains_key(&target) {
        return Ok(());
    }
    blocks.insert(target, number)?;
    Ok(())
}

/// Keeps the statement at a place, if it is a steps block for an operation.
fn add_statement<'t>(
    blocks: &mut Blocks<'t>,
    tables: &'t ScriptTables,
    place: u32,
) -> Result<(), AllocError>
    ensures { OnOk result ((space : SpaceTerm) (o : OpNameTerm) (k : ℕ) → lines_for tables.now blocks.new space o k ≡ option_or (lines_for tables.now blocks.old space o k) (lines_asked (is_target_of space o k) (statement_tree tables.now place))) }
{
    let Some(number) = block_at(tables, place) else {
        return Ok(());
    };
    let Some(block) = tables.steps(number) else {
        return Ok(());
    };
    let Some(target) = operation_target(&block.target) else {
        return Ok(());
    };
    add_block(blocks, target, number)?;
    Ok(())
}

/// The steps blocks among statements, of several for one overload the first.
fn blocks_by_name(
    alloc: Global,
    tables: &ScriptTables,
    statements: Row,
) -> Result<Blocks<'_>, AllocError>
    requires { IsLowerRow (length tables.now.statements) statements }
    ensures { IfOk result (λ blocks. (space : SpaceTerm) (o : OpNameTerm) (k : ℕ) → lines_for tables.now blocks space o k ≡ first_lines (is_target_of space o k) (statements_tree tables.now statements)) }
{
    // The row lies among the statements, which 32 bits can number.
    let _count = tables.statement_count();
    let past = statements.first + statements.count;
    let mut blocks = IndexMap::new(alloc);
    'places: for place in statements.first..past {
        add_statement(&mut blocks, tables, place)?;
    }
    Ok(blocks)
}

/// The number of the block for an overload, by the names of its namespace and its operation.
fn block_named<'x>(
    blocks: &Blocks<'x>,
    owner: &'x [u16],
    name: &'x [u16],
    overload: u32,
) -> Option<u32>
    ensures { result ≡ block_for blocks.now owner.now name.now overload }
{
    let target = OperationTarget {
        owner,
        name,
        overload,
    };
    blocks.get(&target).copied()
}

/// Says of an overload which block is for it, if there is one.
fn add_overload(
    targets: &mut Targets,
    callee: Callee,
    overload: u32,
    block: Option<u32>,
) -> Result<(), AllocError>
    ensures { OnOk result ((other : Callee) (k : ℕ) → target_at targets.new.entries other k ≡ option_or (if same_callee callee other && nat_eq overload k then block else None) (target_at targets.old.entries other k)) }
{
    let Some(number) = block else {
        return Ok(());
    };
    targets.insert((callee, Some(overload)), number)?;
    Ok(())
}

/// Says of the overloads of an operation which blocks are for them.
fn add_operation<'x>(
    targets: &mut Targets,
    blocks: &Blocks<'x>,
    owner: &'x [u16],
    callee: Callee,
    operation: &'x OpName,
) -> Result<(), AllocError>
    requires { length operation.now.sigs < 4294967296 }
    ensures { OnOk result ((other : Callee) (k : ℕ) → target_at targets.new.entries other k ≡ option_or (if same_callee callee other then block_of blocks.now owner.now (Some (op_name_term operation.now)) k else None) (target_at targets.old.entries other k)) }
{
    let name = operation.name.as_slice();
    let count = operation.sigs.len() as u32;
    'overloads: for overload in 0..count {
        let block = block_named(blocks, owner, name, overload);
        add_overload(targets, callee, overload, block)?;
    }
    Ok(())
}

/// Says of the overloads of a namespace's operations which blocks are for them.
fn add_operations<'x>(
    targets: &mut Targets,
    blocks: &Blocks<'x>,
    number: u32,
    owner: &'x [u16],
    operations: &'x [OpName],
) -> Result<(), AllocError>
    requires { IsNumbered NumberedOp operations.now }
    ensures { OnOk result ((n m k : ℕ) → target_at targets.new.entries (callee_of n m) k ≡ option_or (if nat_eq number n then block_of blocks.now owner.now (slice_get (map op_name_term operations.now) m) k else None) (target_at targets.old.entries (callee_of n m) k)) }
{
    'each: for (place, operation) in operations.iter().enumerate() {
        let callee = Callee {
            owner: Owner::Space(number),
            part: Part::Op(place as u32),
        };
        add_operation(targets, blocks, owner, callee, operation)?;
    }
    Ok(())
}

/// The blocks for the overloads of namespaces' operations.
fn targets_of<'x>(
    alloc: Global,
    blocks: &Blocks<'x>,
    spaces: &'x [Space],
) -> Result<Targets, AllocError>
    requires { IsNumbered NumberedNamespace spaces.now }
    ensures { IfOk result (λ targets. (n m k : ℕ) → target_at targets.entries (callee_of n m) k ≡ block_in blocks.now (slice_get (map space_term spaces.now) n) m k) }
{
    let mut targets = IndexMap::new(alloc);
    'spaces: for (number, space) in spaces.iter().enumerate() {
        let owner = space.name.as_slice();
        let operations = space.ops.as_slice();
        add_operations(&mut targets, blocks, number as u32, owner, operations)?;
    }
    Ok(targets)
}

/// The numbers of the steps blocks among statements, by the overloads of a list that they are for.
pub(crate) fn blocks_of_overloads<'x>(
    alloc: Global,
    tables: &'x ScriptTables,
    statements: Row,
    list: &'x Defs,
) -> Result<Targets, AllocError>
    requires lower { IsLowerRow (length tables.now.statements) statements }
    requires numbered { IsNumberedList list.now }
    ensures { IfOk result (λ targets. AreTargets (defs_term list.now) tables.now statements targets.entries) }
{
    let blocks = blocks_by_name(alloc, tables, statements)?;
    let spaces = list.spaces.as_slice();
    targets_of(alloc, &blocks, spaces)
}
