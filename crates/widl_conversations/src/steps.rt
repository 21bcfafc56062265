//! Scripts with one steps block.
//!
//! Its lines have semicolons between. A line is `return arg N`, `return literal` and a literal, `return this`, `clear`,
//! or `throw` and a value.

use crate::fault::Fault;
use crate::idl::OPERATION;
use crate::literals::literal_of;
use crate::values::value_of;
use indexmap::IndexMap;
use std::alloc::Global;
use std::mem::ManuallyDrop;
use widl_idl::Callee;
use widl_script_tree::{
    Row, Script, ScriptTables, Source, StepLine, StepLines, StepsBlock, Target,
};
use widl_text::Units;

/// A line.
fn step_line_of(alloc: Global, line: &str) -> Result<StepLine, Fault> {
    if line == "clear" {
        return Ok(StepLine::Clear);
    }
    if line == "return this" {
        return Ok(StepLine::Return(Source::This));
    }
    if let Some(number) = line.strip_prefix("return arg ") {
        return Ok(StepLine::Return(Source::Arg(number.parse::<u32>()?)));
    }
    if let Some(literal) = line.strip_prefix("return literal ") {
        return Ok(StepLine::Return(Source::Literal(literal_of(alloc, literal)?)));
    }
    match line.strip_prefix("throw ") {
        Some(value) => Ok(StepLine::Throw(value_of(alloc, value)?)),
        None => Err(Fault::Line("this is no line of steps")),
    }
}

/// The lines of a block.
fn step_lines_of(alloc: Global, text: &str) -> Result<StepLines, Fault> {
    let mut lines = ManuallyDrop::new(StepLines::new(alloc));
    for line in text.split(';') {
        lines.push(step_line_of(alloc, line.trim())?)?;
    }
    Ok(ManuallyDrop::into_inner(lines))
}

/// The block of an overload.
fn block(alloc: Global, overload: u32, lines: StepLines) -> Result<StepsBlock, Fault> {
    let lines = ManuallyDrop::new(lines);
    Ok(StepsBlock {
        target: Target::Operation {
            owner: Units::of_str(alloc, "N")?,
            name: Units::of_str(alloc, "f")?,
            fixed: false,
            overload,
        },
        lines: ManuallyDrop::into_inner(lines),
    })
}

/// Tables with a block.
fn tables_with(alloc: Global, block: StepsBlock) -> Result<ScriptTables, Fault> {
    let mut tables = ScriptTables::new(alloc);
    match tables.put_steps(block) {
        Ok(_) => Ok(tables),
        Err(error) => {
            drop(tables);
            Err(Fault::from(error))
        }
    }
}

/// The numbers of the blocks for overloads: the first for this one.
fn targets(alloc: Global, overload: u32) -> Result<IndexMap<(Callee, Option<u32>), u32>, Fault> {
    let mut targets = ManuallyDrop::new(IndexMap::new(alloc));
    targets.insert((OPERATION, Some(overload)), 0)?;
    Ok(ManuallyDrop::into_inner(targets))
}

/// A script of these tables.
fn finish(
    alloc: Global,
    tables: ScriptTables,
    targets: IndexMap<(Callee, Option<u32>), u32>,
) -> Script {
    tables.finish(Row { first: 0, count: 0 }, IndexMap::new(alloc), targets)
}

/// The overload and the lines of steps, which may begin with `#` and the number of the overload.
fn overload_of(steps: &str) -> Result<(u32, &str), Fault> {
    let Some(rest) = steps.strip_prefix('#') else {
        return Ok((0, steps));
    };
    match rest.split_once(' ') {
        Some((overload, lines)) => Ok((overload.parse::<u32>()?, lines)),
        None => Err(Fault::Line("steps of an overload are wanted")),
    }
}

/// A script with these steps for an overload of the first operation of the first namespace.
fn script_with(alloc: Global, steps: &str) -> Result<Script, Fault> {
    let (overload, lines) = overload_of(steps)?;
    let targets = ManuallyDrop::new(targets(alloc, overload)?);
    let block = block(alloc, overload, step_lines_of(alloc, lines)?)?;
    let tables = tables_with(alloc, block)?;
    Ok(finish(alloc, tables, ManuallyDrop::into_inner(targets)))
}

/// A script with these steps, if there are any.
pub fn script_of(alloc: Global, steps: Option<&str>) -> Result<Script, Fault> {
    match steps {
        Some(steps) => script_with(alloc, steps),
        None => Ok(finish(alloc, ScriptTables::new(alloc), IndexMap::new(alloc))),
    }
}
