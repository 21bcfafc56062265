//! The word `nodes`: a long chain of members is put into the tables of a script.

ghost use Rattle.std.specs.Prelude.{◌<◌, length};

use anyhow::{Result, bail};
use std::alloc::Global;
use std::mem;
use widl_script_tree::{Expression, MemberKey, MemberOf, ScriptTables};
use widl_text::Units;

/// How many nodes are put.
const NODES: u32 = 1_000_000;

/// Puts `NAME`, and answers its place.
fn put_name(tables: &mut ScriptTables, name: u32) -> Result<u32> {
    if tables.expression_count() == u32::MAX || name >= tables.name_count() {
        bail!("no such name");
    }
    Ok(tables.put_expression(Expression::Name(name))?)
}

/// Puts `E.NAME`, and answers its place.
fn put_member(tables: &mut ScriptTables, of: u32, name: u32) -> Result<u32> {
    let count = tables.expression_count();
    if count == u32::MAX || of >= count || name >= tables.name_count() {
        bail!("no such part");
    }
    let key = MemberKey::Named(name);
    Ok(tables.put_expression(Expression::Member(MemberOf { of, key }))?)
}

/// Puts `o.o.o..`, and counts its nodes.
fn put_chain(alloc: Global, tables: &mut ScriptTables) -> Result<u32>
    requires { length tables.old.names < u32.MAX }
{
    let name = tables.put_name(Units::of_str(alloc, "o")?)?;
    let mut place = put_name(tables, name)?;
    for _ in 1..NODES {
        place = put_member(tables, place, name)?;
    }
    Ok(tables.expression_count())
}

/// Prints how many nodes were put. The memory of the tables is left to the end of the program.
pub fn run(rt: &HostRuntime) -> Result<()> {
    let mut tables = ScriptTables::new(rt.alloc());
    let nodes = put_chain(rt.alloc(), &mut tables);
    mem::forget(tables);
    println!(rt; "{} nodes", nodes?)?;
    Ok(())
}
