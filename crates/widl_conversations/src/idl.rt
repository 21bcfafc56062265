//! Tables of the definitions that rows need.

ghost use Rattle.std.specs.Prelude.{◌≤◌, length};
ghost use Rattle.widl_text.specs.Limits.{most_file_bytes};

use crate::fault::Fault;
use crate::repeats::expanded;
use crate::task::{Task, many_of, with_steps};
use std::alloc::{AllocError, Global};
use widl_front::{Verdict, judge_one};
use widl_idl::{Callee, IdlType, Owner, Part};
use widl_overload::{Accepted, type_at};
use widl_tables::{Tables, compile};
use widl_text::limits::MOST_FILE_BYTES;

/// The operations of the first name of the first namespace.
pub const OPERATION: Callee = Callee {
    owner: Owner::Space(0),
    part: Part::Op(0),
};

/// The set of one file, which is accepted.
fn accepted(alloc: Global, file: &[u8]) -> Result<Accepted, Fault>
    requires { length file.now ≤ most_file_bytes }
{
    match judge_one(alloc, file)? {
        Verdict::Accepted(list) => Ok(list),
        Verdict::Fault(_) | Verdict::Broken(_) => Err(Fault::Line("the definitions are refused")),
    }
}

/// The tables of one file, which is accepted.
fn tables_of(alloc: Global, file: &[u8]) -> Result<Tables, Fault> {
    if file.len() > MOST_FILE_BYTES {
        return Err(Fault::Line("the definitions are too long"));
    }
    Ok(compile(alloc, accepted(alloc, file)?)?)
}

/// The operations whose overloads have these arguments, with semicolons between.
fn overloads(alloc: Global, lists: &str) -> Result<String, Fault> {
    let mut operations = String::new(alloc);
    for list in lists.split(';') {
        write!(operations, "undefined f({}); ", list.trim())?;
    }
    Ok(operations)
}

/// The operation whose argument is of a type; of `undefined`, which no argument is, it has none.
fn with_type(alloc: Global, ty: &str) -> Result<String, Fault> {
    if ty == "undefined" {
        return Ok(String::from_str(alloc, "undefined f();")?);
    }
    Ok(format!(in alloc; "undefined f({ty} a);")?)
}

/// The operations that a row of a task needs.
fn operations_for(alloc: Global, task: Task, of: &str) -> Result<String, Fault> {
    match task {
        Task::Conversions | Task::Results => with_type(alloc, of),
        Task::Many => with_type(alloc, many_of(of).1),
        Task::Resolutions => overloads(alloc, of),
        Task::Callees => overloads(alloc, "long... a"),
        Task::Operations => Ok(String::from_str(alloc, with_steps(of).0)?),
        Task::Scalars | Task::Functions => Ok(String::new(alloc)),
    }
}

/// The tables of the definitions and of a namespace of the operations that a row needs.
pub fn tables_for(alloc: Global, definitions: &str, task: Task, of: &str) -> Result<Tables, Fault> {
    let operations = operations_for(alloc, task, of)?;
    let definitions = expanded(alloc, definitions)?;
    let file = format!(in alloc; "{definitions} namespace N {{ {operations} }};")?;
    tables_of(alloc, file.as_str().as_bytes())
}

/// The type of the first argument of the operation, undefined where there is none.
pub fn first_type(alloc: Global, tables: &Tables) -> Result<IdlType, AllocError> {
    match type_at(tables.list().defs(), &OPERATION, 0, 0) {
        Some(first) => first.ty.copy(alloc),
        None => Ok(IdlType::Undefined),
    }
}
