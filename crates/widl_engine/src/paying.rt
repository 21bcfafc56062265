//! What is owed for a charge, and how its line is emitted.

ghost use Rattle.std.specs.Prelude.{◌≡◌, ◌++◌, IfOk, OnErr, OnOk, length};
ghost use Rattle.widl_script_tree.specs.Tables as script_tables;
ghost use Rattle.widl_sink.specs.Causes.{HasCause};
ghost use Rattle.widl_sink.specs.Growth.{GrewByPrefix, Sends};
ghost use Rattle.widl_runs.specs.Jobs.{Program};
ghost use Rattle.widl_engine.specs.declared.charges.Unit as units;
ghost use Rattle.widl_engine.specs.Frames.{program_of};
ghost use Rattle.widl_engine.specs.Machine.{written};
ghost use Rattle.widl_engine.specs.Stepping.{IsOwed, bytes_in};

use crate::charges::{AfterLine, Charge};
use std::alloc::{AllocError, Global};
use widl_tables::Tables;
use widl_trace::{Event, Line, Sink, WriteFailed, Writer, cost, line_within};

/// What is owed for a charge.
#[derive(Drop)]
pub struct Owed {
    /// The units.
    pub units: u32,
    /// The line; a unit has none.
    pub line: Option<Line>,
}

/// What is owed for one unit.
fn unit_owed(left: u32) -> Option<Owed>
    ensures { (p : Program) (u : units.Unit) → IsOwed p (Charge.Unit u) left result }
{
    if left == 0 {
        return None;
    }
    Some(Owed {
        units: 1,
        line: None,
    })
}

/// What is owed for a line. No more of it is made than the units that are left pay for.
///
/// # Errors
///
/// `AllocError` where there is no memory.
fn line_owed(
    alloc: Global,
    tables: &Tables,
    event: &Event,
    left: u32,
) -> Result<Option<Owed>, AllocError>
    ensures { IfOk result (λ o. (s : script_tables.Tables) (then : AfterLine) → IsOwed (program_of tables.now s) (Charge.Line event.now then) left o) }
{
    if left == 0 {
        return Ok(None);
    }
    let most = 64 * left as usize - 1;
    match line_within(alloc, tables.list(), event, most)? {
        None => Ok(None),
        Some(line) => {
            let units = cost(&line) as u32;
            Ok(Some(Owed {
                units,
                line: Some(line),
            }))
        }
    }
}

/// What is owed for a charge; `None` where the units that are left don't pay for it.
///
/// # Errors
///
/// `AllocError` where there is no memory.
pub(crate) fn owed_for(
    alloc: Global,
    tables: &Tables,
    charge: &Charge,
    left: u32,
) -> Result<Option<Owed>, AllocError>
    ensures { IfOk result (λ o. (s : script_tables.Tables) → IsOwed (program_of tables.now s) charge.now left o) }
{
    match charge {
        Charge::Unit(_) => Ok(unit_owed(left)),
        Charge::Line { event, then: _ } => line_owed(alloc, tables, event, left),
    }
}

/// Emits a line, if there is one.
///
/// # Errors
///
/// `WriteFailed` where the sink failed.
pub(crate) fn emit<K: Sink>(
    line: &Option<Line>,
    writer: &mut Writer,
    out: &mut K,
) -> Result<(), WriteFailed>
    ensures ok { OnOk result (Sends (K.held out.old) (K.held out.new) writer.old (bytes_in line.now) writer.new) }
    ensures err { OnErr result (GrewByPrefix (K.held out.old) (K.held out.new) (writer.old ++ bytes_in line.now)) }
    ensures cause { HasCause (K.faults out.old) (K.faults out.new) result }
{
    match line {
        None => Ok(()),
        Some(line) => writer.emit(line, out),
    }
}

/// How many lines a charge has: one or none.
pub(crate) fn count_of_lines(charge: &Charge) -> u32
    ensures { result ≡ length (written charge.now) }
{
    match charge {
        Charge::Unit(_) => 0,
        Charge::Line { event: _, then: _ } => 1,
    }
}
