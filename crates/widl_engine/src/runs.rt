//! A whole run of a script.

ghost use Rattle.std.specs.Prelude.{◌≡◌, ◌≤◌, ◌<◌, ℕ};
ghost use Rattle.widl_idl.specs.MergedSets as merged;
ghost use Rattle.widl_convert.specs.Served.{IsServed};
ghost use Rattle.widl_script_tree.specs.Tables.{script_tree};
ghost use Rattle.widl_runs.specs.Fitting.{HasPlainSteps, KeepsFitting};
ghost use Rattle.widl_runs.specs.Jobs.{Program};
ghost use Rattle.widl_runs.specs.Traces as traces;
ghost use Rattle.widl_store.specs.Realm.{realm_of};
ghost use Rattle.widl_trace.specs.EventTerms.{event_term};
ghost use Rattle.widl_engine.specs.Frames.{job_end_of, list_of, move_of, program_of};
ghost use Rattle.widl_engine.specs.Outcomes.{FaultsOf, RanAs};
ghost use Rattle.widl_engine.specs.Output.{output};
ghost use Rattle.widl_engine.specs.ReadOver.{IsReadOver};
ghost use Rattle.widl_engine.specs.Running.{Became, IsFresh};
ghost use Rattle.widl_engine.specs.Stepping.{Faults};
ghost use Rattle.widl_engine.specs.Stops.{Said, ends_with};

use crate::ends::{Completion, JobEnd};
use crate::frames::Frame;
use crate::jobs::Job;
use crate::machine::{Machine, Moved, Stepped, Way, fresh};
use crate::moves::Move;
use crate::paying::count_of_lines;
use std::alloc::Global;
use widl_runs::Stop;
use widl_runs::laws::runs_fit;
use widl_script_tree::Script;
use widl_script_tree::laws::parts_are_lower;
use widl_store::Store;
use widl_store::laws::first_store_is_bounded;
use widl_tables::Tables;
use widl_trace::{Event, Sink, Writer, line};

/// How a run ends.
#[derive(Clone, Copy, Debug, PartialEq, Eq)]
pub enum End {
    /// The script has ended; the last line is `done`.
    Done,
    /// The script has thrown a value that nothing caught; the last line is `uncaught` and the value.
    Uncaught,
    /// The run was stopped; the last line says by what.
    Stopped(Stop),
    /// The sink failed.
    WriteFault,
    /// There was no memory.
    Memory,
}

/// What a run told and took.
#[derive(Clone, Copy, Debug, PartialEq, Eq)]
pub struct Counts {
    /// The lines of the trace.
    pub events: u32,
    /// The units of the budget that were taken.
    pub units: u32,
}

/// The counts of a run that has shown nothing and has taken nothing.
const NOTHING: Counts = Counts {
    events: 0,
    units: 0,
};

/// The first move: the statements outside functions, and then the last line.
fn first_move(script: &Script) -> Move
    ensures { (set : merged.MergedSet) → move_of (program_of set script.now) script.now result ≡ traces.whole (program_of set script.now) }
{
    Move::Steps(Frame::Last, Job::Statements(script.top()))
}

/// Whatever a script does fits the store before it begins and the numbers of objects: a law, which takes
/// no step.
fn fits(tables: &Tables, script: &Script)
    requires plain { HasPlainSteps (script_tree script.now).top }
    ensures { let p : Program = program_of tables.now script.now in (budget : ℕ) → budget ≤ 2000000 → KeepsFitting p (traces.whole p) (traces.first_world (realm_of p.list) budget) }
{
    first_store_is_bounded();
    runs_fit();
    parts_are_lower(script);
    let _definitions = tables.list().defs();
}

/// Does a script up to its last line, or up to what stops it, by a machine that has done nothing.
fn take_charges<K: Sink>(
    alloc: Global,
    tables: &Tables,
    store: &mut Store,
    script: &Script,
    budget: u32,
    machine: &mut Machine,
    writer: &mut Writer,
    out: &mut K,
) -> (Way, Counts)
    requires budget { budget ≤ 2000000 }
    requires fresh { IsFresh machine.old budget }
    requires read { let p : Program = program_of tables.now script.now in IsReadOver p.list script.now }
    requires fits { let p : Program = program_of tables.now script.now in KeepsFitting p (traces.whole p) (traces.first_world store.old budget) }
    ensures run { Became (program_of tables.now script.now) store.old budget (output (K.held out.old) writer.old) (output (K.held out.new) writer.new) result.0 result.1 }
    ensures faults { Faults (K.faults out.old) (K.faults out.new) result.0 }
{
    let mut events = 0;
    match machine.advance(alloc, tables, script, store, first_move(script)) {
        Moved::Going => {}
        Moved::Ended(end) => return (Way::Ended(end), NOTHING),
        Moved::Stopped(stop) => return (Way::Stopped(stop), NOTHING),
        Moved::Memory => return (Way::Memory, NOTHING),
    }
    'charges: loop {
        let line = count_of_lines(&machine.due);
        match machine.step(alloc, tables, script, store, writer, out) {
            Stepped::Going => events += line,
            Stepped::Unpaid => {
                let units = machine.taken;
                return (Way::Stopped(Stop::Budget), Counts { events, units });
            }
            Stepped::Over(way) => {
                let events = events + line;
                let units = machine.taken;
                return (way, Counts { events, units });
            }
        }
    }
}

/// Does a script up to its last line, or up to what stops it.
fn drive<K: Sink>(
    alloc: Global,
    tables: &Tables,
    store: &mut Store,
    script: &Script,
    budget: u32,
    writer: &mut Writer,
    out: &mut K,
) -> (Way, Counts)
    requires budget { budget ≤ 2000000 }
    requires read { let p : Program = program_of tables.now script.now in IsReadOver p.list script.now }
    requires fits { let p : Program = program_of tables.now script.now in KeepsFitting p (traces.whole p) (traces.first_world store.old budget) }
    ensures run { Became (program_of tables.now script.now) store.old budget (output (K.held out.old) writer.old) (output (K.held out.new) writer.new) result.0 result.1 }
    ensures faults { Faults (K.faults out.old) (K.faults out.new) result.0 }
{
    let mut machine = fresh(alloc, budget);
    take_charges(
        alloc,
        tables,
        store,
        script,
        budget,
        &mut machine,
        writer,
        out,
    )
}

/// How a script ends that has ended.
fn ended(end: JobEnd) -> End
    ensures { result ≡ ends_with (job_end_of end) }
{
    match end {
        JobEnd::Completed(Completion::Normal(_)) => End::Done,
        JobEnd::Completed(Completion::Returned(_)) => End::Done,
        JobEnd::Completed(Completion::Thrown(_)) => End::Uncaught,
        JobEnd::Talked(_) => End::Done,
        JobEnd::Seen(_) => End::Done,
    }
}

/// The event of a stop.
fn stop_event(stop: Stop) -> Event
    ensures { event_term result ≡ traces.stop_event stop }
{
    match stop {
        Stop::Budget => Event::StopBudget,
        Stop::Depth => Event::StopDepth,
        Stop::Profile(end) => Event::StopProfile(end),
    }
}

/// Emits the line of a stop, which costs nothing, and says how the run ends with it.
fn say_stop<K: Sink>(
    alloc: Global,
    tables: &Tables,
    stop: Stop,
    writer: &mut Writer,
    out: &mut K,
) -> End
    ensures said { Said (list_of tables.now) stop (output (K.held out.old) writer.old) (output (K.held out.new) writer.new) result }
    ensures faults { FaultsOf (K.faults out.old) (K.faults out.new) result }
{
    match line(alloc, tables.list(), &stop_event(stop)) {
        Err(_) => End::Memory,
        Ok(line) => match writer.emit(&line, out) {
            Ok(()) => End::Stopped(stop),
            Err(_) => End::WriteFault,
        },
    }
}

/// Runs a script over a list of definitions, with a budget of units, from the store before it begins
/// (`docs/SCRIPTS.md`). The lines of its trace are emitted by the writer to the sink.
///
/// `Done`, `Uncaught` and `Stopped` tell how the trace ends, all of which was emitted then; the counts
/// are those of its lines and of the units that it took. After `WriteFault` or `Memory` a part of it
/// was emitted from its begin on, and the counts say nothing.
pub fn run<K: Sink>(
    alloc: Global,
    tables: &Tables,
    store: Store,
    script: &Script,
    budget: u32,
    writer: &mut Writer,
    out: &mut K,
) -> (End, Counts)
    requires budget { (0 < budget) × (budget ≤ 2000000) }
    requires served { IsServed (list_of tables.now) }
    requires store { store ≡ realm_of (list_of tables.now) }
    requires read { IsReadOver (list_of tables.now) script.now }
    requires plain { HasPlainSteps (script_tree script.now).top }
    ensures run { RanAs (list_of tables.now) (script_tree script.now) budget (output (K.held out.old) writer.old) (output (K.held out.new) writer.new) result.0 result.1 }
    ensures faults { FaultsOf (K.faults out.old) (K.faults out.new) result.0 }
{
    fits(tables, script);
    let mut store = store;
    let (way, counts) = drive(alloc, tables, &mut store, script, budget, writer, out);
    match way {
        Way::Ended(end) => (ended(end), counts),
        Way::Stopped(stop) => {
            let end = say_stop(alloc, tables, stop, writer, out);
            let events = counts.events + 1;
            let units = counts.units;
            (end, Counts { events, units })
        }
        Way::WriteFault => (End::WriteFault, counts),
        Way::Memory => (End::Memory, counts),
    }
}
