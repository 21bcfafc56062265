//! A machine that stops between two charges.

ghost use Rattle.std.specs.Prelude.{◌≡◌, ◌≤◌};
ghost use Rattle.widl_dialog.specs.Runs.{Ended};
ghost use Rattle.widl_script_tree.specs.Tables.{Tables as ScriptTables};
ghost use Rattle.widl_store.specs.Objects.{StoreState};
ghost use Rattle.widl_runs.specs.Jobs.{Doing, Program};
ghost use Rattle.widl_engine.specs.declared.machine.Machine.{Machine as Machines};
ghost use Rattle.widl_engine.specs.Frames.{job_end_of, program_of};
ghost use Rattle.widl_engine.specs.Machine.{Continues, LeadsOn, MachineFits, RunsTo, Turns, moves_on, still};
ghost use Rattle.widl_engine.specs.Output.{output};
ghost use Rattle.widl_engine.specs.ReadOver.{IsReadOver};
ghost use Rattle.widl_engine.specs.Running.{IsFresh};
ghost use Rattle.widl_engine.specs.Stepping.{SteppedFaults, Steps, stepped_of};

use crate::bindings::Bindings;
use crate::charges::{Charge, Unit};
use crate::contexts::Place;
use crate::ends::JobEnd;
use crate::frames::Frame;
use crate::moves::Move;
use crate::paying::{emit, owed_for};
use std::alloc::Global;
use widl_runs::Stop;
use widl_script_tree::Script;
use widl_store::Store;
use widl_tables::Tables;
use widl_trace::{Sink, Writer};

/// What a machine still has to do, and what it has taken.
#[derive(Drop)]
pub struct Machine {
    /// The charge that is due.
    pub due: Charge,
    /// What is done with the ends of jobs, the next one last.
    pub frames: Vec<Frame>,
    /// Names, symbols and contexts.
    pub place: Place,
    /// The units that were taken.
    pub taken: u32,
    /// The units of the budget.
    pub budget: u32,
}

/// What one move that takes no unit leads to.
#[derive(Drop)]
pub enum Turn {
    /// To another move; in a box, since a turn is handed on by value, and mostly leads to a charge.
    More(Box<Move>),
    /// To a charge.
    Rests,
    /// To the end of the script.
    Ended(Box<JobEnd>),
    /// To a stop.
    Stopped(Stop),
    /// To nothing: there was no memory.
    Memory,
}

/// What all moves up to the next charge lead to.
#[derive(Drop)]
pub enum Moved {
    /// To a charge.
    Going,
    /// To the end of the script.
    Ended(JobEnd),
    /// To a stop.
    Stopped(Stop),
    /// To nothing: there was no memory.
    Memory,
}

/// How a machine has come to its end.
#[derive(Drop)]
pub enum Way {
    /// The script has ended.
    Ended(JobEnd),
    /// The run was stopped.
    Stopped(Stop),
    /// The sink failed.
    WriteFault,
    /// There was no memory.
    Memory,
}

/// What a step leads to.
#[derive(Drop)]
pub enum Stepped {
    /// To the next charge.
    Going,
    /// To nothing: the units that are left don't pay for the charge that is due.
    Unpaid,
    /// To the end.
    Over(Way),
}

/// The first symbol of a script: the lower numbers are those of the well-known symbols.
const FIRST_SYMBOL: u32 = 3;

/// A machine that has done nothing.
pub(crate) fn fresh(alloc: Global, budget: u32) -> Machine
    ensures { IsFresh result budget }
{
    Machine {
        due: Charge::Unit(Unit::Symbol),
        frames: Vec::new(alloc),
        place: Place {
            globals: Bindings::new(alloc),
            next_symbol: FIRST_SYMBOL,
            here: None,
            outer: Vec::new(alloc),
        },
        taken: 0,
        budget,
    }
}

/// The turn that leads to a move.
#[inline(never)]
pub(crate) fn more(alloc: Global, next: Move) -> Turn
    ensures { (p : Program) (s : ScriptTables) (t : StoreState) (m : Machines) → Continues p s t next m t m result }
{
    match Box::new(alloc, next) {
        Ok(next) => Turn::More(next),
        Err(_) => Turn::Memory,
    }
}

/// The turn that ends the script.
#[inline(never)]
pub(crate) fn script_ends(alloc: Global, end: JobEnd) -> Turn
    ensures leads { (p : Program) (s : ScriptTables) (t : StoreState) (d : Doing) (m n : Machines) → RunsTo p s t d m t n (Ended (job_end_of end)) → LeadsOn p s t d m t n result }
    ensures turns { (p : Program) (s : ScriptTables) (t : StoreState) (current : Move) (m n : Machines) → RunsTo p s t (moves_on p s current m) m t n (Ended (job_end_of end)) → Turns p s t current m t n result }
{
    match Box::new(alloc, end) {
        Ok(end) => Turn::Ended(end),
        Err(_) => Turn::Memory,
    }
}

/// The step of a charge that was taken.
fn step_of(moved: Moved) -> Stepped
    ensures { result ≡ stepped_of moved }
{
    match moved {
        Moved::Going => Stepped::Going,
        Moved::Ended(end) => Stepped::Over(Way::Ended(end)),
        Moved::Stopped(stop) => Stepped::Over(Way::Stopped(stop)),
        Moved::Memory => Stepped::Over(Way::Memory),
    }
}

impl Machine {
    /// Takes the charge that is due, with its line, and makes all moves up to the next one.
    pub(crate) fn step<K: Sink>(
        &mut self,
        alloc: Global,
        tables: &Tables,
        script: &Script,
        store: &mut Store,
        writer: &mut Writer,
        out: &mut K,
    ) -> Stepped
        requires read { let p : Program = program_of tables.now script.now in IsReadOver p.list script.now }
        requires fits { let p : Program = program_of tables.now script.now in MachineFits p script.now store.old (still p script.now self.old) self.old }
        requires paid { self.old.taken ≤ self.old.budget }
        ensures steps { Steps (program_of tables.now script.now) script.now store.old self.old store.new self.new (output (K.held out.old) writer.old) (output (K.held out.new) writer.new) result }
        ensures faults { SteppedFaults (K.faults out.old) (K.faults out.new) result }
    {
        match owed_for(alloc, tables, &self.due, self.budget - self.taken) {
            Err(_) => Stepped::Over(Way::Memory),
            Ok(None) => Stepped::Unpaid,
            Ok(Some(owed)) => match emit(&owed.line, writer, out) {
                Err(_) => Stepped::Over(Way::WriteFault),
                Ok(()) => step_of(self.take(alloc, tables, script, store, owed.units)),
            },
        }
    }
}
