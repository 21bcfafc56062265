//! What a machine does up to its next charge.

ghost use Rattle.std.specs.Prelude.{◌≡◌, ◌≤◌, ◌+◌, [], ◌∷◌, ◌++◌, IfSome, IfNone, OnOk};
ghost use Rattle.widl_runs.specs.Fitting.{FitsJob};
ghost use Rattle.widl_runs.specs.Jobs.{Program};
ghost use Rattle.widl_script_tree.specs.Tables.{Tables as ScriptTables};
ghost use Rattle.widl_store.specs.Objects.{StoreState};
ghost use Rattle.widl_engine.specs.declared.machine.Machine.{Machine as Machines};
ghost use Rattle.widl_engine.specs.Frames.{job_of, program_of};
ghost use Rattle.widl_engine.specs.Machine.{Advances, Continues, MachineFits, StepsTo, Turns, cost, moves_on, still};
ghost use Rattle.widl_engine.specs.ReadOver.{IsReadOver};

use crate::acts::Acted;
use crate::charges::{Charge, Unit};
use crate::due::Due;
use crate::ends::JobEnd;
use crate::frames::Frame;
use crate::jobs::Job;
use crate::machine::{Machine, Moved, Turn, more};
use crate::moves::{Move, begin};
use crate::perform::perform;
use std::alloc::{AllocError, Global};
use std::mem;
use widl_script_tree::Script;
use widl_store::Store;
use widl_tables::Tables;

/// Takes the next frame.
#[inline(always)]
pub(crate) fn pop(frames: &mut Vec<Frame>) -> Option<Frame>
    ensures some { IfSome result (λ f. frames.old.items ≡ frames.new.items ++ f ∷ []) }
    ensures none { IfNone result ((frames.old.items ≡ []) × (frames.new.items ≡ [])) }
{
    frames.pop()
}

/// Puts a frame on the others.
#[inline(always)]
pub(crate) fn push(frames: &mut Vec<Frame>, frame: Frame) -> Result<(), AllocError>
    ensures { OnOk result (frames.new.items ≡ frames.old.items ++ frame ∷ []) }
{
    frames.push(frame)?;
    Ok(())
}

/// Lets a charge go. It is dropped here alone, since a function pays for the room of all that it may drop.
#[inline(never)]
fn discard(_charge: Charge) {}

/// A charge is due, in the place of the one that was.
#[inline(always)]
pub(crate) fn falls_due(due: &mut Charge, charge: Charge)
    ensures { due.new ≡ charge }
{
    match mem::replace(due, charge) {
        // mostly this is what was there, and needs no drop
        Charge::Unit(Unit::Symbol | Unit::Statement(_)) => {}
        former => discard(former),
    }
}

/// A job isn't begun.
pub(crate) fn let_go(_job: Job) {}

/// The turn of a job whose end is for the frame below.
fn goes(alloc: Global, tables: &Tables, script: &Script, job: Job) -> Turn
    requires read { let p : Program = program_of tables.now script.now in IsReadOver p.list script.now }
    requires fits { FitsJob (job_of script.now job) }
    ensures { (t : StoreState) (m : Machines) → Turns (program_of tables.now script.now) script.now t (Move.Goes job) m t m result }
{
    match begin(alloc, tables, script, job) {
        Ok(next) => more(alloc, next),
        Err(_) => Turn::Memory,
    }
}

// Each kind of move has a function of its own: a function pays for the room of all its arms.
impl Machine {
    /// The turn of an action that takes units.
    pub(crate) fn rests(&mut self, charge: Charge) -> Turn
        ensures { (p : Program) (s : ScriptTables) (t : StoreState) → Turns p s t (Move.Pays charge) self.old t self.new result }
    {
        falls_due(&mut self.due, charge);
        Turn::Rests
    }

    /// The turn of an action that takes none.
    fn acts(
        &mut self,
        alloc: Global,
        tables: &Tables,
        script: &Script,
        store: &mut Store,
        due: Due,
    ) -> Turn
        requires read { let p : Program = program_of tables.now script.now in IsReadOver p.list script.now }
        requires fits { let p : Program = program_of tables.now script.now in MachineFits p script.now store.old (moves_on p script.now (Move.Acts due) self.old) self.old }
        ensures { Turns (program_of tables.now script.now) script.now store.old (Move.Acts due) self.old store.new self.new result }
    {
        match perform(alloc, tables, script, store, &mut self.place, due) {
            Acted::Went(next) => self.ends_or_goes_on(alloc, tables, script, store, next),
            Acted::Stopped(stop) => Turn::Stopped(stop),
            Acted::Memory => Turn::Memory,
        }
    }

    /// The turn of a job whose end is for a frame.
    pub(crate) fn steps(
        &mut self,
        alloc: Global,
        tables: &Tables,
        script: &Script,
        frame: Frame,
        job: Job,
    ) -> Turn
        requires read { let p : Program = program_of tables.now script.now in IsReadOver p.list script.now }
        requires fits { FitsJob (job_of script.now job) }
        ensures { (t : StoreState) → Turns (program_of tables.now script.now) script.now t (Move.Steps frame job) self.old t self.new result }
    {
        match push(&mut self.frames, frame) {
            Ok(()) => match begin(alloc, tables, script, job) {
                Ok(next) => more(alloc, next),
                Err(_) => Turn::Memory,
            },
            Err(_) => {
                let_go(job);
                Turn::Memory
            }
        }
    }

    /// The turn of a job whose end is for the frame below.
    #[inline(always)]
    fn begins(
        &mut self,
        alloc: Global,
        tables: &Tables,
        script: &Script,
        store: &Store,
        job: Job,
    ) -> Turn
        requires read { let p : Program = program_of tables.now script.now in IsReadOver p.list script.now }
        requires fits { let p : Program = program_of tables.now script.now in MachineFits p script.now store.now (moves_on p script.now (Move.Goes job) self.old) self.old }
        ensures { Turns (program_of tables.now script.now) script.now store.now (Move.Goes job) self.old store.now self.new result }
    {
        match job {
            Job::Statements(row) => self.statements(script, row),
            Job::Row { what, made, row } => self.row(tables, script, store, what, made, row),
            Job::Call { calling, args } => self.calls(tables, script, store, calling, args),
            job => goes(alloc, tables, script, job),
        }
    }

    /// The turn that goes on with a job, where what it leads to is done at once.
    #[inline(always)]
    fn begins_at_once(&mut self, tables: &Tables, script: &Script, store: &Store, job: Job) -> Turn
        requires read { let p : Program = program_of tables.now script.now in IsReadOver p.list script.now }
        requires fits { let p : Program = program_of tables.now script.now in MachineFits p script.now store.now (moves_on p script.now (Move.Goes job) self.old) self.old }
        ensures { Continues (program_of tables.now script.now) script.now store.now (Move.Goes job) self.old store.now self.new result }
    {
        match job {
            Job::Statements(row) => self.statements(script, row),
            Job::Row { what, made, row } => self.row(tables, script, store, what, made, row),
            Job::Call { calling, args } => self.calls(tables, script, store, calling, args),
            job => more(*self.frames.allocator(), Move::Goes(job)),
        }
    }

    /// The turn that goes on with a move: what it leads to is done at once where no action comes before the next charge.
    #[inline(always)]
    pub(crate) fn goes_on(
        &mut self,
        tables: &Tables,
        script: &Script,
        store: &Store,
        next: Move,
    ) -> Turn
        requires read { let p : Program = program_of tables.now script.now in IsReadOver p.list script.now }
        requires fits { let p : Program = program_of tables.now script.now in MachineFits p script.now store.now (moves_on p script.now next self.old) self.old }
        ensures { Continues (program_of tables.now script.now) script.now store.now next self.old store.now self.new result }
    {
        match next {
            Move::Pays(charge) => self.rests(charge),
            Move::Goes(job) => self.begins_at_once(tables, script, store, job),
            next => more(*self.frames.allocator(), next),
        }
    }

    /// The same, also where the move is an end, or goes to statements whose end is for a frame.
    #[inline(always)]
    pub(crate) fn ends_or_goes_on(
        &mut self,
        alloc: Global,
        tables: &Tables,
        script: &Script,
        store: &Store,
        next: Move,
    ) -> Turn
        requires read { let p : Program = program_of tables.now script.now in IsReadOver p.list script.now }
        requires fits { let p : Program = program_of tables.now script.now in MachineFits p script.now store.now (moves_on p script.now next self.old) self.old }
        ensures { Continues (program_of tables.now script.now) script.now store.now next self.old store.now self.new result }
    {
        match next {
            Move::Gives(end) => self.gives(alloc, tables, script, store, end),
            Move::Steps(frame, job) => match job {
                Job::Statements(row) => self.statements_under(alloc, tables, script, frame, row),
                job => more(alloc, Move::Steps(frame, job)),
            },
            next => self.goes_on(tables, script, store, next),
        }
    }

    /// One move that takes no unit.
    #[inline(always)]
    fn turn(
        &mut self,
        alloc: Global,
        tables: &Tables,
        script: &Script,
        store: &mut Store,
        current: Move,
    ) -> Turn
        requires read { let p : Program = program_of tables.now script.now in IsReadOver p.list script.now }
        requires fits { let p : Program = program_of tables.now script.now in MachineFits p script.now store.old (moves_on p script.now current self.old) self.old }
        ensures { Turns (program_of tables.now script.now) script.now store.old current self.old store.new self.new result }
    {
        match current {
            Move::Pays(charge) => self.rests(charge),
            Move::Acts(due) => self.acts(alloc, tables, script, store, due),
            Move::Gives(end) => self.gives(alloc, tables, script, store, end),
            Move::Steps(frame, job) => match job {
                Job::Evaluate(place) => self.evaluates(alloc, tables, script, store, frame, place),
                Job::Statements(row) => self.statements_under(alloc, tables, script, frame, row),
                job => self.steps(alloc, tables, script, frame, job),
            },
            Move::Goes(job) => self.begins(alloc, tables, script, store, job),
        }
    }

    /// All moves up to the next charge.
    pub(crate) fn advance(
        &mut self,
        alloc: Global,
        tables: &Tables,
        script: &Script,
        store: &mut Store,
        first: Move,
    ) -> Moved
        requires read { let p : Program = program_of tables.now script.now in IsReadOver p.list script.now }
        requires fits { let p : Program = program_of tables.now script.now in MachineFits p script.now store.old (moves_on p script.now first self.old) self.old }
        ensures { let p : Program = program_of tables.now script.now in Advances p script.now store.old (moves_on p script.now first self.old) self.old store.new self.new result }
    {
        let mut current = first;
        'moves: loop {
            match self.turn(alloc, tables, script, store, current) {
                Turn::More(next) => current = Box::into_inner(next),
                Turn::Rests => return Moved::Going,
                Turn::Ended(end) => return Moved::Ended(Box::into_inner(end)),
                Turn::Stopped(stop) => return Moved::Stopped(stop),
                Turn::Memory => return Moved::Memory,
            }
        }
    }

    /// Takes the units of the charge that is due, and makes all moves up to the next one. Its line was
    /// written before.
    #[inline(always)]
    pub(crate) fn take(
        &mut self,
        alloc: Global,
        tables: &Tables,
        script: &Script,
        store: &mut Store,
        units: u32,
    ) -> Moved
        requires read { let p : Program = program_of tables.now script.now in IsReadOver p.list script.now }
        requires fits { let p : Program = program_of tables.now script.now in MachineFits p script.now store.old (still p script.now self.old) self.old }
        requires units { let p : Program = program_of tables.now script.now in units ≡ cost p self.old.due }
        requires pays { self.old.taken + units ≤ self.old.budget }
        ensures { StepsTo (program_of tables.now script.now) script.now store.old self.old store.new self.new result }
    {
        self.taken += units;
        match self.paid(alloc, tables, script, store) {
            Turn::More(next) => self.advance(alloc, tables, script, store, Box::into_inner(next)),
            Turn::Rests => Moved::Going,
            Turn::Ended(end) => Moved::Ended(Box::into_inner(end)),
            Turn::Stopped(stop) => Moved::Stopped(stop),
            Turn::Memory => Moved::Memory,
        }
    }
}
