//! Members and parts of expressions at once. Where the value before a member is there at once, its property is found in
//! the same turn.

ghost use Rattle.widl_runs.specs.Jobs.{Program};
ghost use Rattle.widl_engine.specs.Frames.{program_of};
ghost use Rattle.widl_engine.specs.Machine.{Continues, MachineFits, Turns, moves_on};
ghost use Rattle.widl_engine.specs.ReadOver.{IsReadOver};

use crate::advance;
use crate::advance::push;
use crate::at_once::value_at;
use crate::due::Due;
use crate::expressions::evaluate;
use crate::frames::Frame;
use crate::jobs::{Job, KeyPart};
use crate::machine::{Machine, Turn, more};
use crate::members::read_member;
use crate::moves::{Move, let_go, valued};
use crate::properties::find;
use std::alloc::Global;
use widl_script_tree::Script;
use widl_store::Store;
use widl_tables::Tables;
use widl_text::Key;
use widl_value::{ObjRef, Value};

impl Machine {
    /// The turn of an expression that has no value at once, whose end is for a frame.
    #[inline(never)]
    pub(crate) fn evaluates_parts(
        &mut self,
        alloc: Global,
        tables: &Tables,
        script: &Script,
        store: &Store,
        frame: Frame,
        place: u32,
    ) -> Turn
        requires read { let p : Program = program_of tables.now script.now in IsReadOver p.list script.now }
        requires fits { let p : Program = program_of tables.now script.now in MachineFits p script.now store.now (moves_on p script.now (Move.Steps frame (Job.Evaluate place)) self.old) self.old }
        ensures { Turns (program_of tables.now script.now) script.now store.now (Move.Steps frame (Job.Evaluate place)) self.old store.now self.new result }
    {
        match push(&mut self.frames, frame) {
            Ok(()) => match evaluate(alloc, script, place) {
                Ok(next) => self.goes_on_with_part(alloc, tables, script, store, next),
                Err(_) => Turn::Memory,
            },
            Err(_) => Turn::Memory,
        }
    }

    /// The turn that goes on with the first move of an expression.
    #[inline(always)]
    fn goes_on_with_part(
        &mut self,
        alloc: Global,
        tables: &Tables,
        script: &Script,
        store: &Store,
        next: Move,
    ) -> Turn
        requires read { let p : Program = program_of tables.now script.now in IsReadOver p.list script.now }
        requires fits { let p : Program = program_of tables.now script.now in MachineFits p script.now store.now (moves_on p script.now next self.old) self.old }
        ensures { Continues (program_of tables.now script.now) script.now store.now next self.old store.now self.new result }
    {
        match next {
            Move::Steps(frame, job) => match job {
                Job::Evaluate(place) => {
                    self.evaluates_part(alloc, tables, script, store, frame, place)
                }
                job => more(alloc, Move::Steps(frame, job)),
            },
            next => self.goes_on(tables, script, store, next),
        }
    }

    /// The turn of a part of an expression whose end is for a frame.
    #[inline(never)]
    fn evaluates_part(
        &mut self,
        alloc: Global,
        tables: &Tables,
        script: &Script,
        store: &Store,
        frame: Frame,
        place: u32,
    ) -> Turn
        requires read { let p : Program = program_of tables.now script.now in IsReadOver p.list script.now }
        requires fits { let p : Program = program_of tables.now script.now in MachineFits p script.now store.now (moves_on p script.now (Move.Steps frame (Job.Evaluate place)) self.old) self.old }
        ensures { Turns (program_of tables.now script.now) script.now store.now (Move.Steps frame (Job.Evaluate place)) self.old store.now self.new result }
    {
        match frame {
            Frame::Value(frame) => match value_at(script, store, &self.place, place) {
                Ok(Some(value)) => match valued(alloc, script, frame, value) {
                    Ok(next) => self.reads_or_goes_on(alloc, tables, script, store, next),
                    Err(_) => Turn::Memory,
                },
                Ok(None) => {
                    let frame = Frame::Value(frame);
                    self.steps(alloc, tables, script, frame, Job::Evaluate(place))
                }
                Err(_) => {
                    let_go(frame);
                    Turn::Memory
                }
            },
            frame => self.steps(alloc, tables, script, frame, Job::Evaluate(place)),
        }
    }

    /// The turn that goes on with a move, also where a member is read.
    #[inline(always)]
    fn reads_or_goes_on(
        &mut self,
        alloc: Global,
        tables: &Tables,
        script: &Script,
        store: &Store,
        next: Move,
    ) -> Turn
        requires read { let p : Program = program_of tables.now script.now in IsReadOver p.list script.now }
        requires fits { let p : Program = program_of tables.now script.now in MachineFits p script.now store.now (moves_on p script.now next self.old) self.old }
        ensures { Continues (program_of tables.now script.now) script.now store.now next self.old store.now self.new result }
    {
        match next {
            Move::Goes(job) => match job {
                Job::Read { of, key } => self.reads(alloc, tables, script, store, of, key),
                job => self.goes_on(tables, script, store, Move::Goes(job)),
            },
            Move::Steps(frame, job) => match job {
                Job::Read { of, key } => {
                    self.reads_under(alloc, tables, script, store, frame, of, key)
                }
                job => more(alloc, Move::Steps(frame, job)),
            },
            next => self.ends_or_goes_on(alloc, tables, script, store, next),
        }
    }

    /// The turn of a member that is read.
    #[inline(always)]
    fn reads(
        &mut self,
        alloc: Global,
        tables: &Tables,
        script: &Script,
        store: &Store,
        of: Value,
        key: KeyPart,
    ) -> Turn
        requires read { let p : Program = program_of tables.now script.now in IsReadOver p.list script.now }
        requires fits { let p : Program = program_of tables.now script.now in MachineFits p script.now store.now (moves_on p script.now (Move.Goes (Job.Read of key)) self.old) self.old }
        ensures { Turns (program_of tables.now script.now) script.now store.now (Move.Goes (Job.Read of key)) self.old store.now self.new result }
    {
        match read_member(alloc, script, of, key) {
            Ok(next) => self.finds_or_goes_on(alloc, tables, script, store, next),
            Err(_) => Turn::Memory,
        }
    }

    /// The turn of a member that is read for a frame.
    #[inline(always)]
    fn reads_under(
        &mut self,
        alloc: Global,
        tables: &Tables,
        script: &Script,
        store: &Store,
        frame: Frame,
        of: Value,
        key: KeyPart,
    ) -> Turn
        requires read { let p : Program = program_of tables.now script.now in IsReadOver p.list script.now }
        requires fits { let p : Program = program_of tables.now script.now in MachineFits p script.now store.now (moves_on p script.now (Move.Steps frame (Job.Read of key)) self.old) self.old }
        ensures { Turns (program_of tables.now script.now) script.now store.now (Move.Steps frame (Job.Read of key)) self.old store.now self.new result }
    {
        match push(&mut self.frames, frame) {
            Ok(()) => match read_member(alloc, script, of, key) {
                Ok(next) => self.finds_or_goes_on(alloc, tables, script, store, next),
                Err(_) => Turn::Memory,
            },
            Err(_) => {
                advance::let_go(Job::Read { of, key });
                Turn::Memory
            }
        }
    }

    /// The turn that goes on with a move, also where a property is found.
    #[inline(always)]
    fn finds_or_goes_on(
        &mut self,
        alloc: Global,
        tables: &Tables,
        script: &Script,
        store: &Store,
        next: Move,
    ) -> Turn
        requires read { let p : Program = program_of tables.now script.now in IsReadOver p.list script.now }
        requires fits { let p : Program = program_of tables.now script.now in MachineFits p script.now store.now (moves_on p script.now next self.old) self.old }
        ensures { Continues (program_of tables.now script.now) script.now store.now next self.old store.now self.new result }
    {
        match next {
            Move::Acts(due) => match due {
                Due::Find { obj, key } => self.finds(alloc, tables, script, store, obj, key),
                due => more(alloc, Move::Acts(due)),
            },
            next => more(alloc, next),
        }
    }

    /// The turn that finds a property.
    #[inline(never)]
    fn finds(
        &mut self,
        alloc: Global,
        tables: &Tables,
        script: &Script,
        store: &Store,
        obj: ObjRef,
        key: Key,
    ) -> Turn
        requires read { let p : Program = program_of tables.now script.now in IsReadOver p.list script.now }
        requires fits { let p : Program = program_of tables.now script.now in MachineFits p script.now store.now (moves_on p script.now (Move.Acts (Due.Find obj key)) self.old) self.old }
        ensures { Turns (program_of tables.now script.now) script.now store.now (Move.Acts (Due.Find obj key)) self.old store.now self.new result }
    {
        match find(alloc, store, &self.place, obj, key) {
            Ok(next) => self.ends_or_goes_on(alloc, tables, script, store, next),
            Err(_) => Turn::Memory,
        }
    }
}
