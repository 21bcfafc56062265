//! Conversations at once. Where the function of a call isn't written in the script, its conversation begins in the turn
//! of the call's line, and goes on in that of the ask's end, up to the next charge.

ghost use Rattle.widl_runs.specs.Jobs.{Program};
ghost use Rattle.widl_engine.specs.declared.due.Due.{Due};
ghost use Rattle.widl_engine.specs.Frames.{program_of};
ghost use Rattle.widl_engine.specs.Machine.{Continues, MachineFits, Turns, moves_on};
ghost use Rattle.widl_engine.specs.ReadOver.{IsReadOver};

use crate::advance::{let_go, pop, push};
use crate::calls::talked;
use crate::ends::JobEnd;
use crate::entering::enter_builtin;
use crate::frames::Frame;
use crate::jobs::{BuiltinCall, Job};
use crate::machine::{Machine, Turn, more, script_ends};
use crate::moves::Move;
use crate::{answering, asks};
use std::alloc::Global;
use widl_convert::{Ask, Ending};
use widl_script_tree::Script;
use widl_store::{Builtin, Store};
use widl_tables::Tables;
use widl_value::{ObjRef, Value, Values};

/// The end of a conversation isn't needed any more. It is dropped here alone, since a function pays for the room of all
/// that it may drop.
#[inline(never)]
fn discard(_ending: Ending) {}

impl Machine {
    /// The turn that enters a function that isn't written in the script.
    #[inline(never)]
    pub(crate) fn enters_talk(
        &mut self,
        alloc: Global,
        tables: &Tables,
        script: &Script,
        store: &Store,
        f: ObjRef,
        function: Builtin,
        this: Value,
        args: Values,
    ) -> Turn
        requires read { let p : Program = program_of tables.now script.now in IsReadOver p.list script.now }
        requires fits { let p : Program = program_of tables.now script.now in MachineFits p script.now store.now (moves_on p script.now (Move.Acts (Due.EnterBuiltin f function this args)) self.old) self.old }
        ensures { Turns (program_of tables.now script.now) script.now store.now (Move.Acts (Due.EnterBuiltin f function this args)) self.old store.now self.new result }
    {
        match enter_builtin(alloc, store, &mut self.place, f, function, this, args) {
            Ok(next) => self.talks_or_goes_on(alloc, tables, script, store, next),
            Err(_) => Turn::Memory,
        }
    }

    /// The turn that goes on with a move, also where a conversation begins.
    #[inline(always)]
    fn talks_or_goes_on(
        &mut self,
        alloc: Global,
        tables: &Tables,
        script: &Script,
        store: &Store,
        next: Move,
    ) -> Turn
        requires read { let p : Program = program_of tables.now script.now in IsReadOver p.list script.now }
        requires fits { let p : Program = program_of tables.now script.now in MachineFits p script.now store.now (moves_on p script.now next self.old) self.old }
        ensures { Continues (program_of tables.now script.now) script.now store.now next self.old store.now self.new result }
    {
        match next {
            Move::Steps(frame, job) => match job {
                Job::Function(call) => self.talks(alloc, tables, script, store, frame, call),
                job => more(alloc, Move::Steps(frame, job)),
            },
            next => more(alloc, next),
        }
    }

    /// The turn of a conversation that begins.
    #[inline(always)]
    fn talks(
        &mut self,
        alloc: Global,
        tables: &Tables,
        script: &Script,
        store: &Store,
        frame: Frame,
        call: Box<BuiltinCall>,
    ) -> Turn
        requires read { let p : Program = program_of tables.now script.now in IsReadOver p.list script.now }
        requires fits { let p : Program = program_of tables.now script.now in MachineFits p script.now store.now (moves_on p script.now (Move.Steps frame (Job.Function call)) self.old) self.old }
        ensures { Turns (program_of tables.now script.now) script.now store.now (Move.Steps frame (Job.Function call)) self.old store.now self.new result }
    {
        match push(&mut self.frames, frame) {
            Ok(()) => match answering::begins(alloc, tables, script, call) {
                Ok(next) => self.asks_or_goes_on(alloc, tables, script, store, next),
                Err(_) => Turn::Memory,
            },
            Err(_) => {
                let_go(Job::Function(call));
                Turn::Memory
            }
        }
    }

    /// The turn that goes on with a move, also where a conversation asks, or comes to its end.
    #[inline(always)]
    pub(crate) fn asks_or_goes_on(
        &mut self,
        alloc: Global,
        tables: &Tables,
        script: &Script,
        store: &Store,
        next: Move,
    ) -> Turn
        requires read { let p : Program = program_of tables.now script.now in IsReadOver p.list script.now }
        requires fits { let p : Program = program_of tables.now script.now in MachineFits p script.now store.now (moves_on p script.now next self.old) self.old }
        ensures { Continues (program_of tables.now script.now) script.now store.now next self.old store.now self.new result }
    {
        match next {
            Move::Steps(frame, job) => match job {
                Job::Asked(ask) => self.asks(alloc, tables, script, store, frame, ask),
                job => more(alloc, Move::Steps(frame, job)),
            },
            Move::Gives(end) => match end {
                JobEnd::Talked(ending) => self.ends_conversation(
                    alloc, tables, script, store, ending,
                ),
                end => more(alloc, Move::Gives(end)),
            },
            next => self.goes_on(tables, script, store, next),
        }
    }

    /// The turn of an ask.
    #[inline(never)]
    fn asks(
        &mut self,
        alloc: Global,
        tables: &Tables,
        script: &Script,
        store: &Store,
        frame: Frame,
        ask: Box<Ask>,
    ) -> Turn
        requires read { let p : Program = program_of tables.now script.now in IsReadOver p.list script.now }
        requires fits { let p : Program = program_of tables.now script.now in MachineFits p script.now store.now (moves_on p script.now (Move.Steps frame (Job.Asked ask)) self.old) self.old }
        ensures { Turns (program_of tables.now script.now) script.now store.now (Move.Steps frame (Job.Asked ask)) self.old store.now self.new result }
    {
        match push(&mut self.frames, frame) {
            Ok(()) => match asks::asks(alloc, ask) {
                Ok(next) => self.goes_on(tables, script, store, next),
                Err(_) => Turn::Memory,
            },
            Err(_) => {
                let_go(Job::Asked(ask));
                Turn::Memory
            }
        }
    }

    /// The turn of the end of a conversation. It is that of a call, unless another frame waits for it.
    #[inline(never)]
    fn ends_conversation(
        &mut self,
        alloc: Global,
        tables: &Tables,
        script: &Script,
        store: &Store,
        ending: Ending,
    ) -> Turn
        requires read { let p : Program = program_of tables.now script.now in IsReadOver p.list script.now }
        requires fits { let p : Program = program_of tables.now script.now in MachineFits p script.now store.now (moves_on p script.now (Move.Gives (JobEnd.Talked ending)) self.old) self.old }
        ensures { Continues (program_of tables.now script.now) script.now store.now (Move.Gives (JobEnd.Talked ending)) self.old store.now self.new result }
    {
        match pop(&mut self.frames) {
            None => script_ends(alloc, JobEnd::Talked(ending)),
            Some(frame) => match frame {
                Frame::Talked => {
                    self.goes_on(tables, script, store, talked(JobEnd::Talked(ending)))
                }
                frame => match push(&mut self.frames, frame) {
                    Ok(()) => more(alloc, Move::Gives(JobEnd::Talked(ending))),
                    Err(_) => {
                        discard(ending);
                        Turn::Memory
                    }
                },
            },
        }
    }
}
