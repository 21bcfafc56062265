//! Ends of jobs, for the frames that they are for. An end with a value and that of a `return` have functions of their
//! own, which hand on the value alone.

ghost use Rattle.widl_runs.specs.Jobs.{Program};
ghost use Rattle.widl_engine.specs.declared.moves.Move.{Move};
ghost use Rattle.widl_engine.specs.Frames.{job_end_of, program_of};
ghost use Rattle.widl_engine.specs.Machine.{LeadsOn, MachineFits, Turns, moves_on, once_ended};
ghost use Rattle.widl_engine.specs.ReadOver.{IsReadOver};

use crate::advance::pop;
use crate::calls::called;
use crate::ends::{Completion, JobEnd};
use crate::frames::{Frame, ValueFrame};
use crate::machine::{Machine, Turn, script_ends};
use crate::moves::{let_go, returned};
use std::alloc::Global;
use widl_script_tree::Script;
use widl_store::Store;
use widl_tables::Tables;
use widl_value::Value;

impl Machine {
    /// The turn of an end of a job.
    #[inline(always)]
    pub(crate) fn gives(
        &mut self,
        alloc: Global,
        tables: &Tables,
        script: &Script,
        store: &Store,
        end: JobEnd,
    ) -> Turn
        requires read { let p : Program = program_of tables.now script.now in IsReadOver p.list script.now }
        requires fits { let p : Program = program_of tables.now script.now in MachineFits p script.now store.now (moves_on p script.now (Move.Gives end) self.old) self.old }
        ensures { Turns (program_of tables.now script.now) script.now store.now (Move.Gives end) self.old store.now self.new result }
    {
        match end {
            JobEnd::Completed(completion) => {
                self.completes(alloc, tables, script, store, completion)
            }
            end => self.passes(alloc, tables, script, store, end),
        }
    }

    /// The turn of the end of a part of a script.
    #[inline(always)]
    fn completes(
        &mut self,
        alloc: Global,
        tables: &Tables,
        script: &Script,
        store: &Store,
        completion: Completion,
    ) -> Turn
        requires read { let p : Program = program_of tables.now script.now in IsReadOver p.list script.now }
        requires fits { let p : Program = program_of tables.now script.now in MachineFits p script.now store.now (moves_on p script.now (Move.Gives (JobEnd.Completed completion)) self.old) self.old }
        ensures { Turns (program_of tables.now script.now) script.now store.now (Move.Gives (JobEnd.Completed completion)) self.old store.now self.new result }
    {
        match completion {
            Completion::Normal(value) => self.gives_value(alloc, tables, script, store, value),
            Completion::Returned(value) => self.returns(alloc, tables, script, store, value),
            completion => {
                self.passes(alloc, tables, script, store, JobEnd::Completed(completion))
            }
        }
    }

    /// The turn of any end, which is for the next frame.
    #[inline(never)]
    fn passes(
        &mut self,
        alloc: Global,
        tables: &Tables,
        script: &Script,
        store: &Store,
        end: JobEnd,
    ) -> Turn
        requires read { let p : Program = program_of tables.now script.now in IsReadOver p.list script.now }
        requires fits { let p : Program = program_of tables.now script.now in MachineFits p script.now store.now (moves_on p script.now (Move.Gives end) self.old) self.old }
        ensures { Turns (program_of tables.now script.now) script.now store.now (Move.Gives end) self.old store.now self.new result }
    {
        match pop(&mut self.frames) {
            None => script_ends(alloc, end),
            Some(frame) => self.goes_back(alloc, tables, script, store, frame, end),
        }
    }

    /// A frame that was taken goes on with an end.
    #[inline(never)]
    fn goes_back(
        &mut self,
        alloc: Global,
        tables: &Tables,
        script: &Script,
        store: &Store,
        frame: Frame,
        end: JobEnd,
    ) -> Turn
        requires read { let p : Program = program_of tables.now script.now in IsReadOver p.list script.now }
        requires fits { let p : Program = program_of tables.now script.now in MachineFits p script.now store.now (once_ended p script.now frame (job_end_of end) self.old) self.old }
        ensures { let p : Program = program_of tables.now script.now in LeadsOn p script.now store.now (once_ended p script.now frame (job_end_of end) self.old) self.old store.now self.new result }
    {
        match returned(alloc, tables, script, frame, end) {
            Ok(next) => self.asks_or_goes_on(alloc, tables, script, store, next),
            Err(_) => Turn::Memory,
        }
    }

    /// The turn of an end with a value. Where nothing is done with it, the next statements go on.
    #[inline(never)]
    pub(crate) fn gives_value(
        &mut self,
        alloc: Global,
        tables: &Tables,
        script: &Script,
        store: &Store,
        value: Value,
    ) -> Turn
        requires read { let p : Program = program_of tables.now script.now in IsReadOver p.list script.now }
        requires fits { let p : Program = program_of tables.now script.now in MachineFits p script.now store.now (moves_on p script.now (Move.Gives (JobEnd.Completed (Completion.Normal value))) self.old) self.old }
        ensures { Turns (program_of tables.now script.now) script.now store.now (Move.Gives (JobEnd.Completed (Completion.Normal value))) self.old store.now self.new result }
    {
        let mut value = value;
        'ends: loop {
            match pop(&mut self.frames) {
                None => return script_ends(alloc, JobEnd::Completed(Completion::Normal(value))),
                Some(frame) => match frame {
                    Frame::Value(frame) => match frame {
                        ValueFrame::Drops => value = Value::Undefined,
                        ValueFrame::NextStatements(rest) => return self.statements(script, rest),
                        frame => {
                            let frame = Frame::Value(frame);
                            return self.goes_back(
                                alloc,
                                tables,
                                script,
                                store,
                                frame,
                                JobEnd::Completed(Completion::Normal(value)),
                            );
                        }
                    },
                    frame => {
                        return self.goes_back(
                            alloc,
                            tables,
                            script,
                            store,
                            frame,
                            JobEnd::Completed(Completion::Normal(value)),
                        );
                    }
                },
            }
        }
    }

    /// The turn of an end by a `return`, which no frame up to that of the call goes on with.
    #[inline(never)]
    fn returns(
        &mut self,
        alloc: Global,
        tables: &Tables,
        script: &Script,
        store: &Store,
        value: Value,
    ) -> Turn
        requires read { let p : Program = program_of tables.now script.now in IsReadOver p.list script.now }
        requires fits { let p : Program = program_of tables.now script.now in MachineFits p script.now store.now (moves_on p script.now (Move.Gives (JobEnd.Completed (Completion.Returned value))) self.old) self.old }
        ensures { Turns (program_of tables.now script.now) script.now store.now (Move.Gives (JobEnd.Completed (Completion.Returned value))) self.old store.now self.new result }
    {
        'ends: loop {
            match pop(&mut self.frames) {
                None => return script_ends(alloc, JobEnd::Completed(Completion::Returned(value))),
                Some(frame) => match frame {
                    Frame::Value(frame) => let_go(frame),
                    Frame::Called => {
                        return self.goes_on(
                            tables,
                            script,
                            store,
                            called(JobEnd::Completed(Completion::Returned(value))),
                        );
                    }
                    frame => {
                        return self.goes_back(
                            alloc,
                            tables,
                            script,
                            store,
                            frame,
                            JobEnd::Completed(Completion::Returned(value)),
                        );
                    }
                },
            }
        }
    }
}
