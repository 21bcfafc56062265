//! What comes after a charge at once. A statement that evaluates an expression, the line of a call and that of its
//! end lead to what they begin without a turn of their own.

ghost use Rattle.std.specs.Prelude.{◌≡◌, IfSome};
ghost use Rattle.widl_runs.specs.Jobs.{Program};
ghost use Rattle.widl_store.specs.Objects.{StoreState};
ghost use Rattle.widl_engine.specs.declared.machine.Machine.{Machine as Machines};
ghost use Rattle.widl_engine.specs.AtOnce.{Evaluates};
ghost use Rattle.widl_engine.specs.Frames.{program_of};
ghost use Rattle.widl_engine.specs.Machine.{LeadsOn, MachineFits, Turns, moves_on, once_paid};
ghost use Rattle.widl_engine.specs.ReadOver.{IsReadOver};

use crate::at_once::bound_at;
use crate::calls;
use crate::charges::{AfterLine, Charge, Unit};
use crate::due::{Body, Due};
use crate::ends::Completion;
use crate::entering::{enter, leave};
use crate::frames::{Frame, ValueFrame};
use crate::machine::{Machine, Turn, more};
use crate::moves::{Move, charged};
use std::alloc::Global;
use std::mem;
use widl_script_tree::{Script, Statement};
use widl_store::Store;
use widl_tables::Tables;
use widl_trace::Event;
use widl_value::{Value, Values};

/// An expression that is evaluated for a frame.
#[derive(Drop)]
pub struct Evaluation {
    /// The frame.
    pub frame: ValueFrame,
    /// The place of the expression.
    pub place: u32,
}

/// What a statement evaluates, if that is all that it does first.
#[inline(always)]
fn evaluated_at(script: &Script, place: u32) -> Option<Evaluation>
    ensures { IfSome result (Evaluates script.now (Charge.Unit (Unit.Statement place))) }
{
    match *script.statement(place) {
        Statement::Let { name, value } => Some(Evaluation {
            frame: ValueFrame::Binds(name),
            place: value,
        }),
        Statement::Do(value) => Some(Evaluation {
            frame: ValueFrame::Drops,
            place: value,
        }),
        Statement::Return(value) => Some(Evaluation {
            frame: ValueFrame::Returns,
            place: value,
        }),
        Statement::Throw(value) => Some(Evaluation {
            frame: ValueFrame::Throws,
            place: value,
        }),
        Statement::Show(value) => Some(Evaluation {
            frame: ValueFrame::Shows,
            place: value,
        }),
        _ => None,
    }
}

/// The statement that a charge is for.
#[inline(always)]
fn statement_of(charge: &Charge) -> Option<u32>
    ensures { IfSome result (λ place. charge.now ≡ Charge.Unit (Unit.Statement place)) }
{
    match charge {
        Charge::Unit(Unit::Statement(place)) => Some(*place),
        _ => None,
    }
}

/// The event of a line isn't needed any more. It is dropped here alone, since a function pays for the room of all that it
/// may drop.
#[inline(never)]
fn let_go(_event: Event) {}

/// The first move after a charge.
#[inline(never)]
fn leads(alloc: Global, script: &Script, charge: Charge) -> Turn
    ensures { (p : Program) (t : StoreState) (m : Machines) → LeadsOn p script.now t (once_paid p script.now charge m) m t m result }
{
    match charged(alloc, script, charge) {
        Ok(next) => more(alloc, next),
        Err(_) => Turn::Memory,
    }
}

impl Machine {
    /// The first turn after the charge that is due, which was paid.
    #[inline(never)]
    pub(crate) fn paid(
        &mut self,
        alloc: Global,
        tables: &Tables,
        script: &Script,
        store: &mut Store,
    ) -> Turn
        requires read { let p : Program = program_of tables.now script.now in IsReadOver p.list script.now }
        requires fits { let p : Program = program_of tables.now script.now in MachineFits p script.now store.old (once_paid p script.now self.old.due self.old) self.old }
        ensures { let p : Program = program_of tables.now script.now in LeadsOn p script.now store.old (once_paid p script.now self.old.due self.old) self.old store.new self.new result }
    {
        match statement_of(&self.due) {
            Some(place) => self.performs(alloc, tables, script, store, place),
            None => {
                let due = mem::replace(&mut self.due, Charge::Unit(Unit::Symbol));
                self.follows(alloc, tables, script, store, due)
            }
        }
    }

    /// The first turn of a statement.
    #[inline(always)]
    fn performs(
        &mut self,
        alloc: Global,
        tables: &Tables,
        script: &Script,
        store: &Store,
        place: u32,
    ) -> Turn
        requires read { let p : Program = program_of tables.now script.now in IsReadOver p.list script.now }
        requires fits { let p : Program = program_of tables.now script.now in MachineFits p script.now store.now (once_paid p script.now (Charge.Unit (Unit.Statement place)) self.old) self.old }
        ensures { let p : Program = program_of tables.now script.now in LeadsOn p script.now store.now (once_paid p script.now (Charge.Unit (Unit.Statement place)) self.old) self.old store.now self.new result }
    {
        match bound_at(script, place) {
            Some(literal) => self.bind_literal(script, literal),
            None => match evaluated_at(script, place) {
                Some(evaluation) => {
                    let Evaluation { frame, place } = evaluation;
                    self.evaluates(alloc, tables, script, store, Frame::Value(frame), place)
                }
                None => leads(alloc, script, Charge::Unit(Unit::Statement(place))),
            },
        }
    }

    /// The first turn after any other charge.
    #[inline(always)]
    fn follows(
        &mut self,
        alloc: Global,
        tables: &Tables,
        script: &Script,
        store: &mut Store,
        charge: Charge,
    ) -> Turn
        requires read { let p : Program = program_of tables.now script.now in IsReadOver p.list script.now }
        requires fits { let p : Program = program_of tables.now script.now in MachineFits p script.now store.old (once_paid p script.now (charge) self.old) self.old }
        ensures { let p : Program = program_of tables.now script.now in LeadsOn p script.now store.old (once_paid p script.now (charge) self.old) self.old store.new self.new result }
    {
        match charge {
            Charge::Unit(unit) => self.unit_leads(alloc, tables, script, store, unit),
            Charge::Line { event, then } => {
                self.line_leads(alloc, tables, script, store, event, then)
            }
        }
    }

    /// The first turn after a unit.
    #[inline(always)]
    fn unit_leads(
        &mut self,
        alloc: Global,
        tables: &Tables,
        script: &Script,
        store: &Store,
        unit: Unit,
    ) -> Turn
        requires read { let p : Program = program_of tables.now script.now in IsReadOver p.list script.now }
        requires fits { let p : Program = program_of tables.now script.now in MachineFits p script.now store.now (once_paid p script.now (Charge.Unit unit) self.old) self.old }
        ensures { let p : Program = program_of tables.now script.now in LeadsOn p script.now store.now (once_paid p script.now (Charge.Unit unit) self.old) self.old store.now self.new result }
    {
        match unit {
            Unit::Asked => self.gives_value(alloc, tables, script, store, Value::Undefined),
            unit => leads(alloc, script, Charge::Unit(unit)),
        }
    }

    /// The first turn after a line.
    #[inline(always)]
    fn line_leads(
        &mut self,
        alloc: Global,
        tables: &Tables,
        script: &Script,
        store: &mut Store,
        event: Event,
        then: AfterLine,
    ) -> Turn
        requires read { let p : Program = program_of tables.now script.now in IsReadOver p.list script.now }
        requires fits { let p : Program = program_of tables.now script.now in MachineFits p script.now store.old (once_paid p script.now (Charge.Line event then) self.old) self.old }
        ensures { let p : Program = program_of tables.now script.now in LeadsOn p script.now store.old (once_paid p script.now (Charge.Line event then) self.old) self.old store.new self.new result }
    {
        match then {
            AfterLine::Enters(body) => { self.enters_by(alloc, tables, script, store, event, body) }
            AfterLine::Leaves => self.leaves_by(alloc, tables, script, store, event),
            AfterLine::Shown => {
                let_go(event);
                self.gives_value(alloc, tables, script, store, Value::Undefined)
            }
            then => leads(alloc, script, Charge::Line { event, then }),
        }
    }

    /// The first turn after the line of a call.
    #[inline(always)]
    fn enters_by(
        &mut self,
        alloc: Global,
        tables: &Tables,
        script: &Script,
        store: &mut Store,
        event: Event,
        body: Body,
    ) -> Turn
        requires read { let p : Program = program_of tables.now script.now in IsReadOver p.list script.now }
        requires fits { let p : Program = program_of tables.now script.now in MachineFits p script.now store.old (once_paid p script.now (Charge.Line event (AfterLine.Enters body)) self.old) self.old }
        ensures { let p : Program = program_of tables.now script.now in LeadsOn p script.now store.old (once_paid p script.now (Charge.Line event (AfterLine.Enters body)) self.old) self.old store.new self.new result }
    {
        match calls::enters(body, event) {
            Move::Acts(due) => match due {
                Due::Enter { number, this, args } => {
                    self.enters_function(alloc, tables, script, store, number, this, args)
                }
                Due::EnterBuiltin {
                    f,
                    function,
                    this,
                    args,
                } => self.enters_talk(alloc, tables, script, store, f, function, this, args),
                due => more(alloc, Move::Acts(due)),
            },
            next => more(alloc, next),
        }
    }

    /// The turn that enters a function of the script.
    #[inline(never)]
    fn enters_function(
        &mut self,
        alloc: Global,
        tables: &Tables,
        script: &Script,
        store: &Store,
        number: u32,
        this: Value,
        args: Values,
    ) -> Turn
        requires read { let p : Program = program_of tables.now script.now in IsReadOver p.list script.now }
        requires fits { let p : Program = program_of tables.now script.now in MachineFits p script.now store.now (moves_on p script.now (Move.Acts (Due.Enter number this args)) self.old) self.old }
        ensures { Turns (program_of tables.now script.now) script.now store.now (Move.Acts (Due.Enter number this args)) self.old store.now self.new result }
    {
        match enter(alloc, script, store, &mut self.place, number, this, args) {
            Ok(next) => self.ends_or_goes_on(alloc, tables, script, store, next),
            Err(_) => Turn::Memory,
        }
    }

    /// The first turn after the line of a call's end.
    #[inline(always)]
    fn leaves_by(
        &mut self,
        alloc: Global,
        tables: &Tables,
        script: &Script,
        store: &mut Store,
        event: Event,
    ) -> Turn
        requires read { let p : Program = program_of tables.now script.now in IsReadOver p.list script.now }
        requires fits { let p : Program = program_of tables.now script.now in MachineFits p script.now store.old (once_paid p script.now (Charge.Line event AfterLine.Leaves) self.old) self.old }
        ensures { let p : Program = program_of tables.now script.now in LeadsOn p script.now store.old (once_paid p script.now (Charge.Line event AfterLine.Leaves) self.old) self.old store.new self.new result }
    {
        match calls::leaves(event) {
            Move::Acts(due) => match due {
                Due::Leave(completion) => {
                    self.leaves_call(alloc, tables, script, store, completion)
                }
                due => more(alloc, Move::Acts(due)),
            },
            next => more(alloc, next),
        }
    }

    /// The turn that leaves the innermost context.
    #[inline(always)]
    fn leaves_call(
        &mut self,
        alloc: Global,
        tables: &Tables,
        script: &Script,
        store: &Store,
        completion: Completion,
    ) -> Turn
        requires read { let p : Program = program_of tables.now script.now in IsReadOver p.list script.now }
        requires fits { let p : Program = program_of tables.now script.now in MachineFits p script.now store.now (moves_on p script.now (Move.Acts (Due.Leave completion)) self.old) self.old }
        ensures { Turns (program_of tables.now script.now) script.now store.now (Move.Acts (Due.Leave completion)) self.old store.now self.new result }
    {
        let next = leave(store, &mut self.place, completion);
        self.ends_or_goes_on(alloc, tables, script, store, next)
    }
}
