//! Rows of expressions and calls, up to the line of the call where no value of the row is waited for.

ghost use Rattle.std.specs.Prelude.{◌≡◌, IfOk};
ghost use Rattle.widl_runs.specs.Jobs.{Program};
ghost use Rattle.widl_script_tree.specs.Tables.{Tables as ScriptTables};
ghost use Rattle.widl_store.specs.Objects.{IsLive};
ghost use Rattle.widl_engine.specs.declared.jobs.RowUse.{RowUse as RowUses};
ghost use Rattle.widl_engine.specs.declared.machine.Machine.{Machine as Machines};
ghost use Rattle.widl_engine.specs.Frames.{program_of};
ghost use Rattle.widl_engine.specs.Machine.{MachineFits, Stays, Turns, moves_on};
ghost use Rattle.widl_engine.specs.ReadOver.{IsReadOver};

use crate::acts::{Acted, body_of, deepen};
use crate::at_once::value_at;
use crate::calls::call;
use crate::contexts::Place;
use crate::due::Due;
use crate::jobs::{Calling, Job, RowUse};
use crate::machine::{Machine, Turn, more};
use crate::moves::Move;
use crate::rows::evaluate_row;
use std::alloc::AllocError;
use widl_script_tree::laws::rows_open;
use widl_script_tree::{Row, Script};
use widl_store::Store;
use widl_tables::Tables;
use widl_value::{ObjRef, Value, Values};

/// The values of a row that are there at once, and what is left of it.
#[derive(Drop)]
struct RowLeft {
    /// The values so far.
    made: Values,
    /// What is left.
    rest: Row,
}

/// Takes the values at the front of a row that are there at once.
fn begun(
    script: &Script,
    store: &Store,
    place: &Place,
    made: Values,
    row: Row,
) -> Result<RowLeft, AllocError>
    ensures { IfOk result (λ b. (p : Program) → IsReadOver p.list script.now → (what : RowUses) → (m : Machines) → m.place ≡ place.now → Stays p script.now store.now (moves_on p script.now (Move.Goes (Job.Row what made row)) m) m store.now (moves_on p script.now (Move.Goes (Job.Row what b.made b.rest)) m) m) }
{
    rows_open(script);
    let mut made = made;
    let mut rest = row;
    'row: while rest.count > 0 {
        match value_at(script, store, place, rest.first)? {
            Some(value) => made.push(value)?,
            None => return Ok(RowLeft { made, rest }),
        }
        rest = rest.rest();
    }
    Ok(RowLeft { made, rest })
}

impl Machine {
    /// The turn of a row of expressions.
    #[inline(never)]
    pub(crate) fn row(
        &mut self,
        tables: &Tables,
        script: &Script,
        store: &Store,
        what: RowUse,
        made: Values,
        row: Row,
    ) -> Turn
        requires read { let p : Program = program_of tables.now script.now in IsReadOver p.list script.now }
        requires fits { let p : Program = program_of tables.now script.now in MachineFits p script.now store.now (moves_on p script.now (Move.Goes (Job.Row what made row)) self.old) self.old }
        ensures { Turns (program_of tables.now script.now) script.now store.now (Move.Goes (Job.Row what made row)) self.old store.now self.new result }
    {
        match begun(script, store, &self.place, made, row) {
            Ok(left) => {
                let RowLeft { made, rest } = left;
                self.goes_on_in_row(tables, script, store, what, made, rest)
            }
            Err(_) => Turn::Memory,
        }
    }

    /// The turn of a row whose first expression, if there is one, has no value at once.
    #[inline(always)]
    fn goes_on_in_row(
        &mut self,
        tables: &Tables,
        script: &Script,
        store: &Store,
        what: RowUse,
        made: Values,
        row: Row,
    ) -> Turn
        requires fits { let p : Program = program_of tables.now script.now in MachineFits p script.now store.now (moves_on p script.now (Move.Goes (Job.Row what made row)) self.old) self.old }
        ensures { Turns (program_of tables.now script.now) script.now store.now (Move.Goes (Job.Row what made row)) self.old store.now self.new result }
    {
        let next = evaluate_row(script, what, made, row);
        match next {
            Move::Goes(job) => match job {
                Job::Call { calling, args } => self.calls(tables, script, store, calling, args),
                job => more(*self.frames.allocator(), Move::Goes(job)),
            },
            next => more(*self.frames.allocator(), next),
        }
    }

    /// The turn of a call with its arguments.
    #[inline(never)]
    pub(crate) fn calls(
        &mut self,
        tables: &Tables,
        script: &Script,
        store: &Store,
        calling: Box<Calling>,
        args: Values,
    ) -> Turn
        requires fits { let p : Program = program_of tables.now script.now in MachineFits p script.now store.now (moves_on p script.now (Move.Goes (Job.Call calling args)) self.old) self.old }
        ensures { Turns (program_of tables.now script.now) script.now store.now (Move.Goes (Job.Call calling args)) self.old store.now self.new result }
    {
        let next = call(calling, args);
        match next {
            Move::Acts(due) => match due {
                Due::FindBody { f, this, args } => self.calls_body(store, f, this, args),
                due => more(*self.frames.allocator(), Move::Acts(due)),
            },
            next => more(*self.frames.allocator(), next),
        }
    }

    /// The turn of the call of an object.
    #[inline(always)]
    fn calls_body(&mut self, store: &Store, f: ObjRef, this: Value, args: Values) -> Turn
        requires { IsLive store.now.objects f }
        ensures { (p : Program) (s : ScriptTables) → Turns p s store.now (Move.Acts (Due.FindBody f this args)) self.old store.now self.new result }
    {
        let body = body_of(store, f);
        match deepen(store, &self.place, f, this, args, body) {
            Acted::Went(Move::Pays(charge)) => self.rests(charge),
            Acted::Went(next) => more(*self.frames.allocator(), next),
            Acted::Stopped(stop) => Turn::Stopped(stop),
            Acted::Memory => Turn::Memory,
        }
    }
}
