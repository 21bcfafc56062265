//! Rows of expressions.

ghost use Rattle.std.specs.Prelude.{◌≡◌};
ghost use Rattle.widl_script_tree.specs.Tables.{Tables, expressions_tree};
ghost use Rattle.widl_runs.specs.Expressions.{evaluate_row, row_done};
ghost use Rattle.widl_runs.specs.Jobs.{Program};
ghost use Rattle.widl_engine.specs.Frames.{move_of, row_use_of};

use crate::charges::{Charge, Unit};
use crate::frames::{Frame, ValueFrame};
use crate::jobs::{Job, RowUse};
use crate::moves::Move;
use widl_script_tree::laws::rows_open;
use widl_script_tree::{Row, Script};
use widl_steps::New;
use widl_value::Values;

/// All values of a row are there.
#[inline(always)]
fn row_done(what: RowUse, made: Values) -> Move
    ensures { (p : Program) (s : Tables) → move_of p s result ≡ row_done (row_use_of what) made }
{
    match what {
        RowUse::Arguments(calling) => Move::Goes(Job::Call {
            calling,
            args: made,
        }),
        RowUse::New(f) => Move::Goes(Job::Construct { f, args: made }),
        RowUse::Items => Move::Pays(Charge::Unit(Unit::New(New::Array(made)))),
    }
}

/// The next expression of a row.
#[inline(always)]
pub(crate) fn evaluate_row(script: &Script, what: RowUse, made: Values, row: Row) -> Move
    ensures { (p : Program) → move_of p script.now result ≡ evaluate_row (row_use_of what) made (expressions_tree script.now row) }
{
    rows_open(script);
    if row.count == 0 {
        return row_done(what, made);
    }
    Move::Steps(
        Frame::Value(ValueFrame::InRow {
            what,
            made,
            rest: row.rest(),
        }),
        Job::Evaluate(row.first),
    )
}
