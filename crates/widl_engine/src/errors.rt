//! How errors are thrown.

ghost use Rattle.std.specs.Prelude.{◌≡◌};
ghost use Rattle.widl_runs.specs.Errors.{fail, throws_error};
ghost use Rattle.widl_runs.specs.Jobs.{fails, Program};
ghost use Rattle.widl_script_tree.specs.Tables.{Tables};
ghost use Rattle.widl_engine.specs.Frames.{move_of};

use crate::charges::{Charge, Unit};
use crate::jobs::Job;
use crate::moves::Move;
use widl_trace::Code;

/// The unit of an error.
#[inline(always)]
pub(crate) fn fail(code: Code) -> Move
    ensures { (p : Program) (s : Tables) → move_of p s result ≡ fail code }
{
    Move::Pays(Charge::Unit(Unit::Fail(code)))
}

/// An error is thrown.
#[inline(always)]
pub(crate) fn fails(code: Code) -> Move
    ensures { (p : Program) (s : Tables) → move_of p s result ≡ fails code }
{
    Move::Goes(Job::Fail(code))
}
