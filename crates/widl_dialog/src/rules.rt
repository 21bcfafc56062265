//! Sets of rules.

/// A set of rules. `rule` gives each job its steps, and `fits` tells which answers an ask may get. Where
/// asks are actions on a world, `act` does one, or stops the run; `kept` is a relation between a world
/// before and a world after. All of it is definitions.
pub trait Rules {
    ghost use Rattle.widl_dialog.specs.Dialog.{Dialog};
    ghost use Rattle.widl_dialog.specs.Runs.{Did};

    ghost job: { Type 0 };

    ghost ask: { Type 0 };

    ghost answer: { Type 0 };

    ghost completion: { Type 0 };

    ghost rule: { job → Dialog job ask answer completion };

    ghost fits: { ask → answer → Type 0 };

    ghost world: { Type 0 };

    ghost stop: { Type 0 };

    ghost act: { ask → world → Did world answer stop };

    ghost kept: { world → world → Type 0 };
}
