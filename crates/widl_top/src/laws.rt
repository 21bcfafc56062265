//! Laws on the output: functions without a body, whose contracts are the laws.

ghost use Rattle.std.specs.Prelude.{◌≡◌, ℕ, List};
ghost use Rattle.widl_top.specs.Output.{Output};
ghost use Rattle.widl_top.specs.Outputs.{IsOutput};

use widl_front::laws::one_verdict;
use widl_runs::laws::has_one_trace;
use widl_script::rule_laws::{one_first_break, one_script, scripts_are_unbroken};

/// The arguments and the files have at most one output: what is written, and the status, are determined.
pub fn one_output()
    ensures { (words : List (List ℕ)) (files : List (List ℕ × List ℕ)) (a b : Output) → IsOutput words files a → IsOutput words files b → a ≡ b }
{
    one_verdict();
    one_script();
    one_first_break();
    scripts_are_unbroken();
    has_one_trace();
}
