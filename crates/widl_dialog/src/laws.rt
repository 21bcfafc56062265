//! The laws of conversations and of runs, for all rules. Each function does nothing: its contract is
//! the law.

ghost use Rattle.std.specs.Prelude.{◌≡◌, ℕ};
ghost use Rattle.widl_dialog.specs.Calm.{Ranks, Calming};
ghost use Rattle.widl_dialog.specs.Conversation.{Good};
ghost use Rattle.widl_dialog.specs.Credit.{Balanced};
ghost use Rattle.widl_dialog.specs.Kept.{Keeps};
ghost use Rattle.widl_dialog.specs.Laws.{OneNext, PartsJoin, WholesSplit, PartsAsk, AsksGoOn, OneOutcome, EachEnds, RunsKeep, NoneRises, RunsAreTalks};
ghost use Rattle.widl_dialog.specs.Lift.{Ways, lift};

use crate::Rules;

/// At most one thing comes next in a conversation.
pub fn one_next<R: Rules>()
    ensures { OneNext R.rule R.fits }
{}

/// A part's conversation followed by the rest's is the whole's.
pub fn parts_join<R: Rules>()
    ensures whole { PartsJoin R.rule R.fits }
    ensures ask { PartsAsk R.rule R.fits }
{}

/// The whole's conversation is a part's followed by the rest's.
pub fn wholes_split<R: Rules>()
    ensures { WholesSplit R.rule R.fits }
{}

/// Where after each answer some conversation ends, an ask comes next exactly where some whole
/// conversation goes on with it.
pub fn asks_go_on<R: Rules>()
    ensures { ((j : R.job) → Good R.rule R.fits (R.rule j)) → (j : R.job) → AsksGoOn R.rule R.fits j }
{}

/// From a world there is at most one outcome.
pub fn one_outcome<R: Rules>()
    ensures { OneOutcome R.rule R.act }
{}

/// Where charges are paid and rules are calm, each run ends.
pub fn each_ends<R: Rules>()
    ensures { (units : R.world → ℕ) (ranks : Ranks R.job R.ask) → Calming R.rule R.act units ranks → EachEnds R.rule R.act }
{}

/// What each action keeps, each run keeps.
pub fn runs_keep<R: Rules>()
    ensures { Keeps R.act R.kept → RunsKeep R.rule R.act R.kept }
{}

/// Where each rule has what its actions take, a level doesn't rise over a job's run.
pub fn none_rises<R: Rules>()
    ensures { (level : R.world → ℕ) (gives takes : R.ask → ℕ) → Balanced R.rule R.act level gives takes → NoneRises R.rule R.act level }
{}

/// In a world the steps of a conversation do what their conversations say, whose asks are done one
/// after another: to the end, or up to one that stops.
pub fn runs_are_talks<T: Rules, R: Rules>()
    ensures { (ways : Ways T.job T.ask T.answer T.completion R.job R.completion) → ((j : T.job) → R.rule (ways.task j) ≡ lift ways (T.rule j)) → ((q : T.ask) (b : R.completion) → T.fits q (ways.answer q b)) → RunsAreTalks T.rule T.fits ways R.rule R.act }
{}
