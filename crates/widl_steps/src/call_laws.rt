//! The laws of calls. Each function does nothing: its contract is the law, for each list of definitions
//! and the steps blocks of each script, and whatever is built.

ghost use Rattle.widl_idl.specs.DefinitionTerms.{DefsTerm};
ghost use Rattle.widl_steps.specs.Laws.{AsksAreTalked, BeginningsHaveOneNext, ChainsEnd, EachTaskEnds, PartsMakeWholes};
ghost use Rattle.widl_steps.specs.BuiltCalls.{BuiltCalls};
ghost use Rattle.widl_steps.specs.CallLaws.{OperationsNote, OperationsResolve, TablesFindSteps};
ghost use Rattle.widl_steps.specs.CallRules.{call_rule};
ghost use Rattle.widl_steps.specs.Operations.{StepsOf};

/// Exactly one thing comes next after what begins a whole conversation.
pub fn calls_have_one_next()
    ensures { (built : BuiltCalls) (list : DefsTerm) (steps : StepsOf) → BeginningsHaveOneNext (call_rule built list steps) }
{}

/// An ask comes next exactly where some whole conversation goes on with it.
pub fn call_asks_are_talked()
    ensures { (built : BuiltCalls) (list : DefsTerm) (steps : StepsOf) → ChainsEnd built.conversions list → AsksAreTalked (call_rule built list steps) }
{}

/// Each task has a whole conversation.
pub fn call_tasks_end()
    ensures { (built : BuiltCalls) (list : DefsTerm) (steps : StepsOf) → ChainsEnd built.conversions list → EachTaskEnds (call_rule built list steps) }
{}

/// The conversation of a whole is those of its parts, one after another.
pub fn parts_make_whole_calls()
    ensures { (built : BuiltCalls) (list : DefsTerm) (steps : StepsOf) → PartsMakeWholes (call_rule built list steps) }
{}

/// What an operation says begins with what the choice of its overload says.
pub fn operations_resolve()
    ensures { (built : BuiltCalls) (list : DefsTerm) (steps : StepsOf) → OperationsResolve built list steps }
{}

/// Between the end of that choice and the event of the overload nothing is asked.
pub fn operations_note()
    ensures { (built : BuiltCalls) (list : DefsTerm) (steps : StepsOf) → OperationsNote built list steps }
{}

/// Where the tables of a script find the blocks of its tree, a call does the lines of the tree.
pub fn tables_find_steps()
    ensures { TablesFindSteps }
{}
