//! The laws of runs. Each function does nothing: its contract is the law.

ghost use Rattle.std.specs.Prelude.{ℕ};
ghost use Rattle.widl_idl.specs.DefinitionTerms.{DefsTerm};
ghost use Rattle.widl_script_tree.specs.Trees.{ScriptTree};
ghost use Rattle.widl_runs.specs.Jobs.{Program, Doing};
ghost use Rattle.widl_runs.specs.Laws.{HasOneOutcome, HasOneTrace, LinesGrow, LinesArePaid, ObjectsArePaid, ScriptsFit, SymbolsArePaid, TracesArePaid};
ghost use Rattle.widl_runs.specs.Worlds.{World};

/// Steps that are done in a world lead to a world and finish there, and to no other, in no other way.
pub fn has_one_outcome()
    ensures { (p : Program) (d : Doing) (w : World) → HasOneOutcome p d w }
{}

/// Whatever the list of definitions, the script and the budget are, there is a trace, and no other
/// one.
pub fn has_one_trace()
    ensures { (list : DefsTerm) (script : ScriptTree) (budget : ℕ) → HasOneTrace list script budget }
{}

/// Lines that are written stay, and new ones come after them.
pub fn lines_grow()
    ensures { (p : Program) → LinesGrow p }
{}

/// The lines that are written while something is done cost no more units than it takes.
pub fn lines_are_paid()
    ensures { (p : Program) → LinesArePaid p }
{}

/// No more objects are added than units are taken, nor objects and symbols together, over a job and over
/// a whole run; and a trace has at most one line more than that.
pub fn objects_are_paid()
    ensures job { (p : Program) → ObjectsArePaid p }
    ensures symbols { (p : Program) → SymbolsArePaid p }
    ensures run { (list : DefsTerm) (script : ScriptTree) (budget : ℕ) → TracesArePaid list script budget }
{}

/// Whatever a script does, each object that an action names is there, each function that is made is one
/// of the script, and the objects and symbols have room in 32 bits.
pub fn runs_fit()
    ensures { (p : Program) (budget : ℕ) → ScriptsFit p budget }
{}
