//! Laws on the levels of a line and on the first break of a script. Each function does nothing: its contract is
//! the law.

ghost use Rattle.std.specs.Prelude.{◌≡◌, ℕ, List, Some, None};
ghost use Rattle.widl_lines.specs.declared.script_place.ScriptPlace.{ScriptPlace};
ghost use Rattle.widl_lines.specs.Levels.{AreMarked};
ghost use Rattle.widl_lines.specs.TextBreaks.{ScriptBreak};

/// A script has at most one first break.
pub fn one_first_break()
    ensures { (text : List ℕ) (one other : ScriptPlace) → ScriptBreak text (Some one) → ScriptBreak text (Some other) → one ≡ other }
{}

/// A script without a break has no first break.
pub fn unbroken_has_no_first_break()
    ensures { (text : List ℕ) (place : ScriptPlace) → ScriptBreak text None → ScriptBreak text (Some place) → ⊥ }
{}

/// What lies inside a bracket, and so one level further in: the marks of the rows say so of exactly the parts
/// that stand between a bracket's two signs.
pub fn levels_are_marked()
    ensures { AreMarked }
{}
