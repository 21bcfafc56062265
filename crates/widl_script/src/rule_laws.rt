//! Laws on what bytes are over a list of definitions: one script, or one place at which the first rule is
//! broken. Each function does nothing: its contract is the law.

ghost use Rattle.std.specs.Prelude.{◌≡◌, ℕ, List};
ghost use Rattle.widl_idl.specs.DefinitionTerms.{DefsTerm};
ghost use Rattle.widl_lines.specs.declared.script_place.ScriptPlace.{ScriptPlace};
ghost use Rattle.widl_script_tree.specs.Trees.{ScriptTree};
ghost use Rattle.widl_script.specs.Scripts.{IsFirstBreak, IsScriptOf};

/// The first broken rule has one place.
pub fn one_first_break()
    ensures { (bytes : List ℕ) (list : DefsTerm) (one other : ScriptPlace) → IsFirstBreak bytes list one → IsFirstBreak bytes list other → one ≡ other }
{
    widl_lines::laws::one_first_break();
    widl_lines::laws::unbroken_has_no_first_break();
}

/// A script breaks no rule.
pub fn scripts_are_unbroken()
    ensures { (bytes : List ℕ) (list : DefsTerm) (tree : ScriptTree) (place : ScriptPlace) → IsScriptOf bytes list tree → IsFirstBreak bytes list place → ⊥ }
{
    widl_lines::laws::one_first_break();
    widl_lines::laws::unbroken_has_no_first_break();
}

/// A script has one tree.
pub fn one_script()
    ensures { (bytes : List ℕ) (list : DefsTerm) (one other : ScriptTree) → IsScriptOf bytes list one → IsScriptOf bytes list other → one ≡ other }
{
    widl_script_words::laws::one_script();
}
