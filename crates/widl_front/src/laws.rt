//! Laws on verdicts, and on how deep what types mean nests: functions whose contracts are the laws.

ghost use Rattle.std.specs.Prelude.{◌≡◌, ◌≤◌, ℕ, List, Contains, Some};
ghost use Rattle.widl_text.specs.Limits.{most_type_levels};
ghost use Rattle.widl_idl.specs.declared.tree.fragments.Fragment.{Fragment};
ghost use Rattle.widl_idl.specs.Meanings.{definitions_of};
ghost use Rattle.widl_idl.specs.MergedSets.{IsUnbroken};
ghost use Rattle.widl_idl.specs.Nesting.{depth_of};
ghost use Rattle.widl_idl.specs.Nodes.{TypeNode, nodes_of};
ghost use Rattle.widl_idl.specs.PlainTrees.{PlainDefinition};
ghost use Rattle.widl_idl.specs.PlainTypes.{PlainType};
ghost use Rattle.widl_idl.specs.Resolution.{Note};
ghost use Rattle.widl_idl.specs.WrittenTypes.{meaning_of_type};
ghost use Rattle.widl_front.specs.TypeLevels.{levels};
ghost use Rattle.widl_front.specs.Verdicts.{IsVerdict, AreAlike};
ghost use Rattle.widl_front.specs.declared.verdict.Verdict.{Verdict as VerdictType};

use widl_grammar::laws::{accepted_has_no_fault, one_fault};
use widl_lex::each_text_has_one_cut;
use widl_syntax::laws::one_tree_spelled;

/// The texts of a set of files have at most one verdict, but for where an accepted set lies in memory.
pub fn one_verdict()
    ensures { (texts : List (List ℕ)) (a b : VerdictType) → IsVerdict texts a → IsVerdict texts b → AreAlike a b }
{
    each_text_has_one_cut();
    one_fault();
    accepted_has_no_fault();
    one_tree_spelled();
}

/// What a type means after any annotations has at most as many levels as the type's depth with its
/// typedefs replaced, where that is known.
pub fn meanings_keep_to_depths()
    ensures { (definitions : List PlainDefinition) (notes : List Note) (t : PlainType) (depth : ℕ) → depth_of definitions t ≡ Some depth → levels (meaning_of_type definitions notes t) ≤ depth }
{}

/// What a type means that is written in a set of files without a broken rule has at most 16 levels.
pub fn meanings_keep_to_the_limit()
    ensures { (fragments : List Fragment) (notes : List Note) (t : PlainType) → IsUnbroken fragments → Contains (nodes_of (definitions_of fragments)) (TypeNode t) → levels (meaning_of_type (definitions_of fragments) notes t) ≤ most_type_levels }
{}
