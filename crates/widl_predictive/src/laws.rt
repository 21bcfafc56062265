//! Laws on sentences and places, for every grammar. Each function does nothing: its contract is the
//! law.

ghost use Rattle.std.specs.Prelude.{◌≡◌, ◌<◌, ℕ, true, List};
ghost use Rattle.widl_predictive.specs.declared.fault.Fault.{Fault};
ghost use Rattle.widl_predictive.specs.Derivation.{tree_of};
ghost use Rattle.widl_predictive.specs.Grammar.{Sentence, SyntaxPlace, DeepPlace, IsAccepted, IsFault};

use crate::Rule;

/// A list has at most one syntax place.
pub fn one_syntax_place<R: Rule>()
    ensures { (start : R) (tokens : List R.Terminal) (j k : ℕ) → SyntaxPlace R.grammar start tokens j → SyntaxPlace R.grammar start tokens k → j ≡ k }
{}

/// A sentence has no syntax place.
pub fn sentence_has_no_syntax_place<R: Rule>()
    ensures { (start : R) (tokens : List R.Terminal) (k : ℕ) → Sentence R.grammar start tokens → SyntaxPlace R.grammar start tokens k → ⊥ }
{}

/// A list's deep place comes before its syntax place.
pub fn deep_place_comes_first<R: Rule>()
    ensures { (start : R) (tokens : List R.Terminal) (j k : ℕ) → DeepPlace R.grammar start tokens j → SyntaxPlace R.grammar start tokens k → j < k }
{}

/// A list has at most one fault.
pub fn one_fault<R: Rule>()
    ensures { (start : R) (tokens : List R.Terminal) (e f : Fault) → IsFault R.grammar start tokens e → IsFault R.grammar start tokens f → e ≡ f }
{}

/// A sentence without a deep place has no fault.
pub fn accepted_has_no_fault<R: Rule>()
    ensures { (start : R) (tokens : List R.Terminal) (e : Fault) → IsAccepted R.grammar start tokens → IsFault R.grammar start tokens e → ⊥ }
{}

/// A list has at most one derivation: any two have the same tree.
pub fn one_tree<R: Rule>()
    ensures { (start : R) (tokens : List R.Terminal) → R.grammar.starts start ≡ true → (d e : Sentence R.grammar start tokens) → tree_of d ≡ tree_of e }
{}
