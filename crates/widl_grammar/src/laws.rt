//! Laws on the grammar and on the faults of files. The functions do nothing: their contracts are the laws.

ghost use Rattle.std.specs.Prelude.{◌≡◌, ◌↔◌, ◌<◌, ℕ, Some, IsSome, List};
ghost use Rattle.widl_lex.specs.Quoted.{IsQuoted};
ghost use Rattle.widl_predictive.specs.Derivation.{tree_of};
ghost use Rattle.widl_predictive.specs.Grammar.{Sentence, SyntaxPlace, DeepPlace, IsAccepted, IsFault};
ghost use Rattle.widl_predictive.specs.declared.fault.Fault.{Fault};
ghost use Rattle.widl_grammar.specs.declared.rule.Rule.TheVariants.{Definitions};
ghost use Rattle.widl_grammar.specs.declared.terminal.Terminal.{Terminal};
ghost use Rattle.widl_grammar.specs.Levels.{AreMarked};
ghost use Rattle.widl_grammar.specs.Printed.{PrintedSentence};
ghost use Rattle.widl_grammar.specs.Rows.{grammar};
ghost use Rattle.widl_grammar.specs.Words.{quoted, spelling};

use crate::Rule;
use widl_predictive::laws;

/// The rows have exactly the sentences of the printed grammar.
pub fn same_sentences()
    ensures { (terminals : List Terminal) → (Sentence grammar Definitions terminals ↔ PrintedSentence terminals) }
{}

/// What lies one level further in than the type that it is a part of: the marks of the rows say so of
/// exactly the parts that the definition names.
pub fn levels_are_marked()
    ensures { AreMarked }
{}

/// No two quoted terminals are spelled the same: the spelling tells the terminal.
pub fn spelling_tells_terminal()
    ensures { (t : Terminal) (text : List ℕ) → spelling t ≡ Some text → quoted text ≡ Some t }
{}

/// And the other way round: the terminal that a text is quoted as is spelled so.
pub fn quoted_terminal_is_spelled_so()
    ensures { (t : Terminal) (text : List ℕ) → quoted text ≡ Some t → spelling t ≡ Some text }
{}

/// Each spelling of a terminal is a word or sign that a token can be quoted as.
pub fn spelled_terminals_are_quoted_tokens()
    ensures { (t : Terminal) (text : List ℕ) → spelling t ≡ Some text → IsQuoted text }
{}

/// Each word or sign that a token can be quoted as is a terminal of the grammar.
pub fn quoted_tokens_are_terminals()
    ensures { (text : List ℕ) → IsQuoted text → IsSome (quoted text) }
{}

/// A list of terminals has at most one derivation: any two have the same tree.
pub fn one_tree()
    ensures { (terminals : List Terminal) (d e : Sentence grammar Definitions terminals) → tree_of d ≡ tree_of e }
{
    laws::one_tree::<Rule>();
}

/// A list of terminals has at most one syntax place.
pub fn one_syntax_place()
    ensures { (terminals : List Terminal) (j k : ℕ) → SyntaxPlace grammar Definitions terminals j → SyntaxPlace grammar Definitions terminals k → j ≡ k }
{
    laws::one_syntax_place::<Rule>();
}

/// A sentence has no syntax place.
pub fn sentence_has_no_syntax_place()
    ensures { (terminals : List Terminal) (k : ℕ) → Sentence grammar Definitions terminals → SyntaxPlace grammar Definitions terminals k → ⊥ }
{
    laws::sentence_has_no_syntax_place::<Rule>();
}

/// The deep place of a list comes before its syntax place.
pub fn deep_place_comes_first()
    ensures { (terminals : List Terminal) (j k : ℕ) → DeepPlace grammar Definitions terminals j → SyntaxPlace grammar Definitions terminals k → j < k }
{
    laws::deep_place_comes_first::<Rule>();
}

/// A list of terminals has at most one fault.
pub fn one_fault()
    ensures { (terminals : List Terminal) (e f : Fault) → IsFault grammar Definitions terminals e → IsFault grammar Definitions terminals f → e ≡ f }
{
    laws::one_fault::<Rule>();
}

/// A sentence without a deep place has no fault.
pub fn accepted_has_no_fault()
    ensures { (terminals : List Terminal) (e : Fault) → IsAccepted grammar Definitions terminals → IsFault grammar Definitions terminals e → ⊥ }
{
    laws::accepted_has_no_fault::<Rule>();
}
