//! The law of the cut.

ghost use Rattle.std.specs.Prelude.{ℕ, List, IsUtf8};
ghost use Rattle.widl_lex.specs.Cut.{HasOneCut};

/// Each UTF-8 text has exactly one cut into longest pieces. The function does nothing: the law is its contract.
pub fn each_text_has_one_cut()
    ensures { (text : List ℕ) → IsUtf8 text → HasOneCut text }
{}
