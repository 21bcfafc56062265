//! Laws on the trees of files. The functions do nothing: their contracts are the laws.

ghost use Rattle.widl_syntax.specs.OneTree.{EachSpellingHasOneTree};

/// No two trees have the same spelling: where two files spell the same tokens, their definitions say the
/// same, with equal places and equal texts.
pub fn one_tree_spelled()
    ensures { EachSpellingHasOneTree }
{}
