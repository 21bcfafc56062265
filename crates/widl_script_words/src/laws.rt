//! Laws on the trees of scripts. Each function does nothing: its contract is the law.

ghost use Rattle.widl_script_words.specs.OneTree.{EachExpressionIsOne, EachScriptIsOne, EachStepIsOne};

/// No two expressions spell the same words.
pub fn one_expression()
    ensures { EachExpressionIsOne }
{}

/// No two lines of a steps block spell the same words.
pub fn one_step()
    ensures { EachStepIsOne }
{}

/// No two scripts spell the same words.
pub fn one_script()
    ensures { EachScriptIsOne }
{}
