//! The laws of suspended conversions. Each function does nothing: its contract is the law, for each list of
//! definitions. The laws of what they say are those of `widl_steps`.

ghost use Rattle.widl_idl.specs.DefinitionTerms.{DefsTerm};
ghost use Rattle.widl_convert.specs.Stack.{EachAnswerGoesOn, HasOneLast};

/// Of a task and what was said of it, a suspended conversation has at most one ask that waits.
pub fn has_one_last()
    ensures { (list : DefsTerm) → HasOneLast list }
{}

/// A suspended conversation that stands at an ask has exactly one next, for each answer that fits: over lists
/// in which no chain of more dictionaries begins than validity allows.
pub fn answers_go_on()
    ensures { (list : DefsTerm) → EachAnswerGoesOn list }
{}
