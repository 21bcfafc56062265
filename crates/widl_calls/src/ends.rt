//! The ends of calls.

ghost use Rattle.std.specs.Prelude.{◌≡◌};
ghost use Rattle.widl_dialog.specs.Dialog.{End};
ghost use Rattle.widl_idl.specs.DefinitionTerms.{DefsTerm};
ghost use Rattle.widl_idl.specs.Terms.{TypeTerm};
ghost use Rattle.widl_steps.specs.Operations.{StepsOf};
ghost use Rattle.widl_value.specs.IdlTerms.{idl_term};
ghost use Rattle.widl_steps.specs.Tasks.{Profile};
ghost use Rattle.widl_steps.specs.Words.{fails, gives, not_built, returns};
ghost use Rattle.widl_convert.specs.Loads.{value_load};
ghost use Rattle.widl_calls.specs.Frames.{call_dialog, call_weight, ended_or_dictionary};

use crate::moves::CallMove;
use widl_convert::{Ending, Outcome};
use widl_trace::Code;
use widl_value::{IdlValue, Value};

/// The end of the profile of the functions that are never run.
pub(crate) const NEVER_RUN: u8 = 3;

/// The end of the profile of a primitive value for `this`.
pub(crate) const PRIMITIVE_THIS: u8 = 4;

/// The end of the profile of a text that a function would make too long.
pub(crate) const JOINS_LONG_TEXT: u8 = 5;

/// The end of the profile for what isn't built.
pub(crate) const NOT_BUILT: u8 = 99;

/// The end with an IDL value.
pub(crate) fn gives(value: IdlValue) -> CallMove
    ensures dialog { (list : DefsTerm) (steps : StepsOf) → call_dialog list steps result ≡ gives (idl_term value) }
    ensures weight { (list : DefsTerm) → call_weight list result ≡ value_load (idl_term value) }
{
    CallMove::Gives(Ending::Done(Outcome::Idl(value)))
}

/// The end with a value of the script.
pub(crate) fn returns(value: Value) -> CallMove
    ensures dialog { (list : DefsTerm) (steps : StepsOf) → call_dialog list steps result ≡ returns value }
    ensures weight { (list : DefsTerm) → call_weight list result ≡ 0 }
{
    CallMove::Gives(Ending::Done(Outcome::Script(value)))
}

/// The end with a new TypeError.
pub(crate) fn fails(reason: Code) -> CallMove
    ensures dialog { (list : DefsTerm) (steps : StepsOf) → call_dialog list steps result ≡ fails reason }
    ensures weight { (list : DefsTerm) → call_weight list result ≡ 0 }
{
    CallMove::Gives(Ending::Throw(reason))
}

/// The end of the profile of a number.
pub(crate) fn reaches(number: u8) -> CallMove
    ensures dialog { (list : DefsTerm) (steps : StepsOf) → call_dialog list steps result ≡ End (Profile number) }
    ensures weight { (list : DefsTerm) → call_weight list result ≡ 0 }
{
    CallMove::Gives(Ending::Profile(number))
}

/// The end of steps with an IDL value.
pub(crate) fn given(value: IdlValue) -> Option<Ending>
    ensures { (t : TypeTerm) → ended_or_dictionary t result ≡ gives (idl_term value) }
{
    Some(Ending::Done(Outcome::Idl(value)))
}

/// The end of steps with a new TypeError.
pub(crate) fn fault(reason: Code) -> Option<Ending>
    ensures { (t : TypeTerm) → ended_or_dictionary t result ≡ fails reason }
{
    Some(Ending::Throw(reason))
}

/// The end of steps with what isn't built.
pub(crate) fn not_built() -> Option<Ending>
    ensures { (t : TypeTerm) → ended_or_dictionary t result ≡ not_built }
{
    Some(Ending::Profile(NOT_BUILT))
}
