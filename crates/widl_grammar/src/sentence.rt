//! Whether terminals are a sentence.

ghost use Rattle.std.specs.Prelude.{◌≡◌, ◌⊎◌, OnOk, IfErr, IsOkUnless};
ghost use Rattle.widl_predictive.specs.Grammar.{IsAccepted, IsFault};
ghost use Rattle.widl_predictive.specs.declared.fault.Fault.TheVariants.{Memory};
ghost use Rattle.widl_grammar.specs.Rows.{grammar};
ghost use Rattle.widl_grammar.specs.declared.rule.Rule.TheVariants.{Definitions};

use crate::{Rule, Terminal};
use std::alloc::Global;
use widl_predictive::{Fault, read_sentence};

/// Whether the terminals are those of a file of Web IDL, and at which of them they fail to be
/// ([Web IDL, IDL grammar](https://webidl.spec.whatwg.org/#idl-grammar)). The time is linear.
///
/// `Ok` exactly for a sentence of the grammar without a type of level 17. [`Fault::Syntax`] is at the
/// first terminal up to and including which no sentence begins, or at the number of terminals where
/// the file ends too early. [`Fault::TooDeep`] is at the first terminal that begins a type of level 17
/// in some sentence that begins with the terminals up to and including it. Of both the lower one is
/// the fault. [`Fault::Memory`] may come for any terminals.
pub fn read_definitions(alloc: Global, terminals: &[Terminal]) -> Result<(), Fault>
    ensures ok { OnOk result (IsAccepted grammar Definitions terminals.now) }
    ensures fault { IfErr result (λ e. (e ≡ Memory) ⊎ IsFault grammar Definitions terminals.now e) }
    ensures complete { IsAccepted grammar Definitions terminals.now → IsOkUnless result Memory }
{
    read_sentence(alloc, Rule::Definitions, terminals)
}
