//! Whole scripts.

ghost use Rattle.std.specs.Prelude.{◌≡◌, ◌≤◌, length, IfErr, IfOk, IsOkUnless};
ghost use Rattle.widl_fits.specs.Hierarchies.{IsHierarchy};
ghost use Rattle.widl_idl.specs.Counts.{IsNumberedList};
ghost use Rattle.widl_idl.specs.DefinitionTerms.{defs_term};
ghost use Rattle.widl_lines.specs.declared.script_place.ScriptPlace.{ScriptPlace};
ghost use Rattle.widl_lines.specs.Refusals.{IsErrWith};
ghost use Rattle.widl_overload.specs.rules.Dictionaries.{dictionary_terms};
ghost use Rattle.widl_overload.specs.OperationsAlone.{HasOperationsAlone};
ghost use Rattle.widl_script_tree.specs.Tables.{script_tree};
ghost use Rattle.widl_script.specs.Outcomes.{IsRefusal};
ghost use Rattle.widl_script.specs.Scripts.{Answers, IsFirstBreak, IsReadAs};
ghost use Rattle.widl_script_words.specs.SpelledStatements.{IsTreeOf, words_of};

use crate::callee_blocks::blocks_of_overloads;
use crate::owners::owners_of_names;
use crate::rule_laws::{one_first_break, scripts_are_unbroken};
use std::alloc::{AllocError, Global};
use widl_idl::Defs;
use widl_lines::{ScriptFault, ScriptWords};
use widl_overload::Accepted;
use widl_script_reader::build;
use widl_script_rules::least_break::least_break;
use widl_script_tree::Script;

/// The script of words that break no rule.
fn script_of(alloc: Global, words: &ScriptWords<'_>, list: &Defs) -> Result<Script, AllocError>
    requires rules { HasOperationsAlone (defs_term list.now) }
    requires numbered { IsNumberedList list.now }
    ensures tree { IfOk result (λ script. IsTreeOf (script_tree script) (words_of words.now)) }
    ensures answers { IfOk result (Answers (defs_term list.now)) }
{
    let built = build(alloc, words)?;
    let owners = owners_of_names(alloc, &built.tables, list)?;
    let targets = blocks_of_overloads(alloc, &built.tables, built.top, list)?;
    Ok(built.tables.finish(built.top, owners, targets))
}

/// The script of bytes over a list of definitions, or the first rule that they break.
fn read_over(alloc: Global, bytes: &[u8], list: &Defs) -> Result<Script, ScriptFault>
    requires short { length bytes.now ≤ 1048576 }
    requires rules { HasOperationsAlone (defs_term list.now) }
    requires hierarchy { IsHierarchy (dictionary_terms list.now) }
    requires numbered { IsNumberedList list.now }
    ensures ok { IfOk result (IsReadAs bytes.now (defs_term list.now)) }
    ensures refused { IfErr result (IsRefusal bytes.now (defs_term list.now)) }
{
    let words = ScriptWords::read(alloc, bytes)?;
    if let Some(place) = least_break(alloc, list, words.lines())? {
        return Err(ScriptFault::Refused(place));
    }
    Ok(script_of(alloc, &words, list)?)
}

/// The script that bytes are over a list of definitions, or the first rule that they break: the first of form
/// (rules 1 to 4 and 6), or else the first of the others by line, column and rule.
///
/// It asks for a list without interfaces whose namespaces have operations alone.
///
/// # Errors
///
/// `Refused` with the first break exactly where there is one, and `Memory` where there is no memory.
pub fn read_script(alloc: Global, bytes: &[u8], list: &Accepted) -> Result<Script, ScriptFault>
    requires short { length bytes.now ≤ 1048576 }
    requires rules { HasOperationsAlone (defs_term list.now.defs) }
    ensures ok { IfOk result (IsReadAs bytes.now (defs_term list.now.defs)) }
    ensures refused { IfErr result (IsRefusal bytes.now (defs_term list.now.defs)) }
    ensures complete { ((place : ScriptPlace) → IsFirstBreak bytes.now (defs_term list.now.defs) place → ⊥) → IsOkUnless result ScriptFault.Memory }
    ensures exact { (place : ScriptPlace) → IsFirstBreak bytes.now (defs_term list.now.defs) place → IsErrWith result (ScriptFault.Refused place) ScriptFault.Memory }
{
    one_first_break();
    scripts_are_unbroken();
    read_over(alloc, bytes, list.defs())
}
