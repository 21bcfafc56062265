//! The first rule on names, places and steps that a script breaks.

ghost use Rattle.std.specs.Prelude.{◌≡◌, [], length, IfOk, None};
ghost use Rattle.widl_first.specs.Keys.{IsFirst};
ghost use Rattle.widl_fits.specs.Hierarchies.{IsHierarchy};
ghost use Rattle.widl_idl.specs.DefinitionTerms.{defs_term};
ghost use Rattle.widl_lines.specs.TextBreaks.{TextBreak};
ghost use Rattle.widl_overload.specs.rules.Dictionaries.{dictionary_terms};
ghost use Rattle.widl_overload.specs.OperationsAlone.{HasOperationsAlone};
ghost use Rattle.widl_script_rules.specs.BrokenRules.{BreaksNames};
ghost use Rattle.widl_script_rules.specs.LeastBreak.{place_key, IsLeastBreak};
ghost use Rattle.widl_script_rules.specs.Standings.{standings};
ghost use Rattle.widl_script_rules.specs.Surroundings.{first_words, plain_lines, AreAround};

use crate::blocks::first_block_break;
use crate::places::first_of;
use crate::placing::first_misplaced_word;
use crate::repeated_functions::first_repeated_function;
use crate::repeated_parameters::first_repeated_parameter;
use crate::standings::{Around, first_words, surroundings};
use crate::unknown_names::first_unknown_name;
use std::alloc::{AllocError, Global};
use widl_idl::Defs;
use widl_lines::{LineWords, ScriptPlace, Terminal};

/// The first of the rules on names and places, 5, 7 and 8, that lines break.
fn first_break_of_names(
    alloc: Global,
    lines: &[LineWords<'_>],
    words: &[Terminal],
    all: &[Around],
    list: &Defs,
) -> Result<Option<ScriptPlace>, AllocError>
    requires words { words.now ≡ first_words (plain_lines lines.now) }
    requires words_count { length words.now ≡ length lines.now }
    requires each { AreAround (plain_lines lines.now) all.now }
    requires count { length all.now ≡ length lines.now }
    ensures { IfOk result (IsFirst place_key (BreaksNames (defs_term list.now) (standings (plain_lines lines.now)))) }
{
    let unknown = first_unknown_name(alloc, lines, words, all, list)?;
    let misplaced = first_misplaced_word(lines, words, all);
    let function = first_repeated_function(alloc, lines, words, list)?;
    let parameter = first_repeated_parameter(alloc, lines, words)?;
    let first = first_of(unknown, misplaced);
    let first = first_of(first, function);
    Ok(first_of(first, parameter))
}

/// The first rule on names, places and steps that is broken by lines that break no rule of form, by line, column and
/// rule.
pub fn least_break(
    alloc: Global,
    list: &Defs,
    lines: &[LineWords<'_>],
) -> Result<Option<ScriptPlace>, AllocError>
    requires rules { HasOperationsAlone (defs_term list.now) }
    requires hierarchy { IsHierarchy (dictionary_terms list.now) }
    requires formed { TextBreak 1 [] (plain_lines lines.now) None }
    ensures { IfOk result (IsLeastBreak (defs_term list.now) (plain_lines lines.now)) }
{
    let words = first_words(alloc, lines)?;
    let around = surroundings(alloc, lines, &words)?;
    let names = first_break_of_names(alloc, lines, &words, &around, list)?;
    let blocks = first_block_break(alloc, list, lines, &words, &around)?;
    Ok(first_of(names, blocks))
}
