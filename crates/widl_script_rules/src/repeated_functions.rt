//! Functions whose name is another one's.

ghost use Rattle.std.specs.Prelude.{◌≡◌, ◌||◌, bytes_eq, filter, length, Contains, IfOk, List, OnOk, ℕ};
ghost use Rattle.widl_first.specs.Keys.{IsFirst};
ghost use Rattle.widl_idl.specs.DefinitionTerms.{defs_term};
ghost use Rattle.widl_lines.specs.Blocks.{first_word};
ghost use Rattle.widl_lines.specs.Words.{Lexeme};
ghost use Rattle.widl_script_rules.specs.LeastBreak.{place_key};
ghost use Rattle.widl_script_rules.specs.Names.{function_name, has_name};
ghost use Rattle.widl_script_rules.specs.RepeatedFunctions.{repeated_functions};
ghost use Rattle.widl_script_rules.specs.Standings.{places_of, standings};
ghost use Rattle.widl_script_rules.specs.Surroundings.{first_words, has_key, plain_line, plain_lines};

use crate::names::function_name;
use crate::owner_names::{has_owner, owner_names};
use crate::places::{first_of, place_of};
use indexmap::IndexSet;
use std::alloc::{AllocError, Global};
use widl_idl::Defs;
use widl_lines::{LineWords, ScriptPlace, Terminal};

/// The names of the functions that a walk over lines has passed, and those of interfaces and namespaces.
#[derive(Drop)]
struct TakenNames<'s, 'd> {
    functions: IndexSet<&'s [u8]>,
    owners: IndexSet<&'d [u16]>,
    /// The units of the name that is asked for.
    room: Vec<u16>,
}

impl<'s, 'd> TakenNames<'s, 'd> {
    /// Takes the name of a function, and answers whether it was taken before.
    fn take(&mut self, name: &'s [u8]) -> Result<bool, AllocError>
        ensures functions { OnOk result ((text : List ℕ) → has_key self.new.functions.keys text ≡ (has_key self.old.functions.keys text || bytes_eq text name.now)) }
        ensures owners { self.new.owners.keys ≡ self.old.owners.keys }
        ensures taken { IfOk result (λ taken. taken ≡ (has_key self.old.functions.keys name.now || has_key self.old.owners.keys name.now)) }
    {
        if !self.functions.insert(name)? {
            return Ok(true);
        }
        has_owner(&self.owners, &mut self.room, name)
    }

    /// The place of the name of the function that a line opens, which begins with the word, where it was taken before.
    fn repeated_in(
        &mut self,
        word: Terminal,
        line: &LineWords<'s>,
    ) -> Result<Option<ScriptPlace>, AllocError>
        requires { word ≡ first_word (plain_line line.now).words }
        ensures functions { OnOk result ((text : List ℕ) → has_key self.new.functions.keys text ≡ (has_key self.old.functions.keys text || has_name (function_name (plain_line line.now)) text)) }
        ensures owners { self.new.owners.keys ≡ self.old.owners.keys }
        ensures first { IfOk result (λ first. IsFirst place_key (Contains (places_of 8 (plain_line line.now) (filter (λ (w : Lexeme). has_key self.old.functions.keys w.text || has_key self.old.owners.keys w.text) (function_name (plain_line line.now))))) first) }
    {
        let Some(name) = function_name(word, line) else {
            return Ok(None);
        };
        if self.take(name.text)? {
            Ok(Some(place_of(8, line, name)))
        } else {
            Ok(None)
        }
    }
}

/// Rule 8, of functions: the first that has the name of an earlier function, or of an interface or a namespace.
pub(crate) fn first_repeated_function(
    alloc: Global,
    lines: &[LineWords<'_>],
    words: &[Terminal],
    list: &Defs,
) -> Result<Option<ScriptPlace>, AllocError>
    requires words { words.now ≡ first_words (plain_lines lines.now) }
    requires count { length words.now ≡ length lines.now }
    ensures { IfOk result (λ first. IsFirst place_key (Contains (repeated_functions (defs_term list.now) (standings (plain_lines lines.now)))) first) }
{
    let mut taken = TakenNames {
        functions: IndexSet::new(alloc),
        owners: owner_names(alloc, list)?,
        room: Vec::new(alloc),
    };
    let mut first = None;
    'lines: for (place, line) in lines.iter().enumerate() {
        let repeated = taken.repeated_in(words[place], line)?;
        first = first_of(first, repeated);
    }
    Ok(first)
}
