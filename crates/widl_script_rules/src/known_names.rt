//! The names that are known where a line stands.

ghost use Rattle.std.specs.Prelude.{◌≡◌, ◌&&◌, ◌||◌, [], bytes_eq, length, List, nat_eq, IfOk, OnOk, Some, ℕ, option_map, if◌then◌else◌};
ghost use Rattle.std.specs.Option.{option_eq};
ghost use Rattle.widl_idl.specs.DefinitionTerms.{defs_term, DefsTerm};
ghost use Rattle.widl_lines.specs.Blocks.{first_word};
ghost use Rattle.widl_lines.specs.TextBreaks.{Line};
ghost use Rattle.widl_script_rules.specs.Names.{bound_in, globals_of, has_name, is_known, locals_of, parameters_in};
ghost use Rattle.widl_script_rules.specs.Standings.{function_around, standings};
ghost use Rattle.widl_script_rules.specs.Surroundings.{bound_by_global, first_words, has_key, has_pair, plain_line, plain_lines, word_list, AreAround, HasLocals, HasParameters, IsFunction};
ghost use Rattle.widl_script_rules.specs.KnownNames.{Knows};
ghost use Rattle.widl_script_words.specs.Words.{is_name};

use crate::names::{bound_word, function_name, is_name, parameter_words};
use crate::owner_names::{has_owner, owner_names};
use crate::standings::Around;
use indexmap::IndexSet;
use std::alloc::{AllocError, Global};
use widl_idl::Defs;
use widl_lines::{LineWords, Terminal, Word};

/// The names that a script binds, and those of the interfaces and namespaces.
#[derive(Drop)]
pub(crate) struct KnownNames<'s, 'd> {
    /// Parameters, each with the place of the line that opens its function.
    parameters: IndexSet<(usize, &'s [u8])>,
    /// What `let` and `catch` bind in functions, each with the number of the line that opens the function.
    locals: IndexSet<(u32, &'s [u8])>,
    /// What is bound outside functions.
    globals: IndexSet<&'s [u8]>,
    owners: IndexSet<&'d [u16]>,
}

/// The number of the line that opens the innermost function.
fn function_number(lines: &[LineWords<'_>], function: Option<usize>) -> Option<u32>
    ensures { (around : List Line) → IsFunction (plain_lines lines.now) function around → result ≡ option_map (λ (opening : Line). opening.number) (function_around around) }
{
    match function {
        Some(place) => match lines.get(place) {
            Some(line) => Some(line.number),
            None => None,
        },
        None => None,
    }
}

fn add_parameter<'s>(
    names: &mut IndexSet<(usize, &'s [u8])>,
    place: usize,
    word: &Word<'s>,
) -> Result<(), AllocError>
    ensures { OnOk result ((number : ℕ) (text : List ℕ) → has_pair names.new.keys number text ≡ (has_pair names.old.keys number text || (nat_eq number place && (is_name word.now.terminal && bytes_eq text word.now.text.now)))) }
{
    if !is_name(word.terminal) {
        return Ok(());
    }
    names.insert((place, word.text))?;
    Ok(())
}

/// Adds the parameters of the line at the place, which begins with the word.
fn add_parameters<'s>(
    names: &mut IndexSet<(usize, &'s [u8])>,
    place: usize,
    word: Terminal,
    line: &LineWords<'s>,
) -> Result<(), AllocError>
    requires { word ≡ first_word (plain_line line.now).words }
    ensures { OnOk result ((number : ℕ) (text : List ℕ) → has_pair names.new.keys number text ≡ (has_pair names.old.keys number text || (nat_eq number place && has_name (parameters_in (plain_line line.now)) text))) }
{
    let words = parameter_words(word, line);
    'words: for word in words {
        add_parameter(names, place, word)?;
    }
    Ok(())
}

/// The parameters of the functions that lines open.
fn parameters_of<'s>(
    alloc: Global,
    lines: &[LineWords<'s>],
    words: &[Terminal],
) -> Result<IndexSet<(usize, &'s [u8])>, AllocError>
    requires words { words.now ≡ first_words (plain_lines lines.now) }
    requires count { length words.now ≡ length lines.now }
    ensures { IfOk result (λ names. HasParameters (plain_lines lines.now) names.keys) }
{
    let mut names = IndexSet::new(alloc);
    'lines: for (place, line) in lines.iter().enumerate() {
        add_parameters(&mut names, place, words[place], line)?;
    }
    Ok(names)
}

/// Binds the name of a line, which begins with the word, in the function that the line of this number opens.
fn add_local<'s>(
    names: &mut IndexSet<(u32, &'s [u8])>,
    function: Option<u32>,
    word: Terminal,
    line: &LineWords<'s>,
) -> Result<(), AllocError>
    requires { word ≡ first_word (plain_line line.now).words }
    ensures { OnOk result ((number : ℕ) (text : List ℕ) → has_pair names.new.keys number text ≡ (has_pair names.old.keys number text || has_name (if option_eq nat_eq (Some number) function then bound_in (plain_line line.now) else []) text)) }
{
    let Some(number) = function else {
        return Ok(());
    };
    let Some(bound) = bound_word(word, line) else {
        return Ok(());
    };
    names.insert((number, bound.text))?;
    Ok(())
}

/// What `let` and `catch` bind in functions.
fn locals_of<'s>(
    alloc: Global,
    lines: &[LineWords<'s>],
    words: &[Terminal],
    all: &[Around],
) -> Result<IndexSet<(u32, &'s [u8])>, AllocError>
    requires words { words.now ≡ first_words (plain_lines lines.now) }
    requires words_count { length words.now ≡ length lines.now }
    requires each { AreAround (plain_lines lines.now) all.now }
    requires count { length all.now ≡ length lines.now }
    ensures { IfOk result (λ names. HasLocals (plain_lines lines.now) names.keys) }
{
    let mut names = IndexSet::new(alloc);
    'lines: for (place, line) in lines.iter().enumerate() {
        let function = function_number(lines, all[place].function);
        add_local(&mut names, function, words[place], line)?;
    }
    Ok(names)
}

fn add_word<'s>(names: &mut IndexSet<&'s [u8]>, word: Option<&Word<'s>>) -> Result<(), AllocError>
    ensures { OnOk result ((text : List ℕ) → has_key names.new.keys text ≡ (has_key names.old.keys text || has_name (word_list word.entry) text)) }
{
    let Some(word) = word else {
        return Ok(());
    };
    names.insert(word.text)?;
    Ok(())
}

/// Binds the names of a line, which begins with the word, that stands in no function.
fn add_globals<'s>(
    names: &mut IndexSet<&'s [u8]>,
    function: Option<usize>,
    word: Terminal,
    line: &LineWords<'s>,
) -> Result<(), AllocError>
    requires { word ≡ first_word (plain_line line.now).words }
    ensures { OnOk result ((lines : List Line) (around : List Line) (text : List ℕ) → IsFunction lines function around → has_key names.new.keys text ≡ (has_key names.old.keys text || has_name (bound_by_global (record { around = around; line = plain_line line.now })) text)) }
{
    if function.is_some() {
        return Ok(());
    }
    add_word(names, bound_word(word, line))?;
    add_word(names, function_name(word, line))?;
    Ok(())
}

/// What is bound outside functions.
fn globals_of<'s>(
    alloc: Global,
    lines: &[LineWords<'s>],
    words: &[Terminal],
    all: &[Around],
) -> Result<IndexSet<&'s [u8]>, AllocError>
    requires words { words.now ≡ first_words (plain_lines lines.now) }
    requires words_count { length words.now ≡ length lines.now }
    requires each { AreAround (plain_lines lines.now) all.now }
    requires count { length all.now ≡ length lines.now }
    ensures { IfOk result (λ names. (text : List ℕ) → has_key names.keys text ≡ has_name (globals_of (standings (plain_lines lines.now))) text) }
{
    let mut names = IndexSet::new(alloc);
    'lines: for (place, line) in lines.iter().enumerate() {
        add_globals(&mut names, all[place].function, words[place], line)?;
    }
    Ok(names)
}

impl<'s, 'd> KnownNames<'s, 'd> {
    /// The names of a script over a list.
    pub(crate) fn of(
        alloc: Global,
        lines: &[LineWords<'s>],
        words: &[Terminal],
        all: &[Around],
        list: &'d Defs,
    ) -> Result<KnownNames<'s, 'd>, AllocError>
        requires words { words.now ≡ first_words (plain_lines lines.now) }
        requires words_count { length words.now ≡ length lines.now }
        requires each { AreAround (plain_lines lines.now) all.now }
        requires count { length all.now ≡ length lines.now }
        ensures { IfOk result (Knows (defs_term list.now) (plain_lines lines.now)) }
    {
        Ok(KnownNames {
            parameters: parameters_of(alloc, lines, words)?,
            locals: locals_of(alloc, lines, words, all)?,
            globals: globals_of(alloc, lines, words, all)?,
            owners: owner_names(alloc, list)?,
        })
    }

    /// Whether a name is local in the function that the line at the place opens.
    fn is_local(&self, lines: &[LineWords<'s>], function: Option<usize>, name: &'s [u8]) -> bool
        ensures { (list : DefsTerm) (around : List Line) → Knows list (plain_lines lines.now) self.now → IsFunction (plain_lines lines.now) function around → result ≡ has_name (locals_of (standings (plain_lines lines.now)) (function_around around)) name.now }
    {
        let Some(place) = function else {
            return false;
        };
        if self.parameters.contains(&(place, name)) {
            return true;
        }
        match function_number(lines, function) {
            Some(number) => self.locals.contains(&(number, name)),
            None => false,
        }
    }

    /// Whether a name is known in a function, or outside functions.
    pub(crate) fn has(
        &self,
        room: &mut Vec<u16>,
        lines: &[LineWords<'s>],
        function: Option<usize>,
        name: &'s [u8],
    ) -> Result<bool, AllocError>
        ensures { IfOk result (λ known. (list : DefsTerm) (around : List Line) → Knows list (plain_lines lines.now) self.now → IsFunction (plain_lines lines.now) function around → known ≡ is_known list (standings (plain_lines lines.now)) (function_around around) name.now) }
    {
        if self.is_local(lines, function, name) {
            return Ok(true);
        }
        if self.globals.contains(name) {
            return Ok(true);
        }
        let is_owner = has_owner(&self.owners, room, name)?;
        Ok(is_owner)
    }
}
