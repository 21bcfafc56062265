//! The words of a script without a break of form.

ghost use Rattle.std.specs.Prelude.{◌≡◌, ◌≤◌, [], None, length, OnOk, IfOk, IfErr, IsUtf8};
ghost use Rattle.widl_text.specs.Limits.{most_file_bytes};
ghost use Rattle.widl_lines.specs.TextBreaks.{ScriptBreak, placed, script_lines};
ghost use Rattle.widl_lines.specs.Refusals.{IsRefusal};

use crate::lines::line_and_column;
use crate::reading::{LineWords, read_lines};
use crate::{ScriptFault, ScriptPlace};
use std::alloc::Global;
use std::marker::Model;
use widl_lex::utf8_fault;

/// The words of a script that breaks no rule of form, line by line.
#[derive(Drop)]
pub struct ScriptWords<'a> {
    lines: Vec<LineWords<'a>>,
}

impl<'a> Model for ScriptWords<'a> {
    ghost use Rattle.std.specs.Prelude.{List, map};
    ghost use Rattle.widl_lines.specs.TextBreaks.{PlacedLine, IsScript};
    ghost use Rattle.widl_lines.specs.LineTerms.{line_of};

    ghost Value = { List PlacedLine };

    ghost view = { λ s. map line_of s.lines.items };

    ghost invariant = { λ s. IsScript (map line_of s.lines.items) };
}

/// The words of a text, or the first break of its lines.
fn read_text<'a>(alloc: Global, text: &'a [u8]) -> Result<ScriptWords<'a>, ScriptFault>
    requires short { length text.now ≤ most_file_bytes }
    requires utf8 { IsUtf8 text.now }
    ensures ok { IfOk result (λ words. words ≡ placed [] (script_lines text.now)) }
    ensures unbroken { OnOk result (ScriptBreak text.now None) }
    ensures refused { IfErr result (IsRefusal text.now) }
{
    let reading = read_lines(alloc, text)?;
    if reading.open_blocks.is_empty() {
        return Ok(ScriptWords {
            lines: reading.lines,
        });
    }
    Err(ScriptFault::Refused(ScriptPlace {
        rule: 6,
        line: reading.last,
        column: 1,
    }))
}

/// The words of a script, or its first break.
fn read_words<'a>(alloc: Global, bytes: &'a [u8]) -> Result<ScriptWords<'a>, ScriptFault>
    requires { length bytes.now ≤ most_file_bytes }
    ensures ok { IfOk result (λ words. words ≡ placed [] (script_lines bytes.now)) }
    ensures unbroken { OnOk result (ScriptBreak bytes.now None) }
    ensures refused { IfErr result (IsRefusal bytes.now) }
{
    match utf8_fault(bytes) {
        None => read_text(alloc, bytes),
        Some(at) => {
            let (line, column) = line_and_column(bytes, at);
            Err(ScriptFault::Refused(ScriptPlace {
                rule: 1,
                line,
                column,
            }))
        }
    }
}

impl<'a> ScriptWords<'a> {
    ghost use Rattle.std.specs.Prelude.{◌≡◌, ◌≤◌, [], Some, None, length, map, OnOk, IfOk, IfErr, IsOkUnless};
    ghost use Rattle.widl_text.specs.Limits.{most_file_bytes};
    ghost use Rattle.widl_lines.specs.declared.script_place.ScriptPlace.{ScriptPlace};
    ghost use Rattle.widl_lines.specs.TextBreaks.{ScriptBreak, IsScript, most_words_and_lines, placed, script_lines, words_and_lines};
    ghost use Rattle.widl_lines.specs.LineTerms.{line_of};
    ghost use Rattle.widl_lines.specs.Refusals.{IsRefusal, IsErrWith};

    /// The words of a script, or the first rule of form that it breaks: that it is UTF-8 (1), the first word
    /// that no line of a form goes on with (2), brackets or blocks of level 33 (3), a text of more than 1,000
    /// units or an integer above 2^64 in magnitude (4), and a block that isn't there or isn't closed (6).
    ///
    /// # Errors
    ///
    /// `Refused` with the first break exactly where the script has one, and `Memory` where there is no memory.
    pub fn read(alloc: Global, bytes: &'a [u8]) -> Result<ScriptWords<'a>, ScriptFault>
        requires { length bytes.now ≤ most_file_bytes }
        ensures ok { IfOk result (λ words. words ≡ placed [] (script_lines bytes.now)) }
        ensures unbroken { OnOk result (ScriptBreak bytes.now None) }
        ensures refused { IfErr result (IsRefusal bytes.now) }
        ensures complete { ScriptBreak bytes.now None → IsOkUnless result ScriptFault.Memory }
        ensures exact { (place : ScriptPlace) → ScriptBreak bytes.now (Some place) → IsErrWith result (ScriptFault.Refused place) ScriptFault.Memory }
    {
        read_words(alloc, bytes)
    }

    /// The lines that have words, in order.
    pub fn lines(&self) -> &[LineWords<'a>]
        ensures lines { map line_of result.now ≡ self.now }
        ensures script { IsScript self.now }
        ensures few { words_and_lines self.now ≤ most_words_and_lines }
    {
        &self.lines
    }
}
