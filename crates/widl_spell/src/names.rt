//! Names in lines, and signs between texts.

ghost use Rattle.std.specs.Prelude.{◌≡◌, ◌++◌, OnOk};
ghost use Rattle.widl_spell.specs.Names.{bare_name, byte_of_unit, is_terminal, mark_before, sign_before, written_name};

use std::alloc::{AllocError, Global};
use widl_lex::is_quoted;
use widl_text::Units;

/// Adds a name as it stands in a list of definitions.
pub fn push_bare_name(text: &mut Vec<u8>, name: &Units) -> Result<(), AllocError>
    ensures { OnOk result (text.new.items ≡ text.old.items ++ bare_name name.now) }
{
    for unit in name.as_slice() {
        text.push(byte_of_unit(*unit))?;
    }
    Ok(())
}

/// A unit as a byte: names are ASCII.
fn byte_of_unit(unit: u16) -> u8
    ensures { result ≡ byte_of_unit unit }
{
    (unit % 256) as u8
}

/// Adds a name as a file has it, with a `_` if it is spelled like a word of the grammar (Web IDL,
/// "Names").
pub fn push_name(alloc: Global, text: &mut Vec<u8>, name: &Units) -> Result<(), AllocError>
    ensures { OnOk result (text.new.items ≡ text.old.items ++ written_name name.now) }
{
    let mut bytes = Vec::new(alloc);
    push_bare_name(&mut bytes, name)?;
    text.extend_from_slice(mark_before(&bytes))?;
    text.extend_from_slice(&bytes)?;
    Ok(())
}

/// Whether the text is a word or a sign that the grammar writes out.
fn is_terminal(text: &[u8]) -> bool
    ensures { result ≡ is_terminal text.now }
{
    is_quoted(text)
}

fn mark_before(text: &[u8]) -> &'static [u8]
    ensures { result.now ≡ mark_before text.now }
{
    if is_terminal(text) { b"_" } else { b"" }
}

/// What stands before the text at a place, where a sign stands between each two texts.
pub fn sign_before(sign: &'static [u8], place: usize) -> &'static [u8]
    ensures { result.now ≡ sign_before sign.now place }
{
    if place == 0 { b"" } else { sign }
}
