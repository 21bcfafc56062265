//! The files that a word is given.

ghost use Rattle.std.specs.Prelude.{◌≤◌, ◌<◌, ◌^◌, IfOk, length};
ghost use Rattle.widl_text.specs.Limits.{most_file_bytes};

use anyhow::{Result, bail};
use std::alloc::Global;
use std::fs;
use widl_lex::Tokens;
use widl_lines::{ScriptFault, ScriptWords};
use widl_text::limits::MOST_FILE_BYTES;

/// The bytes of a file of Web IDL.
pub fn read(rt: &HostRuntime, name: &str) -> Result<Vec<u8>>
    ensures { IfOk result (λ file. length file.items < 2 ^ 32) }
{
    let file = fs::read(rt, name)?;
    if file.len() > 4_294_967_295 {
        bail!("{name} is too long");
    }
    Ok(file)
}

/// The bytes of a file that is no longer than a file of Web IDL or a script may be.
pub fn read_short(rt: &HostRuntime, name: &str) -> Result<Vec<u8>>
    ensures { IfOk result (λ file. length file.items ≤ most_file_bytes) }
{
    let file = fs::read(rt, name)?;
    if file.len() > MOST_FILE_BYTES {
        bail!("{name} is too long");
    }
    Ok(file)
}

/// The tokens of a file.
pub fn tokens_of<'a>(alloc: Global, name: &str, file: &'a [u8]) -> Result<Tokens<'a>>
    requires { length file.now < 2 ^ 32 }
{
    match Tokens::read(alloc, 0, file) {
        Ok(tokens) => Ok(tokens),
        Err(fault) => bail!("{name}: {fault:?}"),
    }
}

/// The words of a script, none where it breaks a rule of form.
pub fn words_of<'a>(alloc: Global, name: &str, script: &'a [u8]) -> Result<Option<ScriptWords<'a>>>
    requires { length script.now ≤ most_file_bytes }
{
    match ScriptWords::read(alloc, script) {
        Ok(words) => Ok(Some(words)),
        Err(ScriptFault::Refused(_)) => Ok(None),
        Err(ScriptFault::Memory) => bail!("{name}: out of memory"),
    }
}
