//! The line that names the first rule that a script breaks.

ghost use Rattle.std.specs.Prelude.{◌≡◌, IfOk};
ghost use Rattle.widl_top.specs.ScriptOutputs.{script_line};

use itoa::Buffer;
use std::alloc::{AllocError, Global};
use widl_lines::ScriptPlace;

/// The line `script SRULE LINE COLUMN`, without its line feed.
///
/// # Errors
///
/// `AllocError` where there is no memory.
#[tactic(auto, unfolding(crate::specs::ScriptOutputs::script_line))]
pub fn line_of_script_place(alloc: Global, place: ScriptPlace) -> Result<Vec<u8>, AllocError>
    ensures { IfOk result (λ line. line.items ≡ script_line place) }
{
    let mut rule = Buffer::new();
    let mut line = Buffer::new();
    let mut column = Buffer::new();
    let mut bytes = Vec::from_slice(alloc, b"script S")?;
    bytes.extend_from_slice(rule.format(place.rule).as_bytes())?;
    bytes.extend_from_slice(b" ")?;
    bytes.extend_from_slice(line.format(place.line).as_bytes())?;
    bytes.extend_from_slice(b" ")?;
    bytes.extend_from_slice(column.format(place.column).as_bytes())?;
    Ok(bytes)
}
