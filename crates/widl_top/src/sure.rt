//! The top call over a folder and a sink that never fail.

ghost use Rattle.std.specs.Prelude.{◌≡◌, ◌≢◌, ℕ, List, Some};
ghost use Rattle.widl_top.specs.Output.{Output};
ghost use Rattle.widl_top.specs.Outputs.{IsOutput};

use crate::{Folder, Status, SureFolder, Words, widl};
use std::alloc::Global;
use widl_sink::SureSink;

/// Over a folder and a sink that never fail, only out of memory keeps the status of the output back.
pub fn widl_surely(
    alloc: Global,
    words: &Words,
    folder: &mut SureFolder,
    out: &mut SureSink,
) -> Status
    ensures { result ≢ Status.Memory → (output : Output) × IsOutput words.now folder.old.files output × (result ≡ output.status) }
{
    widl(alloc, words, folder, out)
}
