//! Accepted sets of files, and their tables. Their memory is left to the end of the program, where the system takes it all back
//! at once.

ghost use Rattle.std.specs.Prelude.{◌≡◌, ◌≤◌, [], OnOk, length};
ghost use Rattle.widl_front.specs.Texts.{AreShort};
ghost use Rattle.widl_text.specs.Limits.{most_files};

use crate::files::read_short;
use anyhow::{Result, bail};
use std::alloc::Global;
use std::mem::{self, ManuallyDrop};
use widl_front::{Texts, Verdict, judge};
use widl_overload::Accepted;
use widl_tables::{Tables, compile};
use widl_text::limits::MOST_FILES;

/// The set of no files.
pub fn no_files(alloc: Global) -> Result<ManuallyDrop<Accepted>> {
    Ok(ManuallyDrop::new(accepted(alloc, &no_texts(alloc))?))
}

fn no_texts(alloc: Global) -> Texts
    ensures none { result ≡ [] }
    ensures few { length result ≤ most_files }
    ensures short { AreShort result }
{
    Texts::new(alloc)
}

/// The set of the files of these names.
pub fn set_of(rt: &HostRuntime, names: &[String]) -> Result<ManuallyDrop<Accepted>> {
    Ok(ManuallyDrop::new(accepted_of(rt, names)?))
}

fn accepted_of(rt: &HostRuntime, names: &[String]) -> Result<Accepted> {
    let mut texts = no_texts(rt.alloc());
    for name in names {
        add_file(rt, &mut texts, name.as_str())?;
    }
    accepted(rt.alloc(), &texts)
}

/// The tables of the set of the files of these names.
pub fn tables_of(rt: &HostRuntime, names: &[String]) -> Result<ManuallyDrop<Tables>> {
    let tables = compile(rt.alloc(), accepted_of(rt, names)?)?;
    Ok(ManuallyDrop::new(tables))
}

/// Adds the text of the file of this name.
#[tactic(auto, using(crate::proofs::ShortTexts::short_more))]
fn add_file(rt: &HostRuntime, texts: &mut Texts, name: &str) -> Result<()>
    requires few { length texts.old ≤ most_files }
    requires short { AreShort texts.old }
    ensures few { OnOk result (length texts.new ≤ most_files) }
    ensures short { OnOk result (AreShort texts.new) }
{
    if texts.len() >= MOST_FILES {
        bail!("these are too many files");
    }
    texts.push(read_short(rt, name)?)?;
    Ok(())
}

/// The set of these texts.
fn accepted(alloc: Global, texts: &Texts) -> Result<Accepted>
    requires few { length texts.now ≤ most_files }
    requires short { AreShort texts.now }
{
    match judge(alloc, texts)? {
        Verdict::Accepted(list) => Ok(list),
        refused => {
            mem::forget(refused);
            bail!("the set of files is refused")
        }
    }
}
