//! Sets of files that break no rule.

ghost use Rattle.std.specs.Prelude.{◌≡◌, ◌≤◌, [], length};
ghost use Rattle.widl_front.specs.Texts.{AreShort};
ghost use Rattle.widl_text.specs.Limits.{most_files};

use super::sure;
use std::alloc::Global;
use std::mem;
use std::process::Abort;
use widl_front::{Texts, Verdict, judge};
use widl_overload::Accepted;
use widl_text::limits::{MOST_FILE_BYTES, MOST_FILES};

fn no_texts(alloc: Global) -> Texts
    ensures none { result ≡ [] }
    ensures few { length result ≤ most_files }
    ensures short { AreShort result }
{
    Texts::new(alloc)
}

#[tactic(auto, using(crate::proofs::ShortTexts::short_more))]
fn add_text(rt: &impl Abort, alloc: Global, texts: &mut Texts, text: &str)
    requires few { length texts.old ≤ most_files }
    requires short { AreShort texts.old }
    ensures few { length texts.new ≤ most_files }
    ensures short { AreShort texts.new }
{
    let bytes = text.as_bytes();
    assert!(rt; texts.len() < MOST_FILES && bytes.len() <= MOST_FILE_BYTES);
    let text = sure(rt, Vec::from_slice(alloc, bytes));
    sure(rt, texts.push(text));
}

/// The set of these files.
pub fn accepted(rt: &impl Abort, alloc: Global, files: &[&str]) -> Accepted {
    let mut texts = no_texts(alloc);
    for file in files {
        add_text(rt, alloc, &mut texts, file);
    }
    match sure(rt, judge(alloc, &texts)) {
        Verdict::Accepted(list) => list,
        refused => {
            mem::forget(refused);
            panic!(rt; "the files break a rule")
        }
    }
}
