//! A set of one file.

ghost use Rattle.std.specs.Prelude.{◌≡◌, ◌≤◌, [], ◌∷◌, IfOk, length};
ghost use Rattle.widl_front.specs.Verdicts.{IsVerdict};
ghost use Rattle.widl_text.specs.Limits.{most_file_bytes};

use crate::checking::judge;
use crate::texts::Texts;
use crate::verdict::Verdict;
use std::alloc::{AllocError, Global};

/// The verdict on the set of one file, as [`judge`] has it.
///
/// # Errors
///
/// `AllocError` as for [`judge`].
#[tactic(auto, using(crate::proofs::OneText::alone_short))]
pub fn judge_one(alloc: Global, file: &[u8]) -> Result<Verdict, AllocError>
    requires { length file.now ≤ most_file_bytes }
    ensures { IfOk result (λ verdict. IsVerdict (file.now ∷ []) verdict) }
{
    let texts = alone(alloc, file)?;
    judge(alloc, &texts)
}

/// One text alone.
fn alone(alloc: Global, bytes: &[u8]) -> Result<Texts, AllocError>
    ensures { IfOk result (λ texts. texts ≡ bytes.now ∷ []) }
{
    let mut texts = Texts::new(alloc);
    texts.push(Vec::from_slice(alloc, bytes)?)?;
    Ok(texts)
}
