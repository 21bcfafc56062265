//! Reading the files that the arguments name.

ghost use Rattle.std.specs.Prelude.{◌≡◌, ℕ, ◌+◌, ◌-◌, ◌<◌, ◌≤◌, List, length, drop, Some, IfOk, IfErr, OnOk, IsErrAnd};
ghost use Rattle.widl_folder.specs.Folders.{Counts, next_count};
ghost use Rattle.widl_top.specs.Readings.{read_in_order, AllRead, StopsAt, StopsHere, Reads, starts_after};
ghost use Rattle.widl_front.specs.Texts.{named, AreShort};
ghost use Rattle.widl_text.specs.Limits.{most_file_bytes};
ghost use Rattle.widl_folder.specs.declared.whole_file.FetchError.TheVariants as causes;

use crate::Words;
use crate::unread::Unread;
use std::alloc::{AllocError, Global};
use widl_folder::{FetchError, Folder, fetch};
use widl_front::Texts;

/// The bytes of the files that the arguments name from a place on, in their order.
///
/// # Errors
///
/// The first file that was not read whole, and why. No later file is started.
pub fn fetch_all<F: Folder>(
    alloc: Global,
    folder: &mut F,
    words: &Words,
    first: usize,
) -> Result<Texts, Unread>
    requires { first < length words.now }
    // What is answered, where the files are told.
    ensures count { IfOk result (λ texts. length texts ≡ length words.now - first) }
    ensures short { IfOk result AreShort }
    ensures all { IfOk result (λ texts. (told : List (List ℕ × List ℕ)) → F.files folder.old ≡ Some told → read_in_order told (drop first words.now) ≡ AllRead texts) }
    ensures stops { IfErr result (λ unread. (told : List (List ℕ × List ℕ)) → F.files folder.old ≡ Some told → StopsAt (read_in_order told (drop first words.now)) words.now unread) }
    ensures place { IfErr result (λ unread. (first ≤ unread.place) × (unread.place < length words.now)) }

    // The bytes that were given, and the counts.
    ensures given_ok { IfOk result (λ _. F.given folder.new ≤ most_file_bytes) }
    ensures given_long { IsErrAnd result (λ unread. unread.cause ≡ causes.TooLong) → F.given folder.new ≡ most_file_bytes + 1 }
    ensures given_missing { IsErrAnd result (λ unread. unread.cause ≡ causes.Missing) → F.given folder.new ≤ most_file_bytes }
    ensures given_failed { IsErrAnd result (λ unread. unread.cause ≡ causes.Failed) → F.given folder.new ≤ most_file_bytes }
    ensures missing { Counts (IsErrAnd result (λ unread. unread.cause ≡ causes.Missing)) (F.misses folder.old) (F.misses folder.new) }
    ensures failed { Counts (IsErrAnd result (λ unread. unread.cause ≡ causes.Failed)) (F.faults folder.old) (F.faults folder.new) }
    ensures starts { IfErr result (λ unread. F.starts folder.new ≡ starts_after (F.starts folder.old) (unread.place - first + 1)) }
{
    let mut texts = Texts::new(alloc);
    for place in first..words.len() {
        fetch_one(alloc, folder, words, place, &mut texts)?;
    }
    Ok(texts)
}

/// Reads the file that the argument at a place names, and adds its bytes.
///
/// # Errors
///
/// The file, where it was not read whole, and why.
fn fetch_one<F: Folder>(
    alloc: Global,
    folder: &mut F,
    words: &Words,
    place: usize,
    texts: &mut Texts,
) -> Result<(), Unread>
    requires { place < length words.now }
    ensures reads { OnOk result (Reads (F.files folder.old) (named words.now place) texts.old texts.new) }
    ensures stops { IfErr result (λ unread. StopsHere (F.files folder.old) (named words.now place) unread.cause) }
    ensures place { IfErr result (λ unread. unread.place ≡ place) }
    ensures given_ok { OnOk result (F.given folder.new ≤ most_file_bytes) }
    ensures given_long { IsErrAnd result (λ unread. unread.cause ≡ causes.TooLong) → F.given folder.new ≡ most_file_bytes + 1 }
    ensures given_missing { IsErrAnd result (λ unread. unread.cause ≡ causes.Missing) → F.given folder.new ≤ most_file_bytes }
    ensures given_failed { IsErrAnd result (λ unread. unread.cause ≡ causes.Failed) → F.given folder.new ≤ most_file_bytes }
    ensures missing { Counts (IsErrAnd result (λ unread. unread.cause ≡ causes.Missing)) (F.misses folder.old) (F.misses folder.new) }
    ensures failed { Counts (IsErrAnd result (λ unread. unread.cause ≡ causes.Failed)) (F.faults folder.old) (F.faults folder.new) }
    ensures starts { F.starts folder.new ≡ next_count (F.starts folder.old) }
    ensures files { F.files folder.new ≡ F.files folder.old }
{
    match fetch(alloc, folder, words.at(place).as_str()) {
        Ok(bytes) => match texts.push(bytes) {
            Ok(()) => Ok(()),
            Err(error) => Err(Unread {
                place,
                cause: FetchError::Memory(error),
            }),
        },
        Err(cause) => Err(Unread { place, cause }),
    }
}
