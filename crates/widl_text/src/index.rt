//! Array indices and their texts.

ghost use Rattle.std.specs.Prelude.{◌≡◌, ◌≤◌, ◌<◌, ◌≢◌, ℕ, [], ◌∷◌, length, slice_index, true, false, ◌⊎◌, IfSome, IfNone};
ghost use Rattle.std.specs.Str.Parse.{AllDigits, digits_value};
ghost use Rattle.widl_text.specs.Index.{IsIndexText, index_of_text};

/// The greatest array index.
const GREATEST: u64 = 4_294_967_294;

const ZERO: u16 = 48;

const NINE: u16 = 57;

/// The array index whose decimal text this is.
pub(crate) fn array_index(text: &[u16]) -> Option<u32>
    ensures some { IfSome result (IsIndexText text.now) }
    ensures none { IfNone result ((n : ℕ) → IsIndexText text.now n → ⊥) }
    ensures value { result ≡ index_of_text text.now }
{
    if is_unpadded(text) {
        digits_number(text)
    } else {
        None
    }
}

/// Whether there are units, of which the first is no zero or the only one.
fn is_unpadded(text: &[u16]) -> bool
    ensures some { result ≡ true → 0 < length text.now }
    ensures lead { result ≡ true → slice_index text.now 0 ≡ ZERO → length text.now ≡ 1 }
    ensures not { result ≡ false → (length text.now ≡ 0) ⊎ ((1 < length text.now) × (slice_index text.now 0 ≡ ZERO)) }
{
    !text.is_empty() && (text.len() == 1 || text[0] != ZERO)
}

/// The number of these digits, where it is an array index.
fn digits_number(text: &[u16]) -> Option<u32>
    ensures some { IfSome result (λ n. AllDigits 10 text.now × (n ≡ digits_value 10 text.now) × (n ≤ GREATEST)) }
    ensures none { IfNone result (AllDigits 10 text.now → digits_value 10 text.now ≤ GREATEST → ⊥) }
{
    let mut number: u64 = 0;
    for unit in text {
        if *unit < ZERO || NINE < *unit {
            return None;
        }
        number = number * 10 + u64::from(*unit - ZERO);
        if number > GREATEST {
            return None;
        }
    }
    Some(number as u32)
}
