//! The characters of bytes, one after the other, as [`str::chars`] gives them; bytes that are no UTF-8 have
//! some, too.

ghost use Rattle.std.specs.Prelude.{◌≡◌, ◌+◌, ◌*◌, ◌-◌, ◌<◌, ◌^◌, [], chars, MatchOption};
ghost use Rattle.std.specs.Str.{chars_after};
ghost use Rattle.widl_lines.specs.Characters.{IsCut};

/// The value of a character's bytes so far, with one byte more.
fn with_byte(code: u32, byte: u8) -> u32
    requires { code < 2 ^ 24 }
    ensures { result ≡ code * 64 + (byte - 128) }
{
    code * 64 + u32::from(byte.saturating_sub(128))
}

/// A character of which one byte is still to come, and what follows.
fn after_one(code: u32, text: &[u8]) -> Option<(u32, &[u8])>
    requires { code < 2 ^ 24 }
    ensures { MatchOption result (chars_after 1 code text.now ≡ []) (λ cut. IsCut (chars_after 1 code text.now) text.now cut.0 cut.1.now) }
{
    let (byte, more) = text.split_first()?;
    Some((with_byte(code, *byte), more))
}

/// A character of which two bytes are still to come, and what follows.
fn after_two(code: u32, text: &[u8]) -> Option<(u32, &[u8])>
    requires { code < 2 ^ 16 }
    ensures { MatchOption result (chars_after 2 code text.now ≡ []) (λ cut. IsCut (chars_after 2 code text.now) text.now cut.0 cut.1.now) }
{
    let (byte, more) = text.split_first()?;
    after_one(with_byte(code, *byte), more)
}

/// A character of which three bytes are still to come, and what follows.
fn after_three(code: u32, text: &[u8]) -> Option<(u32, &[u8])>
    requires { code < 2 ^ 8 }
    ensures { MatchOption result (chars_after 3 code text.now ≡ []) (λ cut. IsCut (chars_after 3 code text.now) text.now cut.0 cut.1.now) }
{
    let (byte, more) = text.split_first()?;
    after_two(with_byte(code, *byte), more)
}

/// The first character, and what follows; none where the bytes end before it does.
pub fn split_character(text: &[u8]) -> Option<(u32, &[u8])>
    ensures { MatchOption result (chars text.now ≡ []) (λ cut. IsCut (chars text.now) text.now cut.0 cut.1.now) }
{
    let (first, more) = text.split_first()?;
    let first = u32::from(*first);
    if first < 128 {
        Some((first, more))
    } else if first < 224 {
        after_one(first.saturating_sub(192), more)
    } else if first < 240 {
        after_two(first - 224, more)
    } else {
        after_three(first - 240, more)
    }
}
