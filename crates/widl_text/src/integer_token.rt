//! What integer tokens mean.

ghost use Rattle.std.specs.Prelude.{◌≡◌, ◌^◌, ◌-◌, ◌≤◌, min, pos, neg_ℤ};
ghost use Rattle.std.specs.Char.{digit_value};
ghost use Rattle.std.specs.Str.Parse.{digits_value};
ghost use Rattle.widl_text.specs.IntegerTokens.{behind_zero, integer_of, magnitude, saturated};

/// The value of an integer token, or the nearest number of 128 bits (Web IDL, the tokens of "IDL grammar").
pub fn integer_of(token: &[u8]) -> i128
    ensures { result ≡ integer_of token.now }
{
    match token.split_first() {
        Some((b'-', digits)) => clamped_negative(magnitude(digits)),
        _ => clamped_positive(magnitude(token)),
    }
}

/// The negative of a number, or the least number of 128 bits.
fn clamped_negative(magnitude: u128) -> i128
    ensures { result ≡ neg_ℤ (pos (min magnitude (2 ^ 127))) }
{
    match i128::try_from(magnitude) {
        Ok(number) => -number,
        Err(_) => i128::MIN,
    }
}

/// A number, or the greatest one of 128 bits.
fn clamped_positive(magnitude: u128) -> i128
    ensures { result ≡ pos (min magnitude (2 ^ 127 - 1)) }
{
    i128::try_from(magnitude).unwrap_or(i128::MAX)
}

/// The value of an integer token without its sign. The digits of a token may be as many as a file has
/// bytes, so this and what it calls stop at the greatest `u128`.
pub fn magnitude(token: &[u8]) -> u128
    ensures { result ≡ saturated (magnitude token.now) }
{
    match token.split_first() {
        Some((b'0', more)) => behind_zero(more),
        _ => digits_value(10, token),
    }
}

/// What follows a leading zero: an `x` and hexadecimal digits, or octal digits.
fn behind_zero(more: &[u8]) -> u128
    ensures { result ≡ saturated (behind_zero more.now) }
{
    match more.split_first() {
        Some((b'x' | b'X', digits)) => digits_value(16, digits),
        _ => digits_value(8, more),
    }
}

/// The number that digits write.
fn digits_value(radix: u8, digits: &[u8]) -> u128
    requires { 1 ≤ radix }
    ensures { result ≡ saturated (digits_value radix digits.now) }
{
    let mut value: u128 = 0;
    for digit in digits {
        value = value
            .saturating_mul(u128::from(radix))
            .saturating_add(u128::from(digit_value(*digit)));
    }
    value
}

/// The value of a digit, where letters go on from 10; 36 for any other byte, which no token has there.
fn digit_value(digit: u8) -> u8
    ensures { result ≡ digit_value digit }
{
    match digit {
        b'0'..=b'9' => digit - b'0',
        b'A'..=b'Z' => digit - b'A' + 10,
        b'a'..=b'z' => digit - b'a' + 10,
        _ => 36,
    }
}
