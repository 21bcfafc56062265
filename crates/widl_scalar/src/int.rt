//! Numbers to integers.

ghost use Rattle.std.specs.Prelude.{◌≡◌, ◌*◌, ◌<◌, pos, neg_ℤ, ◌≤ℤ◌, ◌<ℤ◌, IfOk, IfErr, IsOkAnd};
ghost use Rattle.widl_scalar.specs.Scalars.{WrapsTo, Congruent, wrapped_of, wrapped, unsigned_rest, signed_rest};
ghost use Rattle.widl_scalar.specs.Scalars.{ClampsTo, clamped_of, clamped, NearestWithin, lower_bound, upper_bound};
ghost use Rattle.widl_scalar.specs.Scalars.{IsInBounds, enforced_of, enforced, integer_of};

use thiserror::Error;
use widl_idl::{IntKind, Mode, greatest_value, least_value};
use widl_value::Number;

/// A number outside the range that a conversion enforces (Web IDL, `[EnforceRange]`).
#[derive(Clone, Copy, Debug, PartialEq, Eq, Error)]
#[error("the number is outside the range that the conversion enforces")]
pub struct NotInRange(pub Number);

/// The integer of a kind that a number becomes (Web IDL, "ConvertToInt").
///
/// Under `Mode::Wrap` it is the one integer of the kind that differs from the number by a multiple
/// of two to the power of the kind's bits, and 0 for NaN and the infinities. Under `Mode::Clamp` it
/// is the integer within the bounds that is nearest to the number, and 0 for NaN. Under
/// `Mode::Enforce` it is the number itself. The bounds are the kind's range, but for 64 bits they
/// end at 2^53 - 1.
///
/// # Errors
///
/// `NotInRange` with the number, under `Mode::Enforce` alone: for NaN, for an infinity and for what
/// lies outside the bounds.
pub fn to_int(x: Number, kind: IntKind, mode: Mode) -> Result<i128, NotInRange>
    ensures wraps { mode ≡ Mode.Wrap → IsOkAnd result (λ value. WrapsTo x kind value) }
    ensures wrapped { mode ≡ Mode.Wrap → IsOkAnd result (λ value. value ≡ wrapped_of x kind) }
    ensures clamps { mode ≡ Mode.Clamp → IsOkAnd result (λ value. ClampsTo x kind value) }
    ensures clamped { mode ≡ Mode.Clamp → IsOkAnd result (λ value. value ≡ clamped_of x kind) }
    ensures kept { mode ≡ Mode.Enforce → IfOk result (λ value. (x ≡ Number.Whole value) × IsInBounds x kind) }
    ensures refused { IfErr result (λ e. (e ≡ record { 0 = x }) × (mode ≡ Mode.Enforce) × (IsInBounds x kind → ⊥)) }
    ensures value { result ≡ integer_of x kind mode }
{
    match mode {
        Mode::Wrap => Ok(wrap(x, kind)),
        Mode::Clamp => Ok(clamp(x, kind)),
        Mode::Enforce => enforce(x, kind),
    }
}

fn wrap(x: Number, kind: IntKind) -> i128
    ensures wraps { WrapsTo x kind result }
    ensures value { result ≡ wrapped_of x kind }
{
    match x {
        Number::Whole(v) => wrap_whole(v, kind),
        Number::NaN | Number::PosInf | Number::NegInf => 0,
    }
}

fn wrap_whole(v: i128, kind: IntKind) -> i128
    ensures wraps { WrapsTo (Number.Whole v) kind result }
    ensures value { result ≡ wrapped kind v }
{
    match kind {
        IntKind::Byte => signed(v, 1 << 7),
        IntKind::Short => signed(v, 1 << 15),
        IntKind::Long => signed(v, 1 << 31),
        IntKind::LongLong => signed(v, 1 << 63),
        IntKind::Octet => unsigned(v, 1 << 7),
        IntKind::UShort => unsigned(v, 1 << 15),
        IntKind::ULong => unsigned(v, 1 << 31),
        IntKind::ULongLong => unsigned(v, 1 << 63),
    }
}

/// The remainder by twice a half.
fn unsigned(v: i128, half: u64) -> i128
    requires { 0 < half }
    ensures low { pos 0 ≤ℤ result }
    ensures high { result <ℤ pos (2 * half) }
    ensures value { result ≡ unsigned_rest half v }
    ensures congruent { Congruent (2 * half) v result }
{
    v.rem_euclid(2 * i128::from(half))
}

/// The same, taken from minus the half on.
fn signed(v: i128, half: u64) -> i128
    requires { 0 < half }
    ensures low { neg_ℤ (pos half) ≤ℤ result }
    ensures high { result <ℤ pos half }
    ensures value { result ≡ signed_rest half v }
    ensures congruent { Congruent (2 * half) v result }
{
    let rest = unsigned(v, half);
    if rest >= i128::from(half) {
        rest - 2 * i128::from(half)
    } else {
        rest
    }
}

fn clamp(x: Number, kind: IntKind) -> i128
    ensures clamps { ClampsTo x kind result }
    ensures value { result ≡ clamped_of x kind }
{
    match x {
        Number::NaN => 0,
        Number::PosInf => upper_bound(kind),
        Number::NegInf => lower_bound(kind),
        Number::Whole(v) => nearest_within(lower_bound(kind), upper_bound(kind), v),
    }
}

fn nearest_within(low: i128, high: i128, v: i128) -> i128
    requires { low ≤ℤ high }
    ensures nearest { NearestWithin low high v result }
    ensures value { result ≡ clamped low high v }
{
    if v < low {
        low
    } else if v > high {
        high
    } else {
        v
    }
}

fn enforce(x: Number, kind: IntKind) -> Result<i128, NotInRange>
    ensures kept { IfOk result (λ value. (x ≡ Number.Whole value) × IsInBounds x kind) }
    ensures refused { IfErr result (λ e. (e ≡ record { 0 = x }) × (IsInBounds x kind → ⊥)) }
    ensures value { result ≡ enforced_of x kind }
{
    match x {
        Number::Whole(v) if lower_bound(kind) <= v && v <= upper_bound(kind) => Ok(v),
        _ => Err(NotInRange(x)),
    }
}

/// The least integer that a clamp or an enforced range leaves.
fn lower_bound(kind: IntKind) -> i128
    ensures { result ≡ lower_bound kind }
{
    match kind {
        IntKind::LongLong => -((1 << 53) - 1),
        _ => least_value(kind),
    }
}

/// The greatest integer that a clamp or an enforced range leaves.
fn upper_bound(kind: IntKind) -> i128
    ensures { result ≡ upper_bound kind }
{
    match kind {
        IntKind::LongLong | IntKind::ULongLong => (1 << 53) - 1,
        _ => greatest_value(kind),
    }
}
