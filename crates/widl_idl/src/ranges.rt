//! The ranges of the integer types.

ghost use Rattle.std.specs.Prelude.{◌≡◌};
ghost use Rattle.widl_idl.specs.Ranges.{greatest_value, is_in_range, least_value};

use crate::int_kind::IntKind;

/// Whether an integer type has the value (Web IDL, "Integer types").
pub fn is_in_range(kind: IntKind, value: i128) -> bool
    ensures { result ≡ is_in_range kind value }
{
    least_value(kind) <= value && value <= greatest_value(kind)
}

/// The least value of an integer type.
pub fn least_value(kind: IntKind) -> i128
    ensures { result ≡ least_value kind }
{
    match kind {
        IntKind::Byte => i128::from(i8::MIN),
        IntKind::Short => i128::from(i16::MIN),
        IntKind::Long => i128::from(i32::MIN),
        IntKind::LongLong => i128::from(i64::MIN),
        IntKind::Octet | IntKind::UShort | IntKind::ULong | IntKind::ULongLong => 0,
    }
}

/// The greatest value of an integer type.
pub fn greatest_value(kind: IntKind) -> i128
    ensures { result ≡ greatest_value kind }
{
    match kind {
        IntKind::Byte => i128::from(i8::MAX),
        IntKind::Octet => i128::from(u8::MAX),
        IntKind::Short => i128::from(i16::MAX),
        IntKind::UShort => i128::from(u16::MAX),
        IntKind::Long => i128::from(i32::MAX),
        IntKind::ULong => i128::from(u32::MAX),
        IntKind::LongLong => i128::from(i64::MAX),
        IntKind::ULongLong => i128::from(u64::MAX),
    }
}
