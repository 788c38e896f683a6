//! Numbers and fractions as ASCII text.

ghost use Rattle.std.specs.Prelude.{◌≡◌, ◌↔◌, ◌≤◌, ◌≤ℤ◌, pos, drop, position, ◌==◌, [], IsSome, IfSome, IfNone};
ghost use Rattle.std.specs.Option.{SomeIff};
ghost use Rattle.std.specs.Str.Parse.{IsNumeral, digits_value};
ghost use Rattle.lrs_measure.specs.Fraction.{IsQuotient, IsLowest};
ghost use Rattle.lrs_measure.specs.Numerals.{IsSigned, signed_value, IsFractionText, numerator_text, denominator_text};

use crate::fraction::Frac;

/// The number that ASCII digits write, where there is at least one and the number is at most `max`.
/// Leading zeros are accepted, however many.
pub fn read_digits(bytes: &[u8], max: u64) -> Option<u64>
    ensures { SomeIff result (IsNumeral 10 bytes.now × (digits_value 10 bytes.now ≤ max))
        (digits_value 10 bytes.now) }
{
    if bytes.is_empty() {
        return None;
    }
    let mut value = 0u64;
    for &byte in bytes {
        if !byte.is_ascii_digit() {
            return None;
        }
        let tens = value.checked_mul(10)?;
        value = tens.checked_add(u64::from(byte - b'0'))?;
    }
    if value <= max { Some(value) } else { None }
}

/// The number that `+` or `-` and then such digits write, where it is at most `max` either way.
pub fn read_signed(bytes: &[u8], max: i64) -> Option<i64>
    ensures { SomeIff result (IsSigned bytes.now
        × (pos (digits_value 10 (drop 1 bytes.now)) ≤ℤ max)) (signed_value bytes.now) }
{
    let (sign, digits) = match bytes {
        [] => return None,
        [sign, digits @ ..] => (*sign, digits),
    };
    if sign != b'+' && sign != b'-' {
        return None;
    }
    if max < 0 {
        return None;
    }
    let size = read_digits(digits, max as u64)? as i64;
    Some(if sign == b'-' { -size } else { size })
}

/// Where the first slash stands.
fn slash_place(bytes: &[u8]) -> Option<usize>
    ensures { result ≡ position (λ byte. byte == 47) bytes.now }
{
    bytes.iter().position(|byte| *byte == b'/')
}

/// What stands before the first slash and behind it, where there is one.
fn split_at_slash(bytes: &[u8]) -> Option<(&[u8], &[u8])>
    ensures none { IfNone result (denominator_text bytes.now ≡ []) }
    ensures numerator { IfSome result (λ parts. parts.0.now ≡ numerator_text bytes.now) }
    ensures denominator { IfSome result (λ parts. parts.1.now ≡ denominator_text bytes.now) }
{
    match slash_place(bytes) {
        Some(slash) => Some((&bytes[..slash], &bytes[slash + 1..])),
        None => None,
    }
}

/// The fraction that digits, `/` and digits write, where both numbers are at most `max` and the second is
/// not 0.
pub fn read_fraction(bytes: &[u8], max: u64) -> Option<Frac>
    ensures fraction { IsSome result ↔ IsFractionText max bytes.now }
    ensures value { IfSome result (λ q. IsQuotient q
        (pos (digits_value 10 (numerator_text bytes.now)))
        (digits_value 10 (denominator_text bytes.now))) }
    ensures lowest { IfSome result (λ q. IsLowest q) }
{
    let (numerator, denominator) = split_at_slash(bytes)?;
    let n = read_digits(numerator, max)?;
    let d = read_digits(denominator, max)?;
    Frac::new(i128::from(n), u128::from(d))
}
