ghost use Rattle.std.specs.Prelude.{◌≡◌, ◌<◌, ◌^◌, pos, neg_ℤ, if◌then◌else◌, IfSome, IfNone};
ghost use Rattle.std.specs.Str.Parse.{IsNumeral, digits_value, starts_with_minus, without_leading_sign};
ghost use Rattle.sg_reader.specs.Tests.{number_of};

// The largest number that can be followed by another digit.
const LARGEST_FRONT: u64 = i64::MAX as u64 / 10;

/// The whole number that a field spells: one decimal digit or more after a `+`, a `-` or no sign,
/// from -9223372036854775807 to 9223372036854775807. Leading zeros may appear, blanks may not. In
/// time linear in the field, and without allocating.
pub fn number(field: &[u8]) -> Option<i64>
    ensures { result ≡ number_of field.now }
{
    let size = size_of(after_sign(field))?;
    Some(signed(size, is_minus(field)))
}

fn is_minus(field: &[u8]) -> bool
    ensures { result ≡ starts_with_minus field.now }
{
    matches!(field, [b'-', ..])
}

// The field behind its sign.
fn after_sign(field: &[u8]) -> &[u8]
    ensures { result.now ≡ without_leading_sign field.now }
{
    match field {
        [b'-' | b'+', digits @ ..] => digits,
        _ => field,
    }
}

// The size that digits spell; none where they are no digits, there is none, or it is 2^63 or more.
fn size_of(digits: &[u8]) -> Option<u64>
    ensures numeral { IfSome result (λ n. IsNumeral 10 digits.now) }
    ensures value { IfSome result (λ n. n ≡ digits_value 10 digits.now) }
    ensures small { IfSome result (λ n. n < 2 ^ 63) }
    ensures none { IfNone result (IsNumeral 10 digits.now → digits_value 10 digits.now < 2 ^ 63 → ⊥) }
{
    if digits.is_empty() {
        return None;
    }
    let mut size: u64 = 0;
    for digit in digits {
        if !digit.is_ascii_digit() {
            return None;
        }
        if size > LARGEST_FRONT {
            return None;
        }
        size = 10 * size + u64::from(*digit - b'0');
    }
    (size <= i64::MAX as u64).then_some(size)
}

fn signed(size: u64, minus: bool) -> i64
    requires { size < 2 ^ 63 }
    ensures { result ≡ (if minus then neg_ℤ (pos size) else pos size) }
{
    let value = size as i64;
    if minus { -value } else { value }
}
