//! Decimal numbers below 2 ^ 32: their digits and their values.

ghost use Rattle.std.specs.Prelude.{◌≡◌, ◌↔◌, ℕ, ◌<◌, ◌^◌, Some, IsTrue, length, slice_index, decimal};
ghost use Rattle.std.specs.Char.{is_ascii_digit};
ghost use Rattle.std.specs.List.{AllPass, prefix_len, take_while};

/// The digits at the front.
pub fn leading_digits(bytes: &[u8]) -> &[u8]
    ensures { result.now ≡ take_while is_ascii_digit bytes.now }
{
    &bytes[..digit_count(bytes)]
}

/// How many digits stand at the front.
fn digit_count(bytes: &[u8]) -> usize
    ensures { result ≡ prefix_len is_ascii_digit bytes.now }
{
    bytes
        .iter()
        .take_while(|byte| byte.is_ascii_digit())
        .count()
}

/// The number below 2 ^ 32 that these digits write, or `None` where they are none, too many, or
/// begin with a zero that says nothing.
pub fn number_of(digits: &[u8]) -> Option<u32>
    requires { AllPass is_ascii_digit digits.now }
    ensures { (n : ℕ) → (result ≡ Some n) ↔ ((n < 2 ^ 32) × (digits.now ≡ decimal n)) }
{
    if has_leading_zero(digits) {
        return None;
    }
    str::from_utf8(digits).ok()?.parse().ok()
}

fn has_leading_zero(digits: &[u8]) -> bool
    ensures { IsTrue result ↔ ((1 < length digits.now) × (slice_index digits.now 0 ≡ 48)) }
{
    matches!(digits, [b'0', _, ..])
}
