// Numbers in decimal.
ghost use Rattle.std.specs.Prelude.{◌≡◌, ◌≢◌, ℕ, ◌<◌, ◌≤◌, ◌^◌, ◌↔◌, IsTrue, IfSome, IfNone};
ghost use Rattle.std.specs.Option.{SomeIff};
ghost use Rattle.std.specs.Fmt.{decimal};
ghost use Rattle.std.specs.Str.Parse.{AllDigits, digits_value as value_of};
ghost use Rattle.keel_name.specs.Decimal.{padded, IsFilled};

use std::cmp::Ordering;

/// The number that is printed so in decimal, without zeros in front.
/// `None` comes exactly where no number below 2^64 is.
pub fn read_decimal(digits: &[u8]) -> Option<u64>
    ensures found { IfSome result (λ number. digits.now ≡ decimal number) }
    ensures fits { IfSome result (λ number. number < 2 ^ 64) }
    ensures none { IfNone result ((number : ℕ) → number < 2 ^ 64 → digits.now ≢ decimal number) }
{
    read_padded(digits, 1)
}

// The same with zeros in front up to so many digits.
pub(crate) fn read_padded(digits: &[u8], width: usize) -> Option<u64>
    requires { 1 ≤ width }
    ensures found { IfSome result (λ number. digits.now ≡ padded width number) }
    ensures fits { IfSome result (λ number. number < 2 ^ 64) }
    ensures none { IfNone result ((number : ℕ) → number < 2 ^ 64 → digits.now ≢ padded width number) }
{
    if is_filled(digits, width) {
        digits_value(digits)
    } else {
        None
    }
}

fn is_filled(bytes: &[u8], width: usize) -> bool
    ensures { IsTrue result ↔ IsFilled width bytes.now }
{
    match bytes.len().cmp(&width) {
        Ordering::Less => false,
        Ordering::Equal => true,
        Ordering::Greater => bytes[0] != b'0',
    }
}

// The value of digits, whatever zeros stand in front, and 0 where there are none.
fn digits_value(digits: &[u8]) -> Option<u64>
    ensures { SomeIff result (AllDigits 10 digits.now × (value_of 10 digits.now < 2 ^ 64)) (value_of 10 digits.now) }
{
    let mut value: u64 = 0;
    for digit in digits {
        if !digit.is_ascii_digit() {
            return None;
        }
        value = value
            .checked_mul(10)?
            .checked_add(u64::from(*digit - b'0'))?;
    }
    Some(value)
}
