//! The number with which bytes begin.

ghost use Rattle.std.specs.Prelude.{◌≡◌, ◌≤◌, length, IfSome};
ghost use Rattle.std.specs.Option.{is_some};
ghost use Rattle.std.specs.Str.Parse.{digits_value};
ghost use Rattle.text_lines.specs.Digits.{behind, capped, digits_in, is_number};
ghost use Rattle.text_lines.specs.Scanning.{capped_after};

/// No number above this, which is 2 ^ 40, is told from it.
const CAP: u64 = 1_099_511_627_776;

/// The number with which the bytes begin, or 2 ^ 40 if it is above, and what stands behind its digits.
///
/// There is none exactly when the bytes begin with no digit, or when their first digit is 0 and is not the only one.
pub fn number_in(bytes: &[u8]) -> Option<(u64, &[u8])>
    ensures told { is_some result ≡ is_number (digits_in bytes.now) }
    ensures value { IfSome result (λ p. p.0 ≡ capped (digits_value 10 (digits_in bytes.now))) }
    ensures rest { IfSome result (λ p. p.1.now ≡ behind bytes.now) }
{
    let (digits, more) = bytes.split_at(digit_count(bytes));
    if !is_number(digits) {
        return None;
    }
    Some((capped_number(digits), more))
}

/// With how many digits the bytes begin.
fn digit_count(bytes: &[u8]) -> usize
    ensures value { result ≡ length (digits_in bytes.now) }
    ensures within { result ≤ length bytes.now }
{
    for i in 0..bytes.len() {
        if !bytes[i].is_ascii_digit() {
            return i;
        }
    }
    bytes.len()
}

/// The number that the digits are, or `CAP` if it is above.
fn capped_number(digits: &[u8]) -> u64
    ensures { result ≡ capped_after 0 digits.now }
{
    let mut n = 0u64;
    for i in 0..digits.len() {
        n = (n * 10 + (digits[i].saturating_sub(48)) as u64).min(CAP);
    }
    n
}

/// Whether digits are a number without leading zeros.
fn is_number(digits: &[u8]) -> bool
    ensures { result ≡ is_number digits.now }
{
    if digits.len() == 0 {
        return false;
    }
    if digits[0] == 48 {
        return digits.len() == 1;
    }
    true
}
