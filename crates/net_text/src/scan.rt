//! What stands at the front of a text: a word, a number.

ghost use Rattle.std.specs.Prelude.{◌≡◌, ◌<◌, ◌≤◌, ◌+◌, ◌-◌, ◌*◌, ◌∷◌, ℕ, length};
ghost use Rattle.std.specs.Option.{option_map};
ghost use Rattle.net_text.specs.Scanning.{in_word};
ghost use Rattle.net_text.specs.TypeText.{behind};
ghost use Rattle.net_text.specs.WireText.{digit, number_from};

/// What stands behind a word, where the text begins with it.
pub(crate) fn behind<'a>(word: &[u8], text: &'a [u8]) -> Option<&'a [u8]>
    ensures { option_map (λ s. s.now) result ≡ behind word.now text.now }
{
    let mut left = word;
    let mut rest = text;
    while let [wanted, words @ ..] = left {
        let [first, more @ ..] = rest else {
            return None;
        };
        if *wanted != *first {
            return None;
        }
        left = words;
        rest = more;
    }
    Some(rest)
}

/// The number that the digits in front are, or `None` where it has more than 64 bits, and what stands behind them.
pub(crate) fn number(text: &[u8]) -> (Option<u64>, &[u8])
    ensures value { result.0 ≡ in_word (number_from 0 text.now).0 }
    ensures rest { result.1.now ≡ (number_from 0 text.now).1 }
{
    let mut rest = text;
    let mut value = Some(0);
    while let [first, more @ ..] = rest {
        if !is_digit(*first) {
            return (value, rest);
        }
        value = with_digit(value, *first);
        rest = more;
    }
    (value, rest)
}

/// Whether a byte is a decimal digit.
fn is_digit(c: u8) -> bool
    ensures { result ≡ digit c }
{
    48 <= c && c <= 57
}

/// A number with one more digit behind it.
fn with_digit(value: Option<u64>, c: u8) -> Option<u64>
    requires { (48 ≤ c) × (c ≤ 57) }
    ensures { (n : ℕ) → value ≡ in_word n → result ≡ in_word (10 * n + (c - 48)) }
{
    match value {
        Some(n) => narrow(10 * n as u128 + (c - 48) as u128),
        None => None,
    }
}

/// The number as one of 64 bits, or none where it is larger.
fn narrow(n: u128) -> Option<u64>
    ensures { result ≡ in_word n }
{
    if n < 18_446_744_073_709_551_616 {
        Some(n as u64)
    } else {
        None
    }
}
