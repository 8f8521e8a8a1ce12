//! Reading numbers in decimal digits, and the point between them: `specs/Digits`.
ghost use Rattle.std.specs.Prelude.{◌≡◌, ℕ, ◌^◌, ◌<◌, ◌≤◌, Some, IfSome, OnSome, length};
ghost use Rattle.std.specs.Fmt.{decimal};
ghost use Rattle.nms_units.specs.Digits.{number_in, point_in};

/// The number that a text of 1 to `most` decimal digits gives, with leading zeros allowed; `None` for another text.
pub fn parse_digits(text: &[u8], most: usize) -> Option<u64>
    requires { most ≤ 19 }
    ensures number { result ≡ number_in most text.now }
    ensures within { OnSome result (length text.now ≤ most) }
    ensures small { IfSome result (λ n. n < 10 ^ most) }
    ensures by_length { IfSome result (λ n. n < 10 ^ length text.now) }
{
    if text.is_empty() || text.len() > most {
        return None;
    }
    let mut number = 0u64;
    for digit in text {
        if !digit.is_ascii_digit() {
            return None;
        }
        number = number * 10 + u64::from(*digit - b'0');
    }
    Some(number)
}

/// A law: a number of at most `most` digits, as it is printed, is read by `parse_digits` as the same number.
pub fn digits_read_as_printed()
    ensures { (most n : ℕ) → 0 < most → n < 10 ^ most → n < 10 ^ 64 → number_in most (decimal n) ≡ Some n }
{}

/// The place of the first point in a text, counted from 0.
pub(crate) fn point_in(text: &[u8]) -> Option<usize>
    ensures place { result ≡ point_in text.now }
    ensures within { IfSome result (λ point. point < length text.now) }
{
    text.iter().position(|c| *c == b'.')
}
