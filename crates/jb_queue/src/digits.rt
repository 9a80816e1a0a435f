//! Bytes as hexadecimal digits, two for each.

ghost use Rattle.std.specs.Prelude.{◌≡◌, ℕ, ◌<◌, length, IsTrue, false, IsErr, Ok, IfSome, MatchOption, MatchResult};
ghost use Rattle.hex.specs.Hex.{decode_sized, hex_digit_value, pair_value};

/// The value of each byte as a digit, in either case, and 255 for a byte that is none.
const VALUES: [u8; 256] = [
    255, 255, 255, 255, 255, 255, 255, 255, 255, 255, 255, 255, 255, 255, 255, 255, 255, 255, 255,
    255, 255, 255, 255, 255, 255, 255, 255, 255, 255, 255, 255, 255, 255, 255, 255, 255, 255, 255,
    255, 255, 255, 255, 255, 255, 255, 255, 255, 255, 0, 1, 2, 3, 4, 5, 6, 7, 8, 9, 255, 255, 255,
    255, 255, 255, 255, 10, 11, 12, 13, 14, 15, 255, 255, 255, 255, 255, 255, 255, 255, 255, 255,
    255, 255, 255, 255, 255, 255, 255, 255, 255, 255, 255, 255, 255, 255, 255, 255, 10, 11, 12, 13,
    14, 15, 255, 255, 255, 255, 255, 255, 255, 255, 255, 255, 255, 255, 255, 255, 255, 255, 255,
    255, 255, 255, 255, 255, 255, 255, 255, 255, 255, 255, 255, 255, 255, 255, 255, 255, 255, 255,
    255, 255, 255, 255, 255, 255, 255, 255, 255, 255, 255, 255, 255, 255, 255, 255, 255, 255, 255,
    255, 255, 255, 255, 255, 255, 255, 255, 255, 255, 255, 255, 255, 255, 255, 255, 255, 255, 255,
    255, 255, 255, 255, 255, 255, 255, 255, 255, 255, 255, 255, 255, 255, 255, 255, 255, 255, 255,
    255, 255, 255, 255, 255, 255, 255, 255, 255, 255, 255, 255, 255, 255, 255, 255, 255, 255, 255,
    255, 255, 255, 255, 255, 255, 255, 255, 255, 255, 255, 255, 255, 255, 255, 255, 255, 255, 255,
    255, 255, 255, 255, 255, 255, 255, 255, 255, 255, 255, 255, 255, 255, 255, 255, 255, 255, 255,
    255, 255, 255,
];

/// Puts the bytes that digits spell into `out`, and says whether they are all digits, two for each of its bytes.
/// Otherwise what `out` then holds is not specified. It looks each digit up in a table, with no branch for its kind.
pub(crate) fn decode(digits: &[u8], out: &mut [u8]) -> bool
    ensures { MatchResult (decode_sized digits.now (length out.old))
        (λ bytes. IsTrue result × (out.new ≡ bytes))
        (λ _. result ≡ false) }
{
    if digits.len() % 2 != 0 {
        return false;
    }
    if digits.len() / 2 != out.len() {
        return false;
    }
    'bytes: for i in 0..out.len() {
        match pair(digits[2 * i], digits[2 * i + 1]) {
            Some(byte) => out[i] = byte,
            None => return false,
        }
    }
    true
}

/// The byte of two digits.
fn pair(high: u8, low: u8) -> Option<u8>
    ensures { (i : ℕ) → MatchOption result (IsErr (pair_value high low i)) (λ byte. pair_value high low i ≡ Ok byte) }
{
    let Some(first) = value(high) else {
        return None
    };
    let Some(second) = value(low) else {
        return None
    };
    Some(first * 16 + second)
}

/// The value of a digit.
fn value(digit: u8) -> Option<u8>
    ensures value { result ≡ hex_digit_value digit }
    ensures small { IfSome result (λ v. v < 16) }
{
    let value = VALUES[digit as usize];
    if value < 16 { Some(value) } else { None }
}
