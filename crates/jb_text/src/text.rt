ghost use Rattle.std.specs.Prelude.{◌≡◌, ◌<◌, [], ◌∷◌, length, MatchOption, IfSome};
ghost use Rattle.std.specs.Option.{option_copied};
ghost use Rattle.jb_text.specs.Parts.{before, onward, lines, words, words_in};
ghost use Rattle.jb_text.specs.Parts.{FirstLine, number_of, number_from, with_digit as with_digit_of};

/// The bytes before the first `delimiter`, and those from it on: all of them and none, where there is no `delimiter`.
pub fn part(bytes: &[u8], delimiter: u8) -> (&[u8], &[u8])
    ensures front { result.0.now ≡ before delimiter bytes.now }
    ensures back { result.1.now ≡ onward delimiter bytes.now }
{
    match memchr::memchr(delimiter, bytes) {
        Some(at) => bytes.split_at(at),
        None => bytes.split_at(bytes.len()),
    }
}

/// The first line of a text, without the LF at its end, and the text after it; `None` where nothing is left.
pub fn next_line(text: &[u8]) -> Option<(&[u8], &[u8])>
    /// The first line of a text and what comes after it, or that there is none.
    ensures { MatchOption result (lines text.now ≡ []) (λ next. FirstLine text.now next.0.now next.1.now) }
{
    if text.is_empty() {
        return None;
    }
    let (line, behind) = part(text, b'\n');
    match behind {
        [_, rest @ ..] => Some((line, rest)),
        [] => Some((line, behind)),
    }
}

/// The first word of a text whose words are separated by single spaces, and the text after the space that follows it,
/// where there is one.
pub fn next_word(text: &[u8]) -> (&[u8], Option<&[u8]>)
    /// The first word of a line, and the words after it.
    ensures words { words text.now ≡ result.0.now ∷ words_in (option_copied result.1) }
    ensures shorter { IfSome result.1 (λ rest. length rest.now < length text.now) }
{
    let (word, behind) = part(text, b' ');
    match behind {
        [_, rest @ ..] => (word, Some(rest)),
        [] => (word, None),
    }
}

/// The number of at most 64 bits that a text spells in decimal, without leading zeros; `None` for any other text.
pub fn number(digits: &[u8]) -> Option<u64>
    /// A number is read exactly where the text is a decimal below 2^64 without leading zeros.
    ensures { result ≡ number_of digits.now }
{
    if digits.is_empty() {
        return None;
    }
    if digits.len() > 1 && digits[0] == b'0' {
        return None;
    }
    digits_value(digits)
}

/// The number that digits spell, leading zeros and all.
fn digits_value(digits: &[u8]) -> Option<u64>
    ensures { result ≡ number_from 0 digits.now }
{
    let mut value = 0;
    for digit in digits {
        match with_digit(value, *digit) {
            Some(more) => value = more,
            None => return None,
        }
    }
    Some(value)
}

/// The number with one more digit after it.
fn with_digit(value: u64, digit: u8) -> Option<u64>
    ensures { result ≡ with_digit_of value digit }
{
    if !digit.is_ascii_digit() {
        return None;
    }
    value.checked_mul(10)?.checked_add(u64::from(digit - b'0'))
}
