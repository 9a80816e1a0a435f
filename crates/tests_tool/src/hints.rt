//! What a second line is about: the row of the table that the first line begins as, with what it says beside the words
//! of that row.

use crate::checks::{check_at, check_text, fail};
use crate::runs::Host;
use jb_args::{Hint, diagnostics, put_hint};

/// A `match` of a hint with how its row begins in each arm.
macro_rules! begins_in {
    (
        $of:ident
        lines {
            $($hint:ident, $status:literal, $begins:literal, $rest:literal,
              $advice:literal $($more:literal)* $(: $beside:literal)?;)*
        }
        options { $($option:ident, $name:literal, $values:literal $($rest_values:literal)*;)* }
    ) => {
        match $of { $(Hint::$hint { .. } => concat!("jb: ", $begins)),* }
    };
}

/// How the row of a hint begins.
fn begins_of(hint: Hint) -> &'static str {
    diagnostics!(begins_in, hint)
}

/// What is left of a text after this byte of a row, where `#` stands for digits, if it begins so.
fn past(byte: u8, text: &[u8]) -> Option<&[u8]> {
    match text {
        [first, rest @ ..] if byte == b'#' && first.is_ascii_digit() => Some(past_digits(rest)),
        [first, rest @ ..] if byte == *first => Some(rest),
        _ => None,
    }
}

/// A text without the digits at its front.
fn past_digits(text: &[u8]) -> &[u8] {
    for at in 0..text.len() {
        if !text[at].is_ascii_digit() {
            return text.split_at(at).1;
        }
    }
    &[]
}

/// Whether a line begins as a row does.
fn fits(row: &str, line: &[u8]) -> bool {
    let mut rest = line;
    for byte in row.as_bytes() {
        match past(*byte, rest) {
            Some(more) => rest = more,
            None => return false,
        }
    }
    true
}

/// Checks what a second line is about after this text on standard error, and what it says beside, if there is to be
/// one.
pub fn check_hint(
    rt: &impl Host,
    hint: Option<Hint>,
    err: &[u8],
    beside: Option<&str>,
    what: &str,
    at: usize,
) {
    let (hint, beside) = match (hint, beside) {
        (Some(hint), Some(beside)) => (hint, beside),
        (None, None) => return,
        _ => return fail(rt, what),
    };
    check_at(rt, fits(begins_of(hint), err), what, at);
    let mut second = Vec::new(rt.alloc());
    check_at(rt, put_hint(&mut second, hint).is_ok(), what, at);
    let advice = hint.advice();
    let wanted = format!(in rt.alloc(); "jb:  {advice}{beside}\n").expect(rt, "memory");
    check_text(rt, &second, wanted.as_str(), what, at)
}
