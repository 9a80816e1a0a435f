//! What fails a test, and says which row of a table is wrong, and what is wrong there.

use std::process::Abort;
use std::str;

/// Fails the test, and says why.
pub fn fail<T>(rt: &impl Abort, why: &str) -> T {
    panic!(rt; "{why}")
}

/// Fails the test where this is not so, and says what is wrong.
pub fn check(rt: &impl Abort, is_so: bool, what: &str) {
    assert!(rt; is_so, "{what}");
}

/// The same, and says which one of these is wrong, as the row of a table.
pub fn check_at(rt: &impl Abort, is_so: bool, what: &str, at: usize) {
    assert!(rt; is_so, "{what} {at}");
}

/// The same of a number, and says which number it is.
pub fn check_number(rt: &impl Abort, is: u64, wanted: u64, what: &str, at: usize) {
    assert!(rt; is == wanted, "{what} {at}: {is} in place of {wanted}");
}

/// The same of what is written, and says what it is.
pub fn check_text(rt: &impl Abort, is: &[u8], wanted: &str, what: &str, at: usize) {
    let text = str::from_utf8(is).unwrap_or("bytes that are no text");
    assert!(rt; is == wanted.as_bytes(), "{what} {at} writes: {text}");
}
