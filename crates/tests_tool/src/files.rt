//! The files of the tests.

use crate::runs::Host;
use std::fs;

/// Writes a file.
pub fn write(rt: &impl Host, name: &str, bytes: &[u8]) {
    fs::write(rt, name, bytes).expect(rt, name)
}

/// The bytes of a file.
pub fn read(rt: &impl Host, name: &str) -> Vec<u8> {
    fs::read(rt, name).expect(rt, name)
}

/// Removes a file that there is.
pub fn remove(rt: &impl Host, name: &str) {
    fs::remove_file(rt, name).expect(rt, name)
}
