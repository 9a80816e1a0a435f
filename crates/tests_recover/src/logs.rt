//! Logs of small images that several tests recover from or peek at.

use crate::images::Row;
use crate::small::{HOMES, MAGIC};

/// A revoke of home 7 and an escaped copy of home 5, of number 2, and its commit block.
pub const ESCAPED: [Row; 6] = [
    (1, 0, [MAGIC, 5, 2, 20]),
    (1, 1, [7, 0, 0, 0]),
    (2, 0, [MAGIC, 1, 2, 5]),
    (2, 1, [9, 0, 0, 0]),
    (3, 0, [0, 0x0102_0304, 0, 0]),
    (4, 0, [MAGIC, 2, 2, 0]),
];

/// What recovery changes then.
pub const ESCAPED_AFTER: [Row; 2] = [
    (0, 1, [33, 1, 3, 0]),
    (HOMES + 5, 0, [MAGIC, 0x0102_0304, 0, 0]),
];

/// Home 5 is copied, and revoked in a later transaction.
pub const REVOKED_LATER: [Row; 7] = [
    (1, 0, [MAGIC, 1, 2, 5]),
    (1, 1, [8, 0, 0, 0]),
    (2, 0, [1, 2, 3, 4]),
    (3, 0, [MAGIC, 2, 2, 0]),
    (4, 0, [MAGIC, 5, 3, 20]),
    (4, 1, [5, 0, 0, 0]),
    (5, 0, [MAGIC, 2, 3, 0]),
];

/// Numbers go on after the largest.
pub const LAST_NUMBER: [Row; 3] = [
    (0, 1, [33, 1, 0xFFFF_FFFF, 1]),
    (1, 0, [MAGIC, 2, 0xFFFF_FFFF, 0]),
    (2, 0, [MAGIC, 2, 0, 0]),
];

/// Number 2 revokes by a block whose count is above the block size, and copies homes 7 and 0.
pub const COUNT_ABOVE: [Row; 7] = [
    (1, 0, [MAGIC, 5, 2, 1025]),
    (1, 1, [7, 0, 0, 0]),
    (2, 0, [MAGIC, 1, 2, 7]),
    (2, 1, [2, 0, 10, 0]),
    (3, 0, [77, 77, 77, 77]),
    (4, 0, [70, 70, 70, 70]),
    (5, 0, [MAGIC, 2, 2, 0]),
];

/// Number 2 copies the first home that is not there, and number 3 revokes it.
pub const OUTSIDE: [Row; 7] = [
    (1, 0, [MAGIC, 1, 2, 16]),
    (1, 1, [8, 0, 0, 0]),
    (2, 0, [1, 2, 3, 4]),
    (3, 0, [MAGIC, 2, 2, 0]),
    (4, 0, [MAGIC, 5, 3, 20]),
    (4, 1, [16, 0, 0, 0]),
    (5, 0, [MAGIC, 2, 3, 0]),
];

/// A home that is there is copied before it.
pub const OUTSIDE_SECOND: [Row; 4] = [
    (1, 0, [MAGIC, 1, 2, 5]),
    (1, 1, [2, 16, 10, 0]),
    (2, 0, [1, 2, 3, 4]),
    (4, 0, [MAGIC, 2, 2, 0]),
];

/// A bad count is after the home that is not there, and is reported first.
pub const BAD_BEHIND: [Row; 6] = [
    (1, 0, [MAGIC, 1, 2, 16]),
    (1, 1, [8, 0, 0, 0]),
    (2, 0, [1, 2, 3, 4]),
    (3, 0, [MAGIC, 2, 2, 0]),
    (4, 0, [MAGIC, 5, 3, 1025]),
    (5, 0, [MAGIC, 2, 3, 0]),
];

/// The rows of a log without this many of the last ones.
pub fn cut_off(rows: &[Row], cut: usize) -> &[Row] {
    &rows[..rows.len().saturating_sub(cut)]
}
