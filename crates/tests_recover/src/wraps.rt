//! A log that wraps, before and after its recovery.

use crate::images::{Row, put_rows};
use crate::small::MAGIC;
use jb_block::BlockSize;
use jb_disk::MemoryDisk;
use jb_recover::Recovered;
use tests_support::{Bench, zeros};

/// Blocks in the journal, and before the first home block.
const MAXLEN: u64 = 33;

const BLOCKS: u64 = MAXLEN + 9;

/// A log that begins at place 29 and wraps to place 1: number 2 with copies of homes 5 (escaped), 6 and 7, number 3
/// with a revoke of home 6 and copies of homes 7 and 3 (escaped), and number 4 without its commit block.
static JOURNAL: [Row; 22] = [
    (0, 0, [MAGIC, 4, 0, 1024]),
    (0, 1, [33, 1, 2, 29]),
    (0, 2, [0, 0, 1, 0]),
    (0, 4, [1, 0, 0, 0]),
    (29, 0, [MAGIC, 1, 2, 5]),
    (29, 1, [1, 0, 0, 0]),
    (29, 2, [0, 6, 2, 7]),
    (29, 3, [10, 0, 0, 0]),
    (30, 0, [0, 205, 0, 0]),
    (31, 0, [206, 206, 206, 206]),
    (32, 0, [207, 207, 207, 207]),
    (1, 0, [MAGIC, 2, 2, 0]),
    (2, 0, [MAGIC, 5, 3, 20]),
    (2, 1, [6, 0, 0, 0]),
    (3, 0, [MAGIC, 1, 3, 7]),
    (3, 2, [0, 3, 11, 0]),
    (4, 0, [307, 307, 307, 307]),
    (5, 0, [0, 303, 0, 0]),
    (6, 0, [MAGIC, 2, 3, 0]),
    (7, 0, [MAGIC, 1, 4, 1]),
    (7, 1, [8, 0, 0, 0]),
    (8, 0, [401, 401, 401, 401]),
];

/// The home blocks before recovery.
static BEFORE: [Row; 5] = [
    (1, 0, [1, 1, 1, 1]),
    (3, 0, [3, 3, 3, 3]),
    (5, 0, [5, 5, 5, 5]),
    (6, 0, [6, 6, 6, 6]),
    (7, 0, [7, 7, 7, 7]),
];

/// The front of the superblock after it.
static CLEAN: [Row; 1] = [(0, 1, [33, 1, 4, 0])];

/// The home blocks that it writes.
static AFTER: [Row; 3] = [
    (3, 0, [MAGIC, 303, 0, 0]),
    (5, 0, [MAGIC, 205, 0, 0]),
    (7, 0, [307, 307, 307, 307]),
];

/// What its recovery reports.
pub static COUNTS: Recovered = Recovered {
    transactions: 2,
    copies: 4,
    revoked: 1,
    next: 5,
};

/// The image with the wrapped log, before its recovery.
pub fn before(test: &impl Bench) -> MemoryDisk {
    let mut disk = zeros(test, test.alloc(), BlockSize::OneKib, BLOCKS);
    put_rows(test, &mut disk, 0, &JOURNAL);
    put_rows(test, &mut disk, MAXLEN, &BEFORE);
    disk
}

/// The same image, recovered.
pub fn after(test: &impl Bench) -> MemoryDisk {
    let mut disk = before(test);
    put_rows(test, &mut disk, 0, &CLEAN);
    put_rows(test, &mut disk, MAXLEN, &AFTER);
    disk
}
