//! Logs of small images: a journal of 33 blocks of 1 KiB, whose log begins at place 1 with number 2, and 16 homes.

use jb_block::BlockSize;
use jb_disk::{Disk, MemoryDisk};
use tests_support::{Bench, Must, Row, block_with, write_at, zeros};

pub const MAGIC: u32 = 0xC03B_3998;

/// How many blocks the journal has: the place of home 0.
pub const JOURNAL: u64 = 33;

/// A block of an image: its place, and rows of words in it.
pub type Laid = (u64, &'static [Row]);

/// The superblock.
const FRONT: Laid = (
    0,
    &[
        (0, [MAGIC, 4, 0, 1024]),
        (16, [33, 1, 2, 1]),
        (32, [0, 0, 1, 0]),
        (64, [1, 0, 0, 0]),
    ],
);

/// The superblock of a clean journal.
pub const CLEAN: Laid = (
    0,
    &[
        (0, [MAGIC, 4, 0, 1024]),
        (16, [33, 1, 2, 0]),
        (32, [0, 0, 1, 0]),
        (64, [1, 0, 0, 0]),
    ],
);

/// Home 5.
const HOME: Laid = (38, &[(0, [5, 5, 5, 5])]);

/// Number 2 revokes home 7, and has an escaped copy of home 5.
pub const ESCAPED: [Laid; 4] = [
    (1, &[(0, [MAGIC, 5, 2, 20]), (16, [7, 0, 0, 0])]),
    (2, &[(0, [MAGIC, 1, 2, 5]), (16, [9, 0, 0, 0])]),
    (3, &[(0, [0, 0x0102_0304, 0, 0])]),
    (4, &[(0, [MAGIC, 2, 2, 0])]),
];

/// Number 2 copies home 5, and so does number 3, and home 6 twice.
pub const TWICE: [Laid; 8] = [
    (1, &[(0, [MAGIC, 1, 2, 5]), (16, [8, 0, 0, 0])]),
    (2, &[(0, [1, 2, 3, 4])]),
    (3, &[(0, [MAGIC, 2, 2, 0])]),
    (
        4,
        &[
            (0, [MAGIC, 1, 3, 5]),
            (16, [2, 6, 2, 6]),
            (32, [10, 0, 0, 0]),
        ],
    ),
    (5, &[(0, [2, 3, 4, 5])]),
    (6, &[(0, [6, 6, 6, 1])]),
    (7, &[(0, [6, 6, 6, 2])]),
    (8, &[(0, [MAGIC, 2, 3, 0])]),
];

/// Number 2 copies home 5, number 3 revokes it, and number 4 copies it again.
pub const REVOKED: [Laid; 8] = [
    (1, &[(0, [MAGIC, 1, 2, 5]), (16, [8, 0, 0, 0])]),
    (2, &[(0, [1, 2, 3, 4])]),
    (3, &[(0, [MAGIC, 2, 2, 0])]),
    (4, &[(0, [MAGIC, 5, 3, 20]), (16, [5, 0, 0, 0])]),
    (5, &[(0, [MAGIC, 2, 3, 0])]),
    (6, &[(0, [MAGIC, 1, 4, 5]), (16, [8, 0, 0, 0])]),
    (7, &[(0, [4, 4, 4, 4])]),
    (8, &[(0, [MAGIC, 2, 4, 0])]),
];

/// Number 2 copies home 5 before it revokes it, and home 6 after that.
pub const OWN: [Laid; 6] = [
    (1, &[(0, [MAGIC, 1, 2, 5]), (16, [8, 0, 0, 0])]),
    (2, &[(0, [1, 2, 3, 4])]),
    (3, &[(0, [MAGIC, 5, 2, 24]), (16, [5, 6, 0, 0])]),
    (4, &[(0, [MAGIC, 1, 2, 6]), (16, [8, 0, 0, 0])]),
    (5, &[(0, [6, 6, 6, 6])]),
    (6, &[(0, [MAGIC, 2, 2, 0])]),
];

/// Number 2 copies the first home that is not there; number 3 has a revoke block with a bad count.
pub const BAD: [Laid; 5] = [
    (1, &[(0, [MAGIC, 1, 2, 16]), (16, [8, 0, 0, 0])]),
    (2, &[(0, [1, 2, 3, 4])]),
    (3, &[(0, [MAGIC, 2, 2, 0])]),
    (4, &[(0, [MAGIC, 5, 3, 1025])]),
    (5, &[(0, [MAGIC, 2, 3, 0])]),
];

/// Puts these blocks on a disk of blocks of 1 KiB.
pub fn put_blocks<D: Disk>(test: &impl Bench, disk: &mut D, blocks: &[Laid]) {
    for block in blocks {
        let (place, rows) = *block;
        write_at(test, disk, place, &block_with(rows));
    }
    disk.sync().must(test, "a sync")
}

/// A small image with these blocks of its log, but for this many of the last ones, and then this block.
pub fn small(test: &impl Bench, blocks: &[Laid], cut: usize, last: Laid) -> MemoryDisk {
    let mut disk = zeros(test, test.alloc(), BlockSize::OneKib, JOURNAL + 16);
    put_blocks(test, &mut disk, &[FRONT, HOME]);
    put_blocks(test, &mut disk, &blocks[..blocks.len().saturating_sub(cut)]);
    put_blocks(test, &mut disk, &[last]);
    disk
}

/// A block that changes nothing of a small image.
pub const SAME: Laid = HOME;
