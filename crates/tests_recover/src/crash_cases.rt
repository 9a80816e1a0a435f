//! Small images whose recoveries are broken off: what they hold, and which mixtures of sectors a crash may leave.

use crate::frames::same_frame;
use crate::images::Row;
use crate::mixtures::{SECTORS, SOME, digits, some_choice};
use crate::small::{HOMES, MAGIC, small};
use crate::summed_logs::{REVOKED_6, REVOKED_6_AFTER, V3, V3_AFTER};
use crate::wraps;
use jb_disk::{Disk, MemoryDisk};
use jb_recover::{CheckedFault, Recovered, recover, recover_checked};
use tests_support::{Bench, crashed, difference, difference_below};

/// More calls than a recovery of an image here makes.
pub const MOST: u64 = 200;

/// A small image with these rows, or with none the image that wraps; whether its recovery looks at checksums; the rows
/// that it changes; how many calls of the disk it makes; and the mixtures of its pending sectors: each sector is one of
/// this many versions, and there are this many mixtures, or too many.
pub struct Case {
    pub name: &'static str,
    is_summed: bool,
    pub rows: &'static [Row],
    after: &'static [Row],
    pub calls: u64,
    versions: u32,
    mixtures: Option<u32>,
}

pub static CASES: [Case; 9] = [
    // An escaped copy of home 5.
    Case {
        name: "escaped",
        is_summed: false,
        rows: &[
            (1, 0, [MAGIC, 1, 2, 5]),
            (1, 1, [9, 0, 0, 0]),
            (2, 0, [0, 0x0102_0304, 0, 0]),
            (3, 0, [MAGIC, 2, 2, 0]),
        ],
        after: &[
            (0, 1, [33, 1, 3, 0]),
            (HOMES + 5, 0, [MAGIC, 0x0102_0304, 0, 0]),
        ],
        calls: 13,
        versions: 2,
        mixtures: Some(4),
    },
    // Copies of homes 5 and 6, and a later revoke of home 5.
    Case {
        name: "revoked",
        is_summed: false,
        rows: &[
            (1, 0, [MAGIC, 1, 2, 5]),
            (1, 1, [2, 6, 10, 0]),
            (2, 0, [1, 2, 3, 4]),
            (3, 0, [6, 6, 6, 6]),
            (4, 0, [MAGIC, 2, 2, 0]),
            (5, 0, [MAGIC, 5, 3, 20]),
            (5, 1, [5, 0, 0, 0]),
            (6, 0, [MAGIC, 2, 3, 0]),
        ],
        after: &[(0, 1, [33, 1, 4, 0]), (HOMES + 6, 0, [6, 6, 6, 6])],
        calls: 17,
        versions: 2,
        mixtures: Some(4),
    },
    // Two copies of home 5.
    Case {
        name: "twice",
        is_summed: false,
        rows: &[
            (1, 0, [MAGIC, 1, 2, 5]),
            (1, 1, [8, 0, 0, 0]),
            (2, 0, [1, 2, 3, 4]),
            (3, 0, [MAGIC, 2, 2, 0]),
            (4, 0, [MAGIC, 1, 3, 5]),
            (4, 1, [8, 0, 0, 0]),
            (5, 0, [5, 6, 7, 8]),
            (6, 0, [MAGIC, 2, 3, 0]),
        ],
        after: &[(0, 1, [33, 1, 4, 0]), (HOMES + 5, 0, [5, 6, 7, 8])],
        calls: 19,
        versions: 3,
        mixtures: Some(9),
    },
    // Copies of the homes 3 and 4, and then of 4 and 3: a run of two, and two of one.
    Case {
        name: "runs",
        is_summed: false,
        rows: &[
            (1, 0, [MAGIC, 1, 2, 3]),
            (1, 1, [2, 4, 10, 0]),
            (2, 0, [103, 0, 0, 0]),
            (2, 63, [0, 0, 0, 103]),
            (3, 0, [104, 0, 0, 0]),
            (3, 63, [0, 0, 0, 104]),
            (4, 0, [MAGIC, 2, 2, 0]),
            (5, 0, [MAGIC, 1, 3, 4]),
            (5, 1, [2, 3, 10, 0]),
            (6, 0, [204, 0, 0, 0]),
            (6, 63, [0, 0, 0, 204]),
            (7, 0, [203, 0, 0, 0]),
            (7, 63, [0, 0, 0, 203]),
            (8, 0, [MAGIC, 2, 3, 0]),
        ],
        after: &[
            (0, 1, [33, 1, 4, 0]),
            (HOMES + 3, 0, [203, 0, 0, 0]),
            (HOMES + 3, 63, [0, 0, 0, 203]),
            (HOMES + 4, 0, [204, 0, 0, 0]),
            (HOMES + 4, 63, [0, 0, 0, 204]),
        ],
        calls: 23,
        versions: 3,
        mixtures: Some(81),
    },
    // A log that begins after two blocks that are not of it, and words in block 0 after the superblock.
    Case {
        name: "gap",
        is_summed: false,
        rows: &[
            (0, 1, [33, 3, 2, 3]),
            (0, 40, [7, 7, 7, 7]),
            (0, 63, [7, 7, 7, 7]),
            (1, 0, [MAGIC, 2, 2, 0]),
            (2, 63, [7, 7, 7, 7]),
            (3, 0, [MAGIC, 1, 2, 5]),
            (3, 1, [8, 0, 0, 0]),
            (5, 0, [MAGIC, 2, 2, 0]),
        ],
        after: &[(0, 1, [33, 3, 3, 0]), (HOMES + 5, 0, [0, 0, 0, 0])],
        calls: 13,
        versions: 2,
        mixtures: Some(4),
    },
    // Copies of the homes 0 to 7.
    Case {
        name: "many",
        is_summed: false,
        rows: &[
            (1, 0, [MAGIC, 1, 2, 0]),
            (1, 1, [2, 1, 2, 2]),
            (1, 2, [2, 3, 2, 4]),
            (1, 3, [2, 5, 2, 6]),
            (1, 4, [2, 7, 10, 0]),
            (2, 0, [100, 0, 0, 0]),
            (3, 0, [101, 0, 0, 0]),
            (4, 0, [102, 0, 0, 0]),
            (5, 0, [103, 0, 0, 0]),
            (6, 0, [104, 0, 0, 0]),
            (7, 0, [105, 0, 0, 0]),
            (8, 0, [106, 0, 0, 0]),
            (9, 0, [107, 0, 0, 0]),
            (10, 0, [MAGIC, 2, 2, 0]),
        ],
        after: &[
            (0, 1, [33, 1, 3, 0]),
            (HOMES, 0, [100, 0, 0, 0]),
            (HOMES + 1, 0, [101, 0, 0, 0]),
            (HOMES + 2, 0, [102, 0, 0, 0]),
            (HOMES + 3, 0, [103, 0, 0, 0]),
            (HOMES + 4, 0, [104, 0, 0, 0]),
            (HOMES + 5, 0, [105, 0, 0, 0]),
            (HOMES + 6, 0, [106, 0, 0, 0]),
            (HOMES + 7, 0, [107, 0, 0, 0]),
        ],
        calls: 27,
        versions: 2,
        mixtures: None,
    },
    // An escaped copy of home 5, in a journal with checksums.
    Case {
        name: "summed",
        is_summed: true,
        rows: &V3,
        after: &V3_AFTER,
        calls: 23,
        versions: 2,
        mixtures: Some(4),
    },
    // Copies of homes 5 and 6, and a later revoke of home 6.
    Case {
        name: "summed, revoked",
        is_summed: true,
        rows: &REVOKED_6,
        after: &REVOKED_6_AFTER,
        calls: 27,
        versions: 2,
        mixtures: Some(4),
    },
    // Three homes of two sectors, one of them written twice.
    Case {
        name: "wraps",
        is_summed: false,
        rows: &[],
        after: &[],
        calls: 26,
        versions: 3,
        mixtures: Some(729),
    },
];

/// What the recovery of an image of a case answers.
pub fn answer<D: Disk>(
    test: &impl Bench,
    case: &Case,
    disk: &mut D,
) -> Result<Recovered, CheckedFault> {
    if case.is_summed {
        return recover_checked(test.alloc(), disk);
    }
    Ok(recover(test.alloc(), disk)?)
}

/// Whether a case has few mixtures.
pub fn has_few(case: &Case) -> bool {
    matches!(case.mixtures, Some(0..=9))
}

/// Whether an image of a case is recovered.
pub fn recovers<D: Disk>(test: &impl Bench, case: &Case, disk: &mut D) -> bool {
    answer(test, case, disk).is_ok()
}

/// The image of a case before its recovery.
pub fn before(test: &impl Bench, case: &Case) -> MemoryDisk {
    if case.rows.is_empty() {
        return wraps::before(test);
    }
    small(test, case.rows, &[])
}

/// The same image, recovered.
pub fn after(test: &impl Bench, case: &Case) -> MemoryDisk {
    if case.rows.is_empty() {
        return wraps::after(test);
    }
    small(test, case.rows, case.after)
}

/// The mixture of this number of a case.
pub fn choice(case: &Case, number: u32) -> [u32; SECTORS] {
    if case.mixtures.is_none() {
        return some_choice(number);
    }
    digits(number, case.versions)
}

/// How many mixtures of the pending sectors of a disk are tried: one, where nothing on it has changed since the last
/// sync.
pub fn mixtures(test: &impl Bench, case: &Case, disk: &mut MemoryDisk) -> u32 {
    let mut old = crashed(test, disk, &[]);
    if difference(test, &mut old, disk, 0).is_none() {
        return 1;
    }
    case.mixtures.unwrap_or(SOME)
}

/// Whether a disk has the blocks of a wanted one at its front.
pub fn begins_as<D: Disk>(test: &impl Bench, disk: &mut D, wanted: &mut MemoryDisk) -> bool {
    let blocks = wanted.blocks();
    disk.blocks() >= blocks && difference_below(test, disk, wanted, 0, blocks).is_none()
}

/// Whether an image that a crash leaves is the expected one before the log, and recovers to it.
pub fn mends<D: Disk>(
    test: &impl Bench,
    case: &Case,
    left: &mut D,
    wanted: &mut MemoryDisk,
) -> bool {
    same_frame(test, left, wanted) && recovers(test, case, left) && begins_as(test, left, wanted)
}
