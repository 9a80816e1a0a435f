//! Logs byte by byte, and what each is found to hold.

use crate::blocks::{COMMIT, DATA, DESCRIPTOR, REVOKE, WIDE_DESCRIPTOR, WIDE_REVOKE};
use jb_block::{Stamp, Width};
use jb_group::ScanFault;

/// A part of a transaction, as a row expects it.
pub enum Part {
    /// A revoke block, by its count and its homes.
    Revokes(u32, &'static [u64]),
    /// A run, by the home and the flags of each copy and the bytes with which its data begins.
    Run(&'static [(u64, u16, &'static [u8])]),
}

/// A transaction, as a row expects it: its number, its stamp, and its parts.
pub type Wanted = (u32, Stamp, &'static [Part]);

/// What a log is found to hold: its transactions, and the number that is expected after them.
pub type Found = Result<(&'static [Wanted], u32), ScanFault>;

/// A log, by the bytes with which its blocks begin, its first number, its width, and what it is found to hold.
pub struct Log {
    pub blocks: &'static [&'static [u8]],
    pub number: u32,
    pub width: Width,
    pub found: Found,
}

const NO_STAMP: Stamp = Stamp { sec: 0, nsec: 0 };

/// What `debugfs` writes of the time, whose bytes it puts in its own way.
const STAMP: Stamp = Stamp {
    sec: 0x6b02_aa60_0000_0000,
    nsec: 0x3a20_43a8,
};

/// As DESCRIPTOR, of a copy that is not escaped.
const UNESCAPED: [u8; 36] = [
    0xc0, 0x3b, 0x39, 0x98, 0, 0, 0, 1, 0, 0, 0, 2, 0, 0, 0, 5, 0, 0, 0, 8, 0, 1, 2, 3, 4, 5, 6, 7,
    8, 9, 10, 11, 12, 13, 14, 15,
];

/// A descriptor of four copies.
const FOUR_TAGS: [u8; 60] = [
    0xc0, 0x3b, 0x39, 0x98, 0, 0, 0, 1, 0, 0, 0, 2, 0, 0, 0, 0, 0, 0, 0, 0, 0, 1, 2, 3, 4, 5, 6, 7,
    8, 9, 10, 11, 12, 13, 14, 15, 0, 0, 0, 1, 0, 0, 0, 2, 0, 0, 0, 2, 0, 0, 0, 2, 0, 0, 0, 3, 0, 0,
    0, 10,
];

/// Those copies.
const FOUR: [(u64, u16, &[u8]); 4] = [(0, 0, &[1]), (1, 2, &[2]), (2, 2, &[3]), (3, 10, &[4])];

/// Commit blocks of the numbers 3, 4,294,967,295 and 0.
const COMMIT_3: [u8; 12] = [0xc0, 0x3b, 0x39, 0x98, 0, 0, 0, 2, 0, 0, 0, 3];

const COMMIT_LAST: [u8; 12] = [0xc0, 0x3b, 0x39, 0x98, 0, 0, 0, 2, 0xff, 0xff, 0xff, 0xff];

const COMMIT_0: [u8; 12] = [0xc0, 0x3b, 0x39, 0x98, 0, 0, 0, 2, 0, 0, 0, 0];

/// As REVOKE, with a count of 22 bytes.
const REVOKE_22: [u8; 20] = [
    0xc0, 0x3b, 0x39, 0x98, 0, 0, 0, 5, 0, 0, 0, 2, 0, 0, 0, 22, 0, 0, 0, 7,
];

/// As REVOKE, with a count above the block size, in the transactions 2 and 3.
pub const BAD_REVOKE: [u8; 20] = [
    0xc0, 0x3b, 0x39, 0x98, 0, 0, 0, 5, 0, 0, 0, 2, 0, 0, 4, 1, 0, 0, 0, 7,
];

const BAD_REVOKE_3: [u8; 20] = [
    0xc0, 0x3b, 0x39, 0x98, 0, 0, 0, 5, 0, 0, 0, 3, 0, 0, 4, 1, 0, 0, 0, 7,
];

/// The commit block of the transaction of WIDE_DESCRIPTOR, as `debugfs` of e2fsprogs 1.47.0 wrote it.
const WIDE_COMMIT: [u8; 60] = [
    0xc0, 0x3b, 0x39, 0x98, 0, 0, 0, 2, 0, 0, 0, 1, 0, 0, 0, 0, 0, 0, 0, 0, 0, 0, 0, 0, 0, 0, 0, 0,
    0, 0, 0, 0, 0, 0, 0, 0, 0, 0, 0, 0, 0, 0, 0, 0, 0, 0, 0, 0, 0x6b, 0x02, 0xaa, 0x60, 0, 0, 0, 0,
    0x3a, 0x20, 0x43, 0xa8,
];

pub static LOGS: [Log; 9] = [
    // a revoke block and a run
    Log {
        blocks: &[&REVOKE, &DESCRIPTOR, &DATA, &COMMIT, &[]],
        number: 2,
        width: Width::Narrow,
        found: Ok((
            &[(
                2,
                NO_STAMP,
                &[Part::Revokes(20, &[7]), Part::Run(&[(5, 9, &DATA)])],
            )],
            3,
        )),
    },
    // a data block that is a commit block by its looks, before the run's own one
    Log {
        blocks: &[&UNESCAPED, &COMMIT, &COMMIT],
        number: 2,
        width: Width::Narrow,
        found: Ok((&[(2, NO_STAMP, &[Part::Run(&[(5, 8, &COMMIT)])])], 3)),
    },
    Log {
        blocks: &[&FOUR_TAGS, &[1], &[2], &[3], &[4], &COMMIT],
        number: 2,
        width: Width::Narrow,
        found: Ok((&[(2, NO_STAMP, &[Part::Run(&FOUR)])], 3)),
    },
    // commit blocks alone, whose numbers go up by one, also from the last number to 0
    Log {
        blocks: &[&COMMIT, &COMMIT_3],
        number: 2,
        width: Width::Narrow,
        found: Ok((&[(2, NO_STAMP, &[]), (3, NO_STAMP, &[])], 4)),
    },
    Log {
        blocks: &[&COMMIT_LAST, &COMMIT_0],
        number: 0xFFFF_FFFF,
        width: Width::Narrow,
        found: Ok((&[(0xFFFF_FFFF, NO_STAMP, &[]), (0, NO_STAMP, &[])], 1)),
    },
    // what `debugfs` wrote: three copies, the second escaped, and a transaction that revokes the first of them
    Log {
        blocks: &[
            &WIDE_DESCRIPTOR,
            &[0x11],
            &[],
            &[0x33],
            &WIDE_COMMIT,
            &WIDE_REVOKE,
            &COMMIT,
        ],
        number: 1,
        width: Width::Wide,
        found: Ok((
            &[
                (
                    1,
                    STAMP,
                    &[Part::Run(&[(333, 0, &[0x11]), (334, 3, &[0]), (335, 10, &[0x33])])],
                ),
                (2, NO_STAMP, &[Part::Revokes(40, &[333, 340, 341])]),
            ],
            3,
        )),
    },
    // 22 bytes have no entry of 64 bits
    Log {
        blocks: &[&REVOKE_22, &COMMIT],
        number: 2,
        width: Width::Wide,
        found: Ok((&[(2, NO_STAMP, &[Part::Revokes(22, &[])])], 3)),
    },
    // a bad count is answered by its index where its transaction is committed, and not judged where it is not
    Log {
        blocks: &[&BAD_REVOKE, &COMMIT],
        number: 2,
        width: Width::Narrow,
        found: Err(ScanFault::BadRevoke(0)),
    },
    Log {
        blocks: &[&REVOKE, &COMMIT, &BAD_REVOKE_3, &COMMIT_3],
        number: 2,
        width: Width::Narrow,
        found: Err(ScanFault::BadRevoke(2)),
    },
];
