//! Journals with checksums that are refused: what is foreseen of a recovery, and what it answers and leaves.

use crate::checks::By;
use crate::images::Row;
use crate::small::{MAGIC, small};
use crate::summed::{NOT_LAST, check_recovery};
use crate::summed_logs::{REVOKED_6, V2, V3};
use jb_recover::{CheckedFault, Summed};
use jb_super::{CheckedSuperFault, SuperFault};
use tests_support::Bench;

/// A name, the rows of a small image, rows that are put over them, and why it is refused.
type Refused = (&'static str, &'static [Row], &'static [Row], CheckedFault);

static REFUSED: [Refused; 17] = [
    (
        "checksum",
        &V3,
        &[(0, 15, [0, 0, 0, 0])],
        CheckedFault::Super(CheckedSuperFault::Checksum),
    ),
    (
        "type",
        &V3,
        &[(0, 5, [0x0100_0000, 0, 0, 0])],
        CheckedFault::Super(CheckedSuperFault::ChecksumType(1)),
    ),
    (
        "both",
        &V3,
        &[(0, 2, [0, 0, 0x19, 0])],
        CheckedFault::Super(CheckedSuperFault::Super(SuperFault::Feature(2, 24))),
    ),
    (
        "revoke",
        &V3,
        &[(1, 63, [0, 0, 0, 0])],
        CheckedFault::BadChecksum(Summed::Revoke, 1),
    ),
    (
        "descriptor",
        &V3,
        &[(2, 63, [0, 0, 0, 0])],
        CheckedFault::BadChecksum(Summed::Descriptor, 2),
    ),
    (
        "commit",
        &V3,
        &[(4, 1, [0, 0, 0, 0])],
        CheckedFault::BadChecksum(Summed::Commit, 4),
    ),
    (
        "first of two",
        &V3,
        &[(1, 63, [0, 0, 0, 0]), (4, 1, [0, 0, 0, 0])],
        CheckedFault::BadChecksum(Summed::Revoke, 1),
    ),
    (
        "data",
        &V3,
        &[(3, 1, [1, 0, 0, 0])],
        CheckedFault::BadChecksum(Summed::Data, 3),
    ),
    (
        "data, v2",
        &V2,
        &[(3, 1, [1, 0, 0, 0])],
        CheckedFault::BadChecksum(Summed::Data, 3),
    ),
    (
        "commit before data",
        &V3,
        &[(3, 1, [1, 0, 0, 0]), (4, 1, [0, 0, 0, 0])],
        CheckedFault::BadChecksum(Summed::Commit, 4),
    ),
    // The commit block is among the data that the wrong descriptor claims: all that the log has, or one more.
    (
        "last tag",
        &V3,
        &[(2, 1, NOT_LAST)],
        CheckedFault::BadChecksum(Summed::Descriptor, 2),
    ),
    (
        "a tag more",
        &V3,
        &[
            (2, 1, NOT_LAST),
            (2, 2, [0x0405_0607, 0x0809_0A0B, 0x0C0D_0E0F, 6]),
            (2, 3, [8, 0, 0, 0]),
        ],
        CheckedFault::BadChecksum(Summed::Descriptor, 2),
    ),
    // The transaction's own commit block is gone, and the next one has its.
    (
        "later commit",
        &REVOKED_6,
        &[(1, 63, [0, 0, 0, 0]), (4, 0, [0, 0, 0, 0])],
        CheckedFault::BadChecksum(Summed::Descriptor, 1),
    ),
    (
        "count",
        &V3,
        &[(1, 0, [MAGIC, 5, 2, 1021]), (1, 63, [0, 0, 0, 0xF55E_9D3B])],
        CheckedFault::BadRevoke(1),
    ),
    (
        "checksum before count",
        &V3,
        &[(1, 0, [MAGIC, 5, 2, 1021])],
        CheckedFault::BadChecksum(Summed::Revoke, 1),
    ),
    // A copy of home 16.
    (
        "outside",
        &V3,
        &[(2, 0, [MAGIC, 1, 2, 16]), (2, 63, [0, 0, 0, 0x28BF_62A4])],
        CheckedFault::HomeOutOfRange(16, 2),
    ),
    (
        "outside before data",
        &V3,
        &[
            (2, 0, [MAGIC, 1, 2, 16]),
            (2, 63, [0, 0, 0, 0x28BF_62A4]),
            (3, 1, [1, 0, 0, 0]),
        ],
        CheckedFault::HomeOutOfRange(16, 2),
    ),
];

/// Checks that a journal is refused.
fn check_refused(test: &impl Bench, of: &Refused) {
    let (row, rows, over, fault) = *of;
    let mut before = small(test, rows, over);
    let mut disk = small(test, rows, over);
    check_recovery(test, row, &mut disk, &mut before, Err(fault))
}

#[test]
fn wrong_checksums_are_refused(rt: HostRuntime) {
    for of in &REFUSED {
        check_refused(&By(&rt, rt.alloc()), of);
    }
}
