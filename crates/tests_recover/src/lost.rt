//! Logs with checksums that are searched for a transaction that they have lost.

use crate::checks::By;
use crate::images::Row;
use crate::logs::ESCAPED;
use crate::small::small;
use crate::summed_logs::{V2_WIDE, V3};
use jb_recover::{CheckedPeekFault, Lost, Summed, find_lost};
use jb_super::CheckedSuperFault;
use tests_support::{Bench, check_none, check_row, difference};

/// A name, the rows of a small image, rows that are put over them, and what is told: of transaction 2, which has a
/// revoke block at place 1, a descriptor at 2, its data at 3 and a commit block at 4.
type Searched = (
    &'static str,
    &'static [Row],
    &'static [Row],
    Result<Option<Lost>, CheckedPeekFault>,
);

static SEARCHED: [Searched; 12] = [
    ("sound", &V3, &[], Ok(None)),
    (
        "no descriptor",
        &V3,
        &[(2, 0, [0, 0, 0, 0])],
        Ok(Some(Lost::Commit(4))),
    ),
    (
        "no revoke block",
        &V2_WIDE,
        &[(1, 0, [0, 0, 0, 0])],
        Ok(Some(Lost::Commit(4))),
    ),
    (
        "a wrong revoke block, and no descriptor",
        &V3,
        &[(1, 63, [0, 0, 0, 0]), (2, 0, [0, 0, 0, 0])],
        Ok(Some(Lost::Wrong(Summed::Revoke, 1))),
    ),
    (
        "no descriptor, and a wrong commit block",
        &V3,
        &[(2, 0, [0, 0, 0, 0]), (4, 1, [0, 0, 0, 0])],
        Ok(None),
    ),
    (
        "no descriptor, and a torn commit block",
        &V3,
        &[(2, 0, [0, 0, 0, 0]), (4, 63, [7, 7, 7, 7])],
        Ok(Some(Lost::Commit(4))),
    ),
    ("no commit block", &V3, &[(4, 0, [0, 0, 0, 0])], Ok(None)),
    (
        "a wrong revoke block that is committed",
        &V3,
        &[(1, 63, [0, 0, 0, 0])],
        Err(CheckedPeekFault::BadChecksum(Summed::Revoke, 1)),
    ),
    // the data is not judged
    ("wrong data", &V3, &[(3, 1, [1, 0, 0, 0])], Ok(None)),
    (
        "clean",
        &V3,
        &[
            (0, 1, [33, 1, 2, 0]),
            (0, 15, [0, 0, 0, 0xC7BD_704B]),
            (1, 0, [0, 0, 0, 0]),
        ],
        Ok(None),
    ),
    ("no checksums", &ESCAPED, &[(1, 0, [0, 0, 0, 0])], Ok(None)),
    (
        "a wrong superblock",
        &V3,
        &[(0, 15, [0, 0, 0, 0])],
        Err(CheckedPeekFault::Super(CheckedSuperFault::Checksum)),
    ),
];

/// Checks what is told of a log, and that the image is as it was.
fn check_searched(test: &impl Bench, of: &Searched) {
    let (row, rows, over, wanted) = *of;
    let mut before = small(test, rows, over);
    let mut disk = small(test, rows, over);
    let is_told = find_lost(&mut disk) == wanted;
    check_row(test, is_told, row, "what is told");
    let place = difference(test, &mut disk, &mut before, 0);
    check_none(test, row, "block", place)
}

#[test]
fn logs_are_searched(rt: HostRuntime) {
    for of in &SEARCHED {
        check_searched(&By(&rt, rt.alloc()), of);
    }
}
