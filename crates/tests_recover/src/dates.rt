//! When logs were written, by their commit blocks.

use crate::checks::By;
use crate::images::Row;
use crate::small::{MAGIC, small};
use jb_block::{BlockSize, Sums};
use jb_disk::Disk;
use jb_format::read_super;
use jb_recover::latest_commit;
use tests_support::{Bench, Must, Test, check_row, fail};

/// A name, a small image with these rows, and the seconds of its latest commit.
type Case = (&'static str, &'static [Row], u64);

/// Commits of the seconds 9 and 7, and a block of another number that says 99.
const SET_BACK: &[Row] = &[
    (1, 0, [MAGIC, 2, 2, 0]),
    (1, 3, [0, 9, 5, 0]),
    (2, 0, [MAGIC, 2, 3, 0]),
    (2, 3, [0, 7, 6, 0]),
    (3, 0, [MAGIC, 2, 9, 0]),
    (3, 3, [0, 99, 0, 0]),
];

/// Commits of the seconds 7 and 2^32 + 1.
const RISING: &[Row] = &[
    (1, 0, [MAGIC, 2, 2, 0]),
    (1, 3, [0, 7, 5, 0]),
    (2, 0, [MAGIC, 2, 3, 0]),
    (2, 3, [1, 1, 6, 0]),
];

/// A commit that does not say when it was.
const UNDATED: &[Row] = &[(1, 0, [MAGIC, 2, 2, 0]), (1, 3, [0, 0, 5, 0])];

/// A commit of the second 9 in the log of a clean journal.
const CLEAN: &[Row] = &[
    (0, 1, [33, 1, 2, 0]),
    (1, 0, [MAGIC, 2, 2, 0]),
    (1, 3, [0, 9, 5, 0]),
];

static CASES: [Case; 5] = [
    ("no commit", &[], 0),
    ("a clock that was set back", SET_BACK, 9),
    ("rising", RISING, 4_294_967_297),
    ("undated", UNDATED, 0),
    ("clean", CLEAN, 0),
];

/// The seconds of the latest commit of a disk, which has to have blocks of 1 KiB.
fn dated<D: Disk>(test: &impl Test, disk: &mut D) -> u64 {
    let mut block = [0; 1024];
    if disk.block_size() != BlockSize::OneKib {
        return fail(test, "the size of a block");
    }
    let sb = read_super(disk, &mut block).must(test, "a superblock");
    latest_commit(disk, &sb, Sums::Absent, &mut block).must(test, "the latest commit")
}

/// Checks the latest commit of a row.
fn check_case(test: &impl Bench, case: &Case) {
    let (row, rows, wanted) = *case;
    let mut disk = small(test, rows, &[]);
    let is_so = dated(test, &mut disk) == wanted;
    check_row(test, is_so, row, "the latest commit")
}

#[test]
fn logs_say_when_they_were_written(rt: HostRuntime) {
    for case in &CASES {
        check_case(&By(&rt, rt.alloc()), case);
    }
}
