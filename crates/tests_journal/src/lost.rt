//! Runs whose disk fails at some call.
ghost use Rattle.std.specs.Prelude.{◌≤◌};

use crate::checks::{By, Host};
use crate::journals::{by, formatted};
use crate::workers::{Found, PAIRS, run_on};
use jb_disk::{Disk, FuseDisk};
use jb_journal::{BlockSize, Ran};
use tests_support::{Test, check_at};

/// After how many calls the disk fails; how many handles the only worker stops then, and how many are settled, or none
/// where the journal is not opened.
static ROWS: [(u64, Option<(u64, u64)>); 3] = [
    // the journal is opened by 34 calls
    (33, None),
    (34, Some((1, 0))),
    (1000, Some((1, 1))),
];

/// How many handles a run has stopped, and how many are settled.
fn counts_of<D>(ran: &Ran<Found, D>) -> (u64, u64) {
    (ran.handles, ran.settled)
}

/// The same of a run of the journal on a disk by one worker.
fn counts_on<D: Disk + Drop + Send>(rt: &impl Host, disk: D) -> Option<(u64, u64)> {
    match run_on(rt, disk, by(1), &PAIRS) {
        Ok(ran) => Some(counts_of(&ran)),
        Err(_) => None,
    }
}

/// Checks a run of a row.
fn check_row(rt: &impl Host, calls: u64, counts: Option<(u64, u64)>, at: u64) {
    let test = By(rt, rt.alloc());
    let disk = FuseDisk::of(formatted(&test, BlockSize::OneKib), calls);
    let is_so = counts_on(rt, disk) == counts;
    check_at(&test, is_so, "the handles of row", at)
}

fn check_rows(rt: &impl Host) {
    for (at, (calls, counts)) in ROWS.iter().enumerate() {
        check_row(rt, *calls, *counts, at as u64);
    }
}

#[test]
fn a_handle_that_is_not_committed_is_told_as_lost(rt: HostRuntime) {
    check_rows(&rt)
}
