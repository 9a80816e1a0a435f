//! A recovery and a commit of proof_clients that the loss of power cuts short, at each call of the disk; and what a
//! crash then leaves, recovered.

use crate::cases::is_recovered;
use crate::checks::By;
use crate::draws::formatted;
use crate::groups::STAMP;
use crate::images::HOMES;
use crate::scripts::handles_of;
use jb_block::Width;
use jb_disk::MemoryDisk;
use proof_clients::{commit_until, recover_until};
use tests_support::{Bench, check, check_at, crashed, difference, fail, read_at};

/// More calls of the disk than a commit makes here, and than a recovery makes.
const MOST: u64 = 100;

/// What a crash leaves of the sectors that are pending, one digit for each: all are old, all new, old and new in turn
/// and the other way.
static CHOICES: [[u32; 10]; 4] = [
    [0, 0, 0, 0, 0, 0, 0, 0, 0, 0],
    [1, 1, 1, 1, 1, 1, 1, 1, 1, 1],
    [0, 1, 0, 1, 0, 1, 0, 1, 0, 1],
    [1, 0, 1, 0, 1, 0, 1, 0, 1, 0],
];

/// What is left of a new journal on which one batch of two handles is committed up to this many calls, and whether it
/// is reported as committed.
fn committed_until(test: &impl Bench, calls: u64) -> (MemoryDisk, bool) {
    let disk = formatted(test, 33, 8, [7; 16], Width::Narrow);
    let handles = handles_of(test, "h w0=41 w1=42\nh w1=43 r2\n", 0);
    commit_until(test.alloc(), disk, handles, STAMP, calls)
}

/// The first bytes of two homes of what a crash left by a choice, once it is recovered.
fn homes_left(test: &impl Bench, disk: &MemoryDisk, choice: &[u32], calls: u64) -> (u8, u8) {
    let mut left = crashed(test, disk, choice);
    let is_whole = is_recovered(test.alloc(), &mut left);
    check_at(
        test,
        is_whole,
        "no recovery of a commit that is cut at",
        calls,
    );
    let (mut one, mut two) = ([0; 1024], [0; 1024]);
    read_at(test, &mut left, HOMES, &mut one);
    read_at(test, &mut left, HOMES.saturating_add(1), &mut two);
    (one[0], two[0])
}

/// Cuts a commit short after this many calls: both handles or none are recovered, and both where they are reported as
/// committed; whether they are.
fn cut_commit(test: &impl Bench, calls: u64) -> bool {
    let (disk, committed) = committed_until(test, calls);
    for choice in &CHOICES {
        let homes = homes_left(test, &disk, choice, calls);
        let is_so = homes == (0x41, 0x43) || homes == (0, 0) && !committed;
        check_at(test, is_so, "the homes of a commit that is cut at", calls);
    }
    committed
}

/// Cuts a recovery of an image short after this many calls: what a crash leaves is recovered to the same image as by a
/// whole recovery. Whether it ended before.
fn cut_recovery(
    test: &impl Bench,
    image: &MemoryDisk,
    wanted: &mut MemoryDisk,
    calls: u64,
) -> bool {
    let (disk, answer) = recover_until(test.alloc(), crashed(test, image, &[]), calls);
    for choice in &CHOICES {
        let mut left = crashed(test, &disk, choice);
        let is_whole = is_recovered(test.alloc(), &mut left);
        let differs = difference(test, &mut left, wanted, 0);
        let is_so = is_whole && differs.is_none();
        check_at(test, is_so, "another image: recovery is cut at", calls);
    }
    answer.is_ok()
}

/// Cuts a commit short at each of its calls.
fn cut_commits(test: &impl Bench) {
    for calls in 0..MOST {
        if cut_commit(test, calls) {
            return check_at(test, calls == 43, "calls of a whole commit:", calls);
        }
    }
    fail(test, "the commit never ends")
}

/// Cuts a recovery short at each of its calls.
fn cut_recoveries(test: &impl Bench) {
    let (image, committed) = committed_until(test, MOST);
    check(test, committed, "the handles are not committed");
    let mut wanted = crashed(test, &image, &[]);
    check(
        test,
        is_recovered(test.alloc(), &mut wanted),
        "no recovery of an image",
    );
    for calls in 0..MOST {
        if cut_recovery(test, &image, &mut wanted, calls) {
            return check_at(test, calls == 17, "calls of a whole recovery:", calls);
        }
    }
    fail(test, "the recovery never ends")
}

#[test]
fn a_commit_that_is_cut_short_at_any_call(rt: HostRuntime) {
    cut_commits(&By(&rt, rt.alloc()))
}

#[test]
fn a_recovery_that_is_cut_short_at_any_call(rt: HostRuntime) {
    cut_recoveries(&By(&rt, rt.alloc()))
}
