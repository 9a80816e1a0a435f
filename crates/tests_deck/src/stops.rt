//! A script of a journal's calls of which a call of the disk fails, or every one from one on; what a crash then
//! leaves is recovered, and recovery is broken off by a crash too.

use crate::cases::is_recovered;
use crate::checks::By;
use crate::frames::Wanted;
use crate::images::{BLOCKS, HOMES, Row, small};
use crate::lives::Call;
use crate::runs::{Ran, Stop, run_over, run_to};
use jb_disk::{FuseDisk, MemoryDisk};
use tests_support::{Bench, check_at, crashed, difference, fail};

/// More calls of the disk than the script makes, and than a recovery makes.
const MOST: u32 = 400;

/// As many calls as the writes and syncs of a recovery here, or more.
const LAST: u64 = 40;

/// A number of versions is at most ten: this one names the newest of this many.
pub const NEW: u32 = 2519;

/// More sectors than are pending at any moment, and the choices of one version for each: all are old, all new, old
/// and new in turn and the other way, or one is new or old alone.
pub const SECTORS: usize = 32;

const ALL: u32 = 68;

/// The choices that are made where recovery is stopped too: the first ones.
const SOME: u32 = 6;

/// A group with an escaped copy and a freed home, which is written; home 3, which is copied, freed, written and free
/// to the end; groups that fill the log, and some that make room and go round its end; and all are checkpointed.
pub static SCRIPT: [Call<'static>; 14] = [
    Call::Handles(&[]),
    Call::Handles(&[(&[5], 2, &[7])]),
    Call::Write(7, 8),
    Call::Handles(&[(&[0, 1, 2, 3, 4, 5], 20, &[])]),
    Call::Handles(&[(&[0, 1, 2], 30, &[3]), (&[4, 5, 6, 8], 30, &[])]),
    Call::Write(3, 39),
    Call::Handles(&[(&[0, 1, 2, 4, 5, 9], 40, &[])]),
    Call::Handles(&[(&[0, 1, 2], 50, &[])]),
    Call::Commit(
        1,
        &[
            (0, 0, Some(60)),
            (0, 1, Some(61)),
            (0, 2, Some(62)),
            (0, 7, Some(63)),
        ],
    ),
    Call::Checkpoint,
    Call::Run(0),
    Call::Run(3),
    Call::Run(3),
    Call::Run(3),
];

/// Homes of zeros, and words in block 0 after the superblock.
static ROWS: [Row; 5] = [
    (HOMES + 5, 0, [0, 0, 0, 0]),
    (0, 0x50, [7, 7, 7, 7]),
    (0, 0x1F0, [7, 7, 7, 7]),
    (0, 0x200, [7, 7, 7, 7]),
    (0, 0x3F0, [7, 7, 7, 7]),
];

/// The small image with these rows.
pub fn before(test: &impl Bench) -> MemoryDisk {
    small(test, BLOCKS, &ROWS, &[])
}

/// The choice of this number.
fn choice(number: u32) -> [u32; SECTORS] {
    let mut choice = [0; SECTORS];
    for (i, version) in choice.iter_mut().enumerate() {
        let alone = i == number.saturating_sub(4) as usize / 2;
        let is_new = match number {
            0 => false,
            1 => true,
            2 => i % 2 == 1,
            3 => i % 2 == 0,
            _ => alone == (number % 2 == 0),
        };
        if is_new {
            *version = NEW;
        }
    }
    choice
}

/// Recovers what this choice leaves of a disk of this script, which is stopped after this many calls.
pub fn mend(test: &impl Bench, calls: u64, disk: &MemoryDisk, choice: &[u32], wanted: &Wanted) {
    let mut image = crashed(test, disk, choice);
    wanted.mend(test, &mut image, calls)
}

/// Recovers what each of the first choices leaves.
fn mend_all(test: &impl Bench, calls: u64, disk: &MemoryDisk, choices: u32, wanted: &Wanted) {
    for number in 0..choices {
        mend(test, calls, disk, &choice(number), wanted);
    }
}

/// A recovery of what a crash left, that is stopped after this many calls.
pub fn stopped(test: &impl Bench, disk: &MemoryDisk, calls: u64) -> Ran<MemoryDisk> {
    let mut fuse = FuseDisk::of(crashed(test, disk, &[]), calls);
    let ended = is_recovered(test.alloc(), &mut fuse);
    Ran {
        disk: fuse.into_inner(),
        ended,
    }
}

/// How many calls the recovery of what a crash left makes.
fn calls_of(test: &impl Bench, disk: &MemoryDisk) -> u64 {
    let mut calls: u64 = 0;
    for step in [256, 128, 64, 32, 16, 8, 4, 2, 1] {
        let further = calls.saturating_add(step);
        if !stopped(test, disk, further).ended {
            calls = further;
        }
    }
    calls.saturating_add(1)
}

/// Recovers what this choice leaves where recovery is stopped too, after any of its last calls: the ones before them
/// only read.
fn mend_stopped(test: &impl Bench, calls: u64, disk: &MemoryDisk, choice: &[u32], wanted: &Wanted) {
    let image = crashed(test, disk, choice);
    let all = calls_of(test, &image);
    for own in all.saturating_sub(LAST)..all {
        let once = stopped(test, &image, own);
        mend_all(test, calls, &once.disk, SOME, wanted);
    }
}

/// The script of which one call fails ends as one that is stopped there, and leaves the same disk; whether it ended.
fn fail_alike(test: &impl Bench, call: u64, stop: &mut Stop) -> bool {
    let mut other = run_over(test, before(test), call, &SCRIPT);
    let differs = difference(test, &mut other.disk, &mut stop.disk, 0);
    let is_alike = other.ended == stop.ended && differs.is_none();
    check_at(test, is_alike, "something else where one call fails:", call);
    stop.ended
}

/// Stops the script after this many calls; whether it ended before. What it left mends, where recovery is stopped too,
/// and is what it leaves where that call alone fails.
fn stop_at(test: &impl Bench, number: u32) -> bool {
    let calls = u64::from(number);
    let mut stop = run_to(test, before(test), calls, &SCRIPT);
    mend_all(test, calls, &stop.disk, ALL, &stop.wanted);
    mend_stopped(test, calls, &stop.disk, &choice(number % 10), &stop.wanted);
    fail_alike(test, calls, &mut stop)
}

/// Stops the script after every number of calls.
fn stop_each(test: &impl Bench) {
    for number in 0..MOST {
        if stop_at(test, number) {
            let calls = u64::from(number);
            return check_at(test, calls == 133, "calls of the whole script:", calls);
        }
    }
    fail(test, "it never ends")
}

#[test]
fn every_call_of_a_script_may_fail_or_be_the_last(rt: HostRuntime) {
    stop_each(&By(&rt, rt.alloc()))
}
