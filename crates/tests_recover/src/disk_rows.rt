//! The disks as a program uses them: crash rows by hand, and failing calls by number.

use crate::blocks::{check_runs, fill, fill_run, look, look_each, look_run, number, three_calls};
use crate::disk_checks::By;
use jb_block::{BlockSize, Stamp};
use jb_disk::{Clock, Disk, Fault, FixedClock, FuseDisk, MemoryDisk, OneFaultDisk};
use std::alloc::Global;
use tests_support::{Must, Test, check, check_at, crashed, zeros};

/// Fills a block that the disk has.
fn put(test: &impl Test, disk: &mut MemoryDisk, place: u64, byte: u8) {
    fill(disk, place, byte).must(test, "a block is not filled")
}

/// Two blocks of which the first was written twice and the second once since they were zeros.
fn pending(test: &impl Test, alloc: Global) -> MemoryDisk {
    let mut disk = zeros(test, alloc, BlockSize::OneKib, 2);
    put(test, &mut disk, 0, 1);
    put(test, &mut disk, 1, 2);
    put(test, &mut disk, 0, 3);
    disk
}

/// A choice of a version for each sector, and what a crash then leaves of the two blocks.
struct Crash(&'static [u32], [u8; 4], [u8; 4]);

static CRASHES: [Crash; 6] = [
    Crash(&[], [0, 0, 0, 0], [0, 0, 0, 0]),
    Crash(&[1], [1, 1, 0, 0], [0, 0, 0, 0]),
    Crash(&[0, 1], [0, 0, 1, 1], [0, 0, 0, 0]),
    Crash(&[0, 0, 1], [0, 0, 0, 0], [2, 2, 0, 0]),
    Crash(&[2, 2, 1, 1], [3, 3, 3, 3], [2, 2, 2, 2]),
    Crash(&[5, 7, 3, 8], [3, 3, 1, 1], [2, 2, 0, 0]),
];

/// What is left after a sync and one more write.
static SYNCED: Crash = Crash(&[0, 1, 1, 1], [3, 3, 3, 3], [2, 2, 4, 4]);

/// Checks what a crash leaves of a disk, and that another one leaves the same.
fn check_crash(test: &impl Test, disk: &MemoryDisk, crash: &Crash, row: u64) {
    let Crash(choice, first, second) = crash;
    let mut left = disk.crash(choice).must(test, "memory");
    check_at(test, look(&mut left, 0) == Ok(*first), "block 0 of", row);
    check_at(test, look(&mut left, 1) == Ok(*second), "block 1 of", row);
    let mut again = left.crash(&[1, 1, 1, 1]).must(test, "memory");
    check_at(
        test,
        look(&mut again, 1) == Ok(*second),
        "block 1, again, of",
        row,
    )
}

/// Checks the chosen version of each sector; and after a sync only what is written after it.
fn check_crashes(test: &impl Test, alloc: Global) {
    let mut disk = pending(test, alloc);
    for (row, crash) in CRASHES.iter().enumerate() {
        check_crash(test, &disk, crash, row as u64)
    }
    check(test, disk.sync().is_ok(), "a sync");
    put(test, &mut disk, 1, 4);
    check_crash(test, &disk, &SYNCED, 6)
}

/// Which of three calls succeed, by the number of calls that pass a fuse, and by the number of the one call that fails;
/// and what the block holds after them.
struct Calls(u64, [bool; 3], [bool; 3], [u8; 4]);

static CALLS: [Calls; 4] = [
    Calls(0, [false, false, false], [false, true, true], [0; 4]),
    Calls(1, [true, false, false], [true, false, true], [7; 4]),
    Calls(2, [true, true, false], [true, true, false], [7; 4]),
    Calls(3, [true, true, true], [true, true, true], [7; 4]),
];

/// Checks the calls of a fuse.
fn check_fuse(test: &impl Test, disk: MemoryDisk, of: &Calls) {
    let Calls(calls, fused, _, content) = *of;
    let mut disk = FuseDisk::of(disk, calls);
    check_at(test, three_calls(&mut disk) == fused, "fuse", calls);
    let is_left = look(&mut disk.into_inner(), 1) == Ok(content);
    check_at(test, is_left, "what a fuse leaves", calls)
}

/// Checks the calls of which one fails.
fn check_fault(test: &impl Test, disk: MemoryDisk, of: &Calls) {
    let Calls(calls, _, but_one, content) = *of;
    let mut disk = OneFaultDisk::of(disk, calls);
    check_at(test, three_calls(&mut disk) == but_one, "call", calls);
    let is_left = look(&mut disk.into_inner(), 1) == Ok(content);
    check_at(test, is_left, "what one fault leaves", calls)
}

/// Checks each row, in blocks of two sizes.
fn check_calls(test: &impl Test, alloc: Global) {
    for of in &CALLS {
        check_fuse(test, zeros(test, alloc, BlockSize::TwoKib, 2), of);
        check_fault(test, zeros(test, alloc, BlockSize::FourKib, 2), of)
    }
}

/// Five blocks after three of them are written, and before.
const ALL: [[u8; 4]; 5] = [[1; 4], [7; 4], [8; 4], [9; 4], [5; 4]];

const OLD: [[u8; 4]; 5] = [[1; 4], [2; 4], [3; 4], [4; 4], [5; 4]];

/// Three blocks in a row that are written by one call, by the number of calls that pass a fuse: a choice, whether the
/// call succeeds, what is read then, and what a crash leaves by the choice: each sector is old or new by itself,
/// whatever the others are.
struct Written(u64, &'static [u32], bool, [[u8; 4]; 5], [[u8; 4]; 5]);

static WRITTEN: [Written; 5] = [
    Written(3, &[], true, ALL, OLD),
    Written(3, &[1, 1, 1, 1, 1, 1], true, ALL, ALL),
    Written(
        3,
        &[0, 1, 1, 0, 0, 1],
        true,
        ALL,
        [[1; 4], [2, 2, 7, 7], [8, 8, 3, 3], [4, 4, 9, 9], [5; 4]],
    ),
    Written(
        2,
        &[1, 0, 0, 1, 1, 1],
        false,
        [[1; 4], [7; 4], [8; 4], [4; 4], [5; 4]],
        [[1; 4], [7, 7, 2, 2], [3, 3, 8, 8], [4; 4], [5; 4]],
    ),
    Written(0, &[1, 1, 1, 1, 1, 1], false, OLD, OLD),
];

/// Five blocks that are filled and synced.
fn numbered(test: &impl Test, alloc: Global) -> MemoryDisk {
    let mut disk = zeros(test, alloc, BlockSize::OneKib, 5);
    let is_synced = number(&mut disk).is_ok() && disk.sync().is_ok();
    check(test, is_synced, "the blocks are not filled");
    disk
}

/// The disk once a run was written to it, by this many calls that pass a fuse.
fn left_by(test: &impl Test, alloc: Global, of: &Written, row: u64) -> MemoryDisk {
    let mut fuse = FuseDisk::of(numbered(test, alloc), of.0);
    let is_written = fill_run(&mut fuse, 1, 3, 7).is_ok() == of.2;
    check_at(test, is_written, "what a run answers in row", row);
    fuse.into_inner()
}

/// Checks a run that is written.
fn check_run(test: &impl Test, alloc: Global, of: &Written, row: u64) {
    let mut disk = left_by(test, alloc, of, row);
    check_at(test, look_each(&mut disk) == Ok(of.3), "read in", row);
    let mut left = crashed(test, &disk, of.1);
    check_at(test, look_each(&mut left) == Ok(of.4), "crash", row)
}

fn check_written(test: &impl Test, alloc: Global) {
    for (row, of) in WRITTEN.iter().enumerate() {
        check_run(test, alloc, of, row as u64)
    }
}

/// Checks runs that are read, and that a fuse counts each block of them.
fn check_read(test: &impl Test, alloc: Global) {
    let mut disk = zeros(test, alloc, BlockSize::OneKib, 5);
    check_runs(test, &mut disk, "a disk in memory");
    let mut fuse = FuseDisk::of(disk, 5);
    let ends = Ok([2, 2, 3, 3, 4, 4]);
    check(test, look_run(&mut fuse, 1, 3) == ends, "three blocks");
    check(test, look_run(&mut fuse, 1, 3) == Err(Fault), "six blocks")
}

fn check_clock(test: &impl Test) {
    let stamp = Stamp { sec: 5, nsec: 6 };
    check(test, FixedClock { stamp }.now() == stamp, "a clock")
}

fn check_disks(test: &impl Test, alloc: Global) {
    check_crashes(test, alloc);
    check_calls(test, alloc);
    check_written(test, alloc);
    check_read(test, alloc);
    check_clock(test)
}

#[test]
fn disks_in_memory_crash_and_fail_as_chosen(rt: HostRuntime) {
    check_disks(&By(&rt), rt.alloc())
}
