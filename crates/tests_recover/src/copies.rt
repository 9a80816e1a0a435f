//! What a recovery writes to the homes before they are durable: blocks of copies, and nothing else. No clause says so:
//! the log has the copies still, so a recovery of anything else in a home ends in the same image.

use crate::checks::By;
use crate::crash_cases::{CASES, Case, MOST, after, before, recovers};
use crate::mixtures::SECTORS;
use crate::small::{BLOCKS, HOMES};
use jb_disk::{FuseDisk, MemoryDisk};
use tests_support::{Bench, Test, check_in, crashed, read_at};

/// A crash leaves the versions of these numbers of each sector: the first write since the last sync, and the second.
static VERSIONS: [u32; 2] = [1, 2];

/// Whether each sector of a block is that of one of two others.
fn is_mixed(block: &[u8; 1024], one: &[u8; 1024], other: &[u8; 1024]) -> bool {
    let first = block[..512] == one[..512] || block[..512] == other[..512];
    let second = block[512..] == one[512..] || block[512..] == other[512..];
    first && second
}

/// Whether a block is a block of the log, in the sectors where it is not what was there.
fn is_logged(test: &impl Test, log: &mut MemoryDisk, block: &[u8; 1024], old: &[u8; 1024]) -> bool {
    let mut copy = [0; 1024];
    for place in 1..HOMES {
        read_at(test, log, place, &mut copy);
        if is_mixed(block, old, &copy) {
            return true;
        }
    }
    false
}

/// Whether a home is as it was, as it is to be, or a block of the log.
fn is_copied(
    test: &impl Test,
    left: &mut MemoryDisk,
    home: u64,
    old: &mut MemoryDisk,
    wanted: &mut MemoryDisk,
) -> bool {
    let (mut block, mut was, mut is) = ([0; 1024], [0; 1024], [0; 1024]);
    read_at(test, left, home, &mut block);
    read_at(test, old, home, &mut was);
    read_at(test, wanted, home, &mut is);
    is_mixed(&block, &was, &is) || is_logged(test, old, &block, &was)
}

/// Checks the homes that a crash leaves where each sector has its version of this number.
fn check_left(test: &impl Bench, case: &Case, disk: &MemoryDisk, version: u32, calls: u64) {
    let mut left = crashed(test, disk, &[version; SECTORS]);
    let (mut old, mut wanted) = (before(test, case), after(test, case));
    for home in HOMES..BLOCKS {
        let is_copy = is_copied(test, &mut left, home, &mut old, &mut wanted);
        check_in(test, is_copy, case.name, "no copy after calls", calls);
    }
}

/// Checks the homes of a recovery that is broken off after this many calls; whether it had ended.
fn check_broken(test: &impl Bench, case: &Case, calls: u64) -> bool {
    let mut fuse = FuseDisk::of(before(test, case), calls);
    let ended = recovers(test, case, &mut fuse);
    let disk = fuse.into_inner();
    for version in &VERSIONS {
        check_left(test, case, &disk, *version, calls);
    }
    ended
}

/// Checks a recovery of a small image that is broken off after each of its calls.
fn check_case(test: &impl Bench, case: &Case) {
    for calls in 0..MOST {
        if check_broken(test, case, calls) {
            return;
        }
    }
}

#[test]
fn each_write_of_a_recovery_is_of_a_copy(rt: HostRuntime) {
    for case in &CASES {
        if !case.rows.is_empty() {
            check_case(&By(&rt, rt.alloc()), case);
        }
    }
}
