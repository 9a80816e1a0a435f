//! A recovery that is broken off after each of its calls by a crash, which may leave any mixture of the sectors that
//! were written since the last sync: each image that is left recovers to the same whole image.

use crate::checks::By;
use crate::crash_cases::{CASES, Case, MOST, after, before, choice, mends, mixtures, recovers};
use jb_disk::{FuseDisk, MemoryDisk};
use tests_support::{Bench, check_in, crashed};

/// Whether all that a crash leaves of a disk mends.
fn mends_each(
    test: &impl Bench,
    case: &Case,
    disk: &mut MemoryDisk,
    wanted: &mut MemoryDisk,
) -> bool {
    for number in 0..mixtures(test, case, disk) {
        let mut left = crashed(test, disk, &choice(case, number));
        if !mends(test, case, &mut left, wanted) {
            return false;
        }
    }
    true
}

/// Checks what a crash after this many calls leaves of a recovery; whether that had ended.
fn break_off(test: &impl Bench, case: &Case, calls: u64, wanted: &mut MemoryDisk) -> bool {
    let mut fuse = FuseDisk::of(before(test, case), calls);
    let ended = recovers(test, case, &mut fuse);
    let mut disk = fuse.into_inner();
    let is_mended = mends_each(test, case, &mut disk, wanted);
    check_in(test, is_mended, case.name, "no mending after", calls);
    ended
}

/// Checks a recovery that is broken off after each of its calls, and how many it makes.
fn check_case(test: &impl Bench, case: &Case) {
    let mut wanted = after(test, case);
    for calls in 0..MOST {
        if break_off(test, case, calls, &mut wanted) {
            let is_known = calls == case.calls;
            return check_in(
                test,
                is_known,
                case.name,
                "it makes other calls, but",
                calls,
            );
        }
    }
    check_in(test, false, case.name, "it has not ended after calls", MOST)
}

#[test]
fn every_call_may_be_the_last_before_a_crash(rt: HostRuntime) {
    for case in &CASES {
        check_case(&By(&rt, rt.alloc()), case);
    }
}
