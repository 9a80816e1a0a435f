//! A recovery of a journal on a disk of its own, and of one within the home blocks, of which each call of each disk is
//! the last before a crash: each image that is left recovers to the same whole image.

use crate::checks::By;
use crate::crash_cases::{
    CASES, Case, MOST, after, before, choice, has_few, mends, mixtures, recovers,
};
use crate::laid::{apart, within, within_of};
use jb_disk::{FuseDisk, MemoryDisk};
use jb_image::PairDisk;
use tests_support::{Bench, check_in, crashed};

/// Whether all that a crash leaves of the disk of a journal and that of its homes mends.
fn mends_pairs(
    test: &impl Bench,
    case: &Case,
    journal: &mut MemoryDisk,
    homes: &mut MemoryDisk,
    wanted: &mut MemoryDisk,
) -> bool {
    let most = mixtures(test, case, journal).max(mixtures(test, case, homes));
    for number in 0..most {
        let choice = choice(case, number);
        let (journal, homes) = (
            crashed(test, journal, &choice),
            crashed(test, homes, &choice),
        );
        if !mends(test, case, &mut PairDisk::of(journal, homes), wanted) {
            return false;
        }
    }
    true
}

/// Checks what a crash leaves of two disks after this many calls of each; whether the recovery had ended.
fn break_pair(test: &impl Bench, case: &Case, calls: (u64, u64), wanted: &mut MemoryDisk) -> bool {
    let (journal, homes) = apart(test, &mut before(test, case));
    let mut pair = PairDisk::of(FuseDisk::of(journal, calls.0), FuseDisk::of(homes, calls.1));
    let ended = recovers(test, case, &mut pair);
    let (journal, homes) = pair.into_parts();
    let (mut journal, mut homes) = (journal.into_inner(), homes.into_inner());
    let is_mended = mends_pairs(test, case, &mut journal, &mut homes, wanted);
    let call = calls.0.min(calls.1);
    check_in(
        test,
        is_mended,
        case.name,
        "of two disks, no mending after",
        call,
    );
    ended
}

/// Checks a recovery that is broken off after each call of the journal's disk.
fn check_journal(test: &impl Bench, case: &Case) {
    let mut wanted = after(test, case);
    for calls in 0..MOST {
        if break_pair(test, case, (calls, MOST), &mut wanted) {
            return;
        }
    }
    check_in(test, false, case.name, "it has not ended after calls", MOST)
}

/// The same of each call of the homes' disk.
fn check_homes(test: &impl Bench, case: &Case) {
    let mut wanted = after(test, case);
    for calls in 0..MOST {
        if break_pair(test, case, (MOST, calls), &mut wanted) {
            return;
        }
    }
    check_in(test, false, case.name, "it has not ended after calls", MOST)
}

#[test]
fn every_call_of_two_disks_may_be_the_last_before_a_crash(rt: HostRuntime) {
    for case in CASES.iter().filter(|case| has_few(case)) {
        check_journal(&By(&rt, rt.alloc()), case);
        check_homes(&By(&rt, rt.alloc()), case);
    }
}

/// Whether all that a crash leaves of an image with the journal within mends.
fn mends_within(
    test: &impl Bench,
    case: &Case,
    image: &mut MemoryDisk,
    wanted: &mut MemoryDisk,
) -> bool {
    for number in 0..mixtures(test, case, image) {
        let left = crashed(test, image, &choice(case, number));
        if !mends(test, case, &mut within(test, left), wanted) {
            return false;
        }
    }
    true
}

/// Checks what a crash after this many calls leaves of an image with the journal within; whether its recovery had
/// ended.
fn break_within(test: &impl Bench, case: &Case, calls: u64, wanted: &mut MemoryDisk) -> bool {
    let image = within_of(test, &mut before(test, case));
    let mut disk = within(test, FuseDisk::of(image, calls));
    let ended = recovers(test, case, &mut disk);
    let mut image = disk.into_inner().into_inner();
    let is_mended = mends_within(test, case, &mut image, wanted);
    check_in(
        test,
        is_mended,
        case.name,
        "in extents, no mending after",
        calls,
    );
    ended
}

/// Checks such a recovery that is broken off after each of its calls.
fn check_within(test: &impl Bench, case: &Case) {
    let mut wanted = after(test, case);
    for calls in 0..MOST {
        if break_within(test, case, calls, &mut wanted) {
            return;
        }
    }
    check_in(test, false, case.name, "it has not ended after calls", MOST)
}

#[test]
fn every_call_within_an_image_may_be_the_last_before_a_crash(rt: HostRuntime) {
    for case in CASES.iter().filter(|case| has_few(case)) {
        check_within(&By(&rt, rt.alloc()), case);
    }
}
