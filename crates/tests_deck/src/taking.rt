//! Trails that are taken from the front.

use crate::cases::{Case, called_with_fault, check_cases};
use crate::checks::By;
use crate::images::BLOCKS;
use crate::rounds::{SIX, SIX_HOME, SIX_HOMES, SIX_WORDS};
use crate::scripts::{Refusal, Step};
use jb_block::Width;
use tests_support::Bench;

/// Entries are taken where their groups are home and their tickets are below the one that is given; the last stays.
static TAKINGS: [Case; 1] = [Case {
    name: "a trail that is taken",
    image: &[],
    steps: &[
        Step::Takes(9, &[]),
        Step::Commits(SIX, &[(0, 1, 2, 8)]),
        Step::Commits("h\nh\n", &[(1, 3, 3, 1)]),
        Step::Takes(9, &[]),
        Step::Checkpoints(2, 6),
        Step::Takes(0, &[]),
        Step::Ends(&[(0, 1, 2, 8), (1, 3, 3, 1)], 4),
        Step::Takes(1, &[(0, 1, 2, 8)]),
        Step::Takes(9, &[]),
        Step::Checkpoints(3, 0),
        Step::Takes(9, &[]),
        Step::Ends(&[(1, 3, 3, 1)], 4),
        Step::Commits(SIX, &[(3, 4, 4, 8)]),
        Step::Commits("h\n", &[(4, 5, 5, 1)]),
        Step::Commits("h\n", &[(5, 6, 6, 1)]),
        Step::Takes(2, &[]),
        Step::Checkpoints(4, 6),
        Step::Takes(9, &[(1, 3, 3, 1), (3, 4, 4, 8)]),
        Step::Ends(&[(4, 5, 5, 1), (5, 6, 6, 1)], 7),
    ],
    groups: &[
        (1, 2, &[], SIX_HOMES, SIX_WORDS),
        (9, 3, &[], &[], &[]),
        (10, 4, &[], SIX_HOMES, SIX_WORDS),
        (18, 5, &[], &[], &[]),
        (19, 6, &[], &[], &[]),
    ],
    rows: (&[(0, 0x10, [33, 1, 5, 18])], SIX_HOME),
    recovered: (2, 0, 0, 8),
    after: (&[(0, 0x10, [33, 1, 7, 0])], &[]),
}];

/// The call of the disk that fails, the first sync of the third commit: opening the small image makes 34; the first
/// commit reads and writes the superblock, and each of the two writes a block between two syncs; the checkpoint syncs,
/// reads and writes the superblock, and syncs.
const THIRD_COMMIT: u64 = 46;

/// Two groups, of which one is home, and a third that does not come to the disk.
static FAILED: [Step; 9] = [
    Step::Commits("h\n", &[(0, 1, 2, 1)]),
    Step::Commits("h\n", &[(1, 2, 3, 1)]),
    Step::Checkpoints(2, 0),
    Step::Refuses(2, (16, 8, Width::Narrow), "h\n", Refusal::DeviceFault(0)),
    Step::Takes(0, &[]),
    Step::Takes(9, &[(0, 1, 2, 1)]),
    Step::Takes(9, &[]),
    Step::Ends(&[(1, 2, 3, 1)], 4),
    Step::Aborted,
];

#[test]
fn trails_are_taken_as_worked_by_hand(rt: HostRuntime) {
    check_cases(&By(&rt, rt.alloc()), BLOCKS, &TAKINGS)
}

fn check_failed(test: &impl Bench) {
    let _disk = called_with_fault(test, "a journal that failed", THIRD_COMMIT, &FAILED);
}

#[test]
fn a_journal_that_failed_gives_its_entries(rt: HostRuntime) {
    check_failed(&By(&rt, rt.alloc()))
}
