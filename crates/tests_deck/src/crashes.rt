//! A journal that is opened on a disk of which a call fails, or every call from one on; and what a crash then
//! leaves of it.

use crate::cases::recovers;
use crate::checks::By;
use crate::frames::Frame;
use crate::images::{BLOCKS, HOMES, MAGIC, Row, small};
use jb_deck::{Deck, OpenFault};
use jb_disk::{Disk, FuseDisk, MemoryDisk, OneFaultDisk};
use std::alloc::Global;
use tests_support::{Bench, check_in, crashed, difference};

/// What a crash leaves of the sectors that are pending, one digit for each: all are old, all new, old and new in
/// turn, the first is new, or the last one of one block, of two or of three.
static CHOICES: [[u32; 6]; 7] = [
    [0, 0, 0, 0, 0, 0],
    [1, 1, 1, 1, 1, 1],
    [0, 1, 0, 1, 0, 1],
    [1, 0, 0, 0, 0, 0],
    [0, 1, 0, 0, 0, 0],
    [0, 0, 0, 1, 0, 0],
    [0, 0, 0, 0, 0, 1],
];

/// A name, the rows of the small image that differ, those that opening its journal changes, where its log begins, and
/// how many calls of the disk that takes.
type Case = (&'static str, &'static [Row], &'static [Row], u64, u64);

// A sync, the superblock, the log's blocks, those of them that are zeroed, the superblock and a sync.
static CASES: [Case; 2] = [
    (
        "blocks of the log that are zeroed, one that stays, and a superblock without the feature, with words after it",
        &[
            (0, 0x50, [7, 7, 7, 7]),
            (0, 0x3F0, [7, 7, 7, 7]),
            (0, 0x20, [0, 0, 0, 0]),
            (1, 0, [MAGIC, 2, 2, 0]),
            (1, 0x3F0, [6, 6, 6, 6]),
            (10, 0, [MAGIC, 2, 1, 0]),
            (32, 0, [MAGIC, 1, 0, 5]),
        ],
        &[
            (0, 0x20, [0, 0, 1, 0]),
            (1, 0, [0, 0, 0, 0]),
            (1, 0x3F0, [0, 0, 0, 0]),
            (32, 0, [0, 0, 0, 0]),
        ],
        1,
        39,
    ),
    (
        "a log that begins after two blocks that are not of it, whose headers stay; one of its own is zeroed",
        &[
            (0, 0x10, [33, 3, 1, 0]),
            (0, 0x20, [0, 0, 0, 0]),
            (0, 0x1F0, [7, 7, 7, 7]),
            (1, 0, [MAGIC, 2, 2, 0]),
            (2, 0x3F0, [7, 7, 7, 7]),
            (3, 0, [MAGIC, 2, 2, 0]),
        ],
        &[(0, 0x20, [0, 0, 1, 0]), (3, 0, [0, 0, 0, 0])],
        3,
        36,
    ),
];

/// What a crash may leave: the whole image once the journal is opened, and before its log what was there, or what is
/// then.
#[derive(Drop)]
struct Wanted {
    whole: MemoryDisk,
    was: Frame,
    becomes: Frame,
}

/// What a crash may leave of a case.
fn make_wanted(test: &impl Bench, of: &Case) -> Wanted {
    let (_, rows, after, first, _) = *of;
    let mut before = small(test, BLOCKS, rows, &[]);
    let mut whole = small(test, BLOCKS, rows, after);
    let was = Frame::of(test, &mut before, first);
    let becomes = Frame::of(test, &mut whole, first);
    Wanted {
        whole,
        was,
        becomes,
    }
}

/// Whether what a crash left has the blocks before the log, recovers with the number that it had, and then is as wanted
/// from a place on.
fn mends(test: &impl Bench, left: &mut MemoryDisk, wanted: &mut Wanted, from: u64) -> bool {
    let is_kept = wanted.was.is_kept(test, left) || wanted.becomes.is_kept(test, left);
    is_kept
        && recovers(test.alloc(), left, (0, 0, 0, 2))
        && difference(test, left, &mut wanted.whole, from).is_none()
}

/// What is left once the journal on a disk is opened and closed, or is not opened for this fault.
fn left_on<D: Disk + Drop>(alloc: Global, disk: D) -> (D, Option<OpenFault>) {
    match Deck::open(alloc, disk) {
        Ok(deck) => (deck.close(), None),
        Err((disk, fault)) => (disk, Some(fault)),
    }
}

/// Checks what each choice leaves of a case of which the call of this number failed: the homes, and where the journal
/// was opened before, the whole image.
fn check_left(
    test: &impl Bench,
    of: &Case,
    wanted: &mut Wanted,
    call: u64,
    disk: &MemoryDisk,
    met: Option<OpenFault>,
) {
    let (row, _, _, _, calls) = *of;
    let (fault, from) = if call < calls {
        (Some(OpenFault::DeviceFault), HOMES)
    } else {
        (None, 0)
    };
    check_in(test, met == fault, row, "how opening it ends at call", call);
    let is_mended = mends_each(test, disk, wanted, from);
    check_in(test, is_mended, row, "a crash does not mend at", call)
}

/// Whether what each choice leaves of a disk mends.
fn mends_each(test: &impl Bench, disk: &MemoryDisk, wanted: &mut Wanted, from: u64) -> bool {
    for choice in &CHOICES {
        if !mends(test, &mut crashed(test, disk, choice), wanted, from) {
            return false;
        }
    }
    true
}

/// What is left of a disk of which the call of this number and all after it fail.
fn left_from(alloc: Global, disk: MemoryDisk, call: u64) -> (MemoryDisk, Option<OpenFault>) {
    let (left, fault) = left_on(alloc, FuseDisk::of(disk, call));
    (left.into_inner(), fault)
}

/// What is left of a disk of which the call of this number alone fails.
fn left_at(alloc: Global, disk: MemoryDisk, call: u64) -> (MemoryDisk, Option<OpenFault>) {
    let (left, fault) = left_on(alloc, OneFaultDisk::of(disk, call));
    (left.into_inner(), fault)
}

/// Checks what is left of a case where the call of this number and all after it fail.
fn check_rest(test: &impl Bench, of: &Case, wanted: &mut Wanted, call: u64) {
    let (left, fault) = left_from(test.alloc(), small(test, BLOCKS, of.1, &[]), call);
    check_left(test, of, wanted, call, &left, fault)
}

/// Checks what is left of a case where the call of this number alone fails.
fn check_alone(test: &impl Bench, of: &Case, wanted: &mut Wanted, call: u64) {
    let (left, fault) = left_at(test.alloc(), small(test, BLOCKS, of.1, &[]), call);
    check_left(test, of, wanted, call, &left, fault)
}

/// Checks what is left of a case for the number of each call, and for the one after them.
fn check_calls(test: &impl Bench, of: &Case, wanted: &mut Wanted) {
    for call in 0..=of.4 {
        check_rest(test, of, wanted, call);
        check_alone(test, of, wanted, call);
    }
}

/// Checks a case.
fn check_case(test: &impl Bench, of: &Case) {
    let mut wanted = make_wanted(test, of);
    check_calls(test, of, &mut wanted)
}

fn check_each(test: &impl Bench) {
    for case in &CASES {
        check_case(test, case);
    }
}

#[test]
fn every_call_may_fail_or_be_the_last(rt: HostRuntime) {
    check_each(&By(&rt, rt.alloc()))
}
