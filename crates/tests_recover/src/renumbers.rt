//! A clean journal is given its first number again: what is left, on a whole run and where one is broken off.

use crate::checks::By;
use crate::frames::same_frame;
use crate::images::{Row, headed};
use crate::small::{HOMES, MAGIC, clean, journal, small};
use jb_block::get32;
use jb_disk::{FuseDisk, MemoryDisk, OneFaultDisk};
use jb_recover::{ChangeFault, Renumbered, recover, renumber};
use jb_super::SuperFault;
use tests_support::{
    Bench, Must, Test, check, check_at, check_none, check_row, crashed, difference, fail, read_at,
};

/// More calls than a renumbering of the small image makes.
const MOST: u64 = 120;

/// More sectors than one has pending.
const SECTORS: usize = 8;

/// The newest of one, two or three versions of a sector.
const NEWEST: u32 = 5;

/// A name, the rows of the image, those that change, and the answer.
struct Case {
    name: &'static str,
    rows: &'static [Row],
    after: &'static [Row],
    answer: Result<Renumbered, ChangeFault>,
}

/// The last number there is, checkpointed: its descriptor, two blocks of data and its commit block.
static SPENT: Case = Case {
    name: "spent",
    rows: &[
        (0, 1, [33, 1, 0xFFFF_FFFF, 0]),
        (1, 0, [MAGIC, 1, 0xFFFF_FFFF, 0]),
        (1, 63, [1, 2, 3, 4]),
        (2, 0, [100, 0, 0, MAGIC]),
        (3, 0, [101, 0, 0, 0]),
        (4, 0, [MAGIC, 2, 0xFFFF_FFFF, 0]),
        (0, 20, [7, 7, 7, 7]),
    ],
    after: &[
        (0, 1, [33, 1, 0, 0]),
        (1, 0, [0, 0, 0, 0]),
        (1, 63, [0, 0, 0, 0]),
        (4, 0, [0, 0, 0, 0]),
    ],
    answer: Ok(Renumbered { blocks: 2, next: 1 }),
};

static CASES: [Case; 5] = [
    Case {
        name: "fresh",
        rows: &[(0, 1, [33, 1, 1, 0])],
        after: &[(0, 1, [33, 1, 0, 0])],
        answer: Ok(Renumbered { blocks: 0, next: 1 }),
    },
    // Headers of unknown types at both ends of the log, and after it.
    Case {
        name: "ends",
        rows: &[
            (0, 1, [33, 1, 9, 0]),
            (1, 0, [MAGIC, 0, 0, 0]),
            (32, 0, [MAGIC, 77, 8, 0]),
            (32, 40, [1, 1, 1, 1]),
            (HOMES, 0, [MAGIC, 2, 9, 0]),
        ],
        after: &[
            (0, 1, [33, 1, 0, 0]),
            (1, 0, [0, 0, 0, 0]),
            (32, 0, [0, 0, 0, 0]),
            (32, 40, [0, 0, 0, 0]),
        ],
        answer: Ok(Renumbered { blocks: 2, next: 1 }),
    },
    // A log that begins at place 2, after a block that is not of it.
    Case {
        name: "behind",
        rows: &[
            (0, 1, [33, 2, 5, 0]),
            (1, 0, [MAGIC, 2, 4, 0]),
            (2, 0, [MAGIC, 2, 4, 0]),
        ],
        after: &[(0, 1, [33, 2, 0, 0]), (2, 0, [0, 0, 0, 0])],
        answer: Ok(Renumbered { blocks: 1, next: 1 }),
    },
    Case {
        name: "dirty",
        rows: &[(1, 0, [MAGIC, 2, 2, 0])],
        after: &[],
        answer: Err(ChangeFault::NeedsRecovery),
    },
    Case {
        name: "feature",
        rows: &[(0, 1, [33, 1, 2, 0]), (0, 2, [0, 1, 1, 0])],
        after: &[],
        answer: Err(ChangeFault::Super(SuperFault::Feature(1, 1))),
    },
];

/// Checks what a renumbering answers and leaves, and that nothing is pending then.
fn check_case(test: &impl Bench, case: &Case) {
    let mut disk = small(test, case.rows, &[]);
    let is_told = renumber(&mut disk) == case.answer;
    check_row(test, is_told, case.name, "what a renumbering answers");
    let mut wanted = small(test, case.rows, case.after);
    let place = difference(test, &mut disk, &mut wanted, 0);
    check_none(test, case.name, "block", place);
    let mut left = crashed(test, &disk, &[]);
    let place = difference(test, &mut left, &mut wanted, 0);
    check_none(test, case.name, "block that a crash leaves", place)
}

/// Checks that a journal is refused on a disk with too few blocks for it.
fn check_short(test: &impl Bench) {
    let mut short = journal(test, 20, &[clean(2)]);
    let fault = Err(ChangeFault::Super(SuperFault::Geometry));
    let is_refused = renumber(&mut short) == fault;
    check(test, is_refused, "what a renumbering on 20 blocks answers")
}

fn check_each(test: &impl Bench) {
    check_case(test, &SPENT);
    for case in &CASES {
        check_case(test, case);
    }
    check_short(test)
}

#[test]
fn what_is_left(rt: HostRuntime) {
    check_each(&By(&rt, rt.alloc()))
}

/// All old, all newest, old and newest in turn, and one sector newest.
static MIXTURES: [u32; 12] = [0, 255, 85, 170, 1, 2, 4, 8, 16, 32, 64, 128];

/// The versions of the sectors by the bits of a number.
fn versions(mixture: u32) -> [u32; SECTORS] {
    let mut choice = [0; SECTORS];
    let mut rest = mixture;
    for place in &mut choice {
        *place = rest % 2 * NEWEST;
        rest /= 2;
    }
    choice
}

/// Whether an image is the old one before the log, and has the old homes.
fn is_kept(test: &impl Test, left: &mut MemoryDisk, old: &mut MemoryDisk) -> bool {
    same_frame(test, left, old) && difference(test, left, old, HOMES).is_none()
}

/// Whether an image has a header of an old number together with the new one, 0 (`s_sequence`).
fn is_mixed(test: &impl Test, left: &mut MemoryDisk) -> bool {
    let mut front = [0; 1024];
    read_at(test, left, 0, &mut front);
    get32(&front, 0x18) == 0 && headed(test, left, 1, HOMES).is_some()
}

/// Whether an image that a crash leaves is the old one before the log, has no old header with the new number, and keeps
/// what is before the log and the homes in a recovery.
fn recovers(test: &impl Bench, left: &mut MemoryDisk, old: &mut MemoryDisk) -> bool {
    if is_mixed(test, left) || !same_frame(test, left, old) {
        return false;
    }
    recover(test.alloc(), left).is_ok() && is_kept(test, left, old)
}

/// Whether an image that a crash leaves keeps what is before the log and the homes where a renumbering is begun again,
/// which then leaves no header.
fn renumbers(test: &impl Test, left: &mut MemoryDisk, old: &mut MemoryDisk) -> bool {
    renumber(left).is_ok() && is_kept(test, left, old) && headed(test, left, 1, HOMES).is_none()
}

/// Whether the image that a crash with this mixture leaves keeps the homes, both by a recovery and by a renumbering.
fn keeps_homes(test: &impl Bench, disk: &MemoryDisk, mixture: u32, old: &mut MemoryDisk) -> bool {
    let choice = versions(mixture);
    recovers(test, &mut crashed(test, disk, &choice), old)
        && renumbers(test, &mut crashed(test, disk, &choice), old)
}

/// The first mixture with which a crash leaves an image that does not keep the homes.
fn losing(test: &impl Bench, disk: &MemoryDisk, old: &mut MemoryDisk) -> Option<u64> {
    for mixture in &MIXTURES {
        if !keeps_homes(test, disk, *mixture, old) {
            return Some(u64::from(*mixture));
        }
    }
    None
}

/// The image of the last number.
fn spent(test: &impl Bench) -> MemoryDisk {
    small(test, SPENT.rows, &[])
}

/// The disk of a renumbering of which this call and all after it fail, which answers this; each image that a crash
/// leaves keeps the homes.
fn broken_off(test: &impl Bench, call: u64, answer: Result<Renumbered, ChangeFault>) -> MemoryDisk {
    let mut fuse = FuseDisk::of(spent(test), call);
    let is_alike = renumber(&mut fuse) == answer;
    check_at(test, is_alike, "all calls fail from call", call);
    let disk = fuse.into_inner();
    let mixture = losing(test, &disk, &mut spent(test));
    check_at(
        test,
        mixture.is_none(),
        "homes lost, or a header left, after call",
        call,
    );
    disk
}

/// Checks that a disk is as it is wanted after a renumbering of which this call failed.
fn check_left(test: &impl Bench, call: u64, disk: &mut MemoryDisk) {
    let mut wanted = small(test, SPENT.rows, SPENT.after);
    let place = difference(test, disk, &mut wanted, 0);
    check_at(test, place.is_none(), "a block differs after call", call)
}

/// Checks a renumbering of which this call fails, alone or with all after it, and the next one; whether no call failed.
fn check_call(test: &impl Bench, call: u64) -> bool {
    let mut faulty = OneFaultDisk::of(spent(test), call);
    let answer = renumber(&mut faulty);
    let mut disk = broken_off(test, call, answer);
    if answer == SPENT.answer {
        check_left(test, call, &mut disk);
        return true;
    }
    let is_fault = answer == Err(ChangeFault::DeviceFault);
    check_at(test, is_fault, "what it answers where a call fails:", call);
    let next = renumber(&mut faulty)
        .must(test, "the next renumbering")
        .next;
    check_at(test, next == 1, "the next number after call", call);
    check_left(test, call, &mut faulty.into_inner());
    false
}

/// What the first write of a renumbering leaves of the image of the last number: a header that the next one finds.
static HALF: [Row; 1] = [(1, 63, [0, 0, 0, 0])];

/// Checks a renumbering of which all calls fail after its first write: a sync, 33 reads, and the write.
fn check_half(test: &impl Bench) {
    let mut fuse = FuseDisk::of(spent(test), 35);
    let is_fault = renumber(&mut fuse) == Err(ChangeFault::DeviceFault);
    check(test, is_fault, "what it answers after its first write");
    let mut wanted = small(test, SPENT.rows, &HALF);
    let place = difference(test, &mut fuse.into_inner(), &mut wanted, 0);
    check_none(test, "the first write", "block", place)
}

fn check_calls(test: &impl Bench) {
    check_half(test);
    for call in 0..MOST {
        if check_call(test, call) {
            return;
        }
    }
    fail(test, "no renumbering without a fault")
}

#[test]
fn every_call_may_fail_or_be_the_last(rt: HostRuntime) {
    check_calls(&By(&rt, rt.alloc()))
}
