//! A clean journal gets block numbers of 64 bits: what is left, on a whole run and where one is broken off.

use crate::checks::By;
use crate::frames::same_frame;
use crate::images::Row;
use crate::small::{Counts, HOMES, MAGIC, reports, small};
use jb_disk::{FuseDisk, MemoryDisk, OneFaultDisk};
use jb_recover::{ChangeFault, Widened, recover, widen};
use jb_super::SuperFault;
use tests_support::{Bench, Must, check_at, check_none, check_row, crashed, difference, fail};

/// More calls than a widening makes.
const MOST: u64 = 20;

/// A name, the rows of the image, those that change, and the answer.
struct Case {
    name: &'static str,
    rows: &'static [Row],
    after: &'static [Row],
    answer: Result<Widened, ChangeFault>,
}

/// A clean journal with narrow headers in its log, bytes after its superblock and a limit of its own.
static NARROW: Case = Case {
    name: "narrow",
    rows: &[
        (0, 1, [33, 1, 7, 0]),
        (0, 4, [1, 0, 5, 0]),
        (0, 40, [7, 7, 7, 7]),
        (1, 0, [MAGIC, 1, 7, 5]),
        (4, 0, [MAGIC, 2, 7, 0]),
    ],
    after: &[(0, 2, [0, 0, 3, 0])],
    answer: Ok(Widened {
        limit: 5,
        changed: true,
    }),
};

static CASES: [Case; 7] = [
    Case {
        name: "quarter",
        rows: &[(0, 1, [33, 1, 2, 0])],
        after: &[(0, 2, [0, 0, 3, 0])],
        answer: Ok(Widened {
            limit: 8,
            changed: true,
        }),
    },
    Case {
        name: "wide",
        rows: &[(0, 1, [33, 1, 2, 0]), (0, 2, [0, 0, 3, 0])],
        after: &[],
        answer: Ok(Widened {
            limit: 8,
            changed: false,
        }),
    },
    Case {
        name: "wide alone",
        rows: &[(0, 1, [33, 1, 2, 0]), (0, 2, [0, 0, 2, 0])],
        after: &[],
        answer: Ok(Widened {
            limit: 8,
            changed: false,
        }),
    },
    Case {
        name: "bare",
        rows: &[(0, 1, [33, 1, 2, 0]), (0, 2, [0, 0, 0, 0])],
        after: &[(0, 2, [0, 0, 2, 0])],
        answer: Ok(Widened {
            limit: 8,
            changed: true,
        }),
    },
    Case {
        name: "dirty",
        rows: &[(1, 0, [MAGIC, 2, 2, 0])],
        after: &[],
        answer: Err(ChangeFault::NeedsRecovery),
    },
    Case {
        name: "dirty at its end",
        rows: &[(0, 1, [33, 1, 2, 32])],
        after: &[],
        answer: Err(ChangeFault::NeedsRecovery),
    },
    Case {
        name: "feature",
        rows: &[(0, 1, [33, 1, 2, 0]), (0, 2, [0, 0, 17, 0])],
        after: &[],
        answer: Err(ChangeFault::Super(SuperFault::Feature(2, 16))),
    },
];

/// What the widening of a case answers that is made again: nothing more is to be done.
fn next_answer(case: &Case) -> Result<Widened, ChangeFault> {
    let done = case.answer?;
    Ok(Widened {
        limit: done.limit,
        changed: false,
    })
}

/// Checks what a widening answers and leaves, that nothing is pending then, and what the next one answers.
fn check_case(test: &impl Bench, case: &Case) {
    let mut disk = small(test, case.rows, &[]);
    let is_told = widen(&mut disk) == case.answer;
    check_row(test, is_told, case.name, "what a widening answers");
    let mut wanted = small(test, case.rows, case.after);
    let place = difference(test, &mut disk, &mut wanted, 0);
    check_none(test, case.name, "block", place);
    let mut left = crashed(test, &disk, &[]);
    let place = difference(test, &mut left, &mut wanted, 0);
    check_none(test, case.name, "block that a crash leaves", place);
    let is_told = widen(&mut disk) == next_answer(case);
    check_row(test, is_told, case.name, "what the next widening answers")
}

fn check_each(test: &impl Bench) {
    check_case(test, &NARROW);
    for case in &CASES {
        check_case(test, case);
    }
}

#[test]
fn what_is_left(rt: HostRuntime) {
    check_each(&By(&rt, rt.alloc()))
}

/// The narrow journal, and what its widening leaves.
fn narrow(test: &impl Bench) -> MemoryDisk {
    small(test, NARROW.rows, &[])
}

fn wide(test: &impl Bench) -> MemoryDisk {
    small(test, NARROW.rows, NARROW.after)
}

/// Whether an image that is another one before the log keeps that and the homes in a recovery.
fn keeps(test: &impl Bench, left: &mut MemoryDisk, other: &mut MemoryDisk) -> bool {
    let is_told = recover(test.alloc(), left) == reports(Counts(0, 0, 0, 8));
    is_told && same_frame(test, left, other) && difference(test, left, other, HOMES).is_none()
}

/// Whether an image that a crash leaves has block 0 as it was or as it is wanted, and keeps it and the homes in a
/// recovery.
fn recovers(test: &impl Bench, left: &mut MemoryDisk) -> bool {
    let mut old = narrow(test);
    let mut new = wide(test);
    if same_frame(test, left, &mut old) {
        return keeps(test, left, &mut old);
    }
    same_frame(test, left, &mut new) && keeps(test, left, &mut new)
}

/// Whether an image that a crash leaves widens to the expected one.
fn widens(test: &impl Bench, left: &mut MemoryDisk) -> bool {
    widen(left).is_ok() && difference(test, left, &mut wide(test), 0).is_none()
}

/// The versions of the sectors that a crash leaves: old, or the newest one.
static CHOICES: [[u32; 2]; 4] = [[0, 0], [1, 0], [0, 1], [1, 1]];

/// The first of the choices with which a crash leaves an image that does not recover or widen.
fn losing(test: &impl Bench, disk: &MemoryDisk) -> Option<u64> {
    for (i, choice) in CHOICES.iter().enumerate() {
        let is_kept = recovers(test, &mut crashed(test, disk, choice));
        if !is_kept || !widens(test, &mut crashed(test, disk, choice)) {
            return Some(i as u64);
        }
    }
    None
}

/// Checks a widening of which this call and all after it fail, which answers this, and what a crash leaves of it.
fn check_rest(test: &impl Bench, call: u64, answer: Result<Widened, ChangeFault>) {
    let mut fuse = FuseDisk::of(narrow(test), call);
    let is_alike = widen(&mut fuse) == answer;
    check_at(test, is_alike, "all calls fail from call", call);
    let choice = losing(test, &fuse.into_inner());
    check_at(test, choice.is_none(), "another image after call", call)
}

/// Checks a widening of which this call fails, alone or with all after it, and the next one; whether no call failed.
fn check_call(test: &impl Bench, call: u64) -> bool {
    let mut faulty = OneFaultDisk::of(narrow(test), call);
    let answer = widen(&mut faulty);
    check_rest(test, call, answer);
    if answer == NARROW.answer {
        return true;
    }
    let is_fault = answer == Err(ChangeFault::DeviceFault);
    check_at(test, is_fault, "what it answers where a call fails:", call);
    let limit = widen(&mut faulty).must(test, "the next widening").limit;
    check_at(test, limit == 5, "the limit after call", call);
    let place = difference(test, &mut faulty.into_inner(), &mut wide(test), 0);
    check_at(test, place.is_none(), "a block differs after call", call);
    false
}

fn check_calls(test: &impl Bench) {
    for call in 0..MOST {
        if check_call(test, call) {
            return;
        }
    }
    fail(test, "no widening without a fault")
}

#[test]
fn every_call_may_fail_or_be_the_last(rt: HostRuntime) {
    check_calls(&By(&rt, rt.alloc()))
}
