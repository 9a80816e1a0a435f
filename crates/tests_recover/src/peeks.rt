//! A home block peeked at where recovery refuses the image, where the journal is clean, and where a call fails.

use crate::checks::By;
use crate::images::Row;
use crate::logs::{BAD_BEHIND, ESCAPED, OUTSIDE_SECOND, cut_off};
use crate::small::{clean, peeked, small};
use jb_block::BlockSize;
use jb_disk::{Disk, FuseDisk, MemoryDisk, OneFaultDisk};
use jb_recover::PeekFault;
use jb_super::SuperFault;
use tests_support::{Bench, check, check_at, check_none, check_row, difference, zeros};

/// A name, a small image with these rows but for this many of the last ones, a home block, what a peek answers, and the
/// first word of the bytes afterwards.
type Case = (
    &'static str,
    &'static [Row],
    usize,
    u64,
    Result<(), PeekFault>,
    [u8; 4],
);

/// There is no home block 16.
const NO_16: Result<(), PeekFault> = Err(PeekFault::HomeOutOfRange(16));

/// A revoke block has a bad count.
const BAD: Result<(), PeekFault> = Err(PeekFault::BadRevoke(4));

const NONE: [u8; 4] = [0, 0, 0, 0];

/// The rows of a clean journal.
const CLEAN: &[Row] = &[(0, 1, [33, 1, 2, 0])];

static CASES: [Case; 10] = [
    ("escaped", &ESCAPED, 0, 5, Ok(()), [0xC0, 0x3B, 0x39, 0x98]),
    ("no copy", &ESCAPED, 0, 7, Ok(()), NONE),
    ("not there", &ESCAPED, 0, 16, NO_16, NONE),
    ("another not", &OUTSIDE_SECOND, 0, 5, Ok(()), [0, 0, 0, 1]),
    ("out of range itself", &OUTSIDE_SECOND, 0, 16, NO_16, NONE),
    ("bad count", &BAD_BEHIND, 0, 5, BAD, NONE),
    ("bad count first", &BAD_BEHIND, 0, 16, BAD, NONE),
    ("not committed", &BAD_BEHIND, 1, 5, Ok(()), [0, 0, 0, 5]),
    ("clean", CLEAN, 0, 5, Ok(()), [0, 0, 0, 5]),
    ("clean, not there", CLEAN, 0, 16, NO_16, NONE),
];

/// What a peek at a home answers, and the first word of the bytes, which were zeros.
fn word_peeked<D: Disk>(disk: &mut D, home: u64) -> (Result<(), PeekFault>, [u8; 4]) {
    let (answer, bytes) = peeked(disk, home);
    (answer, [bytes[0], bytes[1], bytes[2], bytes[3]])
}

/// Checks a peek, and that it changes no block.
fn check_case(test: &impl Bench, case: &Case) {
    let (row, rows, cut, home, wanted, first) = *case;
    let rows = cut_off(rows, cut);
    let mut disk = small(test, rows, &[]);
    let (answer, word) = word_peeked(&mut disk, home);
    check_row(test, answer == wanted, row, "what a peek answers");
    check_row(test, word == first, row, "the first word of the bytes");
    let mut before = small(test, rows, &[]);
    let place = difference(test, &mut disk, &mut before, 0);
    check_none(test, row, "block", place)
}

/// Checks that a disk of zeros is refused.
fn check_zeros(test: &impl Bench) {
    let mut disk = zeros(test, test.alloc(), BlockSize::OneKib, 1);
    let (answer, _) = peeked(&mut disk, 0);
    let is_refused = answer == Err(PeekFault::Super(SuperFault::NoMagic));
    check(test, is_refused, "what a peek at zeros answers")
}

#[test]
fn homes_are_peeked_at(rt: HostRuntime) {
    for case in &CASES {
        check_case(&By(&rt, rt.alloc()), case);
    }
    check_zeros(&By(&rt, rt.alloc()))
}

/// The image with an escaped copy, and these rows.
fn escaped(test: &impl Bench, after: &[Row]) -> MemoryDisk {
    small(test, &ESCAPED, after)
}

/// Checks a peek at each of these homes of a clean journal whose log holds a copy of the first: it makes two calls.
fn check_stale(test: &impl Bench) {
    for (home, wanted) in [(5, [0, 0, 0, 5]), (0, NONE)] {
        let mut fuse = FuseDisk::of(escaped(test, &[clean(2)]), 2);
        let (answer, word) = word_peeked(&mut fuse, home);
        check_at(test, answer == Ok(()), "a peek over a stale log at", home);
        check_at(test, word == wanted, "the bytes over a stale log of", home);
    }
}

/// Checks a peek of which this call fails, and the next one.
fn check_call(test: &impl Bench, call: u64) {
    let mut faulty = OneFaultDisk::of(escaped(test, &[]), call);
    let (answer, _) = peeked(&mut faulty, 5);
    let is_fault = answer == Err(PeekFault::DeviceFault);
    check_at(test, is_fault, "a peek where a call fails:", call);
    let (again, _) = peeked(&mut faulty, 5);
    check_at(test, again == Ok(()), "the next peek after call", call)
}

/// A clean journal's homes whose log holds a copy of one, and a peek of which each call fails in turn: it reads and
/// does not sync, so six calls are enough.
#[test]
fn calls_of_a_peek_fail(rt: HostRuntime) {
    check_stale(&By(&rt, rt.alloc()));
    for call in 0..6 {
        check_call(&By(&rt, rt.alloc()), call);
    }
}
