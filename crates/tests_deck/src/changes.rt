//! Journals that are changed in their place, opened, and called; some of them were used before.

use crate::cases::{called, recovers};
use crate::checks::By;
use crate::images::{BLOCKS, Label, MAGIC, Row, small};
use crate::openings::{Told, closed, refused};
use crate::rounds::SIX;
use crate::scripts::{Step, are, commits, opening};
use jb_block::{Width, get32};
use jb_deck::{Deck, OpenFault};
use jb_disk::MemoryDisk;
use jb_format::{renumber, widen};
use tests_support::{Bench, Test, check, check_in, check_none, difference, read_at};

const NARROW: Width = Width::Narrow;

const WIDE: Width = Width::Wide;

/// A name, whether the journal is widened before it is opened, or renumbered; the rows of the small image that differ
/// before, and what it says of itself after. Six copies are then committed with its next number.
type Changed = (&'static str, bool, &'static [Row], Told);

static CHANGED: [Changed; 5] = [
    (
        "no number left, renumbered",
        false,
        &[
            (0, 0x10, [33, 1, 4294967295, 0]),
            (9, 0, [MAGIC, 1, 4294967295, 5]),
            (32, 0, [MAGIC, 2, 4294967294, 0]),
        ],
        (1, 32, NARROW),
    ),
    (
        "block numbers of 64 bits, renumbered",
        false,
        &[(0, 0x10, [33, 1, 4294967295, 0]), (0, 0x20, [0, 0, 3, 0])],
        (1, 32, WIDE),
    ),
    ("as it is made, renumbered", false, &[], (1, 32, NARROW)),
    ("as it is made, widened", true, &[], (2, 32, WIDE)),
    (
        "a narrow block of the log from before, widened",
        true,
        &[(0, 0x10, [33, 1, 7, 0]), (9, 0, [MAGIC, 1, 7, 5])],
        (8, 32, WIDE),
    ),
];

/// A name, the rows of the small image that differ, the calls, whether the journal is then recovered and widened, or
/// renumbered; and what it says of itself after.
type Used = (&'static str, &'static [Row], &'static [Step], bool, Told);

static USED: [Used; 2] = [
    (
        "the last number",
        &[(0, 0x10, [33, 1, 4294967294, 0])],
        &[
            Step::Commits(SIX, &[(0, 1, 4294967295, 8)]),
            Step::Checkpoints(4294967295, 6),
        ],
        false,
        (1, 32, NARROW),
    ),
    (
        "an escaped copy",
        &[],
        &[Step::Commits("h w5=c03b399801020304 r7\n", &[(0, 1, 2, 4)])],
        true,
        (4, 32, WIDE),
    ),
];

/// Widens or renumbers a journal in its place.
fn change(test: &impl Test, disk: &mut MemoryDisk, widens: bool) {
    let is_changed = if widens {
        widen(disk).is_ok()
    } else {
        renumber(disk).is_ok()
    };
    check(test, is_changed, "it is not changed")
}

/// The small image with these rows, its journal changed in its place.
fn changed(test: &impl Bench, widens: bool, rows: &[Row]) -> MemoryDisk {
    let mut disk = small(test, BLOCKS, rows, &[]);
    change(test, &mut disk, widens);
    disk
}

/// How wide the tags of a log's first descriptor are, by the place of the second one.
fn tag_width(test: &impl Test, disk: &mut MemoryDisk) -> Width {
    let mut block = [0; 1024];
    read_at(test, disk, 1, &mut block);
    if get32(&block, 40) == 1 {
        Width::Wide
    } else {
        Width::Narrow
    }
}

/// Whether six copies are committed as one group of this number, and the next number is the one after it.
fn is_six(test: &impl Bench, deck: &mut Deck<MemoryDisk>, number: u64) -> bool {
    let Ok(narrow) = u32::try_from(number) else {
        return false;
    };
    let group = [(0, 1, narrow, 8)];
    let is_committed = commits(test, deck, SIX, &group) && are(deck.trail(), &group);
    is_committed && deck.next_number() == number.saturating_add(1)
}

/// Checks what a journal that says this of itself commits, which is six copies: how wide the tags of its log are, and
/// what recovery reports.
fn check_committed(test: &impl Bench, row: Label, told: Told, disk: MemoryDisk) {
    let (number, _, width) = told;
    let mut deck = opening(test, disk);
    let is_one = is_six(test, &mut deck, number);
    check_in(test, is_one, row, "what is committed at number", number);
    let mut disk = deck.close();
    let fits = tag_width(test, &mut disk) == width;
    check_in(test, fits, row, "the width of its tags at number", number);
    let told = (1, 6, 0, number.saturating_add(2));
    let is_told = recovers(test.alloc(), &mut disk, told);
    check_in(test, is_told, row, "what is recovered at number", number)
}

/// Checks that opening a journal that is changed in its place keeps its disk, and then what it commits.
fn check_changed(test: &impl Bench, of: &Changed) {
    let (row, widens, rows, told) = *of;
    let mut wanted = changed(test, widens, rows);
    let mut disk = closed(test, row, changed(test, widens, rows), told);
    let place = difference(test, &mut disk, &mut wanted, 0);
    check_none(test, row, "block", place);
    check_committed(test, row, told, disk)
}

fn check_each_changed(test: &impl Bench) {
    for row in &CHANGED {
        check_changed(test, row);
    }
}

#[test]
fn journals_that_were_changed_in_their_place_are_opened(rt: HostRuntime) {
    check_each_changed(&By(&rt, rt.alloc()))
}

/// The disk of a journal that is to be widened, once it is recovered; or of one that is to be renumbered, since it is
/// refused: its numbers are spent.
fn readied(test: &impl Bench, row: Label, widens: bool, mut disk: MemoryDisk) -> MemoryDisk {
    if !widens {
        return refused(test, row, disk, OpenFault::NumbersSpent);
    }
    let is_told = recovers(test.alloc(), &mut disk, (1, 1, 0, 4));
    check_in(test, is_told, row, "it is not recovered", 0);
    disk
}

/// Checks what a journal commits that was used before, and then changed in its place.
fn check_used(test: &impl Bench, of: &Used) {
    let (row, rows, before, widens, told) = *of;
    let disk = called(test, row, small(test, BLOCKS, rows, &[]), before);
    let mut disk = readied(test, row, widens, disk);
    change(test, &mut disk, widens);
    check_committed(test, row, told, disk)
}

fn check_each_used(test: &impl Bench) {
    for row in &USED {
        check_used(test, row);
    }
}

#[test]
fn journals_that_were_used_are_changed_and_used_again(rt: HostRuntime) {
    check_each_used(&By(&rt, rt.alloc()))
}
