//! Two handles are stopped with a book, and the groups that have them are compared.

use crate::checks::By;
use crate::draws::formatted;
use crate::groups::STAMP;
use crate::scripts::{Told, are, opening};
use jb_block::Width;
use jb_deck::Deck;
use jb_disk::{Disk, FuseDisk, MemoryDisk};
use jb_handle::{Handle, Shape};
use proof_clients::two_handles;
use tests_support::{Bench, check_at};

/// More calls of the disk than all is made with.
const ALL: u64 = 1000;

/// How many homes each handle writes, after how many calls the power of the disk fails, and the groups.
type Row = (u32, u32, u64, Option<&'static [Told]>);

static ROWS: [Row; 7] = [
    (1, 1, ALL, Some(&[(0, 2, 2, 4)])),
    (3, 3, ALL, Some(&[(0, 2, 2, 8)])),
    // together they take more than the eight blocks of a transaction
    (6, 6, ALL, Some(&[(0, 1, 2, 8), (1, 2, 3, 8)])),
    (0, 1, ALL, Some(&[(0, 2, 2, 3)])),
    // a call fails in the second group, and in the first
    (6, 6, 50, Some(&[(0, 1, 2, 8)])),
    (6, 6, 40, Some(&[])),
    // no transaction takes as many blocks as the first handle
    (7, 1, ALL, None),
];

/// A handle that writes this many homes from one on, with a credit for each.
fn handle(test: &impl Bench, shape: Shape, from: u64, homes: u32) -> Handle<()> {
    let mut handle = Handle::new(test.alloc(), (), homes, shape);
    let bytes = [7; 1024];
    for home in from..from.saturating_add(u64::from(homes)) {
        let _written = handle.write(home, &bytes);
    }
    handle
}

/// Whether two handles are in the groups of a row.
fn stands<D: Disk>(test: &impl Bench, deck: &mut Deck<D>, row: &Row) -> bool {
    let (one, two, _, wanted) = *row;
    let first = handle(test, deck.shape(), 0, one);
    let second = handle(test, deck.shape(), 7, two);
    let trail = two_handles(test.alloc(), deck, STAMP, first, second);
    match (trail, wanted) {
        (Some(trail), Some(told)) => are(&trail, told) && are(deck.trail(), told),
        (None, None) => true,
        _ => false,
    }
}

/// Checks the handles of a row on the journal of a disk. One that has handles already refuses tickets from 0 on.
fn check_row<D: Disk + Drop>(test: &impl Bench, disk: D, row: &Row, at: usize) {
    let mut deck = opening(test, disk);
    let stood = stands(test, &mut deck, row);
    check_at(test, stood, "the groups of row", at as u64);
    let is_refused = deck.trail().is_empty() || stands(test, &mut deck, &(1, 1, ALL, None));
    check_at(test, is_refused, "two more handles of row", at as u64)
}

/// A disk with a new journal whose power fails after this many calls.
fn fused(test: &impl Bench, calls: u64) -> FuseDisk<MemoryDisk> {
    FuseDisk::of(formatted(test, 33, 8, [7; 16], Width::Narrow), calls)
}

fn check_rows(test: &impl Bench) {
    for (at, row) in ROWS.iter().enumerate() {
        check_row(test, fused(test, row.2), row, at);
    }
}

#[test]
fn handles_stand_in_the_groups_of_a_least_cut(rt: HostRuntime) {
    check_rows(&By(&rt, rt.alloc()))
}
