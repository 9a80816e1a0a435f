//! How many log blocks an entry has, by the number of copies and of freed homes.

use crate::checks::By;
use crate::lives::{push_handle, put_word};
use crate::scripts::{opening, settles};
use jb_block::{BlockSize, Width};
use jb_deck::Deck;
use jb_disk::{Disk, MemoryDisk};
use jb_format::format;
use jb_handle::{Stopped, Words};
use tests_support::{Bench, check, check_at, zeros};

/// How many homes one handle writes, how many it frees, and how many log blocks its group takes.
type Row = (u64, u64, u32);

static ROWS: [Row; 5] = [
    (0, 0, 1),
    (124, 0, 126),
    (125, 0, 128),
    (0, 252, 2),
    (0, 253, 3),
];

/// The one handle of a batch, which writes this many homes and frees this many after them.
fn one(test: &impl Bench, copies: u64, frees: u64) -> Vec<Stopped> {
    let block = [1; 1024];
    let mut words = Words::new(test.alloc());
    for home in 0..copies.saturating_add(frees) {
        let copied = (home < copies).then_some(block.as_slice());
        put_word(test, &mut words, home, copied);
    }
    let mut handles = Vec::new(test.alloc());
    push_handle(test, &mut handles, 0, words);
    handles
}

/// A journal of 599 usable log blocks and 400 homes.
fn begun(test: &impl Bench) -> Deck<MemoryDisk> {
    let mut disk = zeros(test, test.alloc(), BlockSize::OneKib, 1000);
    let is_made = format(&mut disk, 600, 0, [0; 16], Width::Narrow).is_ok();
    check(test, is_made, "it is not made");
    opening(test, disk)
}

/// Whether the entry of such a handle, in a journal, has this many blocks.
fn has_blocks<D: Disk>(test: &impl Bench, deck: &mut Deck<D>, row: &Row) -> bool {
    let (copies, frees, blocks) = *row;
    let handles = one(test, copies, frees);
    settles(test.alloc(), deck, handles, &[(0, 1, 2, blocks)])
}

fn check_rows(test: &impl Bench) {
    for (at, row) in ROWS.iter().enumerate() {
        let has = has_blocks(test, &mut begun(test), row);
        check_at(test, has, "not so many blocks in row", at as u64);
    }
}

#[test]
fn an_entry_has_the_blocks_of_its_group(rt: HostRuntime) {
    check_rows(&By(&rt, rt.alloc()))
}
