//! Journals that are drawn at random, and calls of them.

use crate::contents::{Left, fill};
use crate::images::{Row, put_rows};
use crate::lives::{Call, make_call};
use crate::model::{Model, Touch};
use crate::touches::push_touch;
use jb_block::{BlockSize, Width};
use jb_deck::Deck;
use jb_disk::{Disk, MemoryDisk};
use jb_format::format;
use tests_support::{Bench, Must, Test, check, write_at, zeros};

/// Numbers that look like chance, and the next number that no contents have yet.
#[derive(Drop)]
pub struct Seed {
    numbers: tests_support::Seed,
    next: u32,
}

impl Seed {
    /// The numbers of this state.
    pub fn of(state: u64) -> Seed {
        Seed {
            numbers: tests_support::Seed { state },
            next: 1,
        }
    }

    /// A number that no contents have yet.
    fn fresh(&mut self) -> u32 {
        let next = self.next;
        self.next = next.wrapping_add(1);
        next
    }

    /// A number below a limit, or 0.
    pub fn below(&mut self, limit: u32) -> u32 {
        self.numbers.below(u64::from(limit)) as u32
    }
}

/// How many of this many calls are checkpoints and how many are writes; the others are commits.
#[derive(Clone, Copy)]
pub struct Odds {
    pub checkpoints: u32,
    pub writes: u32,
    pub calls: u32,
}

/// Words of block 0 after the superblock's eighty bytes, in both of its sectors.
static AFTER: [Row; 4] = [
    (0, 0x50, [7, 7, 7, 7]),
    (0, 0x1F0, [7, 7, 7, 7]),
    (0, 0x200, [7, 7, 7, 7]),
    (0, 0x3F0, [7, 7, 7, 7]),
];

/// An image: its disk, how many blocks are before the log, and the place of home block 0.
#[derive(Drop)]
pub struct Image {
    pub disk: MemoryDisk,
    pub gap: u32,
    pub homes: u64,
}

/// A new journal of this many blocks, with a history of at most this many of them, and the 16 homes after it.
pub fn formatted(
    test: &impl Bench,
    maxlen: u32,
    most: u32,
    uuid: [u8; 16],
    width: Width,
) -> MemoryDisk {
    let mut disk = zeros(
        test,
        test.alloc(),
        BlockSize::OneKib,
        u64::from(maxlen).saturating_add(16),
    );
    let is_made = format(&mut disk, maxlen, most, uuid, width).is_ok();
    check(test, is_made, "it is not made");
    disk
}

/// Fills this many blocks after block 0, each with contents of its own.
fn fill_gap<D: Disk>(test: &impl Test, disk: &mut D, gap: u32) {
    let mut filled = [0; 1024];
    for place in 1..=gap {
        fill(&mut filled, place);
        write_at(test, disk, u64::from(place), &filled);
    }
}

/// Lets the log of a new journal begin after this many further blocks, and fills these, and block 0 after the
/// superblock.
fn put_gap<D: Disk>(test: &impl Test, disk: &mut D, maxlen: u32, gap: u32) {
    let first = gap.saturating_add(1);
    put_rows(test, disk, &[(0, 0x10, [maxlen, first, 1, 0])]);
    put_rows(test, disk, &AFTER);
    fill_gap(test, disk, gap);
    disk.sync().must(test, "a sync");
}

/// A new journal of 9 to 42 blocks, up to two of them before the log, and the 16 homes after it.
pub fn image_at_random(test: &impl Bench, seed: &mut Seed) -> Image {
    let gap = seed.below(3);
    let maxlen = seed.below(32).saturating_add(9).saturating_add(gap);
    let most = seed.below(maxlen);
    let width = if seed.below(2) == 0 {
        Width::Narrow
    } else {
        Width::Wide
    };
    let mut disk = formatted(test, maxlen, most, [7; 16], width);
    put_gap(test, &mut disk, maxlen, gap);
    let homes = u64::from(maxlen);
    Image { disk, gap, homes }
}

/// What a handle does to one of the first homes; the contents have a number that was not used before.
fn one_touch(seed: &mut Seed, homes: u32, handle: u32) -> Touch {
    let is_free = seed.below(3) == 0;
    let next = seed.fresh();
    let copy = if is_free { None } else { Some(next) };
    (handle as usize, seed.below(homes) as usize, copy)
}

/// What this many handles do to homes, in the order of their stops, often to the same few.
fn touches(test: &impl Bench, seed: &mut Seed, count: u32) -> Vec<Touch> {
    let homes = if seed.below(2) == 0 { 16 } else { 4 };
    let mut touches = Vec::new(test.alloc());
    let mut handle = 0;
    for _ in 0..seed.below(count.saturating_mul(5).saturating_add(1)) {
        if seed.below(5) == 0 {
            handle = seed.below(count).max(handle);
        }
        push_touch(test, &mut touches, one_touch(seed, homes, handle));
    }
    touches
}

/// Makes a call at random; after a fault, what a crash may leave.
pub fn call_at_random<D: Disk>(
    test: &impl Bench,
    seed: &mut Seed,
    deck: &mut Deck<D>,
    model: &mut Model,
    odds: Odds,
) -> Option<Left> {
    let count = seed.below(5).saturating_add(1);
    let list = touches(test, seed, count);
    let drawn = seed.below(odds.calls);
    let next = seed.fresh();
    let call = if drawn < odds.checkpoints {
        match drawn % 2 {
            0 => Call::Checkpoint,
            _ => Call::Run(count as usize),
        }
    } else if drawn < odds.checkpoints.saturating_add(odds.writes) {
        Call::Write(seed.below(4) as usize, next)
    } else {
        Call::Commit(count as usize, &list)
    };
    make_call(test, deck, model, call)
}
