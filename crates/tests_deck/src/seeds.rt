//! Journals of any size that are called at random and lose their power at random, again and again: each image that a
//! crash leaves recovers to homes that the plain model has, also where recovery loses its power.

use crate::checks::By;
use crate::contents::{Left, holds, only};
use crate::draws::{Image, Odds, Seed, call_at_random, image_at_random};
use crate::frames::{Frame, Wanted};
use crate::model::{Homes, Model};
use crate::stops;
use jb_deck::{Deck, OpenFault};
use jb_disk::{Disk, FuseDisk, MemoryDisk};
use tests_support::{Bench, Test, check, crashed, fail};

/// How many images that a crash left are recovered. By hand it takes a million too.
const CRASHES: u64 = 10_000;

/// How many journals are made one after the other on one image, and how many calls each takes at most.
const LIVES: u32 = 12;

const CALLS: u32 = 24;

/// Of eight calls one is a checkpoint and two are writes.
const ODDS: Odds = Odds {
    checkpoints: 1,
    writes: 2,
    calls: 8,
};

/// How many images each crash leaves.
const IMAGES: u32 = 3;

/// Calls a journal at random; after a fault, what a crash may leave.
fn live<D: Disk>(
    test: &impl Bench,
    seed: &mut Seed,
    deck: &mut Deck<D>,
    model: &mut Model,
) -> Left {
    for _ in 0..CALLS {
        if let Some(left) = call_at_random(test, seed, deck, model, ODDS) {
            return left;
        }
    }
    only(model.standing())
}

/// A version for each sector: of all the old one, of all the newest, of few a newer one, or any.
fn choice(seed: &mut Seed) -> [u32; 128] {
    let kind = seed.below(6);
    let mut choice = [0; 128];
    for number in &mut choice {
        *number = match kind {
            0 => 0,
            1 => 2519,
            2 if seed.below(8) > 0 => 0,
            3 if seed.below(8) > 0 => 2519,
            _ => seed.below(2520),
        };
    }
    choice
}

/// What one more crash leaves of a disk whose recovery loses its power.
fn stopped(test: &impl Bench, seed: &mut Seed, disk: &MemoryDisk) -> MemoryDisk {
    let once = stops::stopped(test, disk, u64::from(seed.below(160)));
    crashed(test, &once.disk, &choice(seed))
}

/// What a crash leaves of a disk, recovered; one recovery in two loses its power first. It is as wanted.
fn recovered(test: &impl Bench, seed: &mut Seed, disk: &MemoryDisk, wanted: &Wanted) -> MemoryDisk {
    let mut image = crashed(test, disk, &choice(seed));
    let is_kept = wanted.frame.is_kept(test, &mut image);
    check(test, is_kept, "what stands before the log has changed");
    if seed.below(2) == 0 {
        image = stopped(test, seed, &image);
    }
    wanted.mend(test, &mut image, wanted.homes);
    image
}

/// One life of a journal on a disk, until its power goes: the disk. `left` is what a crash may leave, before and after.
fn live_on<D: Disk + Drop>(test: &impl Bench, seed: &mut Seed, disk: D, left: &mut Left) -> D {
    match Deck::open(test.alloc(), disk) {
        Ok(deck) => live_with(test, seed, deck, left),
        Err((disk, OpenFault::DeviceFault)) => disk,
        Err(_) => fail(test, "it is not opened"),
    }
}

/// The life of a journal that is opened, on homes of which only one state may be left.
fn live_with<D: Disk + Drop>(
    test: &impl Bench,
    seed: &mut Seed,
    opened: Deck<D>,
    left: &mut Left,
) -> D {
    let mut deck = opened;
    let mut model = Model::new(test.alloc(), left.was, u64::from(deck.usable()));
    *left = live(test, seed, &mut deck, &mut model);
    deck.close()
}

/// Recovers each of the images that a crash leaves; the last one of them.
fn last_recovered(
    test: &impl Bench,
    seed: &mut Seed,
    disk: &MemoryDisk,
    wanted: &Wanted,
) -> MemoryDisk {
    for _ in 1..IMAGES {
        let _found = recovered(test, seed, disk, wanted);
    }
    recovered(test, seed, disk, wanted)
}

/// What the homes of a recovered disk hold, or none where the sectors of one are of two contents.
fn known(test: &impl Test, disk: &mut MemoryDisk, homes: u64, left: &Left) -> Option<Homes> {
    if holds(test, disk, homes, &left.was, None) {
        return Some(left.was);
    }
    if holds(test, disk, homes, &left.becomes, None) {
        return Some(left.becomes);
    }
    None
}

/// One life of a journal on a disk that has the wanted homes, until its power goes; what is wanted then, and the last
/// of the images that are recovered.
fn last_of_life(
    test: &impl Bench,
    seed: &mut Seed,
    disk: MemoryDisk,
    wanted: &mut Wanted,
) -> MemoryDisk {
    let fuse = FuseDisk::of(disk, u64::from(seed.below(200)));
    let fuse = live_on(test, seed, fuse, &mut wanted.left);
    last_recovered(test, seed, &fuse.into_inner(), wanted)
}

/// Lives of a journal on one disk, until the homes of one are known no more; how many images were recovered.
fn lives_on(test: &impl Bench, seed: &mut Seed, disk: MemoryDisk, wanted: &mut Wanted) -> u64 {
    let mut last = disk;
    let mut crashes: u64 = 0;
    for _ in 0..LIVES {
        last = last_of_life(test, seed, last, wanted);
        crashes = crashes.saturating_add(u64::from(IMAGES));
        match known(test, &mut last, wanted.homes, &wanted.left) {
            Some(held) => wanted.left = only(held),
            None => return crashes,
        }
    }
    crashes
}

/// Lives of a journal on one image, until the homes of one are known no more; how many images were recovered.
fn lives(test: &impl Bench, seed: &mut Seed) -> u64 {
    let Image {
        mut disk,
        gap,
        homes,
    } = image_at_random(test, seed);
    let frame = Frame::of(test, &mut disk, u64::from(gap).saturating_add(1));
    let left = only([0; 16]);
    lives_on(test, seed, disk, &mut Wanted { left, frame, homes })
}

/// Lives of a journal on one image after the other, until this many images were recovered.
fn live_all(test: &impl Bench) {
    let mut seed = Seed::of(1);
    let mut crashes: u64 = 0;
    for _ in 0..CRASHES {
        if crashes < CRASHES {
            crashes = crashes.saturating_add(lives(test, &mut seed));
        }
    }
}

#[test]
fn journals_survive_crashes_at_random(rt: HostRuntime) {
    live_all(&By(&rt, rt.alloc()))
}
