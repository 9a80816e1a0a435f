//! A script whose homes are worked out by hand, on a new journal: it is stopped after every number of calls of the disk
//! and crashed in five ways, and the recovery of each image is stopped and crashed in the same ways.

use crate::checks::By;
use crate::contents::{EIGHT, Left};
use crate::draws::formatted;
use crate::frames::Wanted;
use crate::lives::Call;
use crate::model::Homes;
use crate::runs::run_to;
use crate::stops::{NEW, SECTORS, mend, stopped};
use jb_block::Width;
use jb_disk::MemoryDisk;
use tests_support::{Bench, Test, check_at, crashed, difference, fail};

/// More calls of the disk than the script makes, and than a recovery makes.
const MOST: u64 = 400;

/// Of the pending sectors all are old, all are newest, old and newest in turn, or the first or the last one alone is
/// newest.
const CHOICES: u32 = 5;

const UUID: [u8; 16] = [0, 1, 2, 3, 4, 5, 6, 7, 8, 9, 10, 11, 12, 13, 14, 15];

/// A group with an escaped copy and a freed home, which is written; three groups that fill the log, and two that make
/// room and go round its end. Then they are checkpointed; the last call finds nothing.
static SCRIPT: [Call<'static>; 12] = [
    Call::Commit(1, &[(0, 5, Some(EIGHT)), (0, 7, None)]),
    Call::Write(7, 17),
    Call::Handles(&[(&[0, 1, 2, 3, 4, 5], 20, &[])]),
    Call::Handles(&[(&[0, 1, 2, 3, 4, 5], 30, &[])]),
    Call::Handles(&[(&[0, 1, 2, 3, 4, 5], 40, &[])]),
    Call::Handles(&[(&[0, 1, 2], 50, &[])]),
    Call::Handles(&[(&[0, 1, 2, 3], 60, &[])]),
    Call::Checkpoint,
    Call::Checkpoint,
    Call::Checkpoint,
    Call::Checkpoint,
    Call::Checkpoint,
];

/// The homes after the first handles: of none, of one, and so on to six. Home 7 is the second call's.
static SETTLED: [Homes; 7] = [
    [0; 16],
    [0, 0, 0, 0, 0, EIGHT, 0, 17, 0, 0, 0, 0, 0, 0, 0, 0],
    [20, 21, 22, 23, 24, 25, 0, 17, 0, 0, 0, 0, 0, 0, 0, 0],
    [30, 31, 32, 33, 34, 35, 0, 17, 0, 0, 0, 0, 0, 0, 0, 0],
    [40, 41, 42, 43, 44, 45, 0, 17, 0, 0, 0, 0, 0, 0, 0, 0],
    [50, 51, 52, 43, 44, 45, 0, 17, 0, 0, 0, 0, 0, 0, 0, 0],
    [60, 61, 62, 63, 44, 45, 0, 17, 0, 0, 0, 0, 0, 0, 0, 0],
];

/// A version for each sector.
type Choice = [u32; SECTORS];

/// A new journal of 33 blocks with 16 homes of zeros.
fn before(test: &impl Bench) -> MemoryDisk {
    formatted(test, 33, 0, UUID, Width::Narrow)
}

/// The versions of the sectors from one place on: the newest ones.
fn newest_from(place: usize) -> Choice {
    let mut choice = [0; SECTORS];
    for (i, version) in choice.iter_mut().enumerate() {
        if i >= place {
            *version = NEW;
        }
    }
    choice
}

/// Whether what a crash leaves of a disk by this choice has other contents than an image.
fn differs(test: &impl Test, disk: &MemoryDisk, choice: &Choice, image: &mut MemoryDisk) -> bool {
    difference(test, image, &mut crashed(test, disk, choice), 0).is_some()
}

/// The last of the pending sectors whose newest content is another one than its old content.
fn last_sector(test: &impl Test, disk: &MemoryDisk) -> usize {
    let mut old = crashed(test, disk, &[]);
    let mut last: usize = 0;
    for step in [16, 8, 4, 2, 1] {
        let further = last.saturating_add(step);
        if differs(test, disk, &newest_from(further), &mut old) {
            last = further;
        }
    }
    last
}

/// The choice of this number, where this sector is the last one.
fn choice(number: u32, last: usize) -> Choice {
    let mut choice = [0; SECTORS];
    for (i, version) in choice.iter_mut().enumerate() {
        let is_newest = match number {
            0 => false,
            1 => true,
            2 => i % 2 == 1,
            3 => i == 0,
            _ => i == last,
        };
        if is_newest {
            *version = NEW;
        }
    }
    choice
}

/// Recovers what each choice leaves of a disk of the script, which is stopped after this many calls.
fn mend_each(test: &impl Bench, calls: u64, disk: &MemoryDisk, wanted: &Wanted) {
    let last = last_sector(test, disk);
    for number in 0..CHOICES {
        mend(test, calls, disk, &choice(number, last), wanted);
    }
}

/// Whether a disk has other contents than an image that a crash left, or may have them after one more crash.
fn is_changed(test: &impl Test, disk: &MemoryDisk, image: &mut MemoryDisk) -> bool {
    differs(test, disk, &[0; SECTORS], image) || differs(test, disk, &newest_from(0), image)
}

/// Stops the recovery of an image after this many calls of its own and crashes it by each choice; whether it ended
/// before. Where nothing was written yet, that leaves the image itself, which is recovered once.
fn mend_once(
    test: &impl Bench,
    calls: u64,
    image: &mut MemoryDisk,
    own: u64,
    wanted: &Wanted,
) -> bool {
    let once = stopped(test, image, own);
    if own == 0 || is_changed(test, &once.disk, image) {
        mend_each(test, calls, &once.disk, wanted);
    }
    once.ended
}

/// Stops the recovery of what this choice leaves of a disk after every number of calls and crashes it by each choice;
/// how many images that are.
fn mend_left(
    test: &impl Bench,
    calls: u64,
    disk: &MemoryDisk,
    choice: &Choice,
    wanted: &Wanted,
) -> u64 {
    let mut image = crashed(test, disk, choice);
    let mut images: u64 = 0;
    for own in 0..MOST {
        let ended = mend_once(test, calls, &mut image, own, wanted);
        images = images.saturating_add(u64::from(CHOICES));
        if ended {
            return images;
        }
    }
    fail(test, "a recovery never ends")
}

/// Crashes a disk of the script, which is stopped after this many calls, by each choice and stops the recovery of each
/// image; how many images that are.
fn mend_all(test: &impl Bench, calls: u64, disk: &MemoryDisk, wanted: &Wanted) -> u64 {
    let last = last_sector(test, disk);
    let mut images: u64 = 0;
    for number in 0..CHOICES {
        let further = mend_left(test, calls, disk, &choice(number, last), wanted);
        images = images.saturating_add(further);
    }
    images
}

/// Whether homes are those after the first handles, home 7 aside where it is not yet written.
fn is_worked(homes: &Homes) -> bool {
    let mut unwritten = *homes;
    unwritten[7] = 17;
    SETTLED.contains(homes) || unwritten == SETTLED[1]
}

/// The script that is stopped after this many calls: what a crash may leave, how many images are recovered, and whether
/// it ended.
fn images_at(test: &impl Bench, calls: u64) -> (Left, u64, bool) {
    let stop = run_to(test, before(test), calls, &SCRIPT);
    let images = mend_all(test, calls, &stop.disk, &stop.wanted);
    (stop.wanted.left, images, stop.ended)
}

/// Stops the script after every number of calls.
fn stop_each(test: &impl Bench) {
    let mut images: u64 = 0;
    for calls in 0..MOST {
        let (left, further, ended) = images_at(test, calls);
        let is_known = is_worked(&left.was) && is_worked(&left.becomes);
        check_at(test, is_known, "homes after calls", calls);
        images = images.saturating_add(further);
        if ended {
            return end(test, calls, images, &left.was);
        }
    }
    fail(test, "it never ends")
}

/// The whole script makes this many calls, is crashed to this many images and leaves these homes.
fn end(test: &impl Test, calls: u64, images: u64, homes: &Homes) {
    check_at(test, calls == 139, "calls of the whole script:", calls);
    check_at(test, images == 109515, "images of the script:", images);
    let is_settled = *homes == SETTLED[6];
    check_at(test, is_settled, "homes of the script, after calls", calls)
}

#[test]
fn a_script_may_be_stopped_and_crashed_at_every_call(rt: HostRuntime) {
    stop_each(&By(&rt, rt.alloc()))
}
