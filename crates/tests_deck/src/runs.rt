//! Scripts of a journal's calls that are run up to their first fault.

use crate::contents::{Left, only};
use crate::frames::{Frame, Wanted};
use crate::images::HOMES;
use crate::lives::{Call, make_call};
use crate::model::Model;
use crate::scripts::{Refusal, Step, check_steps};
use jb_block::Width;
use jb_deck::{CheckpointFault, Deck, FreeFault, OpenFault};
use jb_disk::{Disk, FuseDisk, MemoryDisk, OneFaultDisk};
use tests_support::{Bench, check, fail};

/// A disk, and whether what was run on it ended before the disk failed.
#[derive(Drop)]
pub struct Ran<D> {
    pub disk: D,
    pub ended: bool,
}

/// What a journal that is aborted answers.
static ABORTED: [Step; 3] = [
    Step::Writes(16, 0, Err(FreeFault::Aborted)),
    Step::Refuses(99, (16, 7, Width::Narrow), "h w1\n", Refusal::Aborted),
    Step::Refuses(0, (16, 7, Width::Narrow), "", Refusal::Aborted),
];

/// A journal that is aborted refuses each call.
fn refuse_each<D: Disk>(test: &impl Bench, deck: &mut Deck<D>) {
    let is_aborted = deck.aborted()
        && deck.checkpoint_one() == Err(CheckpointFault::Aborted)
        && deck.checkpoint_up_to(0) == Err(CheckpointFault::Aborted);
    check(test, is_aborted, "it is not aborted");
    check_steps(test, "a journal that is aborted", deck, &ABORTED)
}

/// Runs a script on a disk up to its first fault. `left` is what a crash may leave, before and after.
fn run<D: Disk + Drop>(test: &impl Bench, disk: D, script: &[Call<'_>], left: &mut Left) -> Ran<D> {
    match Deck::open(test.alloc(), disk) {
        Ok(deck) => run_on(test, deck, script, left),
        Err((disk, OpenFault::DeviceFault)) => Ran { disk, ended: false },
        Err(_) => fail(test, "it is not opened"),
    }
}

/// Runs a script on a journal that is opened, up to its first fault, after which the journal refuses each call.
fn run_on<D: Disk + Drop>(
    test: &impl Bench,
    opened: Deck<D>,
    script: &[Call<'_>],
    left: &mut Left,
) -> Ran<D> {
    let mut deck = opened;
    let mut model = Model::new(test.alloc(), left.was, u64::from(deck.usable()));
    let ended = run_with(test, &mut deck, &mut model, script, left);
    if !ended {
        refuse_each(test, &mut deck);
    }
    let disk = deck.close();
    Ran { disk, ended }
}

/// Calls a journal by a script up to its first fault; whether it met none.
fn run_with<D: Disk>(
    test: &impl Bench,
    deck: &mut Deck<D>,
    model: &mut Model,
    script: &[Call<'_>],
    left: &mut Left,
) -> bool {
    for next in script {
        if let Some(met) = make_call(test, deck, model, *next) {
            *left = met;
            return false;
        }
    }
    *left = only(model.standing());
    true
}

/// A script that is run on a disk that fails: the disk, what a crash may leave of it, and whether it met no fault.
#[derive(Drop)]
pub struct Stop {
    pub disk: MemoryDisk,
    pub wanted: Wanted,
    pub ended: bool,
}

/// Runs a script on a disk whose log begins at block 1, whose homes are zeros, and which makes this many calls.
pub fn run_to(test: &impl Bench, before: MemoryDisk, calls: u64, script: &[Call<'_>]) -> Stop {
    let mut disk = before;
    let frame = Frame::of(test, &mut disk, 1);
    let left = only([0; 16]);
    let homes = HOMES;
    let mut wanted = Wanted { left, frame, homes };
    let ran = run(test, FuseDisk::of(disk, calls), script, &mut wanted.left);
    Stop {
        disk: ran.disk.into_inner(),
        wanted,
        ended: ran.ended,
    }
}

/// Runs a script on a disk that fails one call: the disk, and whether it met none.
pub fn run_over(
    test: &impl Bench,
    before: MemoryDisk,
    call: u64,
    script: &[Call<'_>],
) -> Ran<MemoryDisk> {
    let mut left = only([0; 16]);
    let ran = run(test, OneFaultDisk::of(before, call), script, &mut left);
    Ran {
        disk: ran.disk.into_inner(),
        ended: ran.ended,
    }
}
