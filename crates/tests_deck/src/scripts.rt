//! Calls of a journal, with the answers that are worked out by hand.

use crate::answers::{checkpoints, runs, takes, tells, writes};
use crate::groups::STAMP;
use crate::images::Label;
use crate::words::says;
use jb_block::{BlockSize, Width};
use jb_deck::{
    Batch, BatchFault, Checked, CheckpointFault, Deck, Done, Entry, FreeFault, Prepared, is_batch,
    prepare,
};
use jb_disk::Disk;
use jb_handle::{Shape, Stopped};
use jb_queue::read_queue;
use std::alloc::Global;
use tests_support::{Bench, Must, check_in};

/// A shape that a batch is made for: how many homes, which limit, and how wide block numbers are.
pub type Made = (u64, u32, Width);

/// The entry of a group: its first ticket, the one after its last, its number, and how many log blocks it takes.
pub type Told = (u64, u64, u32, u32);

/// Transactions that are checkpointed together: how many, the last number, and how many copies are written.
pub type Run = (usize, u32, u64);

/// A call, and what it answers.
#[derive(Clone, Copy)]
pub enum Step {
    /// These handles are committed, and these groups are settled.
    Commits(&'static str, &'static [Told]),
    /// A batch from this ticket on, for this shape, is refused.
    Refuses(u64, Made, &'static str, Refusal),
    /// The oldest transaction, of this number, is checkpointed, and this many copies are written.
    Checkpoints(u32, u64),
    /// The oldest transactions are checkpointed, at most this many.
    Runs(usize, Result<Run, CheckpointFault>),
    /// There is no transaction to checkpoint.
    Idle,
    /// This many bytes are written to a home that is free.
    Writes(u64, usize, Result<(), FreeFault>),
    /// The last word on a home, whether it is a copy.
    Word(u64, Option<bool>),
    /// These entries, which have no ticket from this one on, are taken from the trail.
    Takes(u64, &'static [Told]),
    /// The whole trail, and the number of the next transaction.
    Ends(&'static [Told], u64),
    /// The journal has failed.
    Aborted,
}

/// Why a batch is refused.
#[derive(Clone, Copy, PartialEq, Eq)]
pub enum Refusal {
    Aborted,
    WrongTicket(u64),
    OtherShape,
    NumbersSpent,
    Memory,
    /// This many groups were settled before the fault.
    DeviceFault(usize),
}

/// A batch as it was prepared: its first ticket, its shape, how many handles and groups it has, and how many log
/// blocks these take.
pub type Kept = (u64, Shape, usize, usize, u64);

/// The text of a queue of these lines.
fn text_of(test: &impl Bench, lines: &str) -> Vec<u8> {
    let mut text = b"bs 1024\nlimit 8\n"
        .to_vec(test.alloc())
        .must(test, "memory");
    text.extend_from_slice(lines.as_bytes())
        .must(test, "memory");
    text
}

/// The handles of these lines, with tickets from `first` on.
pub fn handles_of(test: &impl Bench, lines: &str, first: u64) -> Vec<Stopped> {
    let text = text_of(test, lines);
    let mut handles = read_queue(test.alloc(), &text)
        .must(test, "a queue")
        .handles;
    for handle in &mut handles {
        handle.ticket = handle.ticket.saturating_add(first);
    }
    handles
}

/// These handles as a batch with its plan, or none where they are no batch or none fits.
pub fn prepared(
    alloc: Global,
    first: u64,
    handles: Vec<Stopped>,
    shape: Shape,
) -> Option<Prepared> {
    if !is_batch(first, &handles, shape) {
        return None;
    }
    match prepare(alloc, Batch::of(first, handles, shape)) {
        Ok(prepared) => Some(prepared),
        Err((batch, _)) => {
            let _handles = batch.end();
            None
        }
    }
}

/// What a batch is that has this many groups, which take this many log blocks.
fn kept_as(batch: &Batch, groups: usize, total: u64) -> Kept {
    (batch.first(), batch.shape(), batch.len(), groups, total)
}

/// What a batch is, which is let go.
pub fn kept(prepared: Prepared) -> Kept {
    let groups = prepared.groups().len();
    let total = prepared.total();
    let batch = prepared.back();
    let kept = kept_as(&batch, groups, total);
    let _handles = batch.end();
    kept
}

/// Why a batch is refused, and the batch that is handed back.
pub fn refused(fault: BatchFault) -> (Refusal, Option<Kept>) {
    match fault {
        BatchFault::Aborted(back) => (Refusal::Aborted, Some(kept(back))),
        BatchFault::WrongTicket(back, expected) => (
            Refusal::WrongTicket(expected),
            Some(kept(back)),
        ),
        BatchFault::OtherShape(back) => (Refusal::OtherShape, Some(kept(back))),
        BatchFault::NumbersSpent(back) => (Refusal::NumbersSpent, Some(kept(back))),
        BatchFault::Memory(back) => (Refusal::Memory, Some(kept(back))),
        BatchFault::DeviceFault { settled } => {
            (Refusal::DeviceFault(settled.entries().len()), None)
        }
    }
}

/// The journal on a disk, or none where it is not opened.
pub fn opened<D: Disk + Drop>(alloc: Global, disk: D) -> Option<Deck<D>> {
    Deck::open(alloc, disk).ok()
}

/// The journal on a disk.
pub fn opening<D: Disk + Drop>(test: &impl Bench, disk: D) -> Deck<D> {
    opened(test.alloc(), disk).must(test, "it is not opened")
}

/// The ticket of the next handle.
pub fn next_ticket<D: Disk>(deck: &Deck<D>) -> u64 {
    match deck.trail().last() {
        Some(entry) => entry.past,
        None => 0,
    }
}

/// The entry that a row tells.
fn entry_of(told: &Told) -> Entry {
    let (first, past, number, blocks) = *told;
    Entry {
        first,
        past,
        number,
        blocks,
    }
}

/// Whether entries are these.
pub fn are(entries: &[Entry], told: &[Told]) -> bool {
    for (entry, wanted) in entries.iter().zip(told) {
        if *entry != entry_of(wanted) {
            return false;
        }
    }
    entries.len() == told.len()
}

/// The groups of these handles, or none where no cut fits or the batch is refused.
pub fn settle<D: Disk>(alloc: Global, deck: &mut Deck<D>, handles: Vec<Stopped>) -> Option<Done> {
    let Some(batch) = prepared(alloc, next_ticket(deck), handles, deck.shape()) else {
        return None;
    };
    match deck.commit_batch(batch, STAMP) {
        Ok(done) => Some(done),
        Err(fault) => {
            let _told = refused(fault);
            None
        }
    }
}

/// Whether the groups of these handles are these.
pub fn settles<D: Disk>(
    alloc: Global,
    deck: &mut Deck<D>,
    handles: Vec<Stopped>,
    entries: &[Told],
) -> bool {
    let first = next_ticket(deck);
    match settle(alloc, deck, handles) {
        Some(done) => done.first() == first && are(done.entries(), entries),
        None => false,
    }
}

/// Whether the groups of the handles of these lines are these.
pub fn commits<D: Disk>(
    test: &impl Bench,
    deck: &mut Deck<D>,
    lines: &str,
    entries: &[Told],
) -> bool {
    let handles = handles_of(test, lines, next_ticket(deck));
    settles(test.alloc(), deck, handles, entries)
}

/// Whether a batch is refused so, in words too, and handed back as it was where it is not lost.
fn is_refused<D: Disk>(alloc: Global, deck: &mut Deck<D>, batch: Prepared, why: Refusal) -> bool {
    let was = kept_as(batch.batch(), batch.groups().len(), batch.total());
    match deck.commit_batch(batch, STAMP) {
        Ok(_) => false,
        Err(fault) => {
            let told = says(alloc, &fault, why);
            let lost = matches!(why, Refusal::DeviceFault(_));
            told & (refused(fault) == (why, if lost { None } else { Some(was) }))
        }
    }
}

/// Whether a batch for this shape is refused so, and handed back as it was where it is not lost.
pub fn refuses<D: Disk>(
    test: &impl Bench,
    deck: &mut Deck<D>,
    first: u64,
    made: Made,
    lines: &str,
    why: Refusal,
) -> bool {
    let (homes, limit, width) = made;
    if limit < 3 || limit > 2147483646 {
        return false;
    }
    let shape = Shape {
        bs: BlockSize::OneKib,
        homes,
        limit,
        width,
    };
    match prepared(test.alloc(), first, handles_of(test, lines, first), shape) {
        Some(batch) => is_refused(test.alloc(), deck, batch, why),
        None => false,
    }
}

/// Whether a call answers so.
fn answers<D: Disk>(test: &impl Bench, deck: &mut Deck<D>, step: &Step) -> bool {
    match *step {
        Step::Commits(lines, entries) => commits(test, deck, lines, entries),
        Step::Refuses(first, made, lines, why) => refuses(test, deck, first, made, lines, why),
        Step::Checkpoints(number, blocks) => checkpoints(deck, Ok(Checked { number, blocks })),
        Step::Runs(most, answer) => runs(deck, most, answer),
        Step::Idle => checkpoints(deck, Err(CheckpointFault::Nothing)),
        Step::Writes(home, len, answer) => writes(deck, home, len, answer),
        Step::Takes(past, entries) => takes(deck, past, entries),
        _ => tells(deck, step),
    }
}

/// Makes these calls of the journal of a row, each of which answers so.
pub fn check_steps<D: Disk>(test: &impl Bench, row: Label, deck: &mut Deck<D>, steps: &[Step]) {
    for (i, step) in steps.iter().enumerate() {
        check_in(test, answers(test, deck, step), row, "step", i as u64);
    }
}
