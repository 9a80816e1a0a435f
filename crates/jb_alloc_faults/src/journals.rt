//! The journal that the rows of disks, decks and desks use, and what is committed to it.
ghost use Rattle.std.specs.Prelude.{◌≡◌, [], false, IfSome};

use crate::handles::prepared;
use jb_block::{BlockSize, Stamp, Width, get32, put32};
use jb_deck::{BatchFault, Deck, Done, Prepared};
use jb_disk::{Disk, MemoryDisk};
use jb_format::format;
use jb_handle::Shape;
use jb_queue::read_queue;
use jb_recover::recover;
use std::alloc::Global;

/// The place of home block 5.
pub const HOME_5: u64 = 38;

/// The stamp of all commits.
pub const STAMP: Stamp = Stamp { sec: 0, nsec: 0 };

/// What the handles of the journal have to fit.
pub const SHAPE: Shape = Shape {
    bs: BlockSize::OneKib,
    homes: 16,
    limit: 8,
    width: Width::Narrow,
};

/// A handle with an escaped copy of home 5, which frees home 7.
const HANDLE: &[u8] = b"bs 1024\nlimit 8\nh w5=c03b399801020304 r7\n";

/// A new journal of 33 blocks of 1 KiB, and after it 16 home blocks of zeros. A group takes 8 log blocks at most.
pub fn formatted(alloc: Global) -> Option<MemoryDisk> {
    let mut disk = MemoryDisk::new(alloc, BlockSize::OneKib, 49).ok()?;
    if format(&mut disk, 33, 0, [0; 16], Width::Narrow).is_ok() {
        Some(disk)
    } else {
        None
    }
}

/// The same journal, opened.
pub fn opened(alloc: Global) -> Option<Deck<MemoryDisk>>
    ensures { IfSome result (λ deck. (deck.trail ≡ []) × (deck.aborted ≡ false)) }
{
    let disk = formatted(alloc)?;
    Deck::open(alloc, disk).ok()
}

/// The handle as a batch from this ticket on, with its plan.
pub fn prepared_from(alloc: Global, first: u64, shape: Shape) -> Option<Prepared> {
    let queue = read_queue(alloc, HANDLE).ok()?;
    let mut handles = queue.handles;
    for handle in &mut handles {
        handle.ticket = first;
    }
    prepared(alloc, first, handles, shape)
}

/// What a commit settled; none where it was refused.
pub fn done_of(committed: Result<Done, BatchFault>) -> Option<Done> {
    match committed {
        Ok(done) => Some(done),
        Err(fault) => {
            let_go(fault);
            None
        }
    }
}

/// Commits the handle with this ticket. Says whether it is committed.
fn commit<D: Disk>(alloc: Global, deck: &mut Deck<D>, ticket: u64) -> bool {
    match prepared_from(alloc, ticket, deck.shape()) {
        Some(batch) => done_of(deck.commit_batch(batch, STAMP)).is_some(),
        None => false,
    }
}

/// The journal after the handle was committed twice, where the first group is home.
pub fn settled_twice(alloc: Global) -> Option<Deck<MemoryDisk>> {
    let mut deck = opened(alloc)?;
    let is_committed = commit(alloc, &mut deck, 0) && commit(alloc, &mut deck, 1);
    if is_committed && deck.checkpoint_one().is_ok() {
        Some(deck)
    } else {
        None
    }
}

/// The journal's disk after the handle was committed.
pub fn committed(alloc: Global) -> Option<MemoryDisk> {
    let mut deck = opened(alloc)?;
    let is_committed = commit(alloc, &mut deck, 0);
    let disk = deck.close();
    if is_committed { Some(disk) } else { None }
}

/// Lets a refused batch go.
pub fn let_go(fault: BatchFault) {
    match fault {
        BatchFault::Aborted(batch)
        | BatchFault::WrongTicket(batch, _)
        | BatchFault::OtherShape(batch)
        | BatchFault::NumbersSpent(batch)
        | BatchFault::Memory(batch) => {
            let _handles = batch.back().end();
        }
        BatchFault::DeviceFault { settled: _ } => {}
    }
}

/// Reads the block at a place.
pub fn read_block<D: Disk>(disk: &mut D, place: u64, block: &mut [u8; 1024]) -> Option<()> {
    if place < disk.blocks() && disk.block_size().bytes() == 1024 {
        disk.read(place, block).ok()
    } else {
        None
    }
}

/// The first word of the block at a place.
pub fn word_at<D: Disk>(disk: &mut D, place: u64) -> Option<u32> {
    let mut block = [0; 1024];
    read_block(disk, place, &mut block)?;
    Some(get32(&block, 0))
}

/// The first word of the block at a place, once the journal on the disk is recovered.
pub fn recovered_word<D: Disk>(alloc: Global, disk: &mut D, place: u64) -> Option<u32> {
    if recover(alloc, disk).is_ok() {
        word_at(disk, place)
    } else {
        None
    }
}

/// Writes a block that begins with this word, without a sync.
pub fn put_word<D: Disk>(disk: &mut D, place: u64, word: u32) -> Option<()> {
    let mut block = [0; 1024];
    put32(&mut block, 0, word);
    if place < disk.blocks() && disk.block_size().bytes() == 1024 {
        disk.write(place, &block).ok()
    } else {
        None
    }
}
