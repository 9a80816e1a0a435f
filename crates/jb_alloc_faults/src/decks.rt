//! Calls of the journal.

use crate::journals::{
    HOME_5, STAMP, done_of, formatted, let_go, opened, prepared_from, recovered_word, settled_twice,
};
use crate::met::{Met, ample, met_if, refusing, tried};
use jb_block::{MAGIC, Memory};
use jb_deck::{BatchFault, Deck, Done, Entry, OpenFault, Prepared};
use jb_disk::{Disk, MemoryDisk};
use std::alloc::Global;
use std::fs::File;
use std::rt::Files;

/// The group of the handle.
const GROUP: [Entry; 1] = [Entry {
    first: 0,
    past: 1,
    number: 2,
    blocks: 4,
}];

/// A disk that is given back for want of memory opens as one that was never opened.
pub fn open_row(rt: &impl Files<File = File>, alloc: Global) -> Option<Met> {
    let disk = formatted(alloc)?;
    refusing(rt);
    let first = Deck::open(alloc, disk);
    ample(rt);
    match first {
        Ok(deck) => met_if(is_new(&deck), Met::Ample),
        Err((disk, fault)) => met_if(is_opened(alloc, disk), refused_by(fault)?),
    }
}

/// How the opening of a journal met refused memory.
fn refused_by(fault: OpenFault) -> Option<Met> {
    match fault {
        OpenFault::Memory => Some(Met::Memory),
        OpenFault::DeviceFault => Some(Met::Fault),
        _ => None,
    }
}

/// Whether a disk opens as one that was never opened.
fn is_opened(alloc: Global, disk: MemoryDisk) -> bool {
    match Deck::open(alloc, disk).ok() {
        Some(deck) => is_new(&deck),
        None => false,
    }
}

/// Whether a journal has committed nothing.
fn is_new<D: Disk>(deck: &Deck<D>) -> bool {
    deck.next_number() == 2 && deck.usable() == 32
}

/// A journal that ran out of memory is as it was, and commits the batch that is handed back. One whose disk failed is
/// aborted, and recovers to the homes before the batch or after it.
pub fn commit_batch_row(rt: &impl Files<File = File>, alloc: Global) -> Option<Met> {
    let mut deck = opened(alloc)?;
    let met = commit(rt, alloc, &mut deck);
    let mut disk = deck.close();
    let word = recovered_word(alloc, &mut disk, HOME_5);
    if word == Some(MAGIC) || met == Some(Met::Fault) && word == Some(0) {
        met
    } else {
        None
    }
}

/// Commits the handle where memory may be refused.
fn commit<D: Disk>(rt: &impl Files<File = File>, alloc: Global, deck: &mut Deck<D>) -> Option<Met> {
    let batch = prepared_from(alloc, 0, deck.shape())?;
    refusing(rt);
    let first = deck.commit_batch(batch, STAMP);
    ample(rt);
    met_by(deck, first)
}

/// How a commit met refused memory.
fn met_by<D: Disk>(deck: &mut Deck<D>, first: Result<Done, BatchFault>) -> Option<Met> {
    match first {
        Ok(done) => met_if(is_group(&done), Met::Ample),
        Err(BatchFault::Memory(batch)) => met_if(is_committed(deck, batch), Met::Memory),
        Err(BatchFault::DeviceFault { settled }) => met_if(
            deck.aborted() && settled.entries().is_empty(),
            Met::Fault,
        ),
        Err(fault) => {
            let_go(fault);
            None
        }
    }
}

/// Whether the group of the handle was committed.
fn is_group(done: &Done) -> bool {
    done.entries() == GROUP.as_slice()
}

/// Whether a journal that ran out of memory is as it was, and commits the batch that it handed back.
fn is_committed<D: Disk>(deck: &mut Deck<D>, batch: Prepared) -> bool {
    if deck.next_number() != 2 || !deck.trail().is_empty() || deck.aborted() {
        let _handles = batch.back().end();
        return false;
    }
    match done_of(deck.commit_batch(batch, STAMP)) {
        Some(done) => is_group(&done),
        None => false,
    }
}

/// Whether a journal gives the entry of the group that is home. One that ran out of memory keeps its trail.
fn is_taken<D: Disk>(deck: &mut Deck<D>) -> Result<bool, Memory> {
    match deck.take_trail(2) {
        Ok(taken) => Ok(taken.as_slice() == GROUP.as_slice() && deck.trail().len() == 1),
        Err(_) if deck.trail().len() == 2 => Err(Memory),
        Err(_) => Ok(false),
    }
}

/// The entries of the groups that are home.
pub fn take_trail_row(rt: &impl Files<File = File>, alloc: Global) -> Option<Met> {
    let mut deck = settled_twice(alloc)?;
    tried(rt, || is_taken(&mut deck))
}
