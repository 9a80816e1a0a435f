//! Calls of handles and batches.

use crate::journals::SHAPE;
use crate::met::{Met, ample, met_if, refusing, tried};
use crate::texts::THREE;
use crate::values::PRICES;
use jb_block::{BlockSize, Memory, Width};
use jb_deck::{Batch, PrepareFault, Prepared, is_batch, prepare};
use jb_handle::{Handle, Payload, Shape, Stopped, TouchFault, Word, Words};
use jb_queue::read_queue;
use std::alloc::Global;
use std::fs::File;
use std::rt::Files;

/// Whether a handle writes or frees home block 5. One that ran out of memory has touched nothing.
fn is_touched(handle: &mut Handle<()>, is_write: bool) -> Result<bool, Memory> {
    let touched = if is_write {
        handle.write(5, &[7; 1024])
    } else {
        handle.revoke(5)
    };
    match touched {
        Ok(()) => Ok(true),
        Err(TouchFault::Memory) if handle.touched() == 0 => Err(Memory),
        Err(_) => Ok(false),
    }
}

/// Whether home block 5 alone is written, or freed.
fn is_block_5(words: &Words, is_write: bool) -> bool {
    match words.get(5) {
        Some(word) => words.len() == 1 && word.is_copy() == is_write,
        None => false,
    }
}

/// A refused write or revoke leaves the handle as it was.
pub fn touch_row(rt: &impl Files<File = File>, alloc: Global, is_write: bool) -> Option<Met> {
    let mut handle = Handle::new(alloc, (), 2, SHAPE);
    let met = tried(rt, || is_touched(&mut handle, is_write));
    let (_, words) = handle.end();
    if is_block_5(&words, is_write) {
        met
    } else {
        None
    }
}

/// A copy that a handle refuses, as it has no credits, takes no memory.
pub fn refused_row(rt: &impl Files<File = File>, alloc: Global) -> Option<Met> {
    let word = Word::Copy(Payload::of(alloc, &[7; 1024]).ok()?);
    let mut handle = Handle::new(alloc, (), 0, SHAPE);
    refusing(rt);
    let put = handle.put(5, &word);
    ample(rt);
    let (_, words) = handle.end();
    let is_refused = put.err() == Some(TouchFault::NoCredit(0));
    met_if(is_refused && words.is_empty(), Met::Ample)
}

/// The journal that the three handles are for: a group takes seven log blocks at most.
const SEVEN: Shape = Shape {
    bs: BlockSize::OneKib,
    homes: 16,
    limit: 7,
    width: Width::Narrow,
};

/// These handles as a batch with its plan; none where that is refused.
pub fn prepared(
    alloc: Global,
    first: u64,
    handles: Vec<Stopped>,
    shape: Shape,
) -> Option<Prepared> {
    if !is_batch(first, &handles, shape) {
        return None;
    }
    match prepare(alloc, Batch::of(first, handles, shape)) {
        Ok(prepared) => Some(prepared),
        Err((batch, _)) => {
            let _handles = batch.end();
            None
        }
    }
}

/// A batch that is handed back for want of memory is prepared by the next call.
pub fn prepare_row(rt: &impl Files<File = File>, alloc: Global) -> Option<Met> {
    let queue = read_queue(alloc, THREE).ok()?;
    prepare_of(rt, alloc, queue.handles, SEVEN)
}

/// Prepares the three handles where memory may be refused.
fn prepare_of(
    rt: &impl Files<File = File>,
    alloc: Global,
    handles: Vec<Stopped>,
    shape: Shape,
) -> Option<Met> {
    if !is_batch(0, &handles, shape) {
        return None;
    }
    let batch = Batch::of(0, handles, shape);
    refusing(rt);
    let first = prepare(alloc, batch);
    ample(rt);
    met_by(alloc, first)
}

/// How the plan of the three handles met refused memory.
fn met_by(alloc: Global, first: Result<Prepared, (Batch, PrepareFault)>) -> Option<Met> {
    match first {
        Ok(prepared) => met_if(is_planned(prepared), Met::Ample),
        Err((batch, fault)) => {
            let is_memory = matches!(fault, PrepareFault::Memory);
            let is_whole = batch.len() == 3 && batch.first() == 0;
            let is_again = is_prepared(alloc, batch);
            met_if(is_memory && is_whole && is_again, Met::Memory)
        }
    }
}

/// Whether a batch that was handed back gets the plan of the three handles.
fn is_prepared(alloc: Global, batch: Batch) -> bool {
    match prepare(alloc, batch) {
        Ok(prepared) => is_planned(prepared),
        Err((batch, _)) => {
            let _handles = batch.end();
            false
        }
    }
}

/// Whether a batch has the plan of the three handles; it is let go.
fn is_planned(prepared: Prepared) -> bool {
    let is_least = prepared.groups() == [0, 3].as_slice() && prepared.total() == 7;
    let is_priced = prepared.prices() == PRICES.as_slice();
    let _handles = prepared.back().end();
    is_least && is_priced
}
