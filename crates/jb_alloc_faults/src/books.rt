//! Calls of a board and a book.

use crate::journals::SHAPE;
use crate::met::{Met, ample, met_if, refusing, tried};
use jb_block::Memory;
use jb_board::{Board, Front};
use jb_desk::{BeginFault, Book, EnqueueFault};
use jb_handle::Handle;
use std::alloc::Global;
use std::fs::File;
use std::marker::Brand;
use std::rt::Files;

/// Whether a new board counts no tickets.
fn is_new(alloc: Global) -> Result<bool, Memory> {
    let (board, mut seat) = Board::<Brand>::new(alloc)?;
    let front = Front {
        settled: 0,
        taken: 0,
        stopped: 0,
    };
    Ok(board.look(&mut seat) == front)
}

/// A new board.
pub fn board_row(rt: &impl Files<File = File>, alloc: Global) -> Option<Met> {
    tried(rt, || is_new(alloc))
}

/// Whether a handle is begun.
fn is_open(book: &mut Book<Brand>) -> Result<bool, Memory> {
    match book.open(1, 6) {
        Ok(()) => Ok(true),
        Err(BeginFault::Memory) => Err(Memory),
        Err(_) => Ok(false),
    }
}

/// A book that ran out of memory lists no handle of the seat.
pub fn open_row(rt: &impl Files<File = File>, alloc: Global) -> Option<Met> {
    let mut book = Book::<Brand>::new(alloc, SHAPE, 32);
    let met = tried(rt, || is_open(&mut book));
    let is_busy = book.open(1, 6) == Err(BeginFault::Busy);
    let is_too_many = book.open(2, 27) == Err(BeginFault::TooManyCredits(6));
    if is_busy && is_too_many { met } else { None }
}

/// A handle that revokes home 1.
fn revoking(alloc: Global) -> Handle<()> {
    let mut handle = Handle::new(alloc, (), 1, SHAPE);
    let _refused = handle.revoke(1);
    handle
}

/// A book that ran out of memory has queued nothing, and hands the handle back.
pub fn enqueue_row(rt: &impl Files<File = File>, alloc: Global) -> Option<Met> {
    let mut book = Book::<Brand>::new(alloc, SHAPE, 32);
    let is_open = book.open(1, 1).is_ok();
    let met = enqueue(rt, &mut book, revoking(alloc));
    if is_open && is_all(&mut book) {
        met
    } else {
        None
    }
}

/// Queues a handle where memory may be refused.
fn enqueue(
    rt: &impl Files<File = File>,
    book: &mut Book<Brand>,
    handle: Handle<()>,
) -> Option<Met> {
    refusing(rt);
    let first = book.enqueue(1, handle);
    ample(rt);
    match first {
        Ok((_, ticket)) => met_if(ticket == 0, Met::Ample),
        Err((handle, fault)) => {
            let is_kept = fault == EnqueueFault::Memory && handle.touched() == 1;
            met_if(is_queued(book, handle) && is_kept, Met::Memory)
        }
    }
}

/// Whether a handle that was handed back gets the first ticket.
fn is_queued(book: &mut Book<Brand>, handle: Handle<()>) -> bool {
    match book.enqueue(1, handle) {
        Ok((_, ticket)) => ticket == 0,
        Err((handle, _)) => {
            let (_, _words) = handle.end();
            false
        }
    }
}

/// Whether the queue, which is taken, is the one handle.
fn is_all(book: &mut Book<Brand>) -> bool {
    match book.take() {
        Some(batch) => {
            let first = batch.first();
            batch.end().len() == 1 && first == 0
        }
        None => false,
    }
}
