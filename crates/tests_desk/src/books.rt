//! Calls of a book, with the answers that its limits give by hand.

use crate::checks::{check, check_in};
use crate::journal::{CLOCK, SHAPE, formatted, opened};
use jb_deck::{Batch, Done, prepare};
use jb_desk::{BeginFault, Book, EnqueueFault, WrongBatch};
use jb_handle::Handle;
use std::alloc::Global;
use std::marker::Brand;
use std::process::Abort;

/// A call, and what it answers.
#[derive(Clone, Copy)]
enum Call {
    /// a seat opens a handle with this many credits
    Open(u64, u32, Result<(), BeginFault>),
    /// a seat stops a handle with this many credits that revokes these home blocks, and is given a ticket
    Stop(u64, u32, &'static [u64], Result<u64, EnqueueFault>),
    Drop(u64),
    /// gives a batch: its first ticket, and how many handles it has
    Take(Option<(u64, usize)>),
    /// gives a batch that begins with ticket 0: once a journal has committed it, it is settled, and not a second time,
    /// nor by a book that has not taken it
    Settle,
    Fail,
    Shut,
}

/// The calls of a new book of a journal with 32 usable log blocks, of which a group takes 8 at most.
static ROWS: [&[Call]; 4] = [
    // five handles of 6 credits leave room for 2 credits more
    &[
        Call::Open(1, 6, Ok(())),
        Call::Open(2, 6, Ok(())),
        Call::Open(3, 6, Ok(())),
        Call::Open(4, 6, Ok(())),
        Call::Open(5, 6, Ok(())),
        Call::Open(6, 7, Err(BeginFault::TooManyCredits(6))),
        Call::Open(6, 3, Err(BeginFault::Full(30))),
        Call::Open(6, 2, Ok(())),
    ],
    // a handle from its begin to a batch
    &[
        Call::Open(1, 7, Err(BeginFault::TooManyCredits(6))),
        Call::Open(1, 6, Ok(())),
        Call::Open(1, 1, Err(BeginFault::Busy)),
        Call::Drop(1),
        Call::Take(None),
        Call::Stop(1, 6, &[1], Err(EnqueueFault::NotOpen)),
        Call::Open(1, 1, Ok(())),
        Call::Stop(1, 6, &[1, 2], Err(EnqueueFault::NotOpen)),
        Call::Stop(1, 1, &[1], Ok(0)),
        Call::Open(1, 1, Ok(())),
        Call::Stop(1, 1, &[2], Ok(1)),
        Call::Take(Some((0, 2))),
        Call::Open(1, 1, Ok(())),
        Call::Shut,
        Call::Open(2, 1, Err(BeginFault::Closed)),
        Call::Stop(1, 1, &[], Ok(2)),
        Call::Take(None),
    ],
    // a batch is out until it is settled
    &[
        Call::Open(1, 1, Ok(())),
        Call::Stop(1, 1, &[1], Ok(0)),
        Call::Settle,
        Call::Take(None),
        Call::Open(1, 1, Ok(())),
        Call::Stop(1, 1, &[2], Ok(1)),
        Call::Take(Some((1, 1))),
    ],
    // after a failure nothing waits, and open seats stay listed until they are dropped
    &[
        Call::Open(1, 1, Ok(())),
        Call::Open(2, 1, Ok(())),
        Call::Stop(1, 1, &[1], Ok(0)),
        Call::Fail,
        Call::Take(None),
        Call::Open(1, 1, Err(BeginFault::Aborted)),
        Call::Stop(2, 1, &[1], Err(EnqueueFault::Aborted)),
        Call::Drop(2),
    ],
];

/// A seat stops a handle with this many credits that revokes these home blocks.
fn stop(
    rt: &impl Abort,
    alloc: Global,
    book: &mut Book<Brand>,
    seat: u64,
    credits: u32,
    homes: &[u64],
) -> Result<u64, EnqueueFault> {
    let mut handle = Handle::new(alloc, seat, credits, SHAPE);
    for &home in homes {
        let _refused = handle.revoke(home);
    }
    match book.enqueue(seat, handle) {
        Ok((holder, ticket)) => {
            check(rt, holder == seat, "another seat stops");
            Ok(ticket)
        }
        Err((handle, fault)) => {
            let (_, _words) = handle.end();
            Err(fault)
        }
    }
}

/// A batch is taken: its first ticket, and how many handles it has.
fn taken(book: &mut Book<Brand>) -> Option<(u64, usize)> {
    match book.take() {
        Some(batch) => {
            let first = batch.first();
            Some((first, batch.end().len()))
        }
        None => None,
    }
}

/// What a new journal makes of a batch.
fn committed(rt: &impl Abort, alloc: Global, batch: Batch) -> Done {
    let mut deck = opened(alloc, formatted(rt, alloc)).expect(rt, "the journal is not opened");
    match prepare(alloc, batch) {
        Ok(prepared) => match deck.commit_batch(prepared, CLOCK.stamp) {
            Ok(done) => done,
            Err(_) => panic!(rt; "the batch is not committed"),
        },
        Err(_) => panic!(rt; "the batch has no plan"),
    }
}

/// Whether another book, in whose queue a handle has ticket 0, settles no batch that begins with it.
fn is_refused(rt: &impl Abort, alloc: Global, done: &Done) -> bool {
    let mut book = Book::<Brand>::new(alloc, SHAPE, 32);
    let is_open = book.open(1, 1) == Ok(());
    let is_queued = stop(rt, alloc, &mut book, 1, 1, &[1]) == Ok(0);
    is_open && is_queued && book.settle(done) == Err(WrongBatch)
}

/// Whether a batch that is taken is settled once it is committed, and neither a second time nor by another book.
fn is_settled(rt: &impl Abort, alloc: Global, book: &mut Book<Brand>) -> bool {
    let Some(batch) = book.take() else {
        return false;
    };
    let done = committed(rt, alloc, batch);
    is_refused(rt, alloc, &done)
        && book.settle(&done) == Ok(())
        && book.settle(&done) == Err(WrongBatch)
}

/// Calls a book; says whether it answers so.
fn is_answered(rt: &impl Abort, alloc: Global, book: &mut Book<Brand>, call: Call) -> bool {
    match call {
        Call::Open(seat, credits, wanted) => book.open(seat, credits) == wanted,
        Call::Stop(seat, credits, homes, wanted) => {
            stop(rt, alloc, book, seat, credits, homes) == wanted
        }
        Call::Take(wanted) => taken(book) == wanted,
        Call::Settle => is_settled(rt, alloc, book),
        Call::Drop(seat) => {
            book.drop_open(seat);
            true
        }
        Call::Fail => {
            book.fail();
            true
        }
        Call::Shut => {
            book.shut();
            true
        }
    }
}

/// Checks the answers of a new book to the calls of a row.
fn check_calls(rt: &impl Abort, alloc: Global, book: &mut Book<Brand>, row: u64, calls: &[Call]) {
    for (number, &call) in calls.iter().enumerate() {
        let is_so = is_answered(rt, alloc, book, call);
        check_in(rt, is_so, row, "the answer to call", number as u64);
    }
}

#[test]
fn books_answer_as_worked_by_hand(rt: HostRuntime) {
    for (row, calls) in ROWS.iter().enumerate() {
        let mut book = Book::<Brand>::new(rt.alloc(), SHAPE, 32);
        check_calls(&rt, rt.alloc(), &mut book, row as u64, calls);
    }
}
