//! What a thread has of a desk, and what it leaves there.
ghost use Rattle.std.specs.Prelude.{◌≡◌, length};

use jb_board::{BoardSeat, OwnEntries};
use jb_book::Origin;
use jb_handle::Words;
use std::sync::ledger::Share;

/// A thread's place at a desk: its number in the book, its seat at the board, its share of the ledger in
/// which its stops are counted, and what the history of the desk's stops has of it, by which the blocks that
/// they touched are. It must be used up: it leaves the desk or goes into a handle, and cannot be dropped by
/// accident.
#[must_use]
pub struct Seat<H: Origin> {
    pub(crate) number: u64,
    pub(crate) board: BoardSeat,
    pub(crate) handles: Share<H>,
    pub(crate) made: OwnEntries<Words, H>,
    ghost part_of_handles: { handles.parts ≡ 1 },
    ghost all_made: { length made ≡ handles.amount },
}

/// What a seat leaves when it leaves its desk: its share and its stops, by which the desk is closed.
#[derive(Drop)]
pub struct Left<H: Origin> {
    pub(crate) handles: Share<H>,
    pub(crate) made: OwnEntries<Words, H>,
    ghost part_of_handles: { handles.parts ≡ 1 },
    ghost all_made: { length made ≡ handles.amount },
}
