//! The board of a desk, whose counts go up to what is known of its book.
ghost use Rattle.std.specs.Prelude.{◌≡◌, ◌≤◌};
ghost use Rattle.jb_board.specs.Front.{front, InOrder, IsWithin};
ghost use Rattle.jb_board.specs.Seats.{board_id, given_by, seat_board, seat_view};
ghost use Rattle.jb_board.specs.Steps.{raised_settled, raised_stopped, raised_taken};

use crate::queue_state::BookCounts;
use jb_board::{Board, BoardSeat, Front, Tickets};
use jb_book::Origin;

/// The board of a desk. Its count of stopped tickets goes up to tickets that were given, and its counts of taken and of
/// settled ones up to those of a look at the book under its lock.
#[derive(Drop)]
pub(crate) struct SharedBoard<H: Origin> {
    board: Board<H>,
}

impl<H: Origin> SharedBoard<H> {
    /// This board.
    pub fn new(board: Board<H>) -> SharedBoard<H>
        ensures { result.board ≡ board }
    {
        SharedBoard { board }
    }

    /// A new seat, which has seen nothing.
    pub fn enter(&self) -> BoardSeat
        ensures board { seat_board result ≡ board_id self.now.board }
        ensures view { seat_view result ≡ front 0 0 0 }
    {
        self.board.enter()
    }

    /// One more seat, which is sure of what `seat` is sure of.
    pub fn split(&self, seat: &mut BoardSeat) -> BoardSeat
        requires { seat_board seat.old ≡ board_id self.now.board }
        ensures board { seat_board result ≡ board_id self.now.board }
        ensures view { seat_view result ≡ seat_view seat.old }
        ensures kept { (seat_board seat.new ≡ seat_board seat.old) × (seat_view seat.new ≡ seat_view seat.old) }
    {
        self.board.split(seat)
    }

    /// The counts.
    pub fn look(&self, seat: &mut BoardSeat) -> Front
        requires { seat_board seat.old ≡ board_id self.now.board }
        ensures board { seat_board seat.new ≡ seat_board seat.old }
        ensures view { seat_view seat.new ≡ result }
        ensures ordered { InOrder result }
        ensures rises { IsWithin (seat_view seat.old) result }
    {
        self.board.look(seat)
    }

    /// The tickets below this one have stopped: they were given.
    pub fn raise_stopped(&self, seat: &mut BoardSeat, count: u64, tickets: &Tickets<H>)
        requires here { seat_board seat.old ≡ board_id self.now.board }
        requires given { count ≤ given_by tickets.now }
        ensures board { seat_board seat.new ≡ seat_board seat.old }
        ensures view { seat_view seat.new ≡ raised_stopped (seat_view seat.old) count }
    {
        self.board.raise_stopped(seat, count, tickets);
    }

    /// The tickets below this one are taken: so they were when the book was seen.
    pub fn raise_taken(&self, seat: &mut BoardSeat, count: u64, seen: &BookCounts)
        requires here { seat_board seat.old ≡ board_id self.now.board }
        requires stopped { count ≤ (seat_view seat.old).stopped }
        requires seen { count ≤ seen.now.taken }
        ensures board { seat_board seat.new ≡ seat_board seat.old }
        ensures view { seat_view seat.new ≡ raised_taken (seat_view seat.old) count }
    {
        // for the proof alone: who has it has looked at the book under its lock; the code needs no more of it
        let _seen = seen;
        self.board.raise_taken(seat, count);
    }

    /// The tickets below this one are settled: so they were when the book was seen.
    pub fn raise_settled(&self, seat: &mut BoardSeat, count: u64, seen: &BookCounts)
        requires here { seat_board seat.old ≡ board_id self.now.board }
        requires taken { count ≤ (seat_view seat.old).taken }
        requires seen { count ≤ seen.now.settled }
        ensures board { seat_board seat.new ≡ seat_board seat.old }
        ensures view { seat_view seat.new ≡ raised_settled (seat_view seat.old) count }
    {
        // for the proof alone: who has it has looked at the book under its lock; the code needs no more of it
        let _seen = seen;
        self.board.raise_settled(seat, count);
    }
}
