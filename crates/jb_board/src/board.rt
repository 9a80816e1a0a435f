ghost use Rattle.std.specs.Prelude.{◌≡◌, ◌≤◌, [], IfOk};

use crate::front::Front;
use crate::rule::{Counts, SETTLED, STOPPED, TAKEN};
use crate::steps::{
    Kept, LoadSettled, LoadStopped, LoadTaken, NewSeat, RaiseSettled, RaiseStopped, RaiseTaken,
    Same,
};
use crate::tickets::Tickets;
use atomic_table::{Seat, Table};
use std::alloc::{AllocError as Memory, Global};
use std::marker::PhantomData;
use std::sync::ledger::Ledger;

/// Three counts that only rise, each a word of its own that threads read and raise in single steps. At
/// every moment settled <= taken <= stopped, and no seat has seen more than the counts are. The tickets are
/// those that the ledger `L` counts.
#[derive(Drop)]
pub struct Board<L: Ledger> {
    words: CountTable,
    ledger: PhantomData<L>,
}

/// The three words.
#[derive(Drop)]
struct CountTable {
    table: Table<(), Front, (), Counts, Global>,
    ghost three_words: { table.shared.table_id.words ≡ 3 },
}

/// What one thread uses to step on its board. It has no bytes: its view, the counts that it is sure of,
/// exists in contracts only. A seat may be dropped, or given to another thread.
#[derive(Drop)]
pub struct BoardSeat {
    seat: Seat<(), Front>,
    ghost no_slots: { seat.me.1 ≡ [] },
}

impl<L: Ledger> Board<L> {
    ghost use Rattle.jb_board.specs.Front.{front, InOrder, IsWithin};
    ghost use Rattle.jb_board.specs.Seats.{board_id, seat_board, seat_view, given_by};
    ghost use Rattle.jb_board.specs.Steps.{saw_settled, saw_taken, saw_stopped};
    ghost use Rattle.jb_board.specs.Steps.{raised_settled, raised_taken, raised_stopped};

    /// A board on which no ticket is counted, with its first seat.
    ///
    /// # Errors
    ///
    /// `Memory` where there is none for the three counts.
    pub fn new(alloc: Global) -> Result<(Board<L>, BoardSeat), Memory>
        ensures board { IfOk result (λ made. seat_board made.1 ≡ board_id made.0) }
        ensures view { IfOk result (λ made. seat_view made.1 ≡ front 0 0 0) }
    {
        let (table, seat) = Table::of_words(alloc, &[0, 0, 0], &())?;
        let board = Board {
            words: CountTable { table },
            ledger: PhantomData,
        };
        Ok((board, BoardSeat { seat }))
    }

    /// A seat that has seen nothing yet, for a thread that has no seat to split one off from.
    pub fn enter(&self) -> BoardSeat
        ensures board { seat_board result ≡ board_id self.now }
        ensures view { seat_view result ≡ front 0 0 0 }
    {
        let (_, seat) = self.words.table.shared.load_new_seat::<NewSeat>(STOPPED);
        BoardSeat { seat }
    }

    /// One more seat, which is sure of what `seat` is sure of.
    pub fn split(&self, seat: &mut BoardSeat) -> BoardSeat
        requires { seat_board seat.old ≡ board_id self.now }
        ensures board { seat_board result ≡ board_id self.now }
        ensures view { seat_view result ≡ seat_view seat.old }
        ensures kept { (seat_board seat.new ≡ seat_board seat.old) × (seat_view seat.new ≡ seat_view seat.old) }
    {
        let seat = self.words.table.shared.split_seat::<Same>(&mut seat.seat);
        BoardSeat { seat }
    }

    /// Ends the seat `other`; `seat` stays as it is.
    pub fn join(&self, seat: &mut BoardSeat, other: BoardSeat)
        requires here { seat_board seat.old ≡ board_id self.now }
        requires other { seat_board other ≡ board_id self.now }
        ensures kept { (seat_board seat.new ≡ seat_board seat.old) × (seat_view seat.new ≡ seat_view seat.old) }
    {
        let BoardSeat { seat: other } = other;
        self.words
            .table
            .shared
            .join_seat::<Kept>(&mut seat.seat, other);
    }

    /// Reads the three counts, settled first and stopped last. They are in order, though other threads
    /// may raise them meanwhile, and none is below what the seat was sure of.
    pub fn look(&self, seat: &mut BoardSeat) -> Front
        requires { seat_board seat.old ≡ board_id self.now }
        ensures board { seat_board seat.new ≡ seat_board seat.old }
        ensures view { seat_view seat.new ≡ result }
        /// `look` gives a triple in order. [But see](docs/WRONG_BODIES.md#the-calls-of-a-desk).
        ensures ordered { InOrder result }
        ensures rises { IsWithin (seat_view seat.old) result }
    {
        let settled = self.load_settled(seat);
        let taken = self.load_taken(seat);
        let stopped = self.load_stopped(seat);
        Front {
            settled,
            taken,
            stopped,
        }
    }

    /// Raises the count of stopped tickets to `count`, or leaves it where it is higher. That many tickets
    /// were given, as `tickets` shows.
    pub fn raise_stopped(&self, seat: &mut BoardSeat, count: u64, tickets: &Tickets<L>)
        requires here { seat_board seat.old ≡ board_id self.now }
        requires given { count ≤ given_by tickets.now }
        ensures board { seat_board seat.new ≡ seat_board seat.old }
        /// A raise of the count of stopped tickets leaves at least that many in its seat's view; it requires what shows
        /// that they were given.
        ensures view { seat_view seat.new ≡ raised_stopped (seat_view seat.old) count }
    {
        self.words
            .table
            .shared
            .fetch_max::<RaiseStopped>(&mut seat.seat, STOPPED, count);
    }

    /// Raises the count of taken tickets to `count`, or leaves it where it is higher. That many tickets
    /// have stopped, as the seat is sure.
    pub fn raise_taken(&self, seat: &mut BoardSeat, count: u64)
        requires here { seat_board seat.old ≡ board_id self.now }
        requires stopped { count ≤ (seat_view seat.old).stopped }
        ensures board { seat_board seat.new ≡ seat_board seat.old }
        ensures view { seat_view seat.new ≡ raised_taken (seat_view seat.old) count }
    {
        self.words
            .table
            .shared
            .fetch_max::<RaiseTaken>(&mut seat.seat, TAKEN, count);
    }

    /// Raises the count of settled tickets to `count`, or leaves it where it is higher. That many tickets
    /// were taken, as the seat is sure.
    pub fn raise_settled(&self, seat: &mut BoardSeat, count: u64)
        requires here { seat_board seat.old ≡ board_id self.now }
        requires taken { count ≤ (seat_view seat.old).taken }
        ensures board { seat_board seat.new ≡ seat_board seat.old }
        ensures view { seat_view seat.new ≡ raised_settled (seat_view seat.old) count }
    {
        self.words
            .table
            .shared
            .fetch_max::<RaiseSettled>(&mut seat.seat, SETTLED, count);
    }

    fn load_settled(&self, seat: &mut BoardSeat) -> u64
        requires { seat_board seat.old ≡ board_id self.now }
        ensures board { seat_board seat.new ≡ seat_board seat.old }
        ensures view { seat_view seat.new ≡ saw_settled (seat_view seat.old) result }
        ensures rises { (seat_view seat.old).settled ≤ result }
    {
        self.words
            .table
            .shared
            .load::<LoadSettled>(&mut seat.seat, SETTLED)
    }

    fn load_taken(&self, seat: &mut BoardSeat) -> u64
        requires { seat_board seat.old ≡ board_id self.now }
        ensures board { seat_board seat.new ≡ seat_board seat.old }
        ensures view { seat_view seat.new ≡ saw_taken (seat_view seat.old) result }
        ensures rises { (seat_view seat.old).taken ≤ result }
    {
        self.words
            .table
            .shared
            .load::<LoadTaken>(&mut seat.seat, TAKEN)
    }

    fn load_stopped(&self, seat: &mut BoardSeat) -> u64
        requires { seat_board seat.old ≡ board_id self.now }
        ensures board { seat_board seat.new ≡ seat_board seat.old }
        ensures view { seat_view seat.new ≡ saw_stopped (seat_view seat.old) result }
        ensures rises { (seat_view seat.old).stopped ≤ result }
    {
        self.words
            .table
            .shared
            .load::<LoadStopped>(&mut seat.seat, STOPPED)
    }
}
