ghost use Rattle.std.specs.Prelude.{◌≡◌, ◌+◌, ◌<◌, ◌≤◌, ◌^◌, ◌⊎◌, true, None, IsTrue, ◌↔◌};
ghost use Rattle.std.specs.Prelude.{OnOk, IfOk, IfErr, IfSome, IfNone, [], length};
ghost use Rattle.jb_desk.specs.Parts.{ledger_parts};

mod aborted;
mod batch_out;
mod book_counts;
mod drained;
mod handling;
mod lefts;
mod nothing_to_take;
mod progress;
mod rounds;
mod taking;
mod unsettled;
mod waiting;

use crate::fault::WaitFault;
use crate::seat::{Left, Seat};
pub use aborted::HasAborted;
pub(crate) use batch_out::OutstandingBatch;
pub(crate) use book_counts::BookCounts;
pub use drained::Drained;
use jb_board::{BoardSeat, OwnEntries, Tickets};
use jb_book::{Book, Histories, Origin, Register, Sights};
use jb_disk::Disk;
use jb_handle::Words;
pub use nothing_to_take::NothingToTake;
pub(crate) use progress::Progress;
use std::sync::ledger;
use std::sync::ledger::{Blank, Share};

/// The most seats of a desk.
const MOST: u64 = 1 << 61;

/// What the first lock of a desk guards: the book with the history of its stops and what was seen of the marks, and the
/// ledger in which the handles that stopped are counted, of which the parts that no seat has are spare.
#[derive(Drop)]
pub(crate) struct QueueState<D: Disk, H: Origin> {
    register: Register<D, H>,
    handles: ledger::Book<H>,
    spare_handles: Share<H>,
    /// how many seats were given
    given: u64,
    /// how many handles a committer puts its round off for
    wanted: u64,
    /// whether a handle waits for room
    is_room_wanted: bool,
    /// whether an odd number of batches was taken
    is_odd: bool,
    ghost handles_counted: { handles.total ≡ register.book.shadow.next },
    ghost handles_left: { spare_handles.parts + given ≡ ledger_parts },
    ghost no_handles: { spare_handles.amount ≡ 0 },
    ghost few: { given < ledger_parts },
}

impl<D: Disk, H: Origin> QueueState<D, H> {
    ghost use Rattle.jb_book.specs.Account.{dropped_of};
    ghost use Rattle.jb_desk.specs.Refusals.{unsettled_fault};
    ghost use Rattle.jb_book.specs.Account.{AnswersNumber, IsAwaited};
    ghost use Rattle.jb_book.specs.Marks.{AreShown, SeesMore};
    ghost use Rattle.jb_desk.specs.Seats.{stops, changes, made_by, stops_left, changes_left, made_left};
    ghost use Rattle.jb_board.specs.Seats.{given_by};

    /// A book of which nobody has asked anything, with its history, and a ledger in which nothing is counted.
    pub fn new(register: Register<D, H>, handles: Blank) -> QueueState<D, H>
        requires handles { (handles.name ≡ H.name) × (handles.parts ≡ H.parts) × (H.parts ≡ ledger_parts) }
        requires fresh { register.book.shadow.next ≡ 0 }
        ensures { result.register ≡ register }
    {
        let (handles, spare_handles) = handles.open::<H>();
        QueueState {
            register,
            handles,
            spare_handles,
            given: 0,
            wanted: 0,
            is_room_wanted: false,
            is_odd: false,
        }
    }

    /// One more seat, with this place at the board. `None` where the book is shut, or where 2^61 seats
    /// were given.
    pub fn seat(&mut self, board: BoardSeat, made: OwnEntries<Words, H>) -> Option<Seat<H>>
        requires { made ≡ [] }
        ensures seat { IfSome result (λ seat. (seat.board ≡ board) × (stops seat ≡ 0) × (changes seat ≡ 0)
            × (made_by seat ≡ [])) }
        ensures number { IfSome result (λ seat. (seat.number ≡ self.old.given)
            × (self.new.given ≡ self.old.given + 1)) }
        ensures none { IfNone result ((self.old.register.book.shut ≡ true) ⊎ (2 ^ 61 ≤ self.old.given)) }
        ensures kept { IfNone result (self.new.given ≡ self.old.given) }
        ensures book { self.new.register.book ≡ self.old.register.book }
    {
        if self.register.book().is_shut() || self.given >= MOST {
            return None;
        }
        let number = self.given;
        let QueueState {
            spare_handles,
            given,
            ..
        } = self;
        let handles = spare_handles.split_off(1, 0);
        *given += 1;
        Some(Seat {
            number,
            board,
            handles,
            made,
        })
    }

    /// A seat leaves. A handle that the book still lists for it is dropped.
    pub fn leave(&mut self, seat: Seat<H>) -> Left<H>
        ensures left { (stops_left result ≡ stops seat) × (changes_left result ≡ changes seat)
            × (made_left result ≡ made_by seat) }
        ensures book { self.new.register.book ≡ dropped_of seat.number self.old.register.book }
    {
        let Seat {
            number,
            board: _,
            handles,
            made,
        } = seat;
        self.register.drop_open(number);
        Left { handles, made }
    }

    /// From now on no seat is given and no handle is begun.
    pub fn shut(&mut self)
        ensures { self.new.register.book ≡ record self.old.register.book { shut = true } }
    {
        self.register.shut();
    }

    /// Whether a ticket that some handle has may yet be settled.
    pub fn is_awaited(&self, ticket: u64) -> bool
        ensures { IsTrue result ↔ IsAwaited self.now.register.book ticket }
    {
        !self.register.book().is_aborted()
            && self.register.book().settled() <= ticket
            && ticket < self.register.book().next()
    }

    /// The number of the transaction that settled a ticket; `None` where its entry was taken. A mark at which it was
    /// settled is seen then.
    ///
    /// # Errors
    ///
    /// Where it is not settled: `Aborted` if the journal has failed, and otherwise `Unknown`.
    pub fn number_of(
        &mut self,
        histories: &Histories<D, H>,
        seen: &mut Sights<D, H>,
        ticket: u64,
    ) -> Result<Option<u32>, WaitFault>
        ensures ok { IfOk result (AnswersNumber self.old.register.book ticket) }
        ensures shown { IfOk result (AreShown seen.new.marks ticket) }
        ensures begins { SeesMore seen.old seen.new }
        ensures settled { OnOk result ((ticket < 2 ^ 61) × (ticket < self.old.register.book.shadow.settled)
            × (ticket < self.old.register.book.shadow.next)) }
        ensures err { IfErr result (λ fault. (self.old.register.book.shadow.settled ≤ ticket)
            × (fault ≡ unsettled_fault self.old.register.book)) }
        ensures book { self.new.register.book ≡ self.old.register.book }
    {
        let mut all = self.register.sights(histories);
        histories.learn(seen, &mut all);
        if ticket < self.register.book().start() {
            return Ok(None);
        }
        match self.register.book().number_of(ticket) {
            Some(number) => Ok(Some(number)),
            None if self.register.book().is_aborted() => Err(WaitFault::Aborted),
            None => Err(WaitFault::Unknown),
        }
    }

    /// That the book's tickets were given: those that wait, and all before them.
    pub fn tickets(&self) -> Tickets<H>
        // What raises the count of stopped tickets comes from the ledger that the book's next ticket is counted in,
        // under the lock.
        ensures given { given_by result ≡ self.now.register.book.shadow.next }
        ensures taken { self.now.register.book.shadow.taken ≤ given_by result }
    {
        // for the proof alone: only the clause of a method says that the book is sound
        let _reserved = self.register.book().reserved();
        Tickets::of(&self.handles, self.register.book().next())
    }

    /// What can be seen: all that stopped, and marks of all that is settled.
    pub fn sights(&mut self, histories: &Histories<D, H>) -> Sights<D, H>
        ensures { self.new.register.book ≡ self.old.register.book }
    {
        self.register.sights(histories)
    }

    /// Sees all that has stopped, and whether a handle has this ticket: then it is seen, and else it is not.
    pub fn see(&mut self, histories: &Histories<D, H>, seen: &mut Sights<D, H>, ticket: u64) -> bool
        ensures given { IsTrue result ↔ ticket < length seen.new.stops }
        ensures sees { SeesMore seen.old seen.new }
        ensures book { self.new.register.book ≡ self.old.register.book }
    {
        let next = self.register.book().next();
        let mut all = self.register.sights(histories);
        histories.learn(seen, &mut all);
        self.register.look(&histories.stops, &mut seen.stops);
        ticket < next
    }

    /// How many seats were given.
    pub fn given(&self) -> u64
        ensures { result ≡ self.now.given }
    {
        self.given
    }

    /// The book.
    pub fn book(&self) -> &Book<H>
        ensures { result.now ≡ self.now.register.book }
    {
        self.register.book()
    }
}
