ghost use Rattle.std.specs.Prelude.{◌≡◌, ℕ, ◌+◌, ◌^◌, ◌≤◌, List, Some, None};
ghost use Rattle.std.specs.Prelude.{OnOk, OnErr, IfOk, IfErr, IfSome, IfNone, MatchResult};
ghost use Rattle.jb_handle.specs.Handle.{holder, changes_of};
ghost use Rattle.jb_plan.specs.Batch.{gathered};
ghost use Rattle.jb_plan.specs.Costs.{HasCut};
ghost use Rattle.jb_deck.specs.Done.{entries_of};

mod ending;
mod readers;
mod taking;

use crate::fault::{BeginFault, EnqueueFault, WrongBatch};
use crate::follow::past_of;
use crate::origin::Origin;
use crate::room::{drop_first, make_room, push_all};
use jb_cost::{Geometry, most_credits};
use jb_deck::{Batch, Done, Entry};
use jb_handle::{Handle, Shape, Stopped, Words};
use std::alloc::Global;
use std::collections::BTreeMap;
use std::marker::{Model, PhantomData};
use std::mem;

/// The most tickets of a book, and the most credits that it grants in all.
const MOST: u64 = 1 << 61;

/// The book of a desk: which seats have an open handle, the queue of stopped handles, which tickets are taken and
/// settled, and the last groups that settled them. Each queued handle has words to stop with (`H.begun`).
#[derive(Drop)]
pub struct Book<H: Origin> {
    shape: Shape,
    usable: u64,
    most: u32,
    seats: BTreeMap<u64, u32>,
    queue: Vec<Stopped>,
    /// of the taken and of the queued handles
    credits: Vec<u32>,
    settled: u64,
    taken: u64,
    next: u64,
    /// the credits of the open handles, and those of the handles that wait
    open_sum: u64,
    line_sum: u64,
    granted: u64,
    changes: u64,
    trail: Vec<Entry>,
    /// the least number of a further group
    least: u64,
    shut: bool,
    aborted: bool,
    alloc: Global,
    origin: PhantomData<H>,
}

impl<H: Origin> Model for Book<H> {
    ghost use Rattle.std.specs.Coded.{codes};
    ghost use Rattle.jb_handle.specs.Word.{words_code};
    ghost use Rattle.jb_book.specs.Account.{Account};
    ghost use Rattle.jb_book.specs.Book.{account_of, IsBookKept};

    ghost Value = { Account };

    ghost coded = { Prim.hlevel (codes, words_code) };

    ghost view = { account_of };

    ghost invariant = { IsBookKept H.begun };
}

impl<H: Origin> Book<H> {
    ghost use Rattle.jb_book.specs.Origin.{AreStops};
    ghost use Rattle.jb_book.specs.Account.{IsNewBook, granted_to, dropped_of, queued, taken_all};
    ghost use Rattle.jb_book.specs.Account.{settled_to, has_no_room, begin_refusal, RefusesBegin};
    ghost use Rattle.jb_book.specs.Account.{IsOpenFor, CanStop, RefusesStop, CanTake, Settles};
    ghost use Rattle.jb_book.specs.Calls.{BookCall, Does, Opened, Enqueued, Dropped, Took, TookNone, Settled};
    ghost use Rattle.jb_book.specs.Calls.{Settled, Failed, Shut, AreOfFirst, IsCutOf, out_of, ticket_answered};

    /// A book in which nothing has happened yet, for a journal of this shape with this many usable log blocks. It
    /// takes no memory.
    pub fn new(alloc: Global, shape: Shape, usable: u64) -> Book<H>
        requires { usable ≤ 2147483646 }
        ensures { IsNewBook shape usable result }
    {
        Book {
            shape,
            usable,
            most: most_credits(Geometry::of(shape.bs, shape.width), shape.limit),
            seats: BTreeMap::new(alloc),
            queue: Vec::new(alloc),
            credits: Vec::new(alloc),
            settled: 0,
            taken: 0,
            next: 0,
            open_sum: 0,
            line_sum: 0,
            granted: 0,
            changes: 0,
            trail: Vec::new(alloc),
            least: 0,
            shut: false,
            aborted: false,
            alloc,
            origin: PhantomData,
        }
    }

    /// A seat begins a handle of this many credits (`jbd2_journal_start`).
    ///
    /// # Errors
    ///
    /// The first of these, and the book is as it was: `Aborted`, `Closed`, `Busy`, `TooManyCredits`, `Full`, and
    /// `Memory` where there is none for the seat.
    pub fn open(&mut self, seat: u64, credits: u32) -> Result<(), BeginFault>
        ensures ok { OnOk result (self.new ≡ granted_to seat credits self.old) }
        ensures granted { OnOk result (begin_refusal self.old seat credits ≡ None) }
        ensures err { OnErr result (self.new ≡ self.old) }
        ensures refused { IfErr result (RefusesBegin self.old seat credits) }
        /// A begin is a call of a book's list of calls, granted or refused.
        ensures does { (earlier : List BookCall) → Does (Opened seat credits result) earlier self.old self.new }
    {
        if self.aborted {
            return Err(BeginFault::Aborted);
        }
        if self.shut {
            return Err(BeginFault::Closed);
        }
        if self.seats.contains_key(&seat) {
            return Err(BeginFault::Busy);
        }
        if credits > self.most {
            return Err(BeginFault::TooManyCredits(self.most));
        }
        if self.is_full(credits) {
            return Err(BeginFault::Full(self.open_sum + self.line_sum));
        }
        match self.seats.insert(seat, credits) {
            Ok(_) => {
                self.open_sum += u64::from(credits);
                self.granted += u64::from(credits);
                Ok(())
            }
            Err(_) => Err(BeginFault::Memory),
        }
    }

    /// Whether there is no room for this many credits more, no ticket left, or too much granted in all.
    fn is_full(&self, credits: u32) -> bool
        ensures { result ≡ has_no_room self.now credits }
    {
        let tickets = self.next + self.seats.len() as u64;
        let credits = u64::from(credits);
        self.open_sum + self.line_sum + credits > self.usable
            || tickets >= MOST
            || self.granted + credits > MOST
    }

    /// A seat's open handle joins the queue, and gets the next ticket (`jbd2_journal_stop`). Gives the handle's seat
    /// back, and the ticket. The memory that the later `take` and `settle` need is taken here.
    ///
    /// # Errors
    ///
    /// The first of these, with the handle; the book is as it was: `Aborted`, `NotOpen`, and `Memory`.
    pub fn enqueue<T>(
        &mut self,
        seat: u64,
        handle: Handle<T>,
    ) -> Result<(T, u64), (Handle<T>, EnqueueFault)>
        requires { H.begun.stops (changes_of handle).words }
        ensures book { MatchResult result (λ _. self.new ≡ queued seat (changes_of handle).words self.old)
            (λ _. self.new ≡ self.old) }
        ensures open { OnOk result (CanStop self.old seat (changes_of handle).words) }
        ensures given { IfOk result (λ given. (given.0 ≡ holder handle) × (given.1 ≡ self.old.shadow.next)) }
        ensures few { IfOk result (λ given. given.1 ≤ 2 ^ 61) }
        ensures back { IfErr result (λ back. back.0 ≡ handle) }
        ensures refused { IfErr result (λ back. RefusesStop self.old seat (changes_of handle).words back.1) }
        /// A stop is a call of a book's list of calls, with the ticket that it answers or its refusal. Edit:
        /// `enqueue_forgets_the_words`.
        ensures does { (earlier : List BookCall) → Does (Enqueued seat (changes_of handle).words
            (ticket_answered result)) earlier self.old self.new }
    {
        if self.aborted {
            return Err((handle, EnqueueFault::Aborted));
        }
        let Some(credits) = self.open_for(seat, handle.words()) else {
            return Err((handle, EnqueueFault::NotOpen));
        };
        let entries = (self.next - self.settled) as usize + 1;
        match make_room(&mut self.trail, &mut self.queue, &mut self.credits, entries) {
            Ok(()) => {}
            Err(_) => return Err((handle, EnqueueFault::Memory)),
        }
        let ticket = self.next;
        let (holder, words) = handle.end();
        self.changes += words.len() as u64;
        self.queue.push_reserved(Stopped { ticket, words });
        self.credits.push_reserved(credits);
        self.seats.remove(&seat);
        self.open_sum -= u64::from(credits);
        self.line_sum += u64::from(credits);
        self.next += 1;
        Ok((holder, ticket))
    }

    /// The credits of a seat's open handle, where the words are within them and fit the shape.
    fn open_for(&self, seat: u64, words: &Words) -> Option<u32>
        ensures some { IfSome result (IsOpenFor self.now seat words.now) }
        ensures none { IfNone result ((credits : ℕ) → IsOpenFor self.now seat words.now credits → ⊥) }
    {
        let Some(&credits) = self.seats.get(&seat) else {
            return None;
        };
        if words.len() as u64 > u64::from(credits) {
            return None;
        }
        if !words.fit(self.shape) {
            return None;
        }
        Some(credits)
    }

    /// Drops a seat's open handle with all of its changes. Does nothing where the seat has none.
    pub fn drop_open(&mut self, seat: u64)
        ensures value { self.new ≡ dropped_of seat self.old }
        /// A handle that is dropped is a call of a book's list of calls.
        ensures does { (earlier : List BookCall) → Does (Dropped seat) earlier self.old self.new }
    {
        if let Some(credits) = self.seats.remove(&seat) {
            self.open_sum -= u64::from(credits);
        }
    }

    /// Takes the whole queue as a batch, which always has a cut. `None` where nothing is queued, where a batch is out,
    /// or where the book has failed.
    pub fn take(&mut self) -> Option<Batch>
        ensures batch { IfSome result (λ batch. batch ≡ gathered self.old.shadow.taken self.old.shadow.queue
            self.old.shape) }
        /// With `batch`: What a book's `take` gives is all handles that wait, in the order of their stops, and it has a
        /// cut within the limit ([example: `has_cut`](crates/proof_clients/src/examples/cuts.rt)).
        ///
        /// (By it a round of a desk takes its batch, under the lock; no clause of the desk says so.) Edit:
        /// `take_leaves_the_last_handle_out`.
        ensures cut { IfSome result (λ _. HasCut self.old.shape self.old.shadow.queue) }
        ensures stops { IfSome result (λ batch. AreStops H.begun batch.handles) }
        ensures taken { IfSome result (λ _. CanTake self.old × (self.new ≡ taken_all self.old)) }
        ensures none { IfNone result ((CanTake self.old → ⊥) × (self.new ≡ self.old)) }
        /// With `idles`: A take is a call of a book's list of calls, with each least cut of its batch, and so is one
        /// that gives none.
        ensures does { IfSome result (λ batch. (cut : List ℕ) → IsCutOf batch cut → (earlier : List BookCall)
            → Does (Took batch cut) earlier self.old self.new) }
        ensures idles { IfNone result ((earlier : List BookCall) → Does TookNone earlier self.old self.new) }
    {
        if self.aborted {
            return None;
        }
        if self.taken != self.settled {
            return None;
        }
        if self.queue.is_empty() {
            return None;
        }
        let first = self.taken;
        self.taken += self.queue.len() as u64;
        let handles = mem::replace(&mut self.queue, Vec::new(self.alloc));
        Some(Batch::of(first, handles, self.shape))
    }

    /// Settles the groups of a batch that is out. Without groups it changes nothing. Takes no memory.
    ///
    /// # Errors
    ///
    /// `WrongBatch` where the groups do not go on where the settled ones end, in tickets and numbers,
    /// or are not of the taken handles; the book is as it was.
    pub fn settle(&mut self, done: &Done) -> Result<(), WrongBatch>
        /// With `wrong`: `settle` accepts exactly entries that continue where the settled tickets end, up to a taken
        /// one, with numbers that rise.
        ensures ok { OnOk result ((past : ℕ) × Settles self.old past (entries_of done.now)
            × (self.new ≡ settled_to past (entries_of done.now) self.old)) }
        ensures wrong { OnErr result ((past : ℕ) → Settles self.old past (entries_of done.now) → ⊥) }
        ensures err { OnErr result (self.new ≡ self.old) }
        /// A settle of entries of the first groups that are being committed is a call of a book's list of calls, and so
        /// is one that is refused.
        ensures does { (earlier : List BookCall) → AreOfFirst (out_of earlier) (entries_of done.now)
            → Does (Settled (entries_of done.now) result) earlier self.old self.new }
    {
        let entries = done.entries();
        let Some((past, least)) = past_of(entries, self.settled, self.least, self.taken) else {
            return Err(WrongBatch);
        };
        push_all(&mut self.trail, entries);
        self.line_sum -= drop_first(&mut self.credits, (past - self.settled) as usize);
        self.least = least;
        self.settled = past;
        Ok(())
    }
}
