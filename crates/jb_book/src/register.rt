//! The book beside the history of its stops.
ghost use Rattle.std.specs.Prelude.{◌≡◌, ℕ, ◌≤◌, All, [], length, None, true};
ghost use Rattle.std.specs.Prelude.{OnOk, OnErr, IfOk, IfErr, IfSome, IfNone};
ghost use Rattle.jb_handle.specs.Handle.{holder, changes_of};
ghost use Rattle.jb_plan.specs.Batch.{gathered};
ghost use Rattle.jb_plan.specs.Costs.{HasCut};
ghost use Rattle.jb_deck.specs.Done.{Follow, start_of};
ghost use Rattle.jb_board.specs.HistoryRule.{IsFirstPart};

mod settling;

use crate::book::Book;
use crate::fault::{BeginFault, EnqueueFault};
use crate::origin::{Marks, Origin};
use crate::sights::{Histories, Sights};
use jb_board::{Appender, History, OwnEntries, Prefix};
use jb_deck::{Batch, Deck, Entry};
use jb_disk::Disk;
use jb_handle::{Handle, Shape, Words};
use std::alloc::Global;
use std::marker::Model;

/// The book, the right to add to the history of stops, and marks that show all that the book has settled, and the shape
/// of the journal that it is for. By whichever least cut the batch that is out will be committed, some calls of a new
/// book led to it, and what stopped by these is the history.
#[derive(Drop)]
pub struct Register<D: Disk, H: Origin> {
    book: Book<H>,
    appender: Appender<Words, H>,
    seen: Prefix<Deck<D>, Marks<H>>,
}

impl<D: Disk, H: Origin> Model for Register<D, H> {
    ghost use Rattle.std.specs.Coded.{codes};
    ghost use Rattle.jb_handle.specs.Word.{words_code};
    ghost use Rattle.jb_book.specs.CallsToBook.{Registered, registered, IsRegistered};
    ghost use Rattle.jb_book.specs.Marks.{AreOfBook};

    ghost Value = { Registered };

    ghost coded = { Prim.hlevel (codes, words_code) };

    ghost view = { λ r. registered r.book r.appender };

    ghost invariant = { λ r. IsRegistered r.book r.appender × AreOfBook r.seen r.book };
}

impl<D: Disk, H: Origin> Register<D, H> {
    ghost use Rattle.jb_book.specs.Account.{IsNewBook, granted_to, dropped_of, taken_all, shortened};
    ghost use Rattle.jb_book.specs.Account.{failed_of, begin_refusal, RefusesBegin, RefusesStop, CanTake};
    ghost use Rattle.jb_book.specs.CallsToBook.{IsInHistory, IsLed};
    ghost use Rattle.jb_book.specs.CallsToBook.{IsMachineRun, Queues, changes_in};
    ghost use Rattle.jb_book.specs.Marks.{HasFailedMark, HasShapeMark, IsMarked, SeesSame, SeesStop};
    ghost use Rattle.jb_book.specs.Origin.{AreStops};

    /// A book in which nothing has happened yet, for a journal of this shape with this many usable log blocks, as was
    /// seen at a mark, and a history without an entry. Takes no memory.
    pub fn new(
        alloc: Global,
        shape: Shape,
        usable: u64,
        appender: Appender<Words, H>,
        seen: Prefix<Deck<D>, Marks<H>>,
    ) -> Register<D, H>
        requires few { usable ≤ 2147483646 }
        requires journal { HasShapeMark seen shape }
        requires fresh { appender ≡ [] }
        ensures book { IsNewBook shape usable result.book }
        ensures log { result.log ≡ [] }
    {
        let book = Book::new(alloc, shape, usable);
        Register {
            book,
            appender,
            seen,
        }
    }

    /// A seat begins a handle of this many credits.
    ///
    /// # Errors
    ///
    /// Those of [`Book::open`], and nothing has changed.
    pub fn open(&mut self, seat: u64, credits: u32) -> Result<(), BeginFault>
        ensures ok { OnOk result (self.new.book ≡ granted_to seat credits self.old.book) }
        ensures granted { OnOk result (begin_refusal self.old.book seat credits ≡ None) }
        ensures err { OnErr result (self.new ≡ self.old) }
        ensures refused { IfErr result (RefusesBegin self.old.book seat credits) }
        ensures log { self.new.log ≡ self.old.log }
    {
        self.book.open(seat, credits)
    }

    /// A seat's open handle joins the queue, and its words the history, as made for this token. Gives the handle's seat
    /// back, and the ticket, which is higher than those of the handles that were seen; this one is seen then.
    ///
    /// # Errors
    ///
    /// Those of [`Book::enqueue`], with the handle, and nothing has changed.
    pub fn stop<T>(
        &mut self,
        history: &History<Words, H>,
        made: &mut OwnEntries<Words, H>,
        prefix: &mut Prefix<Words, H>,
        seat: u64,
        handle: Handle<T>,
    ) -> Result<(T, u64), (Handle<T>, EnqueueFault)>
        requires { H.begun.stops (changes_of handle).words }
        /// With `sees`: A stop puts the words of its handle at the end of the history, as made for its seat.
        ensures ok { IfOk result (λ given. Queues seat (holder handle) (changes_of handle).words self.old made.old given
            self.new made.new) }
        ensures sees { IfOk result (λ given. SeesStop prefix.old prefix.new given.1 (changes_of handle).words) }
        ensures err { OnErr result ((self.new ≡ self.old) × (made.new ≡ made.old) × (prefix.new ≡ prefix.old)) }
        ensures back { IfErr result (λ back. back.0 ≡ handle) }
        ensures refused { IfErr result (λ back. RefusesStop self.old.book seat (changes_of handle).words back.1) }
    {
        // for the proof alone: only the clause of a method says that the book is sound
        let _reserved = self.book.reserved();
        look(history, &mut self.appender, prefix);
        match self.book.enqueue(seat, handle) {
            Ok(given) => {
                self.book.record_last(history, &mut self.appender, made);
                let mut all = history.show(&mut self.appender);
                history.learn(prefix, &mut all);
                Ok(given)
            }
            Err(back) => Err(back),
        }
    }

    /// Drops a seat's open handle with all of its changes. Does nothing where the seat has none.
    pub fn drop_open(&mut self, seat: u64)
        ensures book { self.new.book ≡ dropped_of seat self.old.book }
        ensures log { self.new.log ≡ self.old.log }
    {
        self.book.drop_open(seat);
    }

    /// Takes the whole queue as a batch, with a prefix that has its handles. `None` where nothing is queued, where a
    /// batch is out, or where the book has failed.
    pub fn take(&mut self, history: &History<Words, H>) -> Option<(Batch, Prefix<Words, H>)>
        ensures batch { IfSome result (λ taken. taken.0 ≡ gathered self.old.book.shadow.taken
            self.old.book.shadow.queue self.old.book.shape) }
        ensures cut { IfSome result (λ _. HasCut self.old.book.shape self.old.book.shadow.queue) }
        ensures stops { IfSome result (λ taken. AreStops H.begun taken.0.handles) }
        ensures taken { IfSome result (λ _. CanTake self.old.book × (self.new.book ≡ taken_all self.old.book)) }
        ensures recorded { IfSome result (λ taken. All (IsInHistory taken.1) taken.0.handles) }
        ensures none { IfNone result ((CanTake self.old.book → ⊥) × (self.new ≡ self.old)) }
        ensures log { self.new.log ≡ self.old.log }
    {
        // for the proof alone: only the clause of a method says that the book is sound
        let _reserved = self.book.reserved();
        let prefix = history.show(&mut self.appender);
        match self.book.take() {
            Some(batch) => Some((batch, prefix)),
            None => None,
        }
    }

    /// The journal has failed, as was seen at a mark: the queue and the batch that is out are lost.
    pub fn fail(&mut self, histories: &Histories<D, H>, seen: &mut Sights<D, H>)
        requires { HasFailedMark seen.old.marks }
        ensures book { self.new.book ≡ failed_of self.old.book }
        ensures log { self.new.log ≡ self.old.log }
        ensures kept { SeesSame seen.old seen.new }
    {
        histories.marks.learn(&mut self.seen, &mut seen.marks);
        self.book.fail();
    }

    /// A batch whose handles stopped, as was seen, is lost, and the queue with it: nobody could settle its tickets any
    /// more.
    pub fn give_up(&mut self, history: &History<Words, H>, prefix: Prefix<Words, H>, batch: Batch)
        requires { All (IsInHistory prefix) batch.handles }
        ensures book { self.new.book ≡ failed_of self.old.book }
        ensures log { self.new.log ≡ self.old.log }
    {
        history.check(&mut self.appender, prefix);
        let _lost = batch.end();
        self.book.fail();
    }

    /// From now on no handle is begun. Open handles may still stop.
    pub fn shut(&mut self)
        ensures book { self.new.book ≡ record self.old.book { shut = true } }
        ensures log { self.new.log ≡ self.old.log }
    {
        self.book.shut();
    }

    /// Drops the entries at the front of the trail that end at this ticket or before it; the last entry stays.
    pub fn drop_to(&mut self, past: u64)
        ensures book { self.new.book ≡ shortened past self.old.book }
        ensures log { self.new.log ≡ self.old.log }
    {
        self.book.drop_to(past);
    }

    /// What can be seen: all that stopped, and marks of all that is settled.
    pub fn sights(&mut self, histories: &Histories<D, H>) -> Sights<D, H>
        ensures stops { result.stops ≡ self.old.log }
        /// With `stops`: What can be seen of a register is all that stopped, and marks of all that is settled.
        ensures marks { All (IsMarked result.marks) self.old.book.trail }
        ensures kept { self.new ≡ self.old }
    {
        Sights {
            stops: histories.stops.show(&mut self.appender),
            marks: histories.marks.again(&mut self.seen),
        }
    }

    /// Looks at the history, which has all that was seen of it: each ticket that was seen is below the next one.
    pub fn look(&mut self, history: &History<Words, H>, prefix: &mut Prefix<Words, H>)
        ensures seen { length prefix.old ≤ self.old.book.shadow.next }
        ensures kept { (self.new ≡ self.old) × (prefix.new ≡ prefix.old) }
    {
        look(history, &mut self.appender, prefix);
    }

    /// The book.
    pub fn book(&self) -> &Book<H>
        ensures value { result.now ≡ self.now.book }
        /// Whenever a desk's lock is free, there is such a list of calls that leads from a new book to the one under
        /// the lock, and the handles that stop in it are the history of stops. Edit: `settle_trusts_another_history`.
        ensures led { IsLed self.now.log self.now.book }
        ensures counted { length self.now.log ≡ self.now.book.shadow.next }
    {
        &self.book
    }

    /// Takes it apart, into the book's trail, the right to add to the history, and the marks that were seen, at one of
    /// which the journal had the book's shape. The stops in the history and the groups of the trail are those of events
    /// that the machine of handles accepts.
    pub fn end(self) -> (Vec<Entry>, Appender<Words, H>, Prefix<Deck<D>, Marks<H>>)
        ensures parts { (result.0.items ≡ self.book.trail) × (result.1 ≡ self.log) }
        ensures counted { length result.1 ≡ self.book.shadow.next }
        /// The blocks that the book has counted are those that the stops in the history touched, added up.
        ensures touched { self.book.changes ≡ changes_in self.log }
        ensures tiles { (past : ℕ) × Follow (start_of result.0.items) 0 past result.0.items
            × (past ≤ self.book.shadow.next) }
        /// The history and the trail of a register that ends are the stops and the settled groups of events that the
        /// machine accepts. Edit: `settle_loses_the_last_handles`.
        ensures run { IsMachineRun self.book.shape self.log result.0.items }
        ensures journal { HasShapeMark result.2 self.book.shape }
    {
        // for the proof alone: only the clause of a method says that the book is sound
        let _reserved = self.book.reserved();
        let Register {
            book,
            appender,
            seen,
        } = self;
        (book.into_trail(), appender, seen)
    }
}

/// Looks at the history, which has all that a prefix of it has.
fn look<H: Origin>(
    history: &History<Words, H>,
    appender: &mut Appender<Words, H>,
    prefix: &mut Prefix<Words, H>,
)
    ensures seen { IsFirstPart prefix.old appender.old }
    ensures kept { (appender.new ≡ appender.old) × (prefix.new ≡ prefix.old) }
{
    let mut seen = history.show(appender);
    history.learn(&mut seen, prefix);
    history.check(appender, seen);
}
