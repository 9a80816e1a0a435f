//! The batch that is out is settled.
ghost use Rattle.std.specs.Prelude.{◌≡◌, ◌↔◌, All, IsTrue};
ghost use Rattle.jb_deck.specs.Done.{entries_of, first_ticket, past_after};

use super::{Register, look};
use crate::fault::WrongBatch;
use crate::follow::end_of;
use crate::origin::Origin;
use crate::sights::{Histories, Sights};
use jb_deck::Done;
use jb_disk::Disk;
use jb_handle::Shape;

impl<D: Disk, H: Origin> Register<D, H> {
    ghost use Rattle.jb_book.specs.CallsToBook.{FailsAfter, IsOutAs, IsSettling, SettlesOrFails};
    ghost use Rattle.jb_book.specs.Marks.{HasFailedMark, IsMarked, SeesSame};

    /// Settles the batch that is out, whole: a batch of this shape that ends at this ticket, whose handles were seen,
    /// and its groups at a mark. Of any other batch the book fails.
    ///
    /// # Errors
    ///
    /// `WrongBatch` where it is not the batch that is out, or not all of it is committed. The book has failed then.
    pub fn settle(
        &mut self,
        histories: &Histories<D, H>,
        seen: &mut Sights<D, H>,
        done: &Done,
        end: u64,
        shape: Shape,
    ) -> Result<(), WrongBatch>
        requires settling { IsSettling seen.old.stops end shape done.now }
        requires marked { All (IsMarked seen.old.marks) (entries_of done.now) }
        /// A settle takes a batch exactly where it is the one that is being committed, by its first ticket, its end and
        /// its shape, and all of it is committed; otherwise the book has failed and nothing is settled. Edit:
        /// `settle_loses_the_last_handles`.
        ensures settles { SettlesOrFails end shape done.now self.old.book result self.new.book }
        ensures log { self.new.log ≡ self.old.log }
        ensures kept { SeesSame seen.old seen.new }
    {
        // for the proof alone: only the clause of a method says that the book is sound
        let _reserved = self.book.reserved();
        look(&histories.stops, &mut self.appender, &mut seen.stops);
        histories.marks.learn(&mut self.seen, &mut seen.marks);
        if !self.is_whole(done, end, shape) {
            self.book.fail();
            return Err(WrongBatch);
        }
        match self.book.settle(done) {
            Ok(()) => Ok(()),
            Err(wrong) => {
                self.book.fail();
                Err(wrong)
            }
        }
    }

    /// Settles what was committed of the batch that is out before the journal failed, as was seen at a mark, and fails
    /// with it.
    ///
    /// # Errors
    ///
    /// `WrongBatch` where it is not the batch that is out. The book has failed without it then.
    pub fn settle_last(
        &mut self,
        histories: &Histories<D, H>,
        seen: &mut Sights<D, H>,
        done: &Done,
        end: u64,
        shape: Shape,
    ) -> Result<(), WrongBatch>
        requires settling { IsSettling seen.old.stops end shape done.now }
        requires marked { All (IsMarked seen.old.marks) (entries_of done.now) }
        requires failed { HasFailedMark seen.old.marks }
        /// After a failure the settled groups of the batch that is being committed go into the book, and it fails in
        /// the same step.
        ensures fails { FailsAfter end shape done.now self.old.book result self.new.book }
        ensures log { self.new.log ≡ self.old.log }
        ensures kept { SeesSame seen.old seen.new }
    {
        // for the proof alone: only the clause of a method says that the book is sound
        let _reserved = self.book.reserved();
        look(&histories.stops, &mut self.appender, &mut seen.stops);
        histories.marks.learn(&mut self.seen, &mut seen.marks);
        if !self.is_out(done.first(), end, shape) {
            self.book.fail();
            return Err(WrongBatch);
        }
        let settled = self.book.settle(done);
        self.book.fail();
        settled
    }

    /// Whether the batch that is out has these tickets and this shape.
    fn is_out(&self, first: u64, end: u64, shape: Shape) -> bool
        ensures { IsTrue result ↔ IsOutAs self.now.book first end shape }
    {
        first == self.book.settled() && end == self.book.taken() && self.book.shape() == shape
    }

    /// Whether these are groups of the batch that is out, up to its end.
    fn is_whole(&self, done: &Done, end: u64, shape: Shape) -> bool
        ensures { IsTrue result ↔ (IsOutAs self.now.book (first_ticket done.now) end shape
            × (past_after (first_ticket done.now) (entries_of done.now) ≡ end)) }
    {
        self.is_out(done.first(), end, shape) && end_of(done) == end
    }
}
