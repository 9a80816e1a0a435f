//! Entries are taken from the front of the trail.
use crate::desk::Desk;
use jb_block::Memory;
use jb_book::Origin;
use jb_deck::Entry;
use jb_disk::{Clock, Disk};
use std::sync::Wait;

impl<D: Disk, C: Clock, H: Origin> Desk<D, C, H> {
    ghost use Rattle.jb_book.specs.Journal.{GivesTrail};

    /// Takes the entries of groups that are settled and home from the front of the trail, which so does not grow for
    /// ever. The last entry always stays. A [`wait`](Desk::wait) for a ticket of an entry that was taken answers
    /// `Taken`, and [`close`](Desk::close) gives only the entries that were not. Waits while the disk is at work for
    /// another thread; the book is not locked meanwhile.
    ///
    /// # Errors
    ///
    /// `Memory` where there is none for the entries: none is taken.
    pub fn take_trail<R: Wait>(&self, rt: &R) -> Result<Vec<Entry>, Memory>
        /// The entries that are taken from the trail are the first ones of such a journal, of groups that are home, and
        /// never the last one. It was given the same handles after it. [But
        /// see](docs/WRONG_BODIES.md#the-calls-of-a-desk). Edit: `take_trail_goes_past_the_books_last_group`.
        ensures { GivesTrail D.Disk H.begun result }
    {
        // the book may be behind the journal, never ahead of it; what it has last stays in both
        let past = self.queue.lock(rt).last_start();
        let taken = self.journal.lock(rt).take_trail(past);
        let taken = taken?;
        if let Some(entry) = taken.last() {
            self.queue.lock(rt).drop_to(entry.past);
        }
        Ok(taken)
    }
}
