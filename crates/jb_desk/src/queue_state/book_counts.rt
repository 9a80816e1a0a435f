//! What a look at a book has seen.
ghost use Rattle.std.specs.Prelude.{◌≡◌, ◌≤◌};

use crate::queue_state::QueueState;
use jb_book::Origin;
use jb_disk::Disk;

/// How many tickets of a book were taken, and how many settled. Only a look at the book under its lock gives one.
#[derive(Clone, Copy)]
pub(crate) struct BookCounts {
    taken: u64,
    settled: u64,
}

impl BookCounts {
    /// The tickets below it were taken.
    pub fn taken(&self) -> u64
        ensures { result ≡ self.now.taken }
    {
        self.taken
    }
}

impl<D: Disk, H: Origin> QueueState<D, H> {
    /// How far the book has come.
    pub fn seen(&self) -> BookCounts
        ensures counts { (result.taken ≡ self.now.register.book.shadow.taken)
            × (result.settled ≡ self.now.register.book.shadow.settled) }
        ensures ordered { result.settled ≤ result.taken }
    {
        // for the proof alone: only the clause of a method says that the book is sound
        let _reserved = self.register.book().reserved();
        BookCounts {
            taken: self.register.book().taken(),
            settled: self.register.book().settled(),
        }
    }
}
