//! Entries are taken from the front of a book's trail.
use crate::book::Book;
use crate::follow::{count_to, first_start, start_of_last};
use crate::origin::Origin;
use crate::room::drop_entries;

impl<H: Origin> Book<H> {
    ghost use Rattle.std.specs.Prelude.{◌≡◌, ◌≤◌, ◌^◌};
    ghost use Rattle.jb_deck.specs.Done.{start_of};
    ghost use Rattle.jb_book.specs.Account.{last_start, shortened};

    /// The ticket at which the trail begins: that of the first handle whose group's entry was not taken.
    pub fn start(&self) -> u64
        ensures value { result ≡ start_of self.now.trail }
        ensures settled { result ≤ self.now.shadow.settled }
        ensures given { self.now.shadow.settled ≤ self.now.shadow.next }
        ensures few { self.now.shadow.next ≤ 2 ^ 61 }
    {
        first_start(&self.trail)
    }

    /// The ticket of the first handle of the last settled group, 0 where none is settled.
    pub fn last_start(&self) -> u64
        ensures { result ≡ last_start self.now.trail }
    {
        start_of_last(&self.trail)
    }

    /// Drops the entries at the front of the trail that end at this ticket or before it; the last entry stays. Takes
    /// no memory, and gives none back.
    pub(crate) fn drop_to(&mut self, past: u64)
        ensures { self.new ≡ shortened past self.old }
    {
        let count = count_to(&self.trail, past);
        drop_entries(&mut self.trail, count);
    }
}
