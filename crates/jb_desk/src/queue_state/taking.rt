//! Entries are taken from the front of the book's trail.
use crate::queue_state::QueueState;
use jb_book::Origin;
use jb_disk::Disk;

impl<D: Disk, H: Origin> QueueState<D, H> {
    ghost use Rattle.std.specs.Prelude.{◌≡◌};
    ghost use Rattle.jb_book.specs.Account.{last_start, shortened};

    /// The ticket of the first handle of the last settled group, 0 where none is settled.
    pub fn last_start(&self) -> u64
        ensures { result ≡ last_start self.now.register.book.trail }
    {
        self.register.book().last_start()
    }

    /// Drops the entries at the front of the trail that end at this ticket or before it; the last entry stays.
    pub fn drop_to(&mut self, past: u64)
        ensures { self.new.register.book ≡ shortened past self.old.register.book }
    {
        self.register.drop_to(past);
    }
}
