//! Home blocks are read as they are committed.
ghost use Rattle.std.specs.Prelude.{length};

use crate::desk::Desk;
use jb_book::{Origin, Sights};
use jb_deck::ReadHomeFault;
use jb_disk::{Clock, Disk};
use std::sync::Wait;

impl<D: Disk, C: Clock, H: Origin> Desk<D, C, H> {
    ghost use Rattle.jb_book.specs.Journal.{ReadsHome};
    ghost use Rattle.jb_book.specs.Marks.{SeesMore};

    /// Reads a home block as it is committed: the copy that is its last live word, which may not be in its place
    /// yet, or else what the disk holds there. What no round has committed is not in it. Waits while the
    /// disk is at work for another thread; the book is not locked. Takes no memory, and changes nothing. After
    /// a fault of the disk `buf` may hold anything. What was settled at the marks that were seen is settled in the
    /// journal that is read: a read after a [`wait`](Desk::wait) sees the handle that was waited for
    /// ([`laws::shown_is_given`](crate::laws::shown_is_given)). The journal as it is after the read is a mark that is
    /// seen then: where the disk is honest as the desk is [closed](Desk::close) with what was seen, it was honest in
    /// the read.
    ///
    /// # Errors
    ///
    /// Those of [`Deck::read_home`](jb_deck::Deck::read_home), in its order: `Aborted` where the journal has
    /// failed, `OutOfRange` where the disk has no such home block, `Length` where `buf` has not the length of
    /// one block, and `DeviceFault` where the read fails, which fails neither the journal nor the book.
    pub fn read<R: Wait>(
        &self,
        rt: &R,
        seen: &mut Sights<D, H>,
        home: u64,
        buf: &mut [u8],
    ) -> Result<(), ReadHomeFault>
        /// With `sees`: A read of a home gives what it holds in a journal that is as it must be since the start, or a
        /// refusal of the journal's own read, and changes nothing. This journal is a mark that is seen then: it was
        /// given handles of the history, and has settled what was settled at the marks that were seen. Where the disk
        /// is honest as the desk is closed with what was seen, it was so in the read. [But
        /// see](docs/WRONG_BODIES.md#the-calls-of-a-desk).
        ensures reads { ReadsHome D.Disk H.begun seen.new.stops seen.old.marks seen.new.marks home (length buf.old)
            buf.new result }
        ensures sees { SeesMore seen.old seen.new }
    {
        self.journal.lock(rt).read(&self.histories, seen, home, buf)
    }
}
