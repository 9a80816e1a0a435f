//! What threads have seen of the handles that stopped, and of the journal's marks.
ghost use Rattle.std.specs.Prelude.{◌<◌, IsTrue, ◌↔◌, length};

use crate::desk::Desk;
use jb_book::{Origin, Sights};
use jb_disk::{Clock, Disk};
use std::sync::Wait;

impl<D: Disk, C: Clock, H: Origin> Desk<D, C, H> {
    ghost use Rattle.jb_book.specs.Marks.{SeesMore, SeesSame};

    /// What can be seen now of the handles that stopped and of the journal's marks, with which a thread stops, waits
    /// and reads.
    pub fn sights<R: Wait>(&self, rt: &R) -> Sights<D, H> {
        self.queue.lock(rt).sights(&self.histories)
    }

    /// Sees what another thread has seen, too: so what one has stopped or waited for, another may rely on.
    pub fn inform(&self, seen: &mut Sights<D, H>, other: &mut Sights<D, H>)
        /// With `other`: What another thread has seen is seen.
        ensures own { SeesMore seen.old seen.new }
        ensures other { SeesMore other.old seen.new }
        ensures kept { SeesSame other.old other.new }
    {
        self.histories.learn(seen, other);
    }

    /// Sees all handles that have stopped, so that a later [`stop`](Desk::stop) gives a higher ticket, and says whether
    /// one of them has this ticket. It waits for no commit.
    pub fn see<R: Wait>(&self, rt: &R, seen: &mut Sights<D, H>, ticket: u64) -> bool
        ensures given { IsTrue result ↔ ticket < length seen.new.stops }
        /// With `given`: What says whether a handle has a ticket: the ticket is among those that the thread has seen
        /// then. [But see](docs/WRONG_BODIES.md#the-calls-of-a-desk).
        ensures sees { SeesMore seen.old seen.new }
    {
        self.queue.lock(rt).see(&self.histories, seen, ticket)
    }
}
