//! That a batch is out.
ghost use Rattle.std.specs.Prelude.{◌≡◌};

use crate::queue_state::{BookCounts, HasAborted, QueueState};
use jb_book::Origin;
use jb_disk::Disk;
use jb_handle::Shape;

/// A batch is out: the tickets that were taken from a book and not settled when it was looked at, for a journal of this
/// shape. It must be used up, under the book's lock: the batch is settled or given up, or the book has failed.
#[must_use]
pub(crate) struct OutstandingBatch {
    counts: BookCounts,
    shape: Shape,
}

impl OutstandingBatch {
    /// How far the book had come when the batch was taken.
    pub fn counts(&self) -> &BookCounts
        ensures { result.now ≡ self.now.counts }
    {
        &self.counts
    }

    /// The batch is out no more, as its book has failed.
    pub fn lose(self, _failed: &HasAborted) {
        let _lost = self.end();
    }

    /// The batch is out no more. Gives the ticket after its last handle, and its shape.
    pub(super) fn end(self) -> (u64, Shape)
        ensures { (result.0 ≡ self.counts.taken) × (result.1 ≡ self.shape) }
    {
        let OutstandingBatch { counts, shape } = self;
        (counts.taken(), shape)
    }
}

impl<D: Disk, H: Origin> QueueState<D, H> {
    /// That the tickets are out which are taken and not settled.
    pub(super) fn out(&self) -> OutstandingBatch
        ensures tickets { (result.counts.settled ≡ self.now.register.book.shadow.settled)
            × (result.counts.taken ≡ self.now.register.book.shadow.taken) }
        ensures shape { result.shape ≡ self.now.register.book.shape }
    {
        OutstandingBatch {
            counts: self.seen(),
            shape: self.register.book().shape(),
        }
    }
}
