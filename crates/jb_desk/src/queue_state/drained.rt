//! That a desk is over.
ghost use Rattle.std.specs.Prelude.{◌≡◌, false, IfSome, IfNone};

use crate::queue_state::QueueState;
use jb_book::Origin;
use jb_disk::Disk;

/// A desk is over: it is shut, no handle is open, queued or taken, and the journal has not failed. Only a look
/// at a desk's book under its lock gives one; it says neither of which desk nor when. A desk that is over stays so
/// until its journal fails.
#[derive(Clone, Copy, Debug, PartialEq, Eq)]
pub struct Drained {
    settled: u64,
}

impl Drained {
    /// How many handles had stopped, all of which are settled.
    pub fn settled(&self) -> u64
        ensures { result ≡ self.now.settled }
    {
        self.settled
    }
}

impl<D: Disk, H: Origin> QueueState<D, H> {
    ghost use Rattle.jb_book.specs.Account.{IsOver};

    /// That the desk is over, where it is.
    pub fn drained(&self) -> Option<Drained>
        // What says that a desk is over comes from a look at a book that is shut, with no handle open, queued or
        // taken, and that has not failed.
        ensures some { IfSome result (λ over. IsOver self.now.register.book × (self.now.register.book.aborted ≡ false)
            × (over.settled ≡ self.now.register.book.shadow.settled)) }
        ensures none { IfNone result (IsOver self.now.register.book → self.now.register.book.aborted ≡ false → ⊥) }
    {
        if self.register.book().is_aborted() || !self.register.book().is_over() {
            return None;
        }
        Some(Drained {
            settled: self.register.book().settled(),
        })
    }
}
