//! That a journal has failed.
ghost use Rattle.std.specs.Prelude.{◌≡◌, true};

use crate::queue_state::QueueState;
use jb_book::Origin;
use jb_disk::Disk;

/// A desk's book has failed: what was queued or taken in it is lost. Only a look at a desk's book under its lock gives
/// one; it does not say which desk. A book that has failed stays so.
#[derive(Clone, Copy, Debug, PartialEq, Eq)]
pub struct HasAborted {
    settled: u64,
}

impl HasAborted {
    /// How many handles are settled. No other ones will be.
    pub fn settled(&self) -> u64
        ensures { result ≡ self.now.settled }
    {
        self.settled
    }
}

impl<D: Disk, H: Origin> QueueState<D, H> {
    /// That the book has failed.
    pub fn failed(&self) -> HasAborted
        requires { self.now.register.book.aborted ≡ true }
        ensures { result.settled ≡ self.now.register.book.shadow.settled }
    {
        HasAborted {
            settled: self.register.book().settled(),
        }
    }
}
