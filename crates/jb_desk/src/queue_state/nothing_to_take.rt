//! That there is nothing to commit.
ghost use Rattle.std.specs.Prelude.{◌≡◌, false};

use crate::queue_state::QueueState;
use jb_board::Front;
use jb_book::Origin;
use jb_disk::Disk;

/// There was nothing to take: the journal had not failed, and no handle waited or a batch was out. Only a look at a
/// desk's book under its lock gives one; it says neither of which desk nor when.
#[derive(Clone, Copy, Debug, PartialEq, Eq)]
pub struct NothingToTake {
    seen: Front,
    ghost none: { seen.taken ≡ seen.settled → seen.stopped ≡ seen.taken },
}

impl NothingToTake {
    /// How far the handles had come. Where no batch was out, all that had stopped were settled.
    pub fn seen(&self) -> Front
        ensures seen { result ≡ self.now.seen }
        ensures none { result.taken ≡ result.settled → result.stopped ≡ result.taken }
    {
        self.seen
    }
}

impl<D: Disk, H: Origin> QueueState<D, H> {
    ghost use Rattle.jb_board.specs.Front.{front};
    ghost use Rattle.jb_book.specs.Account.{CanTake};

    /// That there is nothing to take.
    pub fn nothing_to_take(&self) -> NothingToTake
        requires running { self.now.register.book.aborted ≡ false }
        requires none { CanTake self.now.register.book → ⊥ }
        // What says that a round found nothing to take comes from a look at a book that has not failed and has nothing
        // to take, and shows its counts.
        ensures { result.seen ≡ front self.now.register.book.shadow.settled self.now.register.book.shadow.taken
            self.now.register.book.shadow.next }
    {
        // for the proof alone: only the clause of a method says that the book is sound
        let _reserved = self.register.book().reserved();
        NothingToTake {
            seen: Front {
                settled: self.register.book().settled(),
                taken: self.register.book().taken(),
                stopped: self.register.book().next(),
            },
        }
    }
}
