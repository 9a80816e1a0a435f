//! How a book ends: it fails with its journal, or begins no more handles.
use crate::book::Book;
use crate::origin::Origin;

impl<H: Origin> Book<H> {
    ghost use Rattle.std.specs.Prelude.{◌≡◌, List, true};
    ghost use Rattle.jb_book.specs.Account.{failed_of};
    ghost use Rattle.jb_book.specs.Calls.{BookCall, Does, Failed, Shut};

    /// The journal has failed: the queue and the batch that is out are lost, and nothing is begun, stopped or taken
    /// any more. Open seats stay listed until their handles are dropped.
    pub fn fail(&mut self)
        ensures value { self.new ≡ failed_of self.old }
        /// A failure is a call of a book's list of calls.
        ensures does { (earlier : List BookCall) → Does Failed earlier self.old self.new }
    {
        self.queue.clear();
        self.credits.clear();
        self.taken = self.settled;
        self.line_sum = 0;
        self.aborted = true;
    }

    /// From now on no handle is begun. Open handles may still stop.
    pub fn shut(&mut self)
        ensures value { self.new ≡ record self.old { shut = true } }
        /// A shut is a call of a book's list of calls.
        ensures does { (earlier : List BookCall) → Does Shut earlier self.old self.new }
    {
        self.shut = true;
    }
}
