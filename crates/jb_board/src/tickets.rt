//! What shows that tickets were given.
ghost use Rattle.std.specs.Prelude.{◌≡◌, ◌≤◌};

use std::marker::PhantomData;
use std::sync::ledger::{Book, Ledger};

/// This many tickets were given at least, as their ledger counts them. Only who has the ledger's book makes
/// one, and a board's count of stopped tickets is raised no further than one shows.
#[derive(Drop)]
pub struct Tickets<L: Ledger> {
    count: u64,
    ledger: PhantomData<L>,
}

impl<L: Ledger> Tickets<L> {
    ghost use Rattle.jb_board.specs.Seats.{given_by};

    /// This many tickets were given. The ledger's book has counted as many.
    pub fn of(book: &Book<L>, count: u64) -> Tickets<L>
        requires { count ≤ book.now.total }
        /// What shows that tickets were given shows no more than their ledger has counted.
        ensures { given_by result ≡ count }
    {
        Tickets {
            count,
            ledger: PhantomData,
        }
    }
}
