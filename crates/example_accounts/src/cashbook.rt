//! What the threads share of the accounts, under a lock.
ghost use Rattle.std.specs.Prelude.{◌++◌, ◌≡◌, None, [], ◌∷◌};
ghost use Rattle.example_accounts.specs.Postings.{ArePostings, ComesAfter, IsPosting, last_posting};

use crate::posting::Posting;
use jb_board::{Appender, History, Place, Prefix};
use std::marker::Model;

/// What the handles of a run have made of the accounts: the last posting, and to a contract all of them, in the order
/// of their tickets.
#[derive(Drop)]
pub struct Cashbook<L: Place> {
    last: Option<Posting>,
    postings: Appender<Posting, L>,
}

impl<L: Place> Model for Cashbook<L> {
    ghost use Rattle.std.specs.Prelude.{◌≡◌, List, None};
    ghost use Rattle.example_accounts.specs.Postings.{ArePostings, last_posting};
    ghost use Rattle.example_accounts.specs.declared.posting.Posting.{Posting};

    ghost Value = { List Posting };

    ghost view = { λ book. book.postings };

    ghost invariant = { λ book. ArePostings None book.postings × (book.last ≡ last_posting None book.postings) };
}

impl<L: Place> Cashbook<L> {
    /// One in which nothing is posted yet.
    pub fn new(postings: Appender<Posting, L>) -> Cashbook<L>
        requires { postings ≡ [] }
        ensures { result ≡ [] }
    {
        Cashbook {
            last: None,
            postings,
        }
    }

    /// The last posting.
    pub fn last(&self) -> Option<Posting>
        ensures { result ≡ last_posting None self.now }
    {
        self.last
    }

    /// Posts what a handle has made of the accounts, and shows all postings.
    pub fn post(&mut self, history: &History<Posting, L>, posting: Posting) -> Prefix<Posting, L>
        requires posting { IsPosting posting }
        requires comes { ComesAfter (last_posting None self.old) posting }
        ensures posted { self.new ≡ self.old ++ posting ∷ [] }
        ensures shown { result ≡ self.new }
    {
        let mut made = history.enter();
        history.add(&mut self.postings, &mut made, &posting);
        self.last = Some(posting);
        self.show(history)
    }

    /// All postings.
    pub fn show(&mut self, history: &History<Posting, L>) -> Prefix<Posting, L>
        ensures shown { result ≡ self.old }
        ensures kept { self.new ≡ self.old }
    {
        history.show(&mut self.postings)
    }

    /// The postings, once no thread has the book.
    pub fn into_postings(self) -> Appender<Posting, L>
        ensures same { result ≡ self }
        ensures follow { ArePostings None result }
    {
        let Cashbook { last: _, postings } = self;
        postings
    }
}
