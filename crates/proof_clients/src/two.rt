//! Two handles.
ghost use Rattle.std.specs.Prelude.{◌≡◌, ◌++◌, IfSome};
ghost use Rattle.jb_handle.specs.Handle.{changes_of};
ghost use Rattle.proof_clients.specs.BookClient.{Stand};

use crate::calls::{settle, stop};
use jb_block::Stamp;
use jb_book::Book;
use jb_book::laws::every_run;
use jb_deck::{Deck, Entry};
use jb_disk::Disk;
use jb_handle::Handle;
use std::alloc::Global;

/// Two seats begin a handle each, with a new book, and both stop, the first one first. The queue is taken and
/// committed, what is committed is settled, and the book fails. Gives the groups that are settled. `None` where
/// a call was refused.
///
/// No group is settled; or one, which has the first handle or both; or two, which have a handle each. A handle is
/// in its group with its ticket and with all of its words.
pub fn two_handles<D: Disk>(
    alloc: Global,
    deck: &mut Deck<D>,
    stamp: Stamp,
    first: Handle<()>,
    second: Handle<()>,
) -> Option<Vec<Entry>>
    ensures told { IfSome result (λ trail. deck.new.trail ≡ deck.old.trail ++ trail.items) }
    /// With `told`: Of two handles that stop at a new book and are committed, the groups that the journal settles are
    /// the first ones of a least cut, and have the handles whole.
    ensures stand { IfSome result (λ trail. Stand deck.old.shape (changes_of first).words (changes_of second).words
        trail.items) }
{
    every_run();
    let mut book = Book::new(alloc, deck.shape(), u64::from(deck.usable()));
    let _first = book.open(1, first.credits());
    let _second = book.open(2, second.credits());
    let one = stop(&mut book, 1, first);
    let two = stop(&mut book, 2, second);
    let _one = one?;
    let _two = two?;
    settle(alloc, &mut book, deck, stamp)?;
    book.fail();
    Some(book.into_trail())
}
