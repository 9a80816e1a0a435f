//! Calls of a book, each of which adds to a list of calls.
ghost use Rattle.std.specs.Prelude.{◌≡◌, ◌++◌, Ok, None, IfSome};
ghost use Rattle.jb_handle.specs.Handle.{changes_of};
ghost use Rattle.jb_plan.specs.Prepare.{IsPlanned};
ghost use Rattle.jb_deck.specs.Done.{entries_of};
ghost use Rattle.jb_book.specs.Calls.{Enqueued};
ghost use Rattle.proof_clients.specs.BookClient.{CallLeads, SettlesQueue, TellsFirstGroups, IsPlanOf};

use jb_block::Stamp;
use jb_book::Book;
use jb_book::laws::commit_tells;
use jb_deck::{BatchFault, Deck, Done};
use jb_disk::Disk;
use jb_handle::Handle;
use jb_plan::{Batch, Prepared, prepare};
use std::alloc::Global;
use std::marker::Brand;

/// The handle of a seat stops. `None` where the book refuses it.
pub fn stop(book: &mut Book<Brand>, seat: u64, handle: Handle<()>) -> Option<u64>
    ensures { IfSome result
        (λ ticket. CallLeads (Enqueued seat (changes_of handle).words (Ok ticket)) book.old book.new) }
{
    match book.enqueue(seat, handle) {
        Ok((_, ticket)) => Some(ticket),
        Err((handle, _)) => {
            let (_, _words) = handle.end();
            None
        }
    }
}

/// Takes the queue, commits it, and settles in the book what is committed. `None` where nothing is queued or
/// committed.
pub fn settle<D: Disk>(
    alloc: Global,
    book: &mut Book<Brand>,
    deck: &mut Deck<D>,
    stamp: Stamp,
) -> Option<()>
    ensures { IfSome result (λ _. SettlesQueue book.old book.new deck.old.trail deck.new.trail) }
{
    let batch = book.take()?;
    let prepared = plan(alloc, batch)?;
    let done = commit(deck, prepared, stamp)?;
    match book.settle(&done) {
        Ok(()) => Some(()),
        Err(_) => None,
    }
}

/// Cuts a batch into groups. `None` where memory runs out, or no cut fits.
fn plan(alloc: Global, batch: Batch) -> Option<Prepared>
    ensures { IfSome result (IsPlanOf batch) }
{
    match prepare(alloc, batch) {
        Ok(prepared) => Some(prepared),
        Err((batch, _)) => {
            let _handles = batch.end();
            None
        }
    }
}

/// Commits a batch. `None` where the deck refuses it; after a fault of the disk, the groups that are settled.
fn commit<D: Disk>(deck: &mut Deck<D>, prepared: Prepared, stamp: Stamp) -> Option<Done>
    requires { IsPlanned prepared }
    ensures tells { IfSome result (TellsFirstGroups prepared) }
    ensures trail { IfSome result (λ done. deck.new.trail ≡ deck.old.trail ++ entries_of done) }
{
    commit_tells::<D>();
    match deck.commit_batch(prepared, stamp) {
        Ok(done) => Some(done),
        Err(BatchFault::DeviceFault { settled }) => Some(settled),
        Err(BatchFault::WrongTicket(back, _)) => refuse(back),
        Err(
            BatchFault::Aborted(back)
            | BatchFault::OtherShape(back)
            | BatchFault::NumbersSpent(back)
            | BatchFault::Memory(back),
        ) => refuse(back),
    }
}

/// Ends a batch that is not committed.
fn refuse(prepared: Prepared) -> Option<Done>
    ensures { result ≡ None }
{
    let _handles = prepared.back().end();
    None
}
