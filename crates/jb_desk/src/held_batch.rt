//! A batch that a committer holds.
ghost use Rattle.std.specs.Prelude.{◌≡◌};

use crate::queue_state::{HasAborted, OutstandingBatch};
use jb_board::{Prefix, Tickets};
use jb_book::Origin;
use jb_deck::Batch;
use jb_handle::Words;
use std::marker::Model;

/// A batch of one handle at least, which has a cut within the journal's limit, and whose handles stopped with words
/// that a handle may stop with (`H.begun`); that its tickets were given and are out; and a prefix of the history
/// of stops that has its handles. It must be used up, as the batch in it.
#[must_use]
pub struct HeldBatch<H: Origin> {
    batch: Batch,
    tickets: Tickets<H>,
    prefix: Prefix<Words, H>,
    out: OutstandingBatch,
}

impl<H: Origin> Model for HeldBatch<H> {
    ghost use Rattle.std.specs.Coded.{codes};
    ghost use Rattle.jb_board.specs.Seats.{given_by};
    ghost use Rattle.jb_handle.specs.Word.{words_code};
    ghost use Rattle.jb_plan.specs.Batch.{Gathered};
    ghost use Rattle.jb_desk.specs.BatchOut.{IsOut};

    ghost Value = { Gathered };

    ghost coded = { Prim.hlevel (codes, words_code) };

    ghost view = { λ h. h.batch };

    ghost invariant = { λ h. IsOut H.begun h.batch (given_by h.tickets) h.prefix h.out };
}

impl<H: Origin> HeldBatch<H> {
    ghost use Rattle.jb_board.specs.Seats.{given_by};
    ghost use Rattle.jb_desk.specs.BatchOut.{IsOut};

    /// A batch to be held.
    pub(crate) fn of(
        batch: Batch,
        tickets: Tickets<H>,
        prefix: Prefix<Words, H>,
        out: OutstandingBatch,
    ) -> HeldBatch<H>
        requires { IsOut H.begun batch (given_by tickets) prefix out }
        ensures { result ≡ batch }
    {
        HeldBatch {
            batch,
            tickets,
            prefix,
            out,
        }
    }

    /// The batch again, that its tickets were given, what has its handles, and that it is out.
    pub(crate) fn end(self) -> (Batch, Tickets<H>, Prefix<Words, H>, OutstandingBatch)
        ensures batch { result.0 ≡ self }
        // A batch that is held for a round has handles of the history of stops, with their words; it has the tickets
        // and the shape with which it is out.
        ensures out { IsOut H.begun result.0 (given_by result.1) result.2 result.3 }
    {
        let HeldBatch {
            batch,
            tickets,
            prefix,
            out,
        } = self;
        (batch, tickets, prefix, out)
    }

    /// The batch is lost, as its book has failed.
    pub(crate) fn lose(self, failed: &HasAborted) {
        let (batch, _, _, out) = self.end();
        out.lose(failed);
        let _lost = batch.end();
    }
}
