//! What becomes a committer, and what becomes of it.
ghost use Rattle.std.specs.Prelude.{◌≡◌, None, is_some, true, IfOk, IfErr};

use crate::committer::{Committer, Retired};
use crate::desk::Desk;
use crate::queue_state::HasAborted;
use crate::seat::Seat;
use jb_book::{Origin, Sights};
use jb_disk::{Clock, Disk};
use std::sync::Wait;

impl<D: Disk, C: Clock, H: Origin> Desk<D, C, H> {
    ghost use Rattle.jb_book.specs.Marks.{HasFailedMark, SeesSame};
    ghost use Rattle.jb_desk.specs.Rounds.{seat_of, held_by};

    /// A seat becomes a committer, which holds no batch.
    pub fn committer(&self, seat: Seat<H>) -> Committer<H>
        /// A committer holds no batch at first.
        ensures { (seat_of result ≡ seat) × (held_by result ≡ None) }
    {
        Committer { seat, batch: None }
    }

    /// A committer that holds no batch ends, as does one of a journal that has failed, whose batch is lost.
    ///
    /// # Errors
    ///
    /// The committer, where it holds a batch that may still be committed.
    pub fn retire<R: Wait>(
        &self,
        rt: &R,
        committer: Committer<H>,
    ) -> Result<Retired<H>, Committer<H>>
        ensures seat { IfOk result (λ left. left.seat ≡ seat_of committer) }
        ensures lost { IfOk result (λ left. is_some left.lost ≡ is_some (held_by committer)) }
        /// With `lost`: Only a committer with a batch is handed back when it retires; where one with a batch retires,
        /// the book has failed.
        ensures back { IfErr result (λ back. (back ≡ committer) × (is_some (held_by committer) ≡ true)) }
    {
        let Committer { seat, batch } = committer;
        let Some(batch) = batch else {
            return Ok(Retired { seat, lost: None });
        };
        let released = self.queue.lock(rt).release(batch);
        match released {
            Ok(failed) => Ok(Retired {
                seat,
                lost: Some(failed),
            }),
            Err(batch) => Err(Committer {
                seat,
                batch: Some(batch),
            }),
        }
    }

    /// A committer ends. Where it holds a batch, this is lost, and the journal has failed then: no handle is begun,
    /// stopped or committed any more.
    pub fn give_up<R: Wait>(&self, rt: &R, committer: Committer<H>) -> Retired<H>
        /// With `lost`: A committer that gives up gives its seat back; where it held a batch, the book has failed.
        ensures seat { result.seat ≡ seat_of committer }
        ensures lost { is_some result.lost ≡ is_some (held_by committer) }
    {
        let Committer { seat, batch } = committer;
        let lost = self.queue.lock(rt).give_up(&self.histories.stops, batch);
        self.signals.tell();
        self.waits.wake_all();
        Retired { seat, lost }
    }

    /// The journal has failed, as was seen at a mark.
    pub(crate) fn fail<R: Wait>(&self, rt: &R, seen: &mut Sights<D, H>) -> HasAborted
        requires { HasFailedMark seen.old.marks }
        ensures { SeesSame seen.old seen.new }
    {
        let failed = self.queue.lock(rt).fail(&self.histories, seen);
        self.signals.tell();
        self.waits.wake_all();
        failed
    }
}
