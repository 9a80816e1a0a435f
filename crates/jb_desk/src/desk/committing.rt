//! A committer at work.
ghost use Rattle.std.specs.Prelude.{◌≡◌};

use crate::committer::{Committer, Round, RoundFault};
use crate::delay::Delay;
use crate::desk::Desk;
use crate::desk::gathering::Pace;
use crate::ended::Ended;
use crate::queue_state::Drained;
use jb_book::Origin;
use jb_disk::{Clock, Disk};
use std::sync::Wait;
use std::time;

impl<D: Disk, C: Clock, H: Origin> Desk<D, C, H> {
    ghost use Rattle.jb_desk.specs.Desks.{desk_id};
    ghost use Rattle.jb_desk.specs.Ends.{EndsHolding};
    ghost use Rattle.jb_desk.specs.Rounds.{seat_of, held_by};
    ghost use Rattle.jb_desk.specs.Seats.{KeepsSeat, desk_of, view_of};
    ghost use Rattle.jb_board.specs.Front.{IsWithin};

    /// Commits what stops, round after round, until the desk is over, or until a round fails.
    pub fn run_committer<R: Wait + time::Clock>(
        &self,
        rt: &R,
        committer: Committer<H>,
    ) -> (Committer<H>, Ended)
        requires { desk_of (seat_of committer) ≡ desk_id self.now }
        ensures seat { KeepsSeat (seat_of committer) (seat_of result.0) }
        ensures rises { IsWithin (view_of (seat_of committer)) (view_of (seat_of result.0)) }
        ensures held { EndsHolding result.1 (held_by result.0) }
    {
        self.run_committer_after(rt, committer, Delay::none())
    }

    /// The same, where each round is put off by a delay.
    pub fn run_committer_after<R: Wait + time::Clock>(
        &self,
        rt: &R,
        committer: Committer<H>,
        delay: Delay,
    ) -> (Committer<H>, Ended)
        requires { desk_of (seat_of committer) ≡ desk_id self.now }
        ensures seat { KeepsSeat (seat_of committer) (seat_of result.0) }
        ensures rises { IsWithin (view_of (seat_of committer)) (view_of (seat_of result.0)) }
        /// With `rises`, `seat`: A committer holds a batch where it ends `Memory` or `Refused`, and none where it ends
        /// `Shut` or `Aborted`. The counts of its seat do not fall, and what the seat has stopped is as it was. With
        /// every delay. [But see](docs/WRONG_BODIES.md#the-calls-of-a-desk).
        ensures held { EndsHolding result.1 (held_by result.0) }
    {
        let (mut committer, mut pace) = (committer, Pace::new(delay));
        let mut seen = self.sights(rt);
        for _ in rt.forever() {
            self.gather(rt, &committer, &mut pace);
            match self.commit_round(rt, &mut committer, &mut seen) {
                Ok(Round::Committed(_)) => pace.end(rt),
                Ok(Round::Idle(_)) => {
                    if let Some(over) = self.await_work(rt) {
                        return (committer, Ended::Shut(over));
                    }
                }
                Err(RoundFault::Aborted(_) | RoundFault::DeviceFault(_)) => {
                    return (committer, Ended::Aborted);
                }
                Err(RoundFault::Memory) => return (committer, Ended::Memory),
                Err(RoundFault::Refused) => return (committer, Ended::Refused),
            }
        }
        unreachable!()
    }

    /// Waits until there is a batch to take, or none can come any more, as the desk is over or the journal has
    /// failed.
    fn await_work<R: Wait>(&self, rt: &R) -> Option<Drained> {
        let queue = self.queue.lock(rt);
        let queue = self
            .signals
            .stopped
            .wait_while(rt, queue, |queue| queue.rests());
        queue.drained()
    }
}
