//! What has stopped is committed.
ghost use Rattle.std.specs.Prelude.{◌≡◌, None, IfSome};
ghost use Rattle.jb_desk.specs.Desks.{desk_id};
ghost use Rattle.jb_desk.specs.Rounds.{seat_of};
ghost use Rattle.jb_desk.specs.Seats.{KeepsSeat, made_by, made_left, desk_of};
ghost use Rattle.jb_journal.specs.Run.{HasLeft};

use crate::gate::Gate;
use jb_desk::{Committer, Delay, Desk, Ended, Left, Origin, Retired, Seat};
use jb_disk::{Clock, Disk};
use std::sync::Wait;
use std::time::Duration;
use std::{thread, time};

/// How often a batch is tried for which there is no memory.
const TRIES: u32 = 100;

/// How long a committer waits before it tries such a batch again, in milliseconds.
const PAUSE: u64 = 10;

/// Commits, each round after the delay, until the desk is over or a round does not end well, and then leaves; a batch
/// that could not be committed is given up at once, so that nobody waits for it.
pub(crate) fn commit_all<D: Disk, C: Clock, R: Wait + time::Clock, H: Origin>(
    rt: &R,
    desk: &Desk<D, C, H>,
    delay: Delay,
    seat: Seat<H>,
) -> (Left<H>, Ended)
    requires { desk_of seat ≡ desk_id desk.now }
    ensures { made_left result.0 ≡ made_by seat }
{
    let (committer, ended) = commit_on(rt, desk, delay, desk.committer(seat));
    let Retired { seat, lost: _ } = match desk.retire(rt, committer) {
        Ok(left) => left,
        Err(committer) => desk.give_up(rt, committer),
    };
    (desk.leave(rt, seat), ended)
}

/// Commits, each round after the delay, until the desk is over or a round does not end well. Where there is no memory
/// for a batch, this is held, and tried again for a second, so that a journal does not fail as memory is short for a
/// moment.
fn commit_on<D: Disk, C: Clock, R: Wait + time::Clock, H: Origin>(
    rt: &R,
    desk: &Desk<D, C, H>,
    delay: Delay,
    committer: Committer<H>,
) -> (Committer<H>, Ended)
    requires { desk_of (seat_of committer) ≡ desk_id desk.now }
    ensures { KeepsSeat (seat_of committer) (seat_of result.0) }
{
    let mut committer = committer;
    for _ in 0..TRIES {
        let (next, ended) = desk.run_committer_after(rt, committer, delay);
        if ended != Ended::Memory {
            return (next, ended);
        }
        committer = next;
        thread::sleep(rt, Duration::from_millis(PAUSE));
    }
    (committer, Ended::Memory)
}

/// The same with a seat that was taken before, as a desk that is shut gives none; `None` where there is none. Comes to
/// the gate first.
pub(crate) fn commit_from<D: Disk, C: Clock, R: Wait + time::Clock, H: Origin>(
    rt: &R,
    desk: &Desk<D, C, H>,
    gate: &Gate,
    delay: Delay,
    place: &mut Option<Seat<H>>,
) -> Option<(Left<H>, Ended)>
    requires { IfSome place.old (λ seat. desk_of seat ≡ desk_id desk.now) }
    ensures taken { place.new ≡ None }
    ensures left { HasLeft place.old result }
{
    gate.pass(rt);
    match place.take() {
        Some(seat) => Some(commit_all(rt, desk, delay, seat)),
        None => None,
    }
}
