//! How committers and checkpointers end, and that all that stopped is done then.
ghost use Rattle.std.specs.Prelude.{◌≡◌, ◌+◌, ◌^◌};
ghost use Rattle.jb_desk.specs.Desks.{desk_id};
ghost use Rattle.jb_desk.specs.Seats.{desk_of};
ghost use Rattle.jb_handle.specs.Word.{WordMap};

use crate::checks::check;
use crate::closing::{check_close, is_closed, left, over_at};
use crate::journal::{Small, refused, retired, seated, write};
use crate::trials::{Trial, run};
use jb_board::Front;
use jb_deck::CheckpointFault;
use jb_desk::{Origin, Retired, Seat};
use std::alloc::Global;
use std::process::Abort;
use std::sync::Wait;
use std::time::Clock;

/// How far the two handles have come at the end.
const DONE: Front = Front {
    settled: 2,
    taken: 2,
    stopped: 2,
};

/// A committer without a batch gives up, and two handles stop.
fn stop_two<R: Abort + Wait, H: Origin>(rt: &R, desk: &Small<H>, seat: Seat<H>) -> Seat<H>
    requires any { (words : WordMap) → H.begun.stops words }
    requires desk { desk_of seat ≡ desk_id desk.now }
    ensures { desk_of result ≡ desk_id desk.now }
{
    let Retired { seat, lost: _ } = desk.give_up(rt, desk.committer(seat));
    let (seat, begun) = refused(rt, desk, seat, 1);
    check(
        rt,
        begun.is_none(),
        "a begin after a committer without a batch has given up",
    );
    let (seat, _) = write(rt, desk, seat, 1, &[1]);
    let (seat, _) = write(rt, desk, seat, 2, &[2, 3]);
    seat
}

/// A committer and a checkpointer end at a desk that is shut, with two handles settled.
fn end<R: Abort + Wait + Clock, H: Origin>(rt: &R, desk: &Small<H>, seat: Seat<H>) -> Seat<H>
    requires desk { desk_of seat ≡ desk_id desk.now }
    ensures { desk_of result ≡ desk_id desk.now }
{
    desk.shut(rt);
    let (committer, ended) = desk.run_committer(rt, desk.committer(seat));
    check(rt, over_at(ended) == Some(2), "how the committer ends");
    let (mut seat, _) = retired(rt, desk, committer);
    let front = desk.front(&mut seat);
    check(rt, front == DONE, "how far the handles have come");
    let ended = desk.run_checkpointer(rt);
    check(rt, over_at(ended) == Some(2), "how the checkpointer ends");
    let last = desk.checkpoint_round(rt);
    check(
        rt,
        last == Err(CheckpointFault::Nothing),
        "a group is left in the log",
    );
    seat
}

/// Two handles stop at a new desk, which is shut then.
pub fn shut<R: Abort + Wait + Clock, H: Origin>(rt: &R, alloc: Global, desk: Small<H>)
    requires any { (words : WordMap) → H.begun.stops words }
    requires parts { H.parts ≡ 2 ^ 61 + 1 }
{
    let seat = stop_two(rt, &desk, seated(rt, &desk));
    let seat = end(rt, &desk, seat);
    let lefts = left(rt, alloc, &desk, seat);
    check(rt, is_closed(rt, &desk), "a desk that is shut gives a seat");
    check_close(rt, "the desk", desk, lefts, (2, 3, 1))
}

#[test]
fn a_desk_that_is_shut_ends_with_all_done(rt: HostRuntime) {
    run(&rt, rt.alloc(), Trial::Ends)
}
