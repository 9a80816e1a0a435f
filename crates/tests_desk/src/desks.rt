//! Calls of a desk over the small journal, with the answers that its limits give by hand.
ghost use Rattle.std.specs.Prelude.{◌≡◌, ◌+◌, ◌^◌};
ghost use Rattle.jb_desk.specs.Desks.{desk_id};
ghost use Rattle.jb_desk.specs.Seats.{desk_of};
ghost use Rattle.jb_handle.specs.Word.{WordMap};

use crate::checks::check;
use crate::closing::{check_close, check_close_twice, is_closed, left, over_at};
use crate::journal::{SHAPE, Small, begun, refused, seated, stop};
use crate::trials::{Look, Trial, run};
use jb_board::Front;
use jb_deck::CheckpointFault;
use jb_desk::{BeginFault, EnqueueFault, Left, Origin, Seat, WaitFault};
use jb_handle::Handle;
use std::alloc::Global;
use std::process::Abort;
use std::sync::Wait;

/// One handle has stopped.
const STOPPED: Front = Front {
    settled: 0,
    taken: 0,
    stopped: 1,
};

/// A handle may have six credits, and no more.
fn check_credits<R: Abort + Wait, H: Origin>(rt: &R, desk: &Small<H>, seat: Seat<H>) -> Seat<H>
    requires desk { desk_of seat ≡ desk_id desk.now }
    ensures { desk_of result ≡ desk_id desk.now }
{
    let (seat, most) = refused(rt, desk, seat, 6);
    let (seat, more) = refused(rt, desk, seat, 7);
    check(rt, most.is_none(), "a begin with six credits");
    check(
        rt,
        more == Some(BeginFault::TooManyCredits(6)),
        "a begin with seven credits",
    );
    seat
}

/// A seat stops a handle that revokes a home.
fn check_stop<R: Abort + Wait, H: Origin>(rt: &R, desk: &Small<H>, seat: Seat<H>) -> Seat<H>
    requires any { (words : WordMap) → H.begun.stops words }
    requires desk { desk_of seat ≡ desk_id desk.now }
{
    let mut handle = begun(rt, desk, seat, 1, "one handle");
    let _refused = handle.revoke(1);
    let (mut seat, ticket) = stop(rt, desk, handle);
    let front = desk.front(&mut seat);
    let unknown = desk.wait(rt, &mut seat, &mut desk.sights(rt), 1);
    check(rt, ticket == Ok(0), "the ticket");
    check(rt, front == STOPPED, "the front");
    check(
        rt,
        unknown == Err(WaitFault::Unknown),
        "the number of a ticket that nobody has",
    );
    seat
}

/// What a seat finds that stops one handle, and what is counted at the end: handles, changes and groups.
pub fn one_handle<R: Abort + Wait, H: Origin>(rt: &R, alloc: Global, desk: Small<H>)
    requires any { (words : WordMap) → H.begun.stops words }
    requires parts { H.parts ≡ 2 ^ 61 + 1 }
{
    let seat = check_credits(rt, &desk, seated(rt, &desk));
    let seat = check_stop(rt, &desk, seat);
    let checked = desk.checkpoint_round(rt);
    check(
        rt,
        checked == Err(CheckpointFault::Nothing),
        "a checkpoint of no group",
    );
    desk.shut(rt);
    let (seat, begun) = refused(rt, &desk, seat, 1);
    check(
        rt,
        begun == Some(BeginFault::Closed),
        "a begin at a desk that is shut",
    );
    let lefts = left(rt, alloc, &desk, seat);
    check(rt, is_closed(rt, &desk), "a desk that is shut gives a seat");
    check_close(rt, "one handle", desk, lefts, (1, 1, 0))
}

/// A seat begins a handle, takes it apart, and begins another one. Gives what it leaves.
fn check_busy<R: Abort + Wait, H: Origin>(rt: &R, desk: &Small<H>) -> Left<H> {
    let handle = begun(rt, desk, seated(rt, desk), 1, "a handle that its seat ends");
    let (seat, _words) = handle.end();
    let (seat, busy) = refused(rt, desk, seat, 1);
    check(
        rt,
        busy == Some(BeginFault::Busy),
        "a begin of a seat that has ended its handle itself",
    );
    desk.leave(rt, seat)
}

/// A seat stops a handle that nobody has begun.
fn check_foreign<R: Abort + Wait, H: Origin>(
    rt: &R,
    alloc: Global,
    desk: &Small<H>,
    seat: Seat<H>,
) -> Seat<H>
    requires any { (words : WordMap) → H.begun.stops words }
    requires desk { desk_of seat ≡ desk_id desk.now }
{
    let handle = Handle::new(alloc, seat, 1, SHAPE);
    let (seat, foreign) = stop(rt, desk, handle);
    check(
        rt,
        foreign == Err(EnqueueFault::NotOpen),
        "the stop of a handle that nobody has begun",
    );
    seat
}

/// What is answered of a handle that its seat has ended itself, of one that nobody has begun, and of a desk
/// of which one seat has not left; and what is counted once all have.
pub fn strays<R: Abort + Wait, H: Origin>(rt: &R, alloc: Global, desk: Small<H>)
    requires any { (words : WordMap) → H.begun.stops words }
    requires parts { H.parts ≡ 2 ^ 61 + 1 }
{
    let first = check_busy(rt, &desk);
    let seat = check_foreign(rt, alloc, &desk, seated(rt, &desk));
    let lefts = left(rt, alloc, &desk, seat);
    desk.shut(rt);
    // a checkpointer would not end where a handle stays listed
    let over = over_at(desk.run_checkpointer(rt));
    check(
        rt,
        over == Some(0),
        "how many handles were settled when the desk was over",
    );
    check_close_twice(rt, "strays", desk, lefts, first, (0, 0, 0))
}

/// Beside five handles of 6 credits, one of 3 is refused, and one of 2 is begun.
fn check_full<R: Abort + Wait, H: Origin>(rt: &R, desk: &Small<H>) {
    let (seat, three) = refused(rt, desk, seated(rt, desk), 3);
    let (seat, two) = refused(rt, desk, seat, 2);
    let _left = desk.leave(rt, seat);
    check(
        rt,
        three == Some(BeginFault::Full(30)),
        "a begin with three credits",
    );
    check(rt, two.is_none(), "a begin with two credits");
}

/// Begins this many handles of 6 credits, one in the other, and asks for more beside them.
pub fn beside<R: Abort + Wait, H: Origin>(rt: &R, desk: &Small<H>, count: u32) {
    if count == 0 {
        return check_full(rt, desk);
    }
    let handle = begun(rt, desk, seated(rt, desk), 6, "one of five handles");
    beside(rt, desk, count - 1);
    let seat = desk.abandon(rt, handle);
    let _left = desk.leave(rt, seat);
}

/// Six seats, one after the other, begin a handle of 6 credits and leave with it.
pub fn leavers<R: Abort + Wait, H: Origin>(rt: &R, desk: &Small<H>) {
    for _ in 0..6 {
        let handle = begun(rt, desk, seated(rt, desk), 6, "a handle after leavers");
        let (seat, _words) = handle.end();
        let _left = desk.leave(rt, seat);
    }
}

#[test]
fn desks_answer_as_worked_by_hand(rt: HostRuntime) {
    for trial in [
        Trial::OneHandle,
        Trial::Look(Look::Beside),
        Trial::Look(Look::Leavers),
        Trial::Strays,
    ] {
        run(&rt, rt.alloc(), trial);
    }
}
