//! Desks that are over, and what is counted once they are closed.
ghost use Rattle.std.specs.Prelude.{◌≡◌, ◌+◌, ◌^◌};

use crate::checks::check_of;
use crate::journal::{CLOCK, Still};
use jb_desk::{CloseFault, Closed, Ended, Left, Origin, Seat, SeatFault};
use jb_disk::{Disk, FixedClock};
use std::alloc::Global;
use std::process::Abort;
use std::sync::Wait;

/// Whether a desk gives no seat for being shut.
pub fn is_closed<R: Wait, D: Disk, H: Origin>(rt: &R, desk: &Still<D, H>) -> bool {
    match desk.seat(rt) {
        Ok(seat) => {
            let _left = desk.leave(rt, seat);
            false
        }
        Err(fault) => fault == SeatFault::Closed,
    }
}

/// How many handles were settled when the desk was over, where a thread ended for that.
pub fn over_at(ended: Ended) -> Option<u64> {
    match ended {
        Ended::Shut(over) => Some(over.settled()),
        _ => None,
    }
}

/// What is left by the only seat of a desk.
pub fn left<R: Abort + Wait, D: Disk, H: Origin>(
    rt: &R,
    alloc: Global,
    desk: &Still<D, H>,
    seat: Seat<H>,
) -> Vec<Left<H>> {
    let mut lefts = Vec::new(alloc);
    lefts.push(desk.leave(rt, seat)).expect(rt, "memory");
    lefts
}

/// Closes a desk of which all seats have left.
pub fn closed<R: Abort + Wait, D: Disk + Drop, H: Origin>(
    rt: &R,
    desk: Still<D, H>,
    lefts: Vec<Left<H>>,
) -> Closed<D, FixedClock>
    requires parts { H.parts ≡ 2 ^ 61 + 1 }
{
    let seen = desk.sights(rt);
    desk.close(lefts, seen)
        .ok()
        .expect(rt, "the desk is not closed")
}

/// Closes a desk of which all seats have left, and checks how many handles and changes it has counted, and how many
/// groups its trail has, and that its clock comes back. Where that is wrong, it gives the desk this name.
pub fn check_close<R: Abort + Wait, D: Disk + Drop, H: Origin>(
    rt: &R,
    name: &'static str,
    desk: Still<D, H>,
    lefts: Vec<Left<H>>,
    counts: (u64, u64, usize),
)
    requires parts { H.parts ≡ 2 ^ 61 + 1 }
{
    let closed = closed(rt, desk, lefts);
    let handles = closed.handles;
    let changes = closed.changes;
    let groups = closed.trail.len();
    check_of(rt, handles == counts.0, name, "handles:", handles);
    check_of(rt, changes == counts.1, name, "changes:", changes);
    check_of(rt, groups == counts.2, name, "groups:", groups as u64);
    let stamp = closed.clock.stamp;
    check_of(
        rt,
        stamp == CLOCK.stamp,
        name,
        "the clock's seconds:",
        stamp.sec,
    );
}

/// Fails the test, as closing the desk of this name is not refused.
fn not_refused(rt: &impl Abort, name: &'static str) {
    panic!(rt; "{name}: closing is not refused while a seat is out")
}

/// Checks that closing a desk is refused while a seat is out, and what is counted once the last one has left.
pub fn check_close_twice<R: Abort + Wait, D: Disk + Drop, H: Origin>(
    rt: &R,
    name: &'static str,
    desk: Still<D, H>,
    lefts: Vec<Left<H>>,
    last: Left<H>,
    counts: (u64, u64, usize),
)
    requires parts { H.parts ≡ 2 ^ 61 + 1 }
{
    let seen = desk.sights(rt);
    match desk.close(lefts, seen) {
        Err(CloseFault::SeatsOut(desk, mut lefts, _)) => {
            lefts.push(last).expect(rt, "memory");
            check_close(rt, name, desk, lefts, counts)
        }
        _ => not_refused(rt, name),
    }
}
