//! Handles of a desk: how they begin and stop.
ghost use Rattle.std.specs.Prelude.{◌≡◌, None, IfSome};
ghost use Rattle.jb_desk.specs.Desks.{desk_id};
ghost use Rattle.jb_desk.specs.Seats.{desk_of};
ghost use Rattle.jb_handle.specs.Handle.{holder};
ghost use Rattle.jb_handle.specs.Word.{WordMap};

use crate::desks::{Rest, Small, one_left};
use crate::met::{Met, ample, refusing};
use jb_desk::{BeginFault, Left, Origin, Seat, StopFault};
use jb_disk::Disk;
use jb_handle::Handle;
use std::fs::File;
use std::rt::Files;
use std::sync::Wait;
use std::thread;
use std::thread::Threads;

/// A handle that was begun and has written a home block; none where that was refused.
pub fn written<R: Wait, D: Disk, H: Origin>(
    rt: &R,
    desk: &Small<D, H>,
    home: u64,
) -> Option<Handle<Seat<H>>>
    ensures { IfSome result (λ handle. desk_of (holder handle) ≡ desk_id desk.now) }
{
    let Ok(seat) = desk.seat(rt) else {
        return None;
    };
    match desk.begin(rt, seat, 1) {
        Ok(mut handle) => {
            let _refused = handle.write(home, &[7; 1024]);
            Some(handle)
        }
        Err((seat, _)) => {
            let _left = desk.leave(rt, seat);
            None
        }
    }
}

/// Begins a handle and drops it: how that was met.
fn begun<R: Wait, D: Disk, H: Origin>(
    rt: &R,
    desk: &Small<D, H>,
    seat: Seat<H>,
) -> (Seat<H>, Option<Met>) {
    match desk.begin(rt, seat, 1) {
        Ok(handle) => (desk.abandon(rt, handle), Some(Met::Ample)),
        Err((seat, BeginFault::Memory)) => (seat, Some(Met::Memory)),
        Err((seat, _)) => (seat, None),
    }
}

/// A seat that ran out of memory has begun nothing.
pub fn begin_row<R: Files<File = File> + Wait, D: Disk, H: Origin>(
    rt: &R,
    desk: &Small<D, H>,
) -> Option<Rest<H>> {
    let Ok(seat) = desk.seat(rt) else {
        return None;
    };
    refusing(rt);
    let (seat, met) = begun(rt, desk, seat);
    ample(rt);
    let (seat, again) = begun(rt, desk, seat);
    let left = desk.leave(rt, seat);
    let is_begun = again == Some(Met::Ample);
    Some(one_left(if is_begun { met } else { None }, (0, 0, 0, 0), left))
}

/// What the stop of a handle came to.
#[derive(Clone, Copy, PartialEq, Eq)]
pub struct Came {
    /// Its ticket, where it stopped.
    pub ticket: Option<u64>,
    /// How the first call was met.
    pub met: Met,
}

/// A stop that is refused for another reason.
const REFUSED: Came = Came {
    ticket: None,
    met: Met::Ample,
};

/// A stop with this ticket.
fn stop_at(ticket: u64, met: Met) -> Came {
    let ticket = Some(ticket);
    Came { ticket, met }
}

/// A handle for which memory ran out is stopped once more.
fn stop_again<R: Wait, D: Disk, H: Origin>(
    rt: &R,
    desk: &Small<D, H>,
    handle: Handle<Seat<H>>,
) -> (Seat<H>, Came)
    requires any { (words : WordMap) → H.begun.stops words }
    requires desk { desk_of (holder handle) ≡ desk_id desk.now }
    ensures { desk_of result.0 ≡ desk_id desk.now }
{
    match desk.stop(rt, &mut desk.sights(rt), handle) {
        Ok((seat, ticket)) => (seat, stop_at(ticket, Met::Memory)),
        Err(StopFault::Aborted(seat)) => (seat, REFUSED),
        Err(StopFault::NotOpen(handle)) => (desk.abandon(rt, handle), REFUSED),
        Err(StopFault::Memory(handle)) => (desk.abandon(rt, handle), REFUSED),
    }
}

/// Stops a handle, and once more where memory ran out.
pub fn stop<R: Wait, D: Disk, H: Origin>(
    rt: &R,
    desk: &Small<D, H>,
    handle: Handle<Seat<H>>,
) -> (Seat<H>, Came)
    requires any { (words : WordMap) → H.begun.stops words }
    requires desk { desk_of (holder handle) ≡ desk_id desk.now }
    ensures { desk_of result.0 ≡ desk_id desk.now }
{
    match desk.stop(rt, &mut desk.sights(rt), handle) {
        Ok((seat, ticket)) => (seat, stop_at(ticket, Met::Ample)),
        Err(StopFault::Memory(handle)) => stop_again(rt, desk, handle),
        Err(StopFault::Aborted(seat)) => (seat, REFUSED),
        Err(StopFault::NotOpen(handle)) => (desk.abandon(rt, handle), REFUSED),
    }
}

/// A handle that ran out of memory stops when it is asked again.
pub fn stop_row<R: Files<File = File> + Wait, D: Disk, H: Origin>(
    rt: &R,
    desk: &Small<D, H>,
) -> Option<Rest<H>>
    requires any { (words : WordMap) → H.begun.stops words }
{
    let handle = written(rt, desk, 1)?;
    refusing(rt);
    let (seat, stop) = stop(rt, desk, handle);
    ample(rt);
    let left = desk.leave(rt, seat);
    let is_first = stop.ticket == Some(0);
    Some(one_left(
        if is_first { Some(stop.met) } else { None },
        (1, 1, 0, 0),
        left,
    ))
}

/// What a thread left that stopped a handle.
type Ended<H> = Option<(Left<H>, Came)>;

/// Stops the handle at a place; its seat leaves.
fn stop_from<R: Wait, D: Disk, H: Origin>(
    rt: &R,
    desk: &Small<D, H>,
    place: &mut Option<Handle<Seat<H>>>,
) -> Ended<H>
    requires any { (words : WordMap) → H.begun.stops words }
    requires desk { IfSome place.old (λ handle. desk_of (holder handle) ≡ desk_id desk.now) }
    ensures { place.new ≡ None }
{
    let Some(handle) = place.take() else {
        return None;
    };
    let (seat, stop) = stop(rt, desk, handle);
    Some((desk.leave(rt, seat), stop))
}

/// A handle that was not stopped is dropped; its seat leaves.
fn dropped<R: Wait, D: Disk, H: Origin>(
    rt: &R,
    desk: &Small<D, H>,
    handle: Option<Handle<Seat<H>>>,
) {
    if let Some(handle) = handle {
        let _left = desk.leave(rt, desk.abandon(rt, handle));
    }
}

/// Two threads stop a handle each.
fn stop_both<R: Threads + Wait + Sync, D: Disk + Send, H: Origin + Send + Sync>(
    rt: &R,
    desk: &Small<D, H>,
    one: Handle<Seat<H>>,
    other: Handle<Seat<H>>,
) -> (Ended<H>, Ended<H>)
    requires any { (words : WordMap) → H.begun.stops words }
    requires one { desk_of (holder one) ≡ desk_id desk.now }
    requires other { desk_of (holder other) ≡ desk_id desk.now }
{
    let (mut one, mut other) = (Some(one), Some(other));
    let ended = thread::join(
        rt,
        || stop_from(rt, desk, &mut one),
        || stop_from(rt, desk, &mut other),
    );
    dropped(rt, desk, one);
    dropped(rt, desk, other);
    ended
}

/// Two handles that were begun and have each written a home block; none where that was refused.
fn both_written<R: Wait, D: Disk, H: Origin>(
    rt: &R,
    desk: &Small<D, H>,
) -> Option<(Handle<Seat<H>>, Handle<Seat<H>>)>
    ensures one { IfSome result (λ both. desk_of (holder both.0) ≡ desk_id desk.now) }
    ensures other { IfSome result (λ both. desk_of (holder both.1) ≡ desk_id desk.now) }
{
    let one = written(rt, desk, 1)?;
    match written(rt, desk, 2) {
        Some(other) => Some((one, other)),
        None => {
            dropped(rt, desk, Some(one));
            None
        }
    }
}

/// How two stops were met of which one was refused memory, if any: they got the first two tickets.
fn met_of(first: Came, second: Came) -> Option<Met> {
    match (first.ticket, second.ticket) {
        (Some(0), Some(1)) | (Some(1), Some(0)) if first.met == Met::Ample => Some(second.met),
        (Some(0), Some(1)) | (Some(1), Some(0)) => Some(first.met),
        _ => None,
    }
}

/// What two threads leave that stopped a handle each.
fn rest_of<H: Origin>(one: Ended<H>, other: Ended<H>) -> Option<Rest<H>> {
    let (left, first) = one?;
    let (other, second) = other?;
    Some(Rest {
        met: met_of(first, second),
        sums: [(2, 2, 0, 0), (2, 2, 0, 0)],
        left,
        other: Some(other),
    })
}

/// Two threads stop a handle each where memory may be refused. One that ran out of memory stops when it is asked again,
/// while the other one is at work.
pub fn stop_beside_stop_row<
    R: Files<File = File> + Threads + Wait + Sync,
    D: Disk + Send,
    H: Origin + Send + Sync,
>(rt: &R, desk: &Small<D, H>) -> Option<Rest<H>>
    requires any { (words : WordMap) → H.begun.stops words }
{
    let (one, other) = both_written(rt, desk)?;
    refusing(rt);
    let (first, second) = stop_both(rt, desk, one, other);
    ample(rt);
    rest_of(first, second)
}
