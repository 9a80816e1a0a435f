//! A client's change of home blocks: a handle is begun, changed and stopped.
ghost use Rattle.std.specs.Prelude.{◌≡◌, ◌<◌, IfOk};
ghost use Rattle.std.specs.FinMap as map;
ghost use Rattle.std.specs.Fn.{FnOnceReturnsAtMut};
ghost use Rattle.jb_handle.specs.HeldChanges.{held};
ghost use Rattle.jb_desk.specs.Desks.{desk_id, shape_in};
ghost use Rattle.jb_desk.specs.Seats.{made_by, desk_of, view_of};
ghost use Rattle.jb_handle.specs.Handle.{holder, changes_of};
ghost use Rattle.jb_handle.specs.Word.{WordMap};
ghost use Rattle.jb_journal.specs.Change.{AnswersChange, SeesChange, StopsWith};

use crate::fault::HandleFault;
use jb_desk::{Desk, Origin, Seat, Sights, StopFault};
use jb_disk::{Clock, Disk};
use jb_handle::Handle;
use std::sync::Wait;
use std::time;

/// Begins a handle at a desk, changes home blocks by it, and stops it.
pub(crate) fn change_at<
    D: Disk,
    C: Clock,
    R: Wait + time::Clock,
    H: Origin,
    T: Drop,
    E,
    F: FnOnce(&mut Handle<()>) -> Result<T, E>,
>(
    rt: &R,
    desk: &Desk<D, C, H>,
    seen: &mut Sights<D, H>,
    seat: Seat<H>,
    credits: u32,
    change: F,
) -> (Seat<H>, Result<(T, u64), HandleFault<E>>)
    requires desk { desk_of seat ≡ desk_id desk.now }
    requires any { (words : WordMap) → H.begun.stops words }
    requires callable { F.IsAlwaysCallable change }
    ensures desk { desk_of result.0 ≡ desk_id desk.now }
    ensures changed { AnswersChange F.FnOnce change (held credits (shape_in desk.now) map.empty) (made_by seat)
        (made_by result.0) result.1 }
    ensures stopped { IfOk result.1 (λ given. given.1 < (view_of result.0).stopped) }
    ensures sees { SeesChange (made_by seat) (made_by result.0) seen.old seen.new result.1 }
{
    let handle = match desk.begin_waiting(rt, seat, credits) {
        Ok(handle) => handle,
        Err((seat, fault)) => return (seat, Err(HandleFault::Begin(fault))),
    };
    let (seat, mut handle) = handle.with_seat(());
    let answer = call(change, &mut handle);
    let (_, handle) = handle.with_seat(seat);
    match answer {
        Ok(answer) => stop(rt, desk, seen, handle, answer),
        Err(fault) => (desk.abandon(rt, handle), Err(HandleFault::Refused(fault))),
    }
}

/// Calls what changes a handle.
fn call<T, E, F: FnOnce(&mut Handle<()>) -> Result<T, E>>(
    change: F,
    handle: &mut Handle<()>,
) -> Result<T, E>
    requires { F.IsAlwaysCallable change }
    ensures { FnOnceReturnsAtMut F.FnOnce change handle.old result handle.new }
{
    change(handle)
}

/// Stops a handle, or drops it where that is refused.
fn stop<D: Disk, C: Clock, R: Wait, H: Origin, T: Drop, E>(
    rt: &R,
    desk: &Desk<D, C, H>,
    seen: &mut Sights<D, H>,
    handle: Handle<Seat<H>>,
    answer: T,
) -> (Seat<H>, Result<(T, u64), HandleFault<E>>)
    requires desk { desk_of (holder handle) ≡ desk_id desk.now }
    requires any { (words : WordMap) → H.begun.stops words }
    ensures desk { desk_of result.0 ≡ desk_id desk.now }
    ensures answer { StopsWith answer (changes_of handle).words (made_by (holder handle))
        (made_by result.0) result.1 }
    ensures stopped { IfOk result.1 (λ given. given.1 < (view_of result.0).stopped) }
    ensures sees { SeesChange (made_by (holder handle)) (made_by result.0) seen.old seen.new result.1 }
{
    match desk.stop(rt, seen, handle) {
        Ok((seat, ticket)) => (seat, Ok((answer, ticket))),
        Err(StopFault::Aborted(seat)) => (seat, Err(HandleFault::Aborted)),
        Err(StopFault::NotOpen(handle)) => (desk.abandon(rt, handle), Err(HandleFault::NotOpen)),
        Err(StopFault::Memory(handle)) => (desk.abandon(rt, handle), Err(HandleFault::Memory)),
    }
}
