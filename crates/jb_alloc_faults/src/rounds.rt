//! Rounds of a desk: batches that are committed, and groups that are brought home.
ghost use Rattle.std.specs.Prelude.{◌≡◌, IfSome};
ghost use Rattle.jb_desk.specs.Desks.{desk_id};
ghost use Rattle.jb_desk.specs.Rounds.{seat_of};
ghost use Rattle.jb_desk.specs.Seats.{desk_of};
ghost use Rattle.jb_handle.specs.Handle.{holder};
ghost use Rattle.jb_handle.specs.Word.{WordMap};

use crate::desks::{Rest, Small, WORD, one_left};
use crate::met::{Met, ample, refusing, tried};
use crate::stopping::{stop, written};
use jb_block::Memory;
use jb_deck::{Checked, CheckpointFault};
use jb_desk::{Committer, Ended, Left, Origin, Retired, Round, RoundFault, Seat};
use jb_disk::Disk;
use std::fs::File;
use std::rt::Files;
use std::sync::Wait;
use std::time::Clock;

/// A committer, at whose desk a handle that writes home 1 has stopped; none where that was refused.
fn stopped<R: Wait, D: Disk, H: Origin>(rt: &R, desk: &Small<D, H>) -> Option<Committer<H>>
    requires any { (words : WordMap) → H.begun.stops words }
    ensures { IfSome result (λ committer. desk_of (seat_of committer) ≡ desk_id desk.now) }
{
    let Some(handle) = written(rt, desk, 1) else {
        return None;
    };
    let (seat, stop) = stop(rt, desk, handle);
    if stop.ticket.is_none() {
        let _left = desk.leave(rt, seat);
        return None;
    }
    Some(desk.committer(seat))
}

/// A committer retires, or gives up where it is handed back. Says whether it retired.
fn retired<R: Wait, D: Disk, H: Origin>(
    rt: &R,
    desk: &Small<D, H>,
    committer: Committer<H>,
) -> (Seat<H>, bool)
    ensures { result.0 ≡ seat_of committer }
{
    match desk.retire(rt, committer) {
        Ok(Retired { seat, lost: _ }) => (seat, true),
        Err(committer) => {
            let Retired { seat, lost: _ } = desk.give_up(rt, committer);
            (seat, false)
        }
    }
}

/// What a committer leaves that has committed the one handle, so that it is home once the journal is recovered. Where
/// the disk failed no group is settled, and it may be home.
fn ends<R: Wait, D: Disk, H: Origin>(
    rt: &R,
    desk: &Small<D, H>,
    committer: Committer<H>,
    met: Option<Met>,
) -> Rest<H> {
    let (seat, is_retired) = retired(rt, desk, committer);
    let sums = match met {
        Some(Met::Fault) => [(1, 1, 0, 0), (1, 1, 0, WORD)],
        _ => [(1, 1, 1, WORD), (1, 1, 1, WORD)],
    };
    Rest {
        met: if is_retired { met } else { None },
        sums,
        left: desk.leave(rt, seat),
        other: None,
    }
}

/// Makes a round: how it was met, where it commits the handle.
fn round<R: Wait, D: Disk, H: Origin>(
    rt: &R,
    desk: &Small<D, H>,
    committer: &mut Committer<H>,
) -> Option<Met>
    requires desk { desk_of (seat_of committer.old) ≡ desk_id desk.now }
    ensures { desk_of (seat_of committer.new) ≡ desk_of (seat_of committer.old) }
{
    match desk.commit_round(rt, committer, &mut desk.sights(rt)) {
        Ok(Round::Committed(done)) if done.entries().len() == 1 => Some(Met::Ample),
        Err(RoundFault::Memory) => Some(Met::Memory),
        Err(RoundFault::DeviceFault(_)) => Some(Met::Fault),
        _ => None,
    }
}

/// A committer that ran out of memory holds its batch, and the next round commits it.
pub fn commit_round_row<R: Files<File = File> + Wait, D: Disk, H: Origin>(
    rt: &R,
    desk: &Small<D, H>,
) -> Option<Rest<H>>
    requires any { (words : WordMap) → H.begun.stops words }
{
    let mut committer = stopped(rt, desk)?;
    refusing(rt);
    let first = round(rt, desk, &mut committer);
    ample(rt);
    let is_again = first == Some(Met::Memory);
    let is_held = !is_again || round(rt, desk, &mut committer) == Some(Met::Ample);
    let met = if is_held { first } else { None };
    Some(ends(rt, desk, committer, met))
}

/// How a committer has ended, whose one handle is settled where the desk was over.
fn ended_as(ended: Ended) -> Option<Met> {
    match ended {
        Ended::Shut(over) if over.settled() == 1 => Some(Met::Ample),
        Ended::Memory => Some(Met::Memory),
        Ended::Aborted => Some(Met::Fault),
        _ => None,
    }
}

/// A committer that ended for want of memory commits its batch when it is run again.
fn ends_again<R: Wait + Clock, D: Disk, H: Origin>(
    rt: &R,
    desk: &Small<D, H>,
    committer: Committer<H>,
) -> Rest<H>
    requires desk { desk_of (seat_of committer) ≡ desk_id desk.now }
{
    let (committer, again) = desk.run_committer(rt, committer);
    let is_over = ended_as(again) == Some(Met::Ample);
    let met = if is_over { Some(Met::Memory) } else { None };
    ends(rt, desk, committer, met)
}

/// A committer that ended for want of memory holds its batch, and commits it when it is run again.
pub fn run_committer_row<R: Files<File = File> + Wait + Clock, D: Disk, H: Origin>(
    rt: &R,
    desk: &Small<D, H>,
) -> Option<Rest<H>>
    requires any { (words : WordMap) → H.begun.stops words }
{
    let committer = stopped(rt, desk)?;
    desk.shut(rt);
    refusing(rt);
    let (committer, ended) = desk.run_committer(rt, committer);
    ample(rt);
    Some(if ended == Ended::Memory {
        ends_again(rt, desk, committer)
    } else {
        ends(rt, desk, committer, ended_as(ended))
    })
}

/// How a checkpoint of the one group was met.
fn checked_as(first: Result<Checked, CheckpointFault>) -> Option<Met> {
    match first {
        Ok(checked) if checked.number == 2 && checked.blocks == 1 => Some(Met::Ample),
        Err(CheckpointFault::DeviceFault) => Some(Met::Fault),
        _ => None,
    }
}

/// A checkpoint takes no memory of its own. Where the disk failed for want of memory the group is still in the log.
pub fn checkpoint_round_row<R: Files<File = File> + Wait, D: Disk, H: Origin>(
    rt: &R,
    desk: &Small<D, H>,
) -> Option<Rest<H>>
    requires any { (words : WordMap) → H.begun.stops words }
{
    let left = settled(rt, desk)?;
    refusing(rt);
    let first = desk.checkpoint_round(rt);
    ample(rt);
    Some(one_left(checked_as(first), (1, 1, 1, WORD), left))
}

/// Commits a handle with a seat that then leaves.
fn settled<R: Wait, D: Disk, H: Origin>(rt: &R, desk: &Small<D, H>) -> Option<Left<H>>
    requires { (words : WordMap) → H.begun.stops words }
{
    let mut committer = stopped(rt, desk)?;
    let committed = round(rt, desk, &mut committer);
    let (seat, is_retired) = retired(rt, desk, committer);
    let left = desk.leave(rt, seat);
    if committed == Some(Met::Ample) && is_retired {
        Some(left)
    } else {
        None
    }
}

/// Whether a desk gives the entry of the group that is home.
fn is_taken<R: Wait, D: Disk, H: Origin>(rt: &R, desk: &Small<D, H>) -> Result<bool, Memory> {
    Ok(match desk.take_trail(rt)?.as_slice() {
        [entry] => entry.past == 1 && entry.number == 2,
        _ => false,
    })
}

/// How a call for the entry of the group that is home was met, once the group is home.
fn taken<R: Files<File = File> + Wait, D: Disk, H: Origin>(
    rt: &R,
    desk: &Small<D, H>,
) -> Option<Met> {
    if desk.checkpoint_round(rt).is_err() {
        return None;
    }
    tried(rt, || is_taken(rt, desk))
}

/// A desk that has no memory for the entries keeps its trail.
pub fn take_trail_row<R: Files<File = File> + Wait, D: Disk, H: Origin>(
    rt: &R,
    desk: &Small<D, H>,
) -> Option<Rest<H>>
    requires any { (words : WordMap) → H.begun.stops words }
{
    let left = settled(rt, desk)?;
    let other = settled(rt, desk)?;
    Some(Rest {
        met: taken(rt, desk),
        sums: [(2, 2, 1, WORD), (2, 2, 1, WORD)],
        left,
        other: Some(other),
    })
}
