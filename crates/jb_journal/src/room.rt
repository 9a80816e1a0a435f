//! The room of a run: all memory that it takes but for its handles and their commits.
ghost use Rattle.std.specs.Prelude.{◌≡◌, ◌+◌, ◌≤◌, All, IfOk, vec_len};
ghost use Rattle.jb_journal.specs.Gather.{IsFree};
ghost use Rattle.jb_journal.specs.Run.{HasNotWorked};

use crate::threads::WorkerResult;
use jb_block::Memory;
use jb_desk::{Desk, Left, Origin};
use jb_disk::{Clock, Disk};
use std::alloc::Global;
use std::sync::Wait;

/// Room for what the threads of a run leave, taken before the first of them is made, so that no run fails for want of
/// memory once a worker was called. Nothing is in the lists yet.
#[derive(Drop)]
pub(crate) struct Room<T, D: Disk, H: Origin> {
    /// For what each worker leaves.
    pub places: Vec<WorkerResult<T, D, H>>,
    /// For what their seats and the committer's leave.
    pub lefts: Vec<Left<H>>,
    /// For what they answer.
    pub answers: Vec<T>,
}

impl<T: Drop, D: Disk, H: Origin> Room<T, D, H> {
    ghost use Rattle.jb_journal.specs.Gather.{IsRoomFor};

    /// Room for this many workers.
    ///
    /// # Errors
    /// `Memory` where there is none for it.
    pub(crate) fn take(alloc: Global, workers: usize) -> Result<Room<T, D, H>, Memory>
        requires { workers ≤ 64 }
        ensures { IfOk result (IsRoomFor workers) }
    {
        let places = Vec::with_capacity(alloc, workers)?;
        let lefts = Vec::with_capacity(alloc, workers + 1)?;
        let answers = Vec::with_capacity(alloc, workers)?;
        Ok(Room {
            places,
            lefts,
            answers,
        })
    }
}

/// A place for what each of this many workers leaves, with nothing in it.
pub(crate) fn places_of<T: Drop, D: Disk, C: Clock, R: Wait, H: Origin>(
    rt: &R,
    desk: &Desk<D, C, H>,
    workers: usize,
    room: Vec<WorkerResult<T, D, H>>,
) -> Vec<WorkerResult<T, D, H>>
    requires { IsFree workers room }
    ensures number { vec_len result ≡ workers }
    ensures none { All HasNotWorked result.items }
{
    let mut places = room;
    for _ in 0..workers {
        places.push_reserved(WorkerResult::none(desk.sights(rt)));
    }
    places
}
