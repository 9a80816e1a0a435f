//! The workers of a run, each at its place.
ghost use Rattle.std.specs.Prelude.{◌≡◌, ◌≤◌, length, vec_len};
ghost use Rattle.jb_handle.specs.Word.{WordMap};
ghost use Rattle.jb_desk.specs.Desks.{shape_in};
ghost use Rattle.jb_journal.specs.Run.{HasWorked, HaveWorked};

use crate::client::Client;
use crate::gate::Gate;
use crate::options::Commits;
use crate::threads::WorkerResult;
use crate::worker::Worker;
use jb_desk::{Desk, Origin};
use jb_disk::{Clock, Disk};
use jb_handle::Shape;
use std::sync::Wait;
use std::thread::Threads;
use std::{thread, time};

/// Runs the workers, a thread each, and then shuts the desk.
pub(crate) fn work<
    T: Drop + Send,
    W: Worker<T> + Sync,
    D: Disk + Drop + Send,
    C: Clock + Drop + Send,
    R: Threads + Wait + time::Clock + Sync,
    H: Origin + Send + Sync,
>(
    rt: &R,
    desk: &Desk<D, C, H>,
    shape: Shape,
    gate: &Gate,
    commits: Commits,
    worker: &W,
    places: Vec<WorkerResult<T, D, H>>,
) -> Vec<WorkerResult<T, D, H>>
    requires shape { shape ≡ shape_in desk.now }
    requires needs { W.needs worker.now commits }
    requires work { (1 ≤ vec_len places) × (vec_len places ≤ 64) × ((words : WordMap) → H.begun.stops words) }
    ensures { HaveWorked D.Disk (W.answers worker.now H.begun shape) (vec_len places) result.items }
{
    let mut places = places;
    work_each(
        rt,
        desk,
        shape,
        gate,
        commits,
        worker,
        places.as_mut_slice(),
    );
    desk.shut(rt);
    places
}

/// Runs the workers, each at its place and in a thread of its own where the system makes one.
fn work_each<
    T: Drop + Send,
    W: Worker<T> + Sync,
    D: Disk + Drop + Send,
    C: Clock + Drop + Send,
    R: Threads + Wait + time::Clock + Sync,
    H: Origin + Send + Sync,
>(
    rt: &R,
    desk: &Desk<D, C, H>,
    shape: Shape,
    gate: &Gate,
    commits: Commits,
    worker: &W,
    places: &mut [WorkerResult<T, D, H>],
)
    requires shape { shape ≡ shape_in desk.now }
    requires needs { W.needs worker.now commits }
    requires work { (1 ≤ length places.old) × (length places.old ≤ 64) × ((words : WordMap) → H.begun.stops words) }
    ensures number { length places.new ≡ length places.old }
    ensures worked { HaveWorked D.Disk (W.answers worker.now H.begun shape) (length places.old) places.new }
{
    let workers = places.len();
    thread::for_each_mut(
        rt,
        places,
        workers,
        &|at: usize, place: &mut WorkerResult<T, D, H>|
            requires { (shape ≡ shape_in desk.now) × (1 ≤ workers) × (workers ≤ 64)
                × ((words : WordMap) → H.begun.stops words) × W.needs worker.now commits }
            ensures { HasWorked D.Disk (W.answers worker.entry.now H.begun shape) workers at place.exit.now }
        { *place = work_at(rt, desk, shape, gate, commits, workers, worker, at) },
    );
}

/// Runs the worker at this place, once each thread of the run is there.
fn work_at<T, W: Worker<T>, D: Disk, C: Clock, R: Wait + time::Clock, H: Origin>(
    rt: &R,
    desk: &Desk<D, C, H>,
    shape: Shape,
    gate: &Gate,
    commits: Commits,
    workers: usize,
    worker: &W,
    at: usize,
) -> WorkerResult<T, D, H>
    requires shape { shape ≡ shape_in desk.now }
    requires needs { W.needs worker.now commits }
    requires work { (1 ≤ workers) × (workers ≤ 64) × ((words : WordMap) → H.begun.stops words) }
    ensures { HasWorked D.Disk (W.answers worker.now H.begun shape) workers at result }
{
    if !gate.wait(rt) {
        return WorkerResult::none(desk.sights(rt));
    }
    let Ok(seat) = desk.seat(rt) else {
        return WorkerResult::none(desk.sights(rt));
    };
    let mut client = Client::new(rt, desk, shape, commits, seat);
    let answer = worker.work(&mut client, workers, at);
    let (seat, seen) = client.into_seat();
    let left = match seat {
        Some(seat) => Some(desk.leave(rt, seat)),
        None => None,
    };
    WorkerResult {
        left,
        seen,
        answer: Some(answer),
    }
}
