//! Threads at one desk: many that stop handles, one that commits them, and one that brings them home. Each call that is
//! out of memory is made once more.
ghost use Rattle.std.specs.Prelude.{◌≡◌, ◌+◌};
ghost use Rattle.jb_desk.specs.Desks.{desk_id};
ghost use Rattle.jb_desk.specs.Seats.{desk_of};
ghost use Rattle.jb_handle.specs.Handle.{holder};
ghost use Rattle.jb_handle.specs.Word.{WordMap};

use crate::checks::check;
use crate::homes::Stop;
use crate::journal::{Still, retired, seated, stop};
use crate::keys::{CHANGES, Change, Draws, block_of, changes_of};
use crate::report::Report;
use jb_desk::{Ended, EnqueueFault, Left, Origin, Seat, StopFault};
use jb_disk::Disk;
use jb_handle::{Handle, TouchFault};
use std::alloc::Global;
use std::process::Abort;
use std::sync::Wait;
use std::thread;
use std::thread::Threads;
use std::time::Clock;

/// How often a thread tries to begin a handle, in all.
const TURNS: u32 = 1_000_000;

/// Makes one change in a handle.
fn touch<H: Origin>(
    handle: &mut Handle<Seat<H>>,
    key: u64,
    change: Change,
) -> Result<(), TouchFault>
    ensures { holder handle.new ≡ holder handle.old }
{
    let home = change.home as u64;
    if change.is_revoke {
        handle.revoke(home)
    } else {
        handle.write(home, &block_of(key, change.home))
    }
}

/// The same. A change that is out of memory is made once more.
fn touch_again<H: Origin>(rt: &impl Abort, handle: &mut Handle<Seat<H>>, key: u64, change: Change)
    ensures { holder handle.new ≡ holder handle.old }
{
    let mut made = touch(handle, key, change);
    if made == Err(TouchFault::Memory) {
        made = touch(handle, key, change);
    }
    check(rt, made.is_ok(), "a change is refused");
}

/// Makes the changes of this key in a handle.
fn change_all<H: Origin>(rt: &impl Abort, handle: Handle<Seat<H>>, key: u64) -> Handle<Seat<H>>
    ensures { holder result ≡ holder handle }
{
    let mut handle = handle;
    for next in changes_of(key) {
        if let Some(change) = next {
            touch_again(rt, &mut handle, key, change);
        }
    }
    handle
}

/// Stops a handle. A stop that is out of memory is called again.
fn stop_again<R: Wait, D: Disk, H: Origin>(
    rt: &R,
    desk: &Still<D, H>,
    handle: Handle<Seat<H>>,
) -> (Seat<H>, Result<u64, EnqueueFault>)
    requires any { (words : WordMap) → H.begun.stops words }
    requires desk { desk_of (holder handle) ≡ desk_id desk.now }
    ensures { desk_of result.0 ≡ desk_id desk.now }
{
    match desk.stop(rt, &mut desk.sights(rt), handle) {
        Ok((seat, ticket)) => (seat, Ok(ticket)),
        Err(StopFault::Memory(handle)) => stop(rt, desk, handle),
        Err(StopFault::Aborted(seat)) => (seat, Err(EnqueueFault::Aborted)),
        Err(StopFault::NotOpen(handle)) => (desk.abandon(rt, handle), Err(EnqueueFault::NotOpen)),
    }
}

/// Waits for the last ticket that a thread was given.
fn wait_for_last<R: Abort + Wait, D: Disk, H: Origin>(
    rt: &R,
    desk: &Still<D, H>,
    seat: &mut Seat<H>,
    report: &mut Report,
)
    requires desk { desk_of seat.old ≡ desk_id desk.now }
    ensures { desk_of seat.new ≡ desk_id desk.now }
{
    if let Some(&Stop { ticket, .. }) = report.stops.last() {
        let answer = desk.wait(rt, seat, &mut desk.sights(rt), ticket);
        report.note_wait(rt, ticket, answer);
    }
}

/// Stops a handle, and waits for some.
fn stop_noted<R: Abort + Wait, D: Disk, H: Origin>(
    rt: &R,
    desk: &Still<D, H>,
    handle: Handle<Seat<H>>,
    key: u64,
    report: &mut Report,
) -> Seat<H>
    requires any { (words : WordMap) → H.begun.stops words }
    requires desk { desk_of (holder handle) ≡ desk_id desk.now }
    ensures { desk_of result ≡ desk_id desk.now }
{
    let touched = handle.touched();
    let (mut seat, answer) = stop_again(rt, desk, handle);
    report.note_stop(rt, key, touched, answer);
    if key % 8 == 1 {
        wait_for_last(rt, desk, &mut seat, report);
    }
    seat
}

/// Makes the changes of this key in a handle, and stops it or drops it.
fn run<R: Abort + Wait, D: Disk, H: Origin>(
    rt: &R,
    desk: &Still<D, H>,
    handle: Handle<Seat<H>>,
    key: u64,
    report: &mut Report,
) -> Seat<H>
    requires any { (words : WordMap) → H.begun.stops words }
    requires desk { desk_of (holder handle) ≡ desk_id desk.now }
    ensures { desk_of result ≡ desk_id desk.now }
{
    let handle = change_all(rt, handle, key);
    if key % 32 == 0 {
        desk.abandon(rt, handle)
    } else {
        stop_noted(rt, desk, handle, key, report)
    }
}

/// Begins a handle and stops it, or drops it; says whether one was begun.
fn once<R: Abort + Wait + Clock, D: Disk, H: Origin>(
    rt: &R,
    desk: &Still<D, H>,
    seat: Seat<H>,
    key: u64,
    report: &mut Report,
) -> (Seat<H>, bool)
    requires any { (words : WordMap) → H.begun.stops words }
    requires desk { desk_of seat ≡ desk_id desk.now }
    ensures { desk_of result.0 ≡ desk_id desk.now }
{
    match desk.begin(rt, seat, CHANGES as u32) {
        Ok(handle) => (run(rt, desk, handle, key, report), true),
        Err((seat, fault)) => {
            report.note_refusal(rt, fault);
            (seat, false)
        }
    }
}

/// What a thread has done, and what its seat left.
#[derive(Drop)]
pub struct Worked<H: Origin> {
    pub left: Left<H>,
    pub report: Report,
}

/// Takes a seat, begins this many handles, and leaves after the last one is settled.
fn work<R: Abort + Wait + Clock, D: Disk, H: Origin>(
    rt: &R,
    alloc: Global,
    desk: &Still<D, H>,
    draws: Draws,
    handles: u32,
) -> Worked<H>
    requires any { (words : WordMap) → H.begun.stops words }
{
    let mut report = Report::new(alloc);
    let mut draws = draws;
    let mut seat = seated(rt, desk);
    let mut begun: u32 = 0;
    for _turn in 0..TURNS {
        if begun >= handles || report.is_aborted {
            break;
        }
        let (back, has_begun) = once(rt, desk, seat, draws.key(), &mut report);
        seat = back;
        begun = begun.saturating_add(u32::from(has_begun));
    }
    wait_for_last(rt, desk, &mut seat, &mut report);
    let is_done = begun >= handles || report.is_aborted;
    check(rt, is_done, "a thread has not begun all of its handles");
    Worked {
        left: desk.leave(rt, seat),
        report,
    }
}

/// Commits until the desk is shut; where a round is out of memory, the next one takes its batch up. Gives what its seat
/// left, and how it ended.
fn commit<R: Abort + Wait + Clock, D: Disk, H: Origin>(
    rt: &R,
    desk: &Still<D, H>,
) -> (Left<H>, Ended) {
    let (mut committer, mut ended) = desk.run_committer(rt, desk.committer(seated(rt, desk)));
    if ended == Ended::Memory {
        (committer, ended) = desk.run_committer(rt, committer);
    }
    let (seat, _) = retired(rt, desk, committer);
    (desk.leave(rt, seat), ended)
}

/// What all threads report.
#[derive(Drop)]
pub struct Reports<H: Origin> {
    pub of_threads: Vec<Worked<H>>,
    /// what the committer's seat left
    pub left: Left<H>,
    /// how the committer and the checkpointer ended
    pub ended: (Ended, Ended),
}

/// Eight threads begin this many handles each; then the desk is shut.
fn work_eight<R: Abort + Threads + Wait + Clock + Sync, D: Disk + Send, H: Origin + Send + Sync>(
    rt: &R,
    alloc: Global,
    desk: &Still<D, H>,
    seed: u64,
    handles: u32,
) -> Vec<Worked<H>>
    requires { (words : WordMap) → H.begun.stops words }
{
    let reports = thread::map_indices(
        rt,
        alloc,
        8,
        &|k: usize| -> Worked<H>
            requires { (words : WordMap) → H.begun.stops words }
        {
            work(
                rt,
                alloc,
                desk,
                Draws::of(seed.wrapping_add(k as u64)),
                handles,
            )
        },
    );
    desk.shut(rt);
    reports.expect(rt, "memory")
}

/// Eight threads begin this many handles each, while one commits and one brings groups home.
pub fn work_all<R: Abort + Threads + Wait + Clock + Sync, D: Disk + Send, H: Origin + Send + Sync>(
    rt: &R,
    alloc: Global,
    desk: &Still<D, H>,
    seed: u64,
    handles: u32,
) -> Reports<H>
    requires any { (words : WordMap) → H.begun.stops words }
{
    let (of_threads, ((left, ended), checkpointed)) = thread::join(
        rt,
        || -> Vec<Worked<H>>
            requires { (words : WordMap) → H.begun.stops words }
        { work_eight(rt, alloc, desk, seed, handles) },
        || thread::join(rt, || commit(rt, desk), || desk.run_checkpointer(rt)),
    );
    Reports {
        of_threads,
        left,
        ended: (ended, checkpointed),
    }
}
