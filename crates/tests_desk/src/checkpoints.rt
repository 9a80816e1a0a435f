//! Groups that are brought home: a checkpoint that fails, and a checkpointer that ends.
ghost use Rattle.std.specs.Prelude.{◌≡◌, ◌+◌, ◌^◌};
ghost use Rattle.jb_desk.specs.Desks.{desk_id};
ghost use Rattle.jb_desk.specs.Seats.{desk_of};
ghost use Rattle.jb_handle.specs.Word.{WordMap};

use crate::checks::check_at;
use crate::closing::{closed, is_closed, left};
use crate::journal::{Came, Failing, Still, commit, is_one, refused, round_of, seated, write};
use crate::trials::{Fate, FaultTrial, Look, Trial, run, run_each_fault};
use jb_deck::{Checked, CheckpointFault, ReadHomeFault};
use jb_desk::{BeginFault, Origin, RoundFault, Seat, WaitFault};
use jb_disk::Disk;
use std::alloc::Global;
use std::process::Abort;
use std::sync::Wait;
use std::sync::atomic::{AtomicBool, Ordering};
use std::thread;
use std::thread::Threads;
use std::time::Clock;

/// What follows a checkpoint after one handle is committed and another has stopped: what a read of no home into half a
/// block answers, the next round and a begin, what is answered of both tickets, and the handles, changes and groups at
/// the end.
#[derive(Drop)]
struct Found {
    first: Came,
    checked: Result<Checked, CheckpointFault>,
    read: Result<(), ReadHomeFault>,
    second: Came,
    after: Answers,
    counts: (u64, u64, usize),
}

/// What a seat is answered after all.
#[derive(Drop)]
struct Answers {
    begun: Option<BeginFault>,
    settled: Result<u32, WaitFault>,
    lost: Result<u32, WaitFault>,
}

/// The ticket that is lost where the book has failed. In one that has not nobody would end the wait for it.
fn lost_ticket(begun: Option<BeginFault>) -> u64 {
    if begun.is_some() { 1 } else { 2 }
}

/// What a begin answers, and what is answered of both tickets.
fn after<R: Wait, D: Disk, H: Origin>(
    rt: &R,
    desk: &Still<D, H>,
    seat: Seat<H>,
) -> (Seat<H>, Answers)
    requires desk { desk_of seat ≡ desk_id desk.now }
{
    let (mut seat, begun) = refused(rt, desk, seat, 1);
    let settled = desk.wait(rt, &mut seat, &mut desk.sights(rt), 0);
    let lost = desk.wait(rt, &mut seat, &mut desk.sights(rt), lost_ticket(begun));
    let after = Answers {
        begun,
        settled,
        lost,
    };
    (seat, after)
}

/// Commits a handle, stops another, and brings the first one's group home; then looks what follows.
fn after_checkpoint<R: Abort + Wait, D: Disk + Drop, H: Origin>(
    rt: &R,
    alloc: Global,
    desk: Still<D, H>,
) -> Found
    requires any { (words : WordMap) → H.begun.stops words }
    requires parts { H.parts ≡ 2 ^ 61 + 1 }
{
    let (seat, first) = commit(rt, &desk, seated(rt, &desk), 1);
    let (seat, _) = write(rt, &desk, seat, 1, &[2]);
    let checked = desk.checkpoint_round(rt);
    let read = desk.read(rt, &mut desk.sights(rt), 16, &mut [0; 512]);
    let (seat, second, _) = round_of(rt, &desk, seat);
    let (seat, after) = after(rt, &desk, seat);
    let lefts = left(rt, alloc, &desk, seat);
    let closed = closed(rt, desk, lefts);
    Found {
        first,
        checked,
        read,
        second,
        after,
        counts: (closed.handles, closed.changes, closed.trail.len()),
    }
}

/// Whether the checkpoint and the round after it succeed.
fn is_whole(found: &Found) -> bool {
    found.checked.is_ok() && is_one(found.second, 1, 3)
}

/// Checks what is found where the call of this number fails in the checkpoint. Says whether it does.
fn check_failed(rt: &impl Abort, call: u64, found: &Found) -> bool {
    if found.checked != Err(CheckpointFault::DeviceFault) {
        return false;
    }
    let after = &found.after;
    let is_refused = after.begun == Some(BeginFault::Aborted);
    let is_settled = after.settled == Ok(2);
    let is_lost = after.lost == Err(WaitFault::Aborted);
    let is_first = is_one(found.first, 0, 2);
    let is_second = matches!(found.second, Came::Failed(RoundFault::Aborted(_)));
    let is_read = found.read == Err(ReadHomeFault::Aborted);
    check_at(rt, is_first, "the first round, fault", call);
    check_at(rt, is_read, "a read, fault", call);
    check_at(rt, is_second, "the second round, fault", call);
    check_at(rt, is_refused, "a begin, fault", call);
    check_at(rt, is_settled, "the settled ticket, fault", call);
    check_at(rt, is_lost, "the lost ticket, fault", call);
    check_at(rt, found.counts.0 == 2, "handles, fault", call);
    check_at(rt, found.counts.1 == 2, "changes, fault", call);
    check_at(rt, found.counts.2 == 1, "groups, fault", call);
    true
}

/// Makes a checkpoint of which this call of the disk fails, and checks what follows it.
pub fn fate_of<R: Abort + Wait, H: Origin>(
    rt: &R,
    alloc: Global,
    call: u64,
    desk: Failing<H>,
) -> Fate
    requires any { (words : WordMap) → H.begun.stops words }
    requires parts { H.parts ≡ 2 ^ 61 + 1 }
{
    let found = after_checkpoint(rt, alloc, desk);
    if is_whole(&found) {
        Fate::Whole
    } else if check_failed(rt, call, &found) {
        Fate::Failed
    } else {
        Fate::Other
    }
}

#[test]
fn the_round_after_a_failed_checkpoint_fails_the_book(rt: HostRuntime) {
    let none = "no call fails in the checkpoint";
    run_each_fault(&rt, rt.alloc(), FaultTrial::Checkpoint, none)
}

/// How many desks are raced. A checkpointer that asks too late for what is settled left a group in the thirty-first.
const RACES: u64 = 200;

/// Stops a handle, shuts the desk and commits the handle.
fn commit_last<R: Abort + Wait, D: Disk, H: Origin>(rt: &R, desk: &Still<D, H>)
    requires { (words : WordMap) → H.begun.stops words }
{
    let (seat, _) = write(rt, desk, seated(rt, desk), 1, &[1]);
    desk.shut(rt);
    let (seat, _, _) = round_of(rt, desk, seat);
    let _left = desk.leave(rt, seat);
}

/// Asks for the book again and again, until this has happened.
fn crowd<R: Wait, D: Disk, H: Origin>(rt: &R, desk: &Still<D, H>, is_done: &AtomicBool) {
    for _ in 0..1_000_000 {
        if is_done.load(Ordering::SeqCst) {
            return;
        }
        let _is_shut = is_closed(rt, desk);
    }
}

/// Runs a checkpointer to its end, and says so to the threads that ask for the book.
fn checkpoint<R: Abort + Wait, D: Disk, H: Origin>(
    rt: &R,
    race: u64,
    desk: &Still<D, H>,
    is_done: &AtomicBool,
) {
    let ended = desk.run_checkpointer(rt);
    is_done.store(true, Ordering::SeqCst);
    check_at(
        rt,
        ended.is_shut(),
        "how the checkpointer ends in race",
        race,
    );
}

/// What each of four threads does: the last handle of the desk is committed while a checkpointer runs, beside two
/// threads that ask for the book.
fn race_one<R: Abort + Wait, D: Disk, H: Origin>(
    rt: &R,
    race: u64,
    desk: &Still<D, H>,
    is_done: &AtomicBool,
    thread: usize,
)
    requires { (words : WordMap) → H.begun.stops words }
{
    match thread {
        0 => commit_last(rt, desk),
        1 => checkpoint(rt, race, desk, is_done),
        _ => crowd(rt, desk, is_done),
    }
}

/// Checks that no group is left once a checkpointer has ended that ran while the last handle of the desk was
/// committed.
pub fn check_race<R: Abort + Threads + Wait + Sync, D: Disk + Send, H: Origin + Send + Sync>(
    rt: &R,
    alloc: Global,
    race: u64,
    desk: &Still<D, H>,
)
    requires { (words : WordMap) → H.begun.stops words }
{
    let is_done = AtomicBool::new(false);
    thread::map_indices(
        rt,
        alloc,
        4,
        &|k: usize|
            requires { (words : WordMap) → H.begun.stops words }
        { race_one(rt, race, desk, &is_done, k) },
    )
    .expect(rt, "memory");
    let is_empty = desk.checkpoint_round(rt) == Err(CheckpointFault::Nothing);
    check_at(rt, is_empty, "a group is left in race", race);
}

/// Races the threads of each of many new desks.
fn race_all<R: Abort + Threads + Wait + Clock + Sync>(rt: &R, alloc: Global) {
    for race in 0..RACES {
        run(rt, alloc, Trial::Look(Look::Race(race)));
    }
}

#[test]
fn a_checkpointer_ends_with_no_group(rt: HostRuntime) {
    race_all(&rt, rt.alloc())
}
