//! A thread that waits for a ticket goes on once the ticket is settled, or cannot be any more; so does a checkpointer
//! that rests.
ghost use Rattle.std.specs.Prelude.{◌≡◌};
ghost use Rattle.jb_desk.specs.Desks.{desk_id};
ghost use Rattle.jb_desk.specs.Seats.{desk_of};
ghost use Rattle.jb_handle.specs.Word.{WordMap};

use crate::checks::{check, check_of};
use crate::gate::{await_flag, has_come};
use crate::journal::{Came, Still, commit, is_one, retired, round, seated, write};
use crate::trials::{Fate, FaultTrial, run_failing};
use jb_deck::CheckpointFault;
use jb_desk::{Origin, RoundFault, Seat, Sights, WaitFault};
use jb_disk::Disk;
use std::alloc::Global;
use std::process::Abort;
use std::sync::Wait;
use std::sync::atomic::{AtomicBool, Ordering};
use std::thread;
use std::thread::Threads;
use std::time::{Clock, Duration};

/// How long after a thread says that it will wait a handle is committed, in milliseconds.
const APART: u64 = 100;

/// How a wait ends.
#[derive(Clone, Copy, PartialEq, Eq)]
pub enum End {
    /// the ticket is committed
    Committed,
    /// its committer gives up, as the journal has one number for two transactions
    GivenUp,
    /// the disk fails in its round
    DiskFails,
    /// the journal has failed before its round, in a checkpoint
    HasFailed,
}

impl End {
    /// Its name in a message.
    fn name(self) -> &'static str {
        match self {
            End::Committed => "a ticket that is committed",
            End::GivenUp => "a ticket that is given up",
            End::DiskFails => "a ticket whose round fails",
            End::HasFailed => "a ticket of a journal that has failed",
        }
    }

    /// The call of the disk that fails: none, the first one of the round, or the first one of the checkpoint.
    fn call(self) -> u64 {
        match self {
            End::Committed | End::GivenUp => u64::MAX,
            End::DiskFails => 34,
            End::HasFailed => 41,
        }
    }

    /// The ticket that is waited for: one is committed before a checkpoint.
    fn ticket(self) -> u64 {
        u64::from(self == End::HasFailed)
    }
}

/// What the threads tell one another.
#[derive(Drop)]
struct Told {
    /// the handle has stopped
    has_stopped: AtomicBool,
    /// it is waited for
    is_awaited: AtomicBool,
    /// the wait has ended
    has_ended: AtomicBool,
    /// the checkpointer has ended
    is_over: AtomicBool,
}

/// Reads what the first handle wrote, with sights that are informed of what was seen after a wait for it.
fn read_informed<R: Abort + Wait, D: Disk, H: Origin>(
    rt: &R,
    desk: &Still<D, H>,
    seen: &mut Sights<D, H>,
) {
    let mut informed = desk.sights(rt);
    desk.inform(&mut informed, seen);
    let mut block = [0; 1024];
    let read = desk.read(rt, &mut informed, 1, &mut block);
    check(
        rt,
        read.is_ok() && block == [7; 1024],
        "what is read after the wait",
    );
}

/// Waits for a ticket, which is committed or lost. Its seat leaves once the checkpointer has ended, since that would
/// wake it.
fn wait<R: Abort + Wait + Clock, D: Disk, H: Origin>(
    rt: &R,
    desk: &Still<D, H>,
    told: &Told,
    end: End,
) {
    let mut seat = seated(rt, desk);
    await_flag(rt, &told.has_stopped, "no handle has stopped");
    told.is_awaited.store(true, Ordering::SeqCst);
    let mut seen = desk.sights(rt);
    let number = desk.wait(rt, &mut seat, &mut seen, end.ticket());
    told.has_ended.store(true, Ordering::SeqCst);
    await_flag(rt, &told.is_over, end.name());
    let _left = desk.leave(rt, seat);
    if end == End::Committed {
        check(rt, number == Ok(2), "the number of the ticket");
        read_informed(rt, desk, &mut seen);
    } else {
        check(rt, number == Err(WaitFault::Aborted), end.name());
    }
}

/// One handle stops, before its journal fails or after; or two, of which each takes a transaction.
fn stopped<R: Abort + Wait, D: Disk, H: Origin>(rt: &R, desk: &Still<D, H>, end: End) -> Seat<H>
    requires { (words : WordMap) → H.begun.stops words }
    ensures { desk_of result ≡ desk_id desk.now }
{
    let seat = seated(rt, desk);
    if end == End::GivenUp {
        let (seat, _) = write(rt, desk, seat, 6, &[0, 1, 2, 3, 4, 5]);
        let (seat, _) = write(rt, desk, seat, 6, &[6, 7, 8, 9, 10, 11]);
        return seat;
    }
    if end == End::HasFailed {
        let (seat, came) = commit(rt, desk, seat, 1);
        check(rt, is_one(came, 0, 2), "the round before the checkpoint");
        let (seat, _) = write(rt, desk, seat, 1, &[2]);
        let checked = desk.checkpoint_round(rt);
        let has_failed = checked == Err(CheckpointFault::DeviceFault);
        check(rt, has_failed, "the checkpoint does not fail");
        return seat;
    }
    let (seat, _) = write(rt, desk, seat, 1, &[1]);
    seat
}

/// Whether a round has come to this end.
fn is_round(end: End, came: Came) -> bool {
    match end {
        End::Committed => is_one(came, 0, 2),
        End::GivenUp => matches!(came, Came::Failed(RoundFault::Refused)),
        End::DiskFails => matches!(came, Came::Failed(RoundFault::DeviceFault(_))),
        End::HasFailed => matches!(came, Came::Failed(RoundFault::Aborted(_))),
    }
}

/// Commits a handle that another thread waits for, whose wait ends before anything else happens; or its round fails, or
/// it is given up.
fn end_wait<R: Abort + Wait + Clock, D: Disk, H: Origin>(
    rt: &R,
    desk: &Still<D, H>,
    told: &Told,
    end: End,
)
    requires { (words : WordMap) → H.begun.stops words }
{
    let seat = stopped(rt, desk, end);
    told.has_stopped.store(true, Ordering::SeqCst);
    await_flag(rt, &told.is_awaited, "the ticket is not waited for");
    thread::sleep(rt, Duration::from_millis(APART));
    let mut committer = desk.committer(seat);
    let came = round(rt, desk, &mut committer);
    check_of(
        rt,
        is_round(end, came),
        end.name(),
        "the round of ticket",
        end.ticket(),
    );
    let by_round = end != End::GivenUp && has_come(rt, &told.has_ended);
    let (seat, _) = retired(rt, desk, committer);
    let by_end = end == End::GivenUp && has_come(rt, &told.has_ended);
    check_of(
        rt,
        by_round || by_end,
        end.name(),
        "no end of the wait for",
        end.ticket(),
    );
    if end == End::Committed {
        desk.shut(rt);
    }
    let is_over = has_come(rt, &told.is_over);
    check_of(
        rt,
        is_over,
        end.name(),
        "no end of the checkpointer, ticket",
        end.ticket(),
    );
    let _left = desk.leave(rt, seat);
}

/// A checkpointer that rests until the desk is over or the journal has failed.
fn rest<R: Wait, D: Disk, H: Origin>(rt: &R, desk: &Still<D, H>, told: &Told) {
    let _ended = desk.run_checkpointer_at(rt, u32::MAX);
    told.is_over.store(true, Ordering::SeqCst);
}

/// What each of three threads does: one waits for a ticket, one is a checkpointer, and one ends the wait.
fn act<R: Abort + Wait + Clock, D: Disk, H: Origin>(
    rt: &R,
    desk: &Still<D, H>,
    told: &Told,
    end: End,
    thread: usize,
)
    requires { (words : WordMap) → H.begun.stops words }
{
    match thread {
        0 => wait(rt, desk, told, end),
        1 => rest(rt, desk, told),
        _ => end_wait(rt, desk, told, end),
    }
}

/// A thread waits for the ticket of a handle that another one commits or gives up, or whose journal fails, beside a
/// checkpointer.
pub fn fate_of<R: Abort + Threads + Wait + Clock + Sync, D: Disk + Send, H: Origin + Send + Sync>(
    rt: &R,
    alloc: Global,
    end: End,
    desk: &Still<D, H>,
) -> Fate
    requires { (words : WordMap) → H.begun.stops words }
{
    let told = Told {
        has_stopped: AtomicBool::new(false),
        is_awaited: AtomicBool::new(false),
        has_ended: AtomicBool::new(false),
        is_over: AtomicBool::new(false),
    };
    thread::map_indices(
        rt,
        alloc,
        3,
        &|k: usize|
            requires { (words : WordMap) → H.begun.stops words }
        { act(rt, desk, &told, end, k) },
    )
    .expect(rt, "memory");
    Fate::Whole
}

/// A wait that ends so, at a new desk.
fn check_end<R: Abort + Threads + Wait + Clock + Sync>(rt: &R, alloc: Global, end: End) {
    let fate = run_failing(rt, alloc, FaultTrial::Wait(end), end.call());
    check(rt, fate == Fate::Whole, "the journal is not opened");
}

#[test]
fn a_commit_ends_the_wait_for_its_ticket(rt: HostRuntime) {
    for end in [End::Committed, End::GivenUp, End::DiskFails, End::HasFailed] {
        check_end(&rt, rt.alloc(), end);
    }
}
