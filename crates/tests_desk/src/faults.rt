//! A round over a disk that fails once, at each of its calls.
ghost use Rattle.std.specs.Prelude.{◌≡◌, ◌+◌, ◌^◌};
ghost use Rattle.jb_handle.specs.Word.{WordMap};

use crate::checks::check_at;
use crate::closing::{closed, left};
use crate::journal::{
    Came, Failing, Still, begun, home, is_one, refused, retired, round, seated, stop, write,
};
use crate::trials::{Fate, FaultTrial, run_each_fault};
use jb_desk::{BeginFault, EnqueueFault, Origin, RoundFault};
use jb_disk::{Disk, MemoryDisk};
use jb_recover::recover;
use std::alloc::Global;
use std::process::Abort;
use std::sync::Wait;

/// What follows a round in which one handle is committed while another is open: what the other's stop and a further
/// begin answer, how many handles have stopped, whether the committer retires, and the handles and changes at the end.
#[derive(Drop)]
struct Answers {
    second: Result<u64, EnqueueFault>,
    begun: Option<BeginFault>,
    stopped: u64,
    is_retired: bool,
    handles: u64,
    changes: u64,
}

/// What the round came to, and what follows it.
#[derive(Drop)]
struct Found {
    came: Came,
    answers: Answers,
}

/// What follows a round that fails.
static FAILED: Answers = Answers {
    second: Err(EnqueueFault::Aborted),
    begun: Some(BeginFault::Aborted),
    stopped: 1,
    is_retired: true,
    handles: 1,
    changes: 1,
};

/// What follows a round that commits the handle.
static COMMITTED: Answers = Answers {
    second: Ok(1),
    begun: None,
    stopped: 2,
    is_retired: true,
    handles: 2,
    changes: 1,
};

/// Checks that recovery finds home block 1 whole where this call of the disk fails: it has one byte throughout, 0 as it
/// was, or 7 as it is written.
fn check_whole(rt: &impl Abort, alloc: Global, call: u64, disk: MemoryDisk) {
    let mut disk = disk;
    let is_recovered = recover(alloc, &mut disk).is_ok();
    check_at(rt, is_recovered, "the recovery, fault", call);
    let block = home(rt, &mut disk, 1);
    let is_whole = block == [0; 1024] || block == [7; 1024];
    check_at(rt, is_whole, "the home block, fault", call);
}

/// What the round comes to and what follows it, and the disk then.
fn after_round<R: Abort + Wait, D: Disk + Drop, H: Origin>(
    rt: &R,
    alloc: Global,
    desk: Still<D, H>,
) -> (Found, D)
    requires any { (words : WordMap) → H.begun.stops words }
    requires parts { H.parts ≡ 2 ^ 61 + 1 }
{
    let (seat, _) = write(rt, &desk, seated(rt, &desk), 1, &[1]);
    let mut committer = desk.committer(seat);
    let handle = begun(rt, &desk, seated(rt, &desk), 1, "the other handle");
    let came = round(rt, &desk, &mut committer);
    let (seat, second) = stop(rt, &desk, handle);
    let (mut seat, begun) = refused(rt, &desk, seat, 1);
    let stopped = desk.front(&mut seat).stopped;
    let mut lefts = left(rt, alloc, &desk, seat);
    let (seat, is_retired) = retired(rt, &desk, committer);
    lefts.push(desk.leave(rt, seat)).expect(rt, "memory");
    let closed = closed(rt, desk, lefts);
    let answers = Answers {
        second,
        begun,
        stopped,
        is_retired,
        handles: closed.handles,
        changes: closed.changes,
    };
    (Found { came, answers }, closed.disk)
}

/// Checks what follows a round of which this call of the disk fails.
fn check_answers(rt: &impl Abort, call: u64, found: &Answers, wanted: &Answers) {
    let is_second = found.second == wanted.second;
    let is_begun = found.begun == wanted.begun;
    let is_retired = found.is_retired == wanted.is_retired;
    check_at(rt, is_second, "the stop of the other handle, fault", call);
    check_at(rt, is_begun, "a further begin, fault", call);
    check_at(
        rt,
        found.stopped == wanted.stopped,
        "stopped handles, fault",
        call,
    );
    check_at(rt, is_retired, "whether the committer retires, fault", call);
    check_at(rt, found.handles == wanted.handles, "handles, fault", call);
    check_at(rt, found.changes == wanted.changes, "changes, fault", call);
}

/// Checks what is found where this call of the disk fails, or is not made. Says whether the round has.
fn check_found(rt: &impl Abort, call: u64, found: &Found) -> Fate {
    if is_one(found.came, 0, 2) {
        check_answers(rt, call, &found.answers, &COMMITTED);
        return Fate::Whole;
    }
    let has_failed = matches!(found.came, Came::Failed(RoundFault::DeviceFault(_)));
    check_at(rt, has_failed, "how the round fails, fault", call);
    check_answers(rt, call, &found.answers, &FAILED);
    Fate::Failed
}

/// Makes a round of which this call of the disk fails, and checks what follows it.
pub fn fate_of<R: Abort + Wait, H: Origin>(
    rt: &R,
    alloc: Global,
    call: u64,
    desk: Failing<H>,
) -> Fate
    requires any { (words : WordMap) → H.begun.stops words }
    requires parts { H.parts ≡ 2 ^ 61 + 1 }
{
    let (found, disk) = after_round(rt, alloc, desk);
    check_whole(rt, alloc, call, disk.into_inner());
    check_found(rt, call, &found)
}

#[test]
fn close_adds_up_after_each_fault(rt: HostRuntime) {
    let none = "no call fails in the round";
    run_each_fault(&rt, rt.alloc(), FaultTrial::Round, none)
}
