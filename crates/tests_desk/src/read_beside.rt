//! A home that is read while a round is at work for another thread.
ghost use Rattle.jb_handle.specs.Word.{WordMap};

use crate::checks::check_at;
use crate::gate::{Gate, await_flag, run_gated};
use crate::journal::{Still, round_of, seated, write};
use crate::reads::filled;
use jb_desk::Origin;
use jb_disk::Disk;
use std::alloc::Global;
use std::process::Abort;
use std::sync::Wait;
use std::sync::atomic::Ordering;
use std::thread;
use std::thread::Threads;
use std::time::{Clock, Duration};

/// How long the disk holds a round that another thread reads beside, in milliseconds.
const APART: u64 = 100;

/// Stops a handle and commits it. The home is read between the two as it was.
fn commit<R: Abort + Wait, D: Disk, H: Origin>(rt: &R, desk: &Still<D, H>)
    requires { (words : WordMap) → H.begun.stops words }
{
    let (seat, _) = write(rt, desk, seated(rt, desk), 1, &[1]);
    let before = filled(rt, desk, 1);
    let (seat, _, _) = round_of(rt, desk, seat);
    let _left = desk.leave(rt, seat);
    check_at(
        rt,
        before == 0,
        "the home before the round has the byte",
        u64::from(before),
    );
}

/// Lets the round go on that the disk holds, after a while.
fn let_pass<R: Abort + Clock>(rt: &R, gate: &Gate) {
    await_flag(rt, &gate.is_writing, "the log is not written");
    thread::sleep(rt, Duration::from_millis(APART));
    gate.has_stopped.store(true, Ordering::SeqCst);
}

/// Reads the home while the disk holds a round.
fn read<R: Abort + Wait + Clock, D: Disk, H: Origin>(rt: &R, desk: &Still<D, H>, gate: &Gate) {
    await_flag(rt, &gate.is_writing, "the log is not written");
    let during = filled(rt, desk, 1);
    check_at(
        rt,
        during == 7,
        "the home beside the round has the byte",
        u64::from(during),
    );
}

/// What each of three threads does: one commits, one reads the home while the disk holds the round, and one lets the
/// round go on.
fn act<R: Abort + Wait + Clock, D: Disk, H: Origin>(
    rt: &R,
    desk: &Still<D, H>,
    gate: &Gate,
    thread: usize,
)
    requires { (words : WordMap) → H.begun.stops words }
{
    match thread {
        0 => commit(rt, desk),
        1 => read(rt, desk, gate),
        _ => let_pass(rt, gate),
    }
}

/// A home is read before a round, and while the disk holds it.
pub fn commit_and_read<
    R: Abort + Threads + Wait + Clock + Sync,
    D: Disk + Send,
    H: Origin + Send + Sync,
>(rt: &R, alloc: Global, desk: &Still<D, H>, gate: &Gate)
    requires { (words : WordMap) → H.begun.stops words }
{
    thread::map_indices(
        rt,
        alloc,
        3,
        &|k: usize|
            requires { (words : WordMap) → H.begun.stops words }
        { act(rt, desk, gate, k) },
    )
    .expect(rt, "memory");
}

#[test]
fn a_read_beside_a_round_waits_for_it(rt: HostRuntime) {
    run_gated(&rt, rt.alloc(), true)
}
