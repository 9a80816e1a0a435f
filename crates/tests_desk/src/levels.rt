//! Checkpoints at a level: below it nothing is written home.
ghost use Rattle.std.specs.Prelude.{◌≡◌, ◌+◌, ◌^◌};
ghost use Rattle.jb_desk.specs.Desks.{desk_id};
ghost use Rattle.jb_desk.specs.Seats.{desk_of};
ghost use Rattle.jb_handle.specs.Word.{WordMap};

use crate::checks::{check, check_at, check_in, fail};
use crate::closing::{closed, left};
use crate::journal::{Small, Still, commit, home, seated};
use crate::trials::{Look, Trial, run};
use jb_deck::{CheckedRun, CheckpointFault};
use jb_desk::{CheckpointRound, Origin, Seat};
use jb_disk::Disk;
use std::alloc::Global;
use std::process::Abort;
use std::sync::Wait;
use std::thread;
use std::thread::Threads;
use std::time::{Clock, Duration};

/// What a round of a checkpointer answers.
pub type Answer = Result<CheckpointRound, CheckpointFault>;

/// How many commits, and the level of the round after them; what it answers, and the first byte of home 0 on the disk
/// then.
pub type Row = (u64, u32, Answer, u8);

/// Commits this many handles one by one, each of which writes the next home.
fn commit_all<R: Wait, D: Disk, H: Origin>(
    rt: &R,
    desk: &Still<D, H>,
    seat: Seat<H>,
    commits: u64,
) -> Seat<H>
    requires any { (words : WordMap) → H.begun.stops words }
    requires desk { desk_of seat ≡ desk_id desk.now }
    ensures { desk_of result ≡ desk_id desk.now }
{
    let mut seat = seat;
    for home in 0..commits {
        let (back, _) = commit(rt, desk, seat, home);
        seat = back;
    }
    seat
}

/// Checks what a desk comes to that has committed nothing yet.
pub fn check_row<R: Abort + Wait, H: Origin>(
    rt: &R,
    alloc: Global,
    number: u64,
    row: Row,
    desk: Small<H>,
)
    requires any { (words : WordMap) → H.begun.stops words }
    requires parts { H.parts ≡ 2 ^ 61 + 1 }
{
    let (commits, level, answer, byte) = row;
    let seat = commit_all(rt, &desk, seated(rt, &desk), commits);
    let is_told = desk.checkpoint_round_at(rt, level) == answer;
    let lefts = left(rt, alloc, &desk, seat);
    let mut closed = closed(rt, desk, lefts);
    let found = home(rt, &mut closed.disk, 0)[0];
    check_in(rt, is_told, number, "the answer after commits:", commits);
    check_in(rt, found == byte, number, "the byte at home:", found.into());
}

/// The first groups, each of one home, are written home together: one of them, and two.
const ONE: Answer = Ok(CheckpointRound::Home(CheckedRun {
    count: 1,
    last: 2,
    blocks: 1,
}));

const TWO: Answer = Ok(CheckpointRound::Home(CheckedRun {
    count: 2,
    last: 3,
    blocks: 2,
}));

/// Each commit takes three blocks of the log.
static ROWS: [Row; 9] = [
    (0, 0, Err(CheckpointFault::Nothing), 0),
    (0, 1, Ok(CheckpointRound::Low(0)), 0),
    (1, 0, ONE, 7),
    (1, 3, ONE, 7),
    (1, 4, Ok(CheckpointRound::Low(3)), 0),
    (2, 0, TWO, 7),
    (2, 6, TWO, 7),
    (2, 7, Ok(CheckpointRound::Low(6)), 0),
    (2, u32::MAX, Ok(CheckpointRound::Low(6)), 0),
];

#[test]
fn nothing_is_written_home_below_the_level(rt: HostRuntime) {
    for (number, &row) in ROWS.iter().enumerate() {
        run(&rt, rt.alloc(), Trial::Levels(number as u64, row));
    }
}

/// The level of the checkpointer that runs. Two groups are below it, and three are not.
const LEVEL: u32 = 7;

/// How long the checkpointer has for a group that it should leave in the log, in milliseconds.
const APART: u64 = 100;

/// How many blocks of the log are in use.
fn in_use<R: Abort + Wait, D: Disk, H: Origin>(rt: &R, desk: &Still<D, H>) -> u32 {
    match desk.checkpoint_round_at(rt, u32::MAX) {
        Ok(CheckpointRound::Low(used)) => used,
        _ => fail(rt, "a round at the highest level"),
    }
}

/// How many are in use once there are fewer than the level, within ten seconds.
fn in_use_at_last<R: Abort + Wait + Clock, D: Disk, H: Origin>(rt: &R, desk: &Still<D, H>) -> u32 {
    for _ in 0..10_000 {
        let used = in_use(rt, desk);
        if used < LEVEL {
            return used;
        }
        thread::sleep(rt, Duration::from_millis(1));
    }
    fail(rt, "the checkpointer leaves the log above its level")
}

/// Commits two handles and then a third beside a checkpointer, and shuts the desk. Two groups are in use a while after
/// the second, and none is once the checkpointer has been at work after the third.
fn commit_beside<R: Abort + Wait + Clock, D: Disk, H: Origin>(rt: &R, desk: &Still<D, H>)
    requires { (words : WordMap) → H.begun.stops words }
{
    let seat = commit_all(rt, desk, seated(rt, desk), 2);
    thread::sleep(rt, Duration::from_millis(APART));
    let low = in_use(rt, desk);
    let (seat, _) = commit(rt, desk, seat, 2);
    let high = in_use_at_last(rt, desk);
    let _left = desk.leave(rt, seat);
    desk.shut(rt);
    check_at(rt, low == 6, "blocks after two groups:", low.into());
    check_at(rt, high == 0, "blocks after three groups:", high.into());
}

/// Commits beside a checkpointer at the level, which leaves no group once the desk is over.
pub fn beside<R: Abort + Threads + Wait + Clock + Sync, H: Origin + Send + Sync>(
    rt: &R,
    desk: &Small<H>,
)
    requires { (words : WordMap) → H.begun.stops words }
{
    let (ended, _) = thread::join(
        rt,
        || desk.run_checkpointer_at(rt, LEVEL),
        || commit_beside(rt, desk),
    );
    let last = desk.checkpoint_round(rt);
    check(rt, ended.is_shut(), "the end of the checkpointer");
    let is_empty = last == Err(CheckpointFault::Nothing);
    check(rt, is_empty, "a group is left in the log");
}

#[test]
fn a_checkpointer_rests_below_its_level(rt: HostRuntime) {
    run(&rt, rt.alloc(), Trial::Look(Look::BesideLevel))
}
