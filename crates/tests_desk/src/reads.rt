//! Homes that are read at a desk: after each round and each checkpoint, and where the read fails.
ghost use Rattle.std.specs.Prelude.{◌≡◌};
ghost use Rattle.jb_desk.specs.Desks.{desk_id};
ghost use Rattle.jb_desk.specs.Seats.{desk_of};
ghost use Rattle.jb_handle.specs.Word.{WordMap};

use crate::checks::{check, check_at, check_in, fail};
use crate::journal::{Came, Still, begun, round_of, seated, stop};
use crate::trials::{Fate, FaultTrial, Look, Trial, run, run_failing};
use jb_deck::ReadHomeFault;
use jb_desk::{Origin, Seat};
use jb_disk::Disk;
use std::alloc::Global;
use std::process::Abort;
use std::sync::Wait;
use std::thread::Threads;
use std::time::Clock;

/// What each home is filled with.
type Homes = [u8; 16];

/// The byte that fills a home, which is read and has no other bytes.
pub fn filled<R: Abort + Wait, D: Disk, H: Origin>(rt: &R, desk: &Still<D, H>, home: u64) -> u8 {
    let mut block = [0; 1024];
    let read = desk.read(rt, &mut desk.sights(rt), home, &mut block);
    let byte = block[0];
    check_at(rt, read.is_ok(), "the read of home", home);
    check_at(rt, block == [byte; 1024], "several bytes in home", home);
    byte
}

/// Checks what each home is filled with, after the step of this number.
fn check_homes<R: Abort + Wait, D: Disk, H: Origin>(
    rt: &R,
    desk: &Still<D, H>,
    number: u64,
    wanted: &Homes,
) {
    for (home, &byte) in wanted.iter().enumerate() {
        let home = home as u64;
        check_in(
            rt,
            filled(rt, desk, home) == byte,
            number,
            "the byte of home",
            home,
        );
    }
}

/// What a thread does at a desk whose homes are read.
#[derive(Clone, Copy)]
enum Step {
    /// a handle that fills this home with this byte stops
    Fill(u64, u8),
    Round,
    Checkpoint,
}

/// A handle that fills a home with a byte stops.
fn fill<R: Abort + Wait, D: Disk, H: Origin>(
    rt: &R,
    desk: &Still<D, H>,
    seat: Seat<H>,
    home: u64,
    byte: u8,
) -> (Seat<H>, bool)
    requires any { (words : WordMap) → H.begun.stops words }
    requires desk { desk_of seat ≡ desk_id desk.now }
{
    let mut handle = begun(rt, desk, seat, 1, "a handle that fills a home");
    let _refused = handle.write(home, &[byte; 1024]);
    let (seat, ticket) = stop(rt, desk, handle);
    (seat, ticket.is_ok())
}

/// A round that commits something.
fn commit<R: Wait, D: Disk, H: Origin>(rt: &R, desk: &Still<D, H>, seat: Seat<H>) -> (Seat<H>, bool)
    requires desk { desk_of seat ≡ desk_id desk.now }
{
    let (seat, came, _) = round_of(rt, desk, seat);
    (seat, matches!(came, Came::Committed(_, _)))
}

/// Takes the step of this number, with a seat of its own.
fn take<R: Abort + Wait, D: Disk, H: Origin>(rt: &R, desk: &Still<D, H>, number: u64, step: Step)
    requires any { (words : WordMap) → H.begun.stops words }
{
    let seat = seated(rt, desk);
    let (seat, is_done) = match step {
        Step::Fill(home, byte) => fill(rt, desk, seat, home, byte),
        Step::Round => commit(rt, desk, seat),
        Step::Checkpoint => (seat, desk.checkpoint_round(rt).is_ok()),
    };
    let _left = desk.leave(rt, seat);
    check_at(rt, is_done, "a call is refused in step", number);
}

/// A home has a copy in the log alone, then at home too, then a newer one in the log beside the older one at home, and
/// is written twice in a batch, also by its first two handles. Others are written at the first and last place.
static STEPS: [Step; 16] = [
    Step::Fill(1, 11),
    Step::Round,
    Step::Fill(1, 12),
    Step::Fill(0, 13),
    Step::Checkpoint,
    Step::Round,
    Step::Fill(15, 14),
    Step::Fill(1, 15),
    Step::Fill(1, 16),
    Step::Checkpoint,
    Step::Round,
    Step::Fill(0, 18),
    Step::Fill(0, 17),
    Step::Checkpoint,
    Step::Round,
    Step::Checkpoint,
];

/// What handles that have stopped fill the homes with, and what those that are committed do.
#[derive(Drop)]
struct Written {
    stopped: Homes,
    committed: Homes,
}

impl Written {
    /// Notes what a step does.
    fn note(&mut self, step: Step) {
        match step {
            Step::Fill(home, byte) => {
                if let Some(last) = self.stopped.get_mut(home as usize) {
                    *last = byte;
                }
            }
            Step::Round => self.committed = self.stopped,
            Step::Checkpoint => {}
        }
    }
}

/// Takes all steps, and checks after each that the homes are read as they are committed.
fn check_steps<R: Abort + Wait, D: Disk, H: Origin>(rt: &R, desk: &Still<D, H>)
    requires any { (words : WordMap) → H.begun.stops words }
{
    let mut filled = Written {
        stopped: [0; 16],
        committed: [0; 16],
    };
    for (number, &step) in STEPS.iter().enumerate() {
        let number = number as u64;
        take(rt, desk, number, step);
        filled.note(step);
        check_homes(rt, desk, number, &filled.committed);
    }
}

/// Takes all steps at a new desk, and then reads into half a block.
pub fn stepped<R: Abort + Wait, D: Disk, H: Origin>(rt: &R, desk: &Still<D, H>)
    requires { (words : WordMap) → H.begun.stops words }
{
    check_steps(rt, desk);
    let none = desk.read(rt, &mut desk.sights(rt), 16, &mut [0; 512]);
    let short = desk.read(rt, &mut desk.sights(rt), 15, &mut [0; 512]);
    check(
        rt,
        none == Err(ReadHomeFault::OutOfRange),
        "a read of no home into half a block",
    );
    check(
        rt,
        short == Err(ReadHomeFault::Length),
        "a read of a home into half a block",
    );
}

#[test]
fn homes_are_read_as_they_are_committed(rt: HostRuntime) {
    run(&rt, rt.alloc(), Trial::Look(Look::Reads))
}

/// A read fails, a handle is committed after it, and the home is read again.
pub fn fate_of<R: Abort + Wait, D: Disk, H: Origin>(rt: &R, desk: &Still<D, H>) -> Fate
    requires any { (words : WordMap) → H.begun.stops words }
{
    let read = desk.read(rt, &mut desk.sights(rt), 2, &mut [0; 1024]);
    check(
        rt,
        read == Err(ReadHomeFault::DeviceFault),
        "the read that fails",
    );
    take(rt, desk, 0, Step::Fill(1, 11));
    take(rt, desk, 1, Step::Round);
    check(rt, filled(rt, desk, 2) == 0, "the home that is read again");
    Fate::Whole
}

/// Reads at a desk whose disk fails in a call, the first one with which the journal is opened.
fn read_failing<R: Abort + Threads + Wait + Clock + Sync>(rt: &R, alloc: Global) {
    for call in 0..200 {
        if run_failing(rt, alloc, FaultTrial::Read, call) != Fate::Unopened {
            return;
        }
    }
    fail(rt, "the journal is never opened")
}

#[test]
fn a_read_that_fails_fails_nothing_else(rt: HostRuntime) {
    read_failing(&rt, rt.alloc())
}
