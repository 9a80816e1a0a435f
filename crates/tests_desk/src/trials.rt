//! New desks, and what the tests ask of them: each way to start a desk stands here once.
ghost use Rattle.std.specs.Prelude.{◌≡◌, ◌+◌, ◌^◌};
ghost use Rattle.jb_desk.specs.History.{history_in};
ghost use Rattle.jb_board.specs.History.{history_id};
ghost use Rattle.jb_handle.specs.Word.{WordMap};

use crate::blind::{marks, start, stops};
use crate::checks::{check, fail};
use crate::journal::{Failing, PARTS, Small, formatted, numbered, opened};
use crate::waiting::End;
use crate::{checkpoints, desks, ends, faults, levels, lives, reads, rounds, turns, waiting};
use jb_board::NewHistory;
use jb_deck::Deck;
use jb_desk::{Origin, StopLedger};
use jb_disk::{MemoryDisk, OneFaultDisk};
use std::alloc::Global;
use std::marker::Brand;
use std::process::Abort;
use std::sync::Wait;
use std::thread::Threads;
use std::time::Clock;

/// What is asked of a new desk over the small journal.
#[derive(Clone, Copy)]
pub enum Trial {
    OneHandle,
    Strays,
    Ends,
    /// the row of this number
    Levels(u64, levels::Row),
    /// the row of this number
    Lives(u64, lives::Row),
    OneRound,
    NoNumber,
    Look(Look),
}

/// What is asked of a desk that is not closed after it.
#[derive(Clone, Copy)]
pub enum Look {
    Beside,
    Leavers,
    BesideLevel,
    Reads,
    Turns,
    /// the race of this number
    Race(u64),
}

/// Asks this of a desk.
fn look_at<R: Abort + Threads + Wait + Clock + Sync, H: Origin + Send + Sync>(
    rt: &R,
    alloc: Global,
    look: Look,
    desk: &Small<H>,
)
    requires { (words : WordMap) → H.begun.stops words }
{
    match look {
        Look::Beside => desks::beside(rt, desk, 5),
        Look::Leavers => desks::leavers(rt, desk),
        Look::BesideLevel => levels::beside(rt, desk),
        Look::Reads => reads::stepped(rt, desk),
        Look::Turns => turns::check_turns(rt, alloc, desk),
        Look::Race(race) => checkpoints::check_race(rt, alloc, race, desk),
    }
}

/// Asks this of a desk.
fn ask<R: Abort + Threads + Wait + Clock + Sync, H: Origin + Send + Sync>(
    rt: &R,
    alloc: Global,
    trial: Trial,
    desk: Small<H>,
)
    requires any { (words : WordMap) → H.begun.stops words }
    requires parts { H.parts ≡ 2 ^ 61 + 1 }
{
    match trial {
        Trial::OneHandle => desks::one_handle(rt, alloc, desk),
        Trial::Strays => desks::strays(rt, alloc, desk),
        Trial::Ends => ends::shut(rt, alloc, desk),
        Trial::Levels(number, row) => levels::check_row(rt, alloc, number, row, desk),
        Trial::Lives(number, row) => lives::outcome(rt, alloc, number, &row, desk),
        Trial::OneRound => rounds::one_round(rt, alloc, desk),
        Trial::NoNumber => rounds::no_number(rt, alloc, desk),
        Trial::Look(look) => look_at(rt, alloc, look, &desk),
    }
}

/// The disk that the desk of a trial starts with.
fn disk_of(rt: &impl Abort, alloc: Global, trial: Trial) -> MemoryDisk {
    match trial {
        Trial::NoNumber => numbered(rt, alloc, 4294967294),
        _ => formatted(rt, alloc),
    }
}

/// Starts a desk, and asks this of it.
fn started<R: Abort + Threads + Wait + Clock + Sync, H: Origin + Send + Sync>(
    rt: &R,
    alloc: Global,
    trial: Trial,
    handles: StopLedger,
    marks: NewHistory<Deck<MemoryDisk>>,
)
    requires blind { (H.begun.is_known → ⊥) × (H.begun.none_failed → ⊥) }
    requires any { (words : WordMap) → H.begun.stops words }
    requires handles { (handles.tickets.name ≡ H.name) × (handles.tickets.parts ≡ H.parts) × (H.parts ≡ 2 ^ 61 + 1) }
    requires histories { (history_in handles ≡ H.history) × (history_id marks ≡ H.marks) }
{
    let deck = opened(alloc, disk_of(rt, alloc, trial)).expect(rt, "the journal is not opened");
    let desk: Small<H> = start(rt, alloc, handles, marks, deck);
    ask(rt, alloc, trial, desk)
}

/// Asks this of a new desk.
pub fn run<R: Abort + Threads + Wait + Clock + Sync>(rt: &R, alloc: Global, trial: Trial) {
    let handles = stops(rt, alloc);
    let marks = marks(rt, alloc);
    started::<R, Brand>(rt, alloc, trial, handles, marks)
}

/// What is asked of a new desk over the small journal whose disk fails once.
#[derive(Clone, Copy)]
pub enum FaultTrial {
    Round,
    Checkpoint,
    Read,
    Wait(End),
}

/// What came of it where a call of the disk fails.
#[derive(Clone, Copy, PartialEq, Eq)]
pub enum Fate {
    /// the journal is not opened
    Unopened,
    /// what is asked for has failed
    Failed,
    /// something beside it has
    Other,
    /// nothing has
    Whole,
}

/// Asks this of a desk, where this call of the disk fails.
fn ask_failing<R: Abort + Threads + Wait + Clock + Sync, H: Origin + Send + Sync>(
    rt: &R,
    alloc: Global,
    trial: FaultTrial,
    call: u64,
    desk: Failing<H>,
) -> Fate
    requires any { (words : WordMap) → H.begun.stops words }
    requires parts { H.parts ≡ 2 ^ 61 + 1 }
{
    match trial {
        FaultTrial::Round => faults::fate_of(rt, alloc, call, desk),
        FaultTrial::Checkpoint => checkpoints::fate_of(rt, alloc, call, desk),
        FaultTrial::Read => reads::fate_of(rt, &desk),
        FaultTrial::Wait(end) => waiting::fate_of(rt, alloc, end, &desk),
    }
}

/// The disk that the desk of a trial starts with.
fn failing_disk(rt: &impl Abort, alloc: Global, trial: FaultTrial) -> MemoryDisk {
    match trial {
        FaultTrial::Wait(End::GivenUp) => numbered(rt, alloc, 4294967294),
        _ => formatted(rt, alloc),
    }
}

/// Starts a desk, and asks this of it where this call of the disk fails.
fn started_failing<R: Abort + Threads + Wait + Clock + Sync, H: Origin + Send + Sync>(
    rt: &R,
    alloc: Global,
    trial: FaultTrial,
    call: u64,
    handles: StopLedger,
    marks: NewHistory<Deck<OneFaultDisk<MemoryDisk>>>,
) -> Fate
    requires blind { (H.begun.is_known → ⊥) × (H.begun.none_failed → ⊥) }
    requires any { (words : WordMap) → H.begun.stops words }
    requires handles { (handles.tickets.name ≡ H.name) × (handles.tickets.parts ≡ H.parts) × (H.parts ≡ 2 ^ 61 + 1) }
    requires histories { (history_in handles ≡ H.history) × (history_id marks ≡ H.marks) }
{
    match opened(
        alloc,
        OneFaultDisk::of(failing_disk(rt, alloc, trial), call),
    ) {
        Some(deck) => {
            let desk: Failing<H> = start(rt, alloc, handles, marks, deck);
            ask_failing(rt, alloc, trial, call, desk)
        }
        None => Fate::Unopened,
    }
}

/// Asks this of a new desk where this call of the disk fails.
pub fn run_failing<R: Abort + Threads + Wait + Clock + Sync>(
    rt: &R,
    alloc: Global,
    trial: FaultTrial,
    call: u64,
) -> Fate {
    let handles = stops(rt, alloc);
    let marks = marks(rt, alloc);
    started_failing::<R, Brand>(rt, alloc, trial, call, handles, marks)
}

/// Asks this where each call of the disk fails in turn, up to one that is not made. Where none fails what is asked for,
/// `none` is wrong.
pub fn run_each_fault<R: Abort + Threads + Wait + Clock + Sync>(
    rt: &R,
    alloc: Global,
    trial: FaultTrial,
    none: &'static str,
) {
    let mut has_failed = false;
    for call in 0..200 {
        match run_failing(rt, alloc, trial, call) {
            Fate::Failed => has_failed = true,
            Fate::Whole => return check(rt, has_failed, none),
            Fate::Other | Fate::Unopened => {}
        }
    }
    fail(rt, "some call of the first 200 always fails")
}
