//! Eight threads stop handles, one commits, and one brings groups home; also where the disk stops, up to a recovery.
ghost use Rattle.std.specs.Prelude.{◌≡◌, ◌+◌, ◌^◌};
ghost use Rattle.jb_desk.specs.History.{history_in};
ghost use Rattle.jb_board.specs.History.{history_id};
ghost use Rattle.jb_handle.specs.Word.{WordMap};

use crate::blind::{marks, start, stops};
use crate::checks::check_at;
use crate::closing::closed;
use crate::homes::{Stop, contents_of, prefix_of};
use crate::journal::{PARTS, Still, opened};
use crate::keys::{Draws, HOMES};
use crate::report::Report;
use crate::threads::{Reports, Worked, work_all};
use jb_block::{BlockSize, Width};
use jb_board::NewHistory;
use jb_deck::{Deck, Entry};
use jb_desk::{Left, Origin, StopLedger};
use jb_disk::{FuseDisk, MemoryDisk};
use jb_format::format;
use jb_recover::recover;
use std::alloc::Global;
use std::marker::Brand;
use std::process::Abort;
use std::sync::Wait;
use std::thread::Threads;
use std::time::Clock;

/// The blocks of the journal.
const JOURNAL: u32 = 257;

/// Calls of a disk that never stops.
const ALL: u64 = 1 << 60;

/// How many loads there are, of which the disk cuts all short but the first. By hand it took 5,000 too.
const LOADS: u64 = 16;

/// A load: the seed of its keys, the handles that each thread begins, and the calls after which the disk stops.
#[derive(Clone, Copy)]
struct Load {
    seed: u64,
    handles: u32,
    calls: u64,
}

/// A desk whose disk stops.
type Fused<H> = Still<FuseDisk<MemoryDisk>, H>;

/// A disk after a load, and what was reported of it.
#[derive(Drop)]
struct Outcome {
    disk: MemoryDisk,
    /// in the order of their tickets
    stops: Vec<Stop>,
    waited: Vec<(u64, u32)>,
    trail: Vec<Entry>,
    /// the committer and the checkpointer ended with the desk
    is_whole: bool,
}

/// A new journal of 256 usable log blocks, and 64 homes of zeros.
fn journal(rt: &impl Abort, alloc: Global) -> MemoryDisk {
    let blocks = u64::from(JOURNAL).saturating_add(HOMES as u64);
    let mut disk = MemoryDisk::new(alloc, BlockSize::OneKib, blocks).expect(rt, "memory");
    format(&mut disk, JOURNAL, 0, [0; 16], Width::Narrow).expect(rt, "the journal is not made");
    disk
}

/// What all threads report, put together; the stops are in the order of their tickets.
#[derive(Drop)]
struct Sums<H: Origin> {
    lefts: Vec<Left<H>>,
    stops: Vec<Stop>,
    waited: Vec<(u64, u32)>,
    touched: u64,
}

impl<H: Origin> Sums<H> {
    /// Adds what a thread reports.
    fn add(&mut self, rt: &impl Abort, worked: Worked<H>) {
        let Worked { left, report } = worked;
        let Report {
            mut stops,
            mut waited,
            touched,
            ..
        } = report;
        self.lefts.push(left).expect(rt, "memory");
        self.stops.append(&mut stops).expect(rt, "memory");
        self.waited.append(&mut waited).expect(rt, "memory");
        self.touched = self.touched.saturating_add(touched);
    }
}

/// Puts the threads' reports together.
fn sums_of<H: Origin>(rt: &impl Abort, alloc: Global, reports: Reports<H>) -> Sums<H> {
    let mut all = Sums {
        lefts: Vec::new(alloc),
        stops: Vec::new(alloc),
        waited: Vec::new(alloc),
        touched: 0,
    };
    all.lefts.push(reports.left).expect(rt, "memory");
    for worked in reports.of_threads {
        all.add(rt, worked);
    }
    all.stops
        .sort_by_key(|stop| stop.ticket)
        .expect(rt, "memory");
    all
}

/// A load of a new desk.
fn loaded<R: Abort + Threads + Wait + Clock + Sync, H: Origin + Send + Sync>(
    rt: &R,
    alloc: Global,
    load: Load,
    desk: Fused<H>,
) -> Outcome
    requires any { (words : WordMap) → H.begun.stops words }
    requires parts { H.parts ≡ 2 ^ 61 + 1 }
{
    let reports = work_all(rt, alloc, &desk, load.seed, load.handles);
    let (committed, checkpointed) = reports.ended;
    let Sums {
        lefts,
        stops,
        waited,
        touched,
    } = sums_of(rt, alloc, reports);
    let closed = closed(rt, desk, lefts);
    let has_stops = closed.handles == stops.len() as u64;
    check_at(rt, has_stops, "handles of load", load.seed);
    check_at(rt, closed.changes == touched, "changes of load", load.seed);
    Outcome {
        disk: closed.disk.into_inner(),
        stops,
        waited,
        trail: closed.trail,
        is_whole: committed.is_shut() && checkpointed.is_shut(),
    }
}

/// A load of a new desk. `None` where the journal could not be opened.
fn outcome_of<R: Abort + Threads + Wait + Clock + Sync, H: Origin + Send + Sync>(
    rt: &R,
    alloc: Global,
    load: Load,
    handles: StopLedger,
    marks: NewHistory<Deck<FuseDisk<MemoryDisk>>>,
) -> Option<Outcome>
    requires blind { (H.begun.is_known → ⊥) × (H.begun.none_failed → ⊥) }
    requires any { (words : WordMap) → H.begun.stops words }
    requires handles { (handles.tickets.name ≡ H.name) × (handles.tickets.parts ≡ H.parts) × (H.parts ≡ 2 ^ 61 + 1) }
    requires histories { (history_in handles ≡ H.history) × (history_id marks ≡ H.marks) }
{
    match opened(alloc, FuseDisk::of(journal(rt, alloc), load.calls)) {
        Some(deck) => {
            let desk: Fused<H> = start(rt, alloc, handles, marks, deck);
            Some(loaded(rt, alloc, load, desk))
        }
        None => None,
    }
}

/// Whether the tickets go up from 0 with no gap.
fn has_all_tickets(stops: &[Stop]) -> bool {
    for (ticket, stop) in stops.iter().enumerate() {
        if stop.ticket != ticket as u64 {
            return false;
        }
    }
    true
}

/// Whether each ticket that was waited for is in the group whose number was answered.
fn are_in_trail(waited: &[(u64, u32)], trail: &[Entry]) -> bool {
    for &(ticket, number) in waited {
        let before = trail.partition_point(|entry| entry.past <= ticket);
        match trail.get(before) {
            Some(entry) if entry.first <= ticket && entry.number == number => {}
            _ => return false,
        }
    }
    true
}

/// The ticket after those of the groups that are settled.
fn settled(trail: &[Entry]) -> u64 {
    match trail.last() {
        Some(entry) => entry.past,
        None => 0,
    }
}

/// A choice of sectors for what a crash leaves: all old, all new, or any.
fn choice(draws: &mut Draws) -> [u32; 128] {
    let kind = draws.below(3);
    let mut choice = [0; 128];
    for number in &mut choice {
        *number = match kind {
            0 => 0,
            1 => 2519,
            _ => draws.below(2520),
        };
    }
    choice
}

/// Crashes a disk that stopped, and recovers what is left of it.
fn crash(rt: &impl Abort, alloc: Global, seed: u64, draws: &mut Draws, disk: &mut MemoryDisk) {
    let mut left = disk.crash(&choice(draws)).expect(rt, "memory");
    let is_recovered = recover(alloc, &mut left).is_ok();
    check_at(rt, is_recovered, "the recovery of load", seed);
    *disk = left;
}

/// Checks that the homes hold what the stops of a load leave, all of them or, where the disk stopped, a prefix of
/// them with all that are settled, after a crash and a recovery.
fn check_outcome(
    rt: &impl Abort,
    alloc: Global,
    draws: &mut Draws,
    load: Load,
    outcome: &mut Outcome,
) {
    let Load { seed, calls, .. } = load;
    let is_whole = outcome.is_whole;
    let settled = settled(&outcome.trail);
    if !is_whole {
        crash(rt, alloc, seed, draws, &mut outcome.disk);
    }
    let contents = contents_of(rt, &mut outcome.disk, u64::from(JOURNAL));
    let found = prefix_of(&outcome.stops, &contents, settled, !is_whole);
    let has_settled = !is_whole || settled == outcome.stops.len() as u64;
    let has_tickets = has_all_tickets(&outcome.stops);
    let is_in_trail = are_in_trail(&outcome.waited, &outcome.trail);
    let may_stop = is_whole || calls < ALL;
    check_at(rt, may_stop, "how the threads end in load", seed);
    check_at(rt, found.is_some(), "the homes of load", seed);
    check_at(rt, has_settled, "the settled handles of load", seed);
    check_at(rt, has_tickets, "the tickets of load", seed);
    check_at(rt, is_in_trail, "an answered number of load", seed);
}

/// Checks a load, whose journal is opened where the disk does not stop.
fn check_load(
    rt: &impl Abort,
    alloc: Global,
    draws: &mut Draws,
    load: Load,
    outcome: Option<Outcome>,
) {
    let Load { seed, calls, .. } = load;
    match outcome {
        Some(mut outcome) => check_outcome(rt, alloc, draws, load, &mut outcome),
        None => check_at(rt, calls < ALL, "the opening of load", seed),
    }
}

/// The load of this number: the first one is large, and no disk stops it.
fn load_of(draws: &mut Draws, seed: u64) -> Load {
    let (handles, calls) = if seed == 0 {
        (1250, ALL)
    } else {
        (125, u64::from(draws.below(3000)))
    };
    Load {
        seed,
        handles,
        calls,
    }
}

/// Runs the load of this number, and checks what it leaves.
fn run_load<R: Abort + Threads + Wait + Clock + Sync>(rt: &R, alloc: Global, seed: u64) {
    let mut draws = Draws::of(seed);
    let load = load_of(&mut draws, seed);
    let handles = stops(rt, alloc);
    let marks = marks(rt, alloc);
    let outcome = outcome_of::<R, Brand>(rt, alloc, load, handles, marks);
    check_load(rt, alloc, &mut draws, load, outcome)
}

#[test]
fn homes_are_those_of_the_tickets_in_order(rt: HostRuntime) {
    for seed in 0..LOADS {
        run_load(&rt, rt.alloc(), seed);
    }
}
