//! Desks that live long, whose trail is taken.
ghost use Rattle.std.specs.Prelude.{◌≡◌, ◌+◌, ◌^◌};
ghost use Rattle.jb_desk.specs.Desks.{desk_id};
ghost use Rattle.jb_desk.specs.Seats.{desk_of};
ghost use Rattle.jb_handle.specs.Word.{WordMap};

use crate::checks::check_in;
use crate::closing::{closed, left};
use crate::journal::{Small, Still, commit, seated};
use crate::trials::{Trial, run};
use jb_block::Memory;
use jb_deck::Entry;
use jb_desk::{Origin, Seat, WaitFault};
use jb_disk::Disk;
use std::alloc::Global;
use std::process::Abort;
use std::sync::Wait;

/// How a desk lives: how many rounds, in each of which a handle stops and is committed, whether a group is brought home
/// in each, and whether the trail is taken.
pub type Life = (u64, bool, bool);

/// What such a life comes to: how many entries were taken, how many the trail has had at most, and how many are left at
/// the end; and what is answered of the first ticket, and of the last one.
pub type Lived = (usize, usize, usize, Answer, Answer);

/// A life, and what it comes to.
pub type Row = (Life, Lived);

/// What is answered of a ticket.
pub type Answer = Result<u32, WaitFault>;

/// What was taken of a trail.
#[derive(Drop)]
struct Taken {
    entries: Vec<Entry>,
    committed: usize,
    longest: usize,
}

impl Taken {
    /// Nothing yet.
    fn new(alloc: Global) -> Taken {
        Taken {
            entries: Vec::new(alloc),
            committed: 0,
            longest: 0,
        }
    }

    /// A trail has one entry more.
    fn add(&mut self) {
        self.committed = self.committed.saturating_add(1);
        let left = self.committed.saturating_sub(self.entries.len());
        self.longest = self.longest.max(left);
    }

    /// Entries were taken.
    fn take(&mut self, rt: &impl Abort, entries: Result<Vec<Entry>, Memory>) {
        let entries = entries.expect(rt, "the trail is not taken");
        self.entries
            .extend_from_slice(&entries)
            .expect(rt, "memory");
    }
}

/// The entry of a ticket, where each handle is a group of one copy and the first has the number 2.
fn entry_of(ticket: usize) -> Entry {
    let ticket = ticket as u64;
    Entry {
        first: ticket,
        past: ticket.saturating_add(1),
        number: u32::try_from(ticket.saturating_add(2)).unwrap_or(0),
        blocks: 3,
    }
}

/// Checks that these are the entries of the tickets from this one on.
fn check_entries(rt: &impl Abort, row: u64, entries: &[Entry], first: usize) {
    for (index, &entry) in entries.iter().enumerate() {
        let ticket = first.saturating_add(index);
        let is_so = entry == entry_of(ticket);
        check_in(rt, is_so, row, "the entry of ticket", ticket as u64);
    }
}

/// After a round a group is brought home or is not, and the trail is taken or is not.
fn tend<R: Abort + Wait, D: Disk, H: Origin>(
    rt: &R,
    desk: &Still<D, H>,
    life: Life,
    taken: &mut Taken,
) {
    let (_, checkpoints, takes) = life;
    taken.add();
    if checkpoints {
        let _checked = desk.checkpoint_round(rt);
    }
    if takes {
        taken.take(rt, desk.take_trail(rt));
    }
}

/// The rounds of a life.
fn rounds<R: Abort + Wait, D: Disk, H: Origin>(
    rt: &R,
    desk: &Still<D, H>,
    seat: Seat<H>,
    life: Life,
    taken: &mut Taken,
) -> Seat<H>
    requires any { (words : WordMap) → H.begun.stops words }
    requires desk { desk_of seat ≡ desk_id desk.now }
    ensures { desk_of result ≡ desk_id desk.now }
{
    let mut seat = seat;
    for round in 0..life.0 {
        let (back, _) = commit(rt, desk, seat, round % 16);
        seat = back;
        tend(rt, desk, life, taken);
    }
    seat
}

/// Checks what is answered of the first ticket of a life, and of the last one.
fn check_numbers<R: Abort + Wait, D: Disk, H: Origin>(
    rt: &R,
    desk: &Still<D, H>,
    seat: &mut Seat<H>,
    number: u64,
    row: &Row,
)
    requires desk { desk_of seat.old ≡ desk_id desk.now }
{
    let ((rounds, _, _), (_, _, _, first, last)) = *row;
    let ticket = rounds.saturating_sub(1);
    let is_first = desk.wait(rt, seat, &mut desk.sights(rt), 0) == first;
    let is_last = desk.wait(rt, seat, &mut desk.sights(rt), ticket) == last;
    check_in(rt, is_first, number, "the number of ticket", 0);
    check_in(rt, is_last, number, "the number of ticket", ticket);
}

/// Checks what was taken of a trail, and what is left of it.
fn check_trail(rt: &impl Abort, number: u64, lived: Lived, taken: &Taken, trail: &[Entry]) {
    let (wanted, at_most, at_last, _, _) = lived;
    let (count, longest, left) = (taken.entries.len(), taken.longest, trail.len());
    check_in(rt, count == wanted, number, "entries taken:", count as u64);
    check_in(rt, longest == at_most, number, "at most:", longest as u64);
    check_in(rt, left == at_last, number, "left:", left as u64);
    check_entries(rt, number, &taken.entries, 0);
    check_entries(rt, number, trail, count);
}

/// Checks what the life of a desk comes to.
pub fn outcome<R: Abort + Wait, H: Origin>(
    rt: &R,
    alloc: Global,
    number: u64,
    row: &Row,
    desk: Small<H>,
)
    requires any { (words : WordMap) → H.begun.stops words }
    requires parts { H.parts ≡ 2 ^ 61 + 1 }
{
    let (life, lived) = *row;
    let mut taken = Taken::new(alloc);
    let mut seat = rounds(rt, &desk, seated(rt, &desk), life, &mut taken);
    check_numbers(rt, &desk, &mut seat, number, row);
    let lefts = left(rt, alloc, &desk, seat);
    let closed = closed(rt, desk, lefts);
    let handles = closed.handles;
    check_in(rt, handles == life.0, number, "handles:", handles);
    check_trail(rt, number, lived, &taken, &closed.trail);
}

/// The entry of the ticket was taken.
const GONE: Answer = Err(WaitFault::Taken);

/// Where each group is brought home at once, the trail has two entries at most; where none is but for room, the 32
/// blocks of the log hold ten groups of three, and one group more is home.
static ROWS: [Row; 5] = [
    ((100, true, true), (99, 2, 1, GONE, Ok(101))),
    ((100, true, false), (0, 100, 100, Ok(2), Ok(101))),
    ((100, false, true), (90, 11, 10, GONE, Ok(101))),
    ((8, false, true), (0, 8, 8, Ok(2), Ok(9))),
    ((1, true, true), (0, 1, 1, Ok(2), Ok(2))),
];

#[test]
fn a_trail_that_is_taken_stays_short(rt: HostRuntime) {
    for (number, &row) in ROWS.iter().enumerate() {
        run(&rt, rt.alloc(), Trial::Lives(number as u64, row));
    }
}
