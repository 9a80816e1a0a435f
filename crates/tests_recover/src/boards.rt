//! What a seat of a board sees of the raises of another, one after the other and at once.
ghost use Rattle.std.specs.Prelude.{◌≡◌, ◌≤◌};
ghost use Rattle.jb_board.specs.Seats.{given_by};

use jb_board::{Board, Front, Tickets};
use std::alloc::Global;
use std::marker::Brand;
use std::sync::ledger::{Blank, Book, Ledger};
use std::test::Fail;
use std::thread;
use std::thread::Threads;

/// The parts of a ledger.
const PARTS: u64 = 1;

/// These counts.
fn counts(settled: u64, taken: u64, stopped: u64) -> Front {
    Front {
        settled,
        taken,
        stopped,
    }
}

/// A ledger's book that has counted this many tickets.
fn counted<L: Ledger>(blank: Blank, count: u64) -> Book<L>
    requires name { blank.name ≡ L.name }
    requires parts { (blank.parts ≡ L.parts) × (L.parts ≡ 1) }
    ensures { result.total ≡ count }
{
    let (mut book, mut share) = blank.open::<L>();
    book.add(&mut share, count);
    book
}

/// What two seats and a third one see of raises by the first, one after the other.
fn seen<L: Ledger>(alloc: Global, blank: Blank) -> Result<[Front; 6], Fail>
    requires name { blank.name ≡ L.name }
    requires parts { (blank.parts ≡ L.parts) × (L.parts ≡ 1) }
{
    let tickets = Tickets::of(&counted::<L>(blank, 3), 3);
    let (board, mut first) = Board::<L>::new(alloc)?;
    let mut second = board.split(&mut first);
    let new = board.look(&mut second);
    board.raise_stopped(&mut first, 3, &tickets);
    let stopped = board.look(&mut second);
    board.raise_taken(&mut first, 2);
    let taken = board.look(&mut second);
    board.raise_settled(&mut first, 1);
    let settled = board.look(&mut second);
    board.raise_settled(&mut first, 2);
    board.raise_stopped(&mut first, 1, &tickets);
    let more = board.look(&mut second);
    board.join(&mut first, second);
    let mut third = board.enter();
    Ok([new, stopped, taken, settled, more, board.look(&mut third)])
}

#[test]
fn a_second_seat_sees_what_the_first_raised(rt: HostRuntime) -> Result<(), Fail> {
    let found = seen::<Brand>(rt.alloc(), Blank::new(PARTS))?;
    let wanted = [
        counts(0, 0, 0),
        counts(0, 0, 3),
        counts(0, 2, 3),
        counts(1, 2, 3),
        counts(2, 2, 3),
        counts(2, 2, 3),
    ];
    assert_eq!(rt; found, wanted);
    Ok(())
}

/// Whether counts are out of order, or below these.
fn is_fault(seen: &Front, last: &Front, count: u64) -> bool {
    seen.settled < count
        || seen.settled < last.settled
        || seen.taken < seen.settled
        || seen.stopped < seen.taken
}

/// How many of `rounds` looks, each after a ticket was stopped, taken and settled, gave counts that are
/// out of order or below those of the look before.
fn faults<L: Ledger>(board: &Board<L>, tickets: &Tickets<L>, rounds: u64) -> u64
    requires { rounds ≤ given_by tickets.now }
{
    let mut seat = board.enter();
    let mut last = board.look(&mut seat);
    let mut faults = 0;
    for count in 1..=rounds {
        board.raise_stopped(&mut seat, count, tickets);
        board.raise_taken(&mut seat, count);
        board.raise_settled(&mut seat, count);
        let seen = board.look(&mut seat);
        if is_fault(&seen, &last, count) {
            faults = count;
        }
        last = seen;
    }
    faults
}

/// The faults of two threads at one board, and the counts at the end.
fn raced<R: Threads, L: Ledger + Sync>(
    rt: &R,
    alloc: Global,
    blank: Blank,
) -> Result<(u64, u64, Front), Fail>
    requires name { blank.name ≡ L.name }
    requires parts { (blank.parts ≡ L.parts) × (L.parts ≡ 1) }
{
    let tickets = Tickets::of(&counted::<L>(blank, 10000), 10000);
    let (board, mut seat) = Board::<L>::new(alloc)?;
    let (one, other) = thread::join(
        rt,
        || faults(&board, &tickets, 5000),
        || faults(&board, &tickets, 10000),
    );
    Ok((one, other, board.look(&mut seat)))
}

#[test]
fn two_threads_raise_and_see_counts_in_order(rt: HostRuntime) -> Result<(), Fail> {
    let found = raced::<HostRuntime, Brand>(&rt, rt.alloc(), Blank::new(PARTS))?;
    assert_eq!(rt; found, (0, 0, counts(10000, 10000, 10000)));
    Ok(())
}
