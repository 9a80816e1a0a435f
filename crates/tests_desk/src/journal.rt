//! The small journal, and handles and rounds over it.
ghost use Rattle.std.specs.Prelude.{◌≡◌, [], false, IfSome};
ghost use Rattle.jb_handle.specs.Handle.{holder};
ghost use Rattle.jb_desk.specs.Desks.{desk_id};
ghost use Rattle.jb_desk.specs.Rounds.{seat_of};
ghost use Rattle.jb_desk.specs.Seats.{desk_of};
ghost use Rattle.jb_handle.specs.Word.{WordMap};

use crate::checks::{Never, read_at, write_at};
use jb_block::{BlockSize, Width, put32};
use jb_deck::{Deck, Entry};
use jb_desk::{
    BeginFault, Committer, Desk, EnqueueFault, Origin, Retired, Round, RoundFault, Seat, StopFault,
    Ticket,
};
use jb_disk::{Disk, FixedClock, MemoryDisk, OneFaultDisk};
use jb_format::format;
use jb_group::Stamp;
use jb_handle::{Handle, Shape};
use std::alloc::Global;
use std::process::Abort;
use std::sync::Wait;

/// A desk over a disk, whose clock stands still.
pub type Still<D, H> = Desk<D, FixedClock, H>;

/// A desk over the small journal.
pub type Small<H> = Still<MemoryDisk, H>;

/// A desk over the small journal whose disk fails once.
pub type Failing<H> = Still<OneFaultDisk<MemoryDisk>, H>;

/// The parts of the ledger of a desk.
pub const PARTS: u64 = (1 << 61) + 1;

/// The clock of all desks.
pub const CLOCK: FixedClock = FixedClock {
    stamp: Stamp { sec: 3, nsec: 4 },
};

/// What the handles of the small journal have to fit.
pub const SHAPE: Shape = Shape {
    bs: BlockSize::OneKib,
    homes: 16,
    limit: 8,
    width: Width::Narrow,
};

/// A new journal of 32 usable log blocks and 16 home blocks, of which a group takes 8 log blocks at most.
pub fn formatted(rt: &impl Abort, alloc: Global) -> MemoryDisk {
    let mut disk = MemoryDisk::new(alloc, BlockSize::OneKib, 49).expect(rt, "memory");
    format(&mut disk, 33, 0, [0; 16], Width::Narrow).expect(rt, "the journal is not made");
    disk
}

/// The same journal after a transaction of this number.
pub fn numbered(rt: &impl Abort, alloc: Global, number: u32) -> MemoryDisk {
    let mut disk = formatted(rt, alloc);
    let mut front = [0; 1024];
    read_at(rt, &mut disk, 0, &mut front);
    put32(&mut front, 24, number);
    write_at(rt, &mut disk, 0, &front);
    disk
}

/// What a disk holds of a home block, which are after the 33 blocks of the journal.
pub fn home(rt: &impl Abort, disk: &mut MemoryDisk, number: u64) -> [u8; 1024] {
    let mut block = [0; 1024];
    read_at(rt, disk, number.saturating_add(33), &mut block);
    block
}

/// Opens the journal on a disk.
pub fn opened<D: Disk + Drop>(alloc: Global, disk: D) -> Option<Deck<D>>
    ensures { IfSome result (λ deck. (deck.trail ≡ []) × (deck.aborted ≡ false)) }
{
    Deck::open(alloc, disk).ok()
}

/// A seat of a desk that is not shut.
pub fn seated<R: Abort + Wait, D: Disk, H: Origin>(rt: &R, desk: &Still<D, H>) -> Seat<H>
    ensures { desk_of result ≡ desk_id desk.now }
{
    desk.seat(rt).expect(rt, "there is no seat")
}

/// Fails the test, as this handle is not begun.
fn not_begun(rt: &impl Abort, what: &'static str, fault: BeginFault) -> Never {
    panic!(rt; "{what} is not begun: {fault}")
}

/// Begins a handle that is not refused. Fails the test where it is, and says that it was this one.
pub fn begun<R: Abort + Wait, D: Disk, H: Origin>(
    rt: &R,
    desk: &Still<D, H>,
    seat: Seat<H>,
    credits: u32,
    what: &'static str,
) -> Handle<Seat<H>>
    ensures { holder result ≡ seat }
{
    match desk.begin(rt, seat, credits) {
        Ok(handle) => handle,
        Err((_seat, fault)) => match not_begun(rt, what, fault) {},
    }
}

/// Begins a handle and drops it; says why that was refused.
pub fn refused<R: Wait, D: Disk, H: Origin>(
    rt: &R,
    desk: &Still<D, H>,
    seat: Seat<H>,
    credits: u32,
) -> (Seat<H>, Option<BeginFault>)
    ensures { result.0 ≡ seat }
{
    match desk.begin(rt, seat, credits) {
        Ok(handle) => (desk.abandon(rt, handle), None),
        Err((seat, fault)) => (seat, Some(fault)),
    }
}

/// Stops a handle, or drops it where that is refused.
pub fn stop<R: Wait, D: Disk, H: Origin>(
    rt: &R,
    desk: &Still<D, H>,
    handle: Handle<Seat<H>>,
) -> (Seat<H>, Result<Ticket, EnqueueFault>)
    requires any { (words : WordMap) → H.begun.stops words }
    requires desk { desk_of (holder handle) ≡ desk_id desk.now }
    ensures { desk_of result.0 ≡ desk_id desk.now }
{
    match desk.stop(rt, &mut desk.sights(rt), handle) {
        Ok((seat, ticket)) => (seat, Ok(ticket)),
        Err(StopFault::Aborted(seat)) => (seat, Err(EnqueueFault::Aborted)),
        Err(StopFault::NotOpen(handle)) => (desk.abandon(rt, handle), Err(EnqueueFault::NotOpen)),
        Err(StopFault::Memory(handle)) => (desk.abandon(rt, handle), Err(EnqueueFault::Memory)),
    }
}

/// Begins a handle of this many credits, writes home blocks and stops it. Gives its ticket, if it stopped.
pub fn write<R: Wait, D: Disk, H: Origin>(
    rt: &R,
    desk: &Still<D, H>,
    seat: Seat<H>,
    credits: u32,
    homes: &[u64],
) -> (Seat<H>, Option<u64>)
    requires any { (words : WordMap) → H.begun.stops words }
    requires desk { desk_of seat ≡ desk_id desk.now }
    ensures { desk_of result.0 ≡ desk_id desk.now }
{
    match desk.begin(rt, seat, credits) {
        Ok(handle) => {
            let (seat, ticket) = stop(rt, desk, written(handle, homes));
            (seat, ticket.ok())
        }
        Err((seat, _)) => (seat, None),
    }
}

/// Writes home blocks in a handle.
pub fn written<H: Origin>(handle: Handle<Seat<H>>, homes: &[u64]) -> Handle<Seat<H>>
    ensures { holder result ≡ holder handle }
{
    let mut handle = handle;
    for &home in homes {
        let _refused = handle.write(home, &[7; 1024]);
    }
    handle
}

/// What a round came to: of a batch that was committed the first group, and how many there were.
#[derive(Clone, Copy)]
pub enum Came {
    Idle,
    Committed(Option<Entry>, usize),
    Failed(RoundFault),
}

/// Whether a round has committed one handle of one copy, under this ticket and number.
pub fn is_one(came: Came, ticket: u64, number: u32) -> bool {
    let wanted = Entry {
        first: ticket,
        past: ticket.saturating_add(1),
        number,
        blocks: 3,
    };
    match came {
        Came::Committed(Some(entry), 1) => entry == wanted,
        _ => false,
    }
}

/// One round of a committer.
pub fn round<R: Wait, D: Disk, H: Origin>(
    rt: &R,
    desk: &Still<D, H>,
    committer: &mut Committer<H>,
) -> Came
    requires desk { desk_of (seat_of committer.old) ≡ desk_id desk.now }
    ensures desk { desk_of (seat_of committer.new) ≡ desk_of (seat_of committer.old) }
{
    match desk.commit_round(rt, committer, &mut desk.sights(rt)) {
        Ok(Round::Idle(_)) => Came::Idle,
        Ok(Round::Committed(done)) => {
            let entries = done.entries();
            Came::Committed(entries.first().copied(), entries.len())
        }
        Err(fault) => Came::Failed(fault),
    }
}

/// A seat becomes a committer for one round. Says what it came to, and whether the committer retired.
pub fn round_of<R: Wait, D: Disk, H: Origin>(
    rt: &R,
    desk: &Still<D, H>,
    seat: Seat<H>,
) -> (Seat<H>, Came, bool)
    requires desk { desk_of seat ≡ desk_id desk.now }
    ensures { desk_of result.0 ≡ desk_id desk.now }
{
    let mut committer = desk.committer(seat);
    let came = round(rt, desk, &mut committer);
    let (seat, is_retired) = retired(rt, desk, committer);
    (seat, came, is_retired)
}

/// Stops a handle that writes a home block, and commits it.
pub fn commit<R: Wait, D: Disk, H: Origin>(
    rt: &R,
    desk: &Still<D, H>,
    seat: Seat<H>,
    home: u64,
) -> (Seat<H>, Came)
    requires any { (words : WordMap) → H.begun.stops words }
    requires desk { desk_of seat ≡ desk_id desk.now }
    ensures { desk_of result.0 ≡ desk_id desk.now }
{
    let (seat, _) = write(rt, desk, seat, 1, &[home]);
    let (seat, came, _) = round_of(rt, desk, seat);
    (seat, came)
}

/// A committer retires, or gives up where it is handed back. Says whether it retired.
pub fn retired<R: Wait, D: Disk, H: Origin>(
    rt: &R,
    desk: &Still<D, H>,
    committer: Committer<H>,
) -> (Seat<H>, bool)
    ensures { result.0 ≡ seat_of committer }
{
    match desk.retire(rt, committer) {
        Ok(Retired { seat, lost: _ }) => (seat, true),
        Err(committer) => {
            let Retired { seat, lost: _ } = desk.give_up(rt, committer);
            (seat, false)
        }
    }
}
