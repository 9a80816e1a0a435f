//! A desk is closed.
ghost use Rattle.std.specs.Prelude.{◌≡◌, ℕ, ◌+◌, ◌≤◌, ◌^◌, IfOk, IfErr, Some, [], false, vec_len, map};
ghost use Rattle.jb_deck.specs.Done.{Follow, start_of};
ghost use Rattle.jb_desk.specs.Seats.{AddsUp, made_left};
ghost use Rattle.jb_board.specs.HistoryRule.{IsFirstPart};
ghost use Rattle.jb_book.specs.History.{CameAbout, IsStop};
ghost use Rattle.jb_book.specs.SinceMark.{IsMarkedOf};
ghost use Rattle.jb_book.specs.AtHome.{EndsUsing, log_used};
ghost use Rattle.jb_desk.specs.Close.{DiffersAs};
ghost use Rattle.jb_desk.specs.Parts.{ledger_parts};

use crate::desk::Desk;
use crate::follow::are_same;
use crate::queue_state::QueueState;
use crate::seat::Left;
use jb_board::Appender;
use jb_book::{Histories, JournalState, Origin, Sights};
use jb_deck::{Deck, Entry};
use jb_disk::{Clock, Disk};
use jb_handle::{Shape, Words};
use std::fmt;
use std::sync::Mutex;

/// What is left of a desk that was closed.
#[derive(Drop)]
pub struct Closed<D, C> {
    /// The journal's disk.
    pub disk: D,
    /// The clock.
    pub clock: C,
    /// How many handles stopped.
    pub handles: u64,
    /// How many home blocks these had touched, added up.
    pub changes: u64,
    /// What the handles had to fit in the journal.
    pub shape: Shape,
    /// The groups that were settled, in the order of their tickets, without those whose entries were taken. They begin
    /// at the ticket 0 where none was.
    pub trail: Vec<Entry>,
    /// How many blocks of the log are in use; `None` where the journal has failed. With `Some(0)` all that was settled
    /// is home.
    pub in_log: Option<u32>,
}

/// Why a desk is not closed.
#[derive(Drop)]
pub enum CloseFault<D: Disk, C: Clock, H: Origin> {
    /// A seat that was given has not left. Here are the desk, what the other seats left, and what was seen.
    SeatsOut(Desk<D, C, H>, Vec<Left<H>>, Sights<D, H>),
    /// The groups that the journal has settled are not those of the book.
    TrailsDiffer {
        /// The journal.
        deck: Deck<D>,
        /// The clock.
        clock: C,
        /// The groups that are settled in the book.
        book: Vec<Entry>,
    },
}

impl<D: Disk, C: Clock, H: Origin> fmt::Display for CloseFault<D, C, H> {
    fn fmt<W: fmt::Write>(&self, f: &mut fmt::Formatter<W>) -> fmt::Result {
        match self {
            CloseFault::SeatsOut(..) => write!(
                f,
                "a seat has not left; close with what all seats left"
            ),
            CloseFault::TrailsDiffer { .. } => {
                write!(
                    f,
                    "the journal has settled other groups than the book; start the program anew and recover it"
                )
            }
        }
    }
}

impl<D: Disk + Drop, C: Clock, H: Origin> Desk<D, C, H> {
    ghost use Rattle.jb_book.specs.History.{CameAbout};
    ghost use Rattle.jb_book.specs.AtHome.{EndsUsing};
    ghost use Rattle.jb_book.specs.SinceMark.{EndsSeen};
    ghost use Rattle.jb_desk.specs.Close.{IsNotClosed};
    ghost use Rattle.jb_book.specs.Since.{EndsSince};

    /// Closes the desk, where every seat that it gave has left. It writes nothing. Of the marks that were seen it says
    /// that each lasts: what a crash since then leaves has all that was settled at the mark. With `Some(0)` blocks in
    /// the log, each home on the disk is as the handles left it that the journal was given.
    ///
    /// # Errors
    ///
    /// `SeatsOut` where a seat's `Left` is missing, with all that was given; `TrailsDiffer` where the journal has
    /// settled other groups than the book (tested; the clause says only that `book` is not the journal's trail). Of its
    /// journal holds what [`Desk::end`] says.
    pub fn close(
        self,
        lefts: Vec<Left<H>>,
        seen: Sights<D, H>,
    ) -> Result<Closed<D, C>, CloseFault<D, C, H>>
        requires parts { H.parts ≡ 2 ^ 61 + 1 }
        /// A closed desk gives the sums over what its seats left; neither is above 2^61.
        ensures sums { IfOk result (λ closed. AddsUp lefts.items closed.handles closed.changes) }
        /// Its trail has the tickets from that of its first entry on without a gap, and none that no handle has.
        ensures trail { IfOk result (λ closed. (past : ℕ) × Follow (start_of closed.trail.items) 0 past
            closed.trail.items × (past ≤ closed.handles)) }
        /// The disk that it gives is that of a journal that was given some handles, with the tickets from 0 on, each
        /// with words that a handle may stop with. Where it is honest and no call of it has failed, these are the
        /// settled ones, and the homes are as they say, freed ones aside. They are cut into groups: those of the trail
        /// are consecutive, and of a journal that has not failed the last. What a crash leaves now is recovered to the
        /// first groups, with all settled handles. What one left earlier is recovered to some first groups, or could
        /// have been left before the start.
        ///
        /// The numbers of its trail rise by one, up to the next one of such a journal; where no entry was taken from
        /// its front and the disk is honest, the first one follows the number of the start.
        ensures since { IfOk result (λ closed. EndsSince D.Disk H.begun closed.disk closed.trail.items) }
        /// Let the handles that the threads stopped be one list, by ticket, each with its changes, of which the first n
        /// are durable (n may be 0). If no call of the disk has failed, the homes are as these n say, freed ones aside.
        /// A crash at the end recovers to these n at least. One after a mark recovers to all that were durable at the
        /// mark, at least. Any other recovers to some first handles, perhaps none, or its image could have been left
        /// before the start ([example: `ends_marked`](crates/proof_clients/src/examples/closing.rt)). The handles are
        /// cut into groups, of which the trail lists the last, but for those of a batch that failed; and what a crash
        /// recovers to ends between two of them ([example:
        /// `ends_between`](crates/proof_clients/src/examples/closing.rt)).
        ///
        /// Of a closed desk the stops that were handed to it as seen are the first of its history, and each mark that
        /// was so lasts: if the disk that it gives is honest, it was so at the mark, and what a crash leaves at any
        /// moment since is recovered to first groups with the handles that were settled then, at least.
        ///
        /// One history has as many handles as it says have stopped. The stops that all seats have left are this
        /// history, each once, and the handles that the journal of that disk was given are the first of it: each has
        /// the words of the stop with its ticket.
        ///
        /// It says how many blocks of the log are in use, where that journal has not failed. Where none are and the
        /// disk is honest, each home is on the disk as these handles left it, freed ones aside.
        ensures stops { IfOk result (λ closed. EndsUsing D.Disk H.begun (map made_left lefts.items) closed.handles
            closed.shape closed.disk closed.trail.items seen.stops seen.marks closed.in_log) }
        /// When the threads have ended, the machine of handles accepts a list of events whose stopped handles are those
        /// of the threads, by ticket, and whose last settled groups are the journal's trail. So each handle is whole in
        /// one group or in none ([example: `came_about`](crates/proof_clients/src/examples/closing.rt)).
        ///
        /// One history has the stops which all seats have left, each once, and no others. The machine of handles
        /// accepts a list of events in which they stopped in this order, and whose settled groups are those of the
        /// whole trail, in a journal of this shape if the disk is honest.
        ensures came { IfOk result (λ closed. CameAbout D.Disk H.begun (map made_left lefts.items) closed.shape
            closed.disk closed.trail.items) }
        /// A desk that is not closed is handed back with all that its seats left and what was seen; or a journal is,
        /// with entries that are not its trail, of which what `Desk::end` says holds. [But
        /// see](docs/WRONG_BODIES.md#the-calls-of-a-desk).
        ensures refused { IfErr result (IsNotClosed D.Disk H.begun self lefts seen) }
    {
        let Desk {
            queue,
            journal,
            signals,
            fair_queue,
            waits,
            board,
            histories,
            shape,
            alloc,
        } = self;
        let queue = queue.into_inner();
        if queue.given() != lefts.len() as u64 {
            let desk = Desk {
                queue: Mutex::new(queue),
                journal,
                signals,
                fair_queue,
                waits,
                board,
                histories,
                shape,
                alloc,
            };
            return Err(CloseFault::SeatsOut(desk, lefts, seen));
        }
        close_parts(&histories, queue, journal.into_inner(), lefts, seen)
    }

    /// Ends the desk, whatever its seats have left, and gives the journal's disk and the clock. It writes nothing. What
    /// is queued or taken is lost. Of the marks that were seen it says that each lasts: what a crash since then leaves
    /// has all that was settled at the mark.
    pub fn end(self, seen: Sights<D, H>) -> (D, C)
        /// A desk that ends before all seats have left gives the disk of a journal that was given the first of one
        /// history of stops, which begins with what was seen. It is as it must be since the start, if the disk is
        /// honest, and each mark that was seen lasts.
        ensures { EndsSeen D.Disk H.begun result.0 seen.stops seen.marks }
    {
        let Desk {
            queue,
            journal,
            histories,
            ..
        } = self;
        let mut appender = queue.into_inner().end();
        let (deck, clock) = end_journal(&histories, &mut appender, journal.into_inner(), seen);
        (deck.close(), clock)
    }
}

/// Closes what the two locks guarded, where every seat that was given has left.
fn close_parts<D: Disk + Drop, C: Clock, H: Origin>(
    histories: &Histories<D, H>,
    queue: QueueState<D, H>,
    journal: JournalState<D, C, H>,
    lefts: Vec<Left<H>>,
    seen: Sights<D, H>,
) -> Result<Closed<D, C>, CloseFault<D, C, H>>
    requires parts { H.parts ≡ ledger_parts }
    requires all { vec_len lefts ≡ queue.given }
    ensures sums { IfOk result (λ closed. AddsUp lefts.items closed.handles closed.changes) }
    ensures tiles { IfOk result (λ closed. (past : ℕ) × Follow (start_of closed.trail.items) 0 past closed.trail.items
        × (past ≤ closed.handles)) }
    ensures stops { IfOk result (λ closed. EndsUsing D.Disk H.begun (map made_left lefts.items) closed.handles
        closed.shape closed.disk closed.trail.items seen.stops seen.marks closed.in_log) }
    ensures came { IfOk result (λ closed. CameAbout D.Disk H.begun (map made_left lefts.items) closed.shape
        closed.disk closed.trail.items) }
    ensures given { IfOk result (λ closed. (closed.disk ≡ journal.deck.disk) × (closed.clock ≡ journal.clock)
        × (closed.trail.items ≡ journal.deck.trail) × (closed.trail.items ≡ queue.register.book.trail)
        × (closed.handles ≡ queue.register.book.shadow.next) × (closed.changes ≡ queue.register.book.changes)) }
    ensures refused { IfErr result (DiffersAs D.Disk H.begun queue journal seen) }
{
    let (trail, handles, changes, mut appender, mut known) = queue.totals(&histories.stops, lefts);
    let Sights { stops, mut marks } = seen;
    histories.marks.learn(&mut marks, &mut known);
    let (deck, clock) = end_journal(histories, &mut appender, journal, Sights { stops, marks });
    if !are_same(&trail, deck.trail()) {
        return Err(CloseFault::TrailsDiffer {
            deck,
            clock,
            book: trail,
        });
    }
    let shape = deck.shape();
    let in_log = used_of(&deck);
    Ok(Closed {
        disk: deck.close(),
        clock,
        handles,
        changes,
        shape,
        trail,
        in_log,
    })
}

/// The journal and the clock of what the second lock guarded. The history begins with what was seen of it, and the
/// marks that were seen last.
fn end_journal<D: Disk, C: Clock, H: Origin>(
    histories: &Histories<D, H>,
    appender: &mut Appender<Words, H>,
    journal: JournalState<D, C, H>,
    seen: Sights<D, H>,
) -> (Deck<D>, C)
    ensures kept { appender.new ≡ appender.old }
    ensures parts { (result.0 ≡ journal.deck) × (result.1 ≡ journal.clock) }
    ensures knows { IsFirstPart seen.stops appender.old }
    ensures since { IsMarkedOf D.Disk H.begun (IsStop H.begun appender.old) seen.marks result.0 }
{
    let Sights { stops, marks } = seen;
    let (deck, clock, prefix) = journal.end(histories, marks);
    histories.stops.check(appender, prefix);
    histories.stops.check(appender, stops);
    (deck, clock)
}

/// How many blocks of the log of a journal are in use; `None` where it has failed.
fn used_of<D: Disk>(deck: &Deck<D>) -> Option<u32>
    ensures used { result ≡ log_used deck.now }
    ensures none { result ≡ Some 0 → (deck.now.aborted ≡ false) × (deck.now.groups ≡ []) }
{
    if deck.aborted() {
        None
    } else {
        Some(deck.in_use())
    }
}
