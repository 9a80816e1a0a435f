//! The desk of a run is closed.
ghost use Rattle.std.specs.Prelude.{◌≡◌, ◌+◌, ◌^◌, ◌≤◌, Bool, ℕ, true, [], IfErr, IfOk, ◌⊎◌, vec_len};
ghost use Rattle.jb_book.specs.SinceMark.{EndsSeen};
ghost use Rattle.jb_deck.specs.Done.{Follow, past_after, start_of};
ghost use Rattle.jb_book.specs.Since.{EndsSince};
ghost use Rattle.jb_journal.specs.Gather.{HasEnded, IsClosed, IsNotTold, IsUntold};
ghost use Rattle.jb_journal.specs.Run.{EndsChecked, EndsRun};
ghost use Rattle.jb_desk.specs.Ends.{is_shut};
ghost use Rattle.jb_journal.specs.declared.fault.RunFault.TheVariants.{Accounts, NoThread};

use crate::fault::RunFault;
use crate::not_run::NotRun;
use crate::ran::Ran;
use crate::thread_results::ThreadResults;
use crate::threads::Ends;
use jb_deck::Entry;
use jb_desk::{CloseFault, Closed, Desk, Ended, Left, Origin, Sights};
use jb_disk::{Clock, Disk};
use jb_handle::Shape;

/// Closes the desk of a run of this many workers, whose journal had this shape when it was opened, and tells what that
/// leaves.
///
/// # Errors
/// `NoThread` where the threads were waited for in vain, no worker has answered and no handle has stopped; `Accounts`
/// where the desk's sums do not agree, its journal has another shape, or an answer is missing.
pub(crate) fn close<T: Drop, D: Disk + Drop, C: Clock + Drop, H: Origin>(
    desk: Desk<D, C, H>,
    shape: Shape,
    workers: usize,
    gathered: ThreadResults<T, D, H>,
    ends: Ends,
) -> Result<Ran<T, D>, NotRun<T, D>>
    requires parts { H.parts ≡ 2 ^ 61 + 1 }
    ensures closed { IfOk result (IsClosed D.Disk H.begun workers gathered shape) }
    ensures ends { IfOk result (λ ran. (asked : Bool) → EndsChecked asked ends.checkpoint → EndsRun asked ran) }
    ensures since { IfOk result (λ ran. EndsSince D.Disk H.begun ran.disk ran.trail.items) }
    ensures faults { IfErr result (IsUntold D.Disk H.begun gathered ends.given_up) }
{
    let ThreadResults {
        lefts,
        seen,
        answers,
    } = gathered;
    match closed_by(desk, lefts, seen) {
        Ok(closed) => tell(closed, shape, workers, answers, ends),
        Err(disk) => Err(NotRun {
            disk,
            answers,
            fault: RunFault::Accounts,
        }),
    }
}

/// The parts of a desk that is closed.
///
/// # Errors
/// The journal's disk, where the desk's sums do not agree.
fn closed_by<D: Disk + Drop, C: Clock + Drop, H: Origin>(
    desk: Desk<D, C, H>,
    lefts: Vec<Left<H>>,
    seen: Sights<D, H>,
) -> Result<Closed<D, C>, D>
    requires parts { H.parts ≡ 2 ^ 61 + 1 }
    ensures ok { IfOk result (HasEnded D.Disk H.begun lefts.items seen) }
    ensures err { IfErr result (λ disk. EndsSeen D.Disk H.begun disk seen.stops seen.marks) }
{
    match desk.close(lefts, seen) {
        Ok(closed) => Ok(closed),
        Err(CloseFault::SeatsOut(desk, _, seen)) => {
            let (disk, _) = desk.end(seen);
            Err(disk)
        }
        Err(CloseFault::TrailsDiffer { deck, .. }) => Err(deck.close()),
    }
}

/// Tells what a desk that was closed leaves, where its journal had this shape when it was opened, and this many workers
/// were to answer.
fn tell<T: Drop, D: Disk + Drop, C: Clock + Drop>(
    closed: Closed<D, C>,
    shape: Shape,
    workers: usize,
    answers: Vec<T>,
    ends: Ends,
) -> Result<Ran<T, D>, NotRun<T, D>>
    requires { (past : ℕ) × Follow (start_of closed.trail.items) 0 past closed.trail.items × (past ≤ closed.handles) }
    ensures told { IfOk result (λ ran. (ran.disk ≡ closed.disk) × (ran.answers ≡ answers)
        × (ran.handles ≡ closed.handles) × (ran.trail ≡ closed.trail) × (ran.changes ≡ closed.changes)
        × (ran.in_log ≡ closed.in_log) × (closed.shape ≡ shape) × (vec_len answers ≡ workers)) }
    ensures ends { IfOk result (λ ran. (asked : Bool) → EndsChecked asked ends.checkpoint → EndsRun asked ran) }
    ensures faults { IfErr result (IsNotTold closed answers ends.given_up) }
{
    let Closed {
        disk,
        handles,
        changes,
        trail,
        in_log,
        shape: at_end,
        ..
    } = closed;
    let settled = settled_handles(&trail);
    let is_unused = is_unused(&answers, handles);
    let are_all = are_all(at_end, shape, answers.len(), workers);
    match told_by(ends, is_unused, are_all, settled, handles) {
        Ok(commit) => Ok(Ran {
            disk,
            answers,
            handles,
            settled,
            changes,
            trail,
            in_log,
            commit,
            checkpoint: ends.checkpoint,
        }),
        Err(fault) => Err(NotRun {
            disk,
            answers,
            fault,
        }),
    }
}

/// How the committer ended, where that goes with the rest.
///
/// # Errors
/// `NoThread` where the threads were waited for in vain and the journal is unused; otherwise `Accounts` where not all
/// is there, or the committer has ended as the desk was over and not all handles are settled.
fn told_by(
    ends: Ends,
    is_unused: bool,
    are_all: bool,
    settled: u64,
    handles: u64,
) -> Result<Ended, RunFault>
    ensures ok { IfOk result (λ commit. (are_all ≡ true) × (is_shut commit ≡ true → settled ≡ handles)) }
    ensures err { IfErr result (λ fault. (fault ≡ Accounts)
        ⊎ ((fault ≡ NoThread) × (ends.given_up ≡ true) × (is_unused ≡ true))) }
{
    if ends.given_up && is_unused {
        return Err(RunFault::NoThread);
    }
    let Some(commit) = ends.commit else {
        return Err(RunFault::Accounts);
    };
    if !are_all || (commit.is_shut() && settled != handles) {
        return Err(RunFault::Accounts);
    }
    Ok(commit)
}

/// Whether no worker has answered and no handle has stopped.
fn is_unused<T>(answers: &[T], handles: u64) -> bool
    ensures { result ≡ true → (answers.now ≡ []) × (handles ≡ 0) }
{
    answers.is_empty() && handles == 0
}

/// Whether each worker has answered, and the journal has the shape with which it was opened.
fn are_all(at_end: Shape, shape: Shape, answers: usize, workers: usize) -> bool
    ensures { result ≡ true → (at_end ≡ shape) × (answers ≡ workers) }
{
    if at_end != shape {
        return false;
    }
    answers == workers
}

/// How many handles the groups of a trail have settled.
fn settled_handles(trail: &[Entry]) -> u64
    ensures { result ≡ past_after 0 trail.now }
{
    match trail.last() {
        Some(entry) => entry.past,
        None => 0,
    }
}
