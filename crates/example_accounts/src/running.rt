//! Runs of the workers: on any disk, and in the file of an image.
ghost use Rattle.std.specs.Prelude.{◌≡◌, ◌≤◌, [], IfOk, All, map, vec_capacity, vec_len};
ghost use Rattle.jb_board.specs.History.{history_id};
ghost use Rattle.jb_journal.specs.Names.{IsFirstPart};
ghost use Rattle.example_accounts.specs.Conserved.{Conserves, ConservesInImage, TellsEnds, ended_of};

use crate::cashbook::Cashbook;
use crate::moving::{Moved, Moving};
use crate::posting::Posting;
use jb_board::{Appender, History, NewHistory, Place};
use jb_journal::{
    Disk, FileDisk, ImageGeometry, JournalFault, Options, Ran, Start, SystemClock,
    open_or_create_holding, run,
};
use std::alloc::Global;
use std::fs::File;
use std::marker::Brand;
use std::rt::Files;
use std::sync::{Mutex, Wait};
use std::thread::Threads;
use std::time::Clock;

/// How many threads move money.
const WORKERS: usize = 4;

/// How a worker ended.
pub type Outcome = Result<(), JournalFault>;

/// Moves money between the accounts on the journal of a disk.
///
/// # Errors
/// Those of [`run`], and `Memory` where there is none for what is told of the workers; nothing was done then.
pub fn move_on_disk<D: Disk + Drop + Send, R: AllocGlobal + Threads + Wait + Clock + Sync>(
    rt: &R,
    disk: D,
    moves: u64,
) -> Result<Ran<Outcome, D>, JournalFault>
    /// The accounts of a run hold together what they held at the start; where that was nothing, its first handle opens
    /// all of them. So they do after each first handles by ticket of all its threads, and, if the disk that is given
    /// back is honest, in what a crash leaves since the run began, once it is recovered, unless it was left before.
    ensures { IfOk result (Conserves D.Disk disk) }
{
    let (history, outcomes) = room(rt.alloc())?;
    move_by::<Brand, D, R>(rt, disk, moves, history, outcomes)
}

/// The same in the image of this name, which is made where there is none.
///
/// # Errors
/// Those of [`open_or_create_holding`], and those of a disk.
pub fn move_in_image<
    S: Start + Send,
    R: Files<File = File> + AllocGlobal + Threads + Wait + Clock + Sync,
>(
    rt: &R,
    image: &str,
    geometry: ImageGeometry,
    moves: u64,
) -> Result<Ran<Outcome, FileDisk<S>>, JournalFault>
    /// The same of the accounts in one file, which was opened with its journal recovered, or in which its journal was
    /// made.
    ensures { IfOk result (ConservesInImage geometry) }
{
    let disk = open_or_create_holding::<S, R>(rt, image, geometry)?;
    Ok(move_on_disk(rt, disk, moves)?)
}

/// A new history of postings, and room for how the workers end.
fn room(alloc: Global) -> Result<(NewHistory<Posting>, Vec<Outcome>), JournalFault>
    ensures { IfOk result (λ room. (room.1.items ≡ []) × (vec_len room.1 ≡ 0) × (vec_capacity room.1 ≡ 4)) }
{
    let history = NewHistory::new(alloc)?;
    let outcomes = Vec::with_capacity(alloc, WORKERS)?;
    Ok((history, outcomes))
}

/// Runs the workers, whose postings are of this history.
fn move_by<
    L: Place + Send + Sync,
    D: Disk + Drop + Send,
    R: AllocGlobal + Threads + Wait + Clock + Sync,
>(
    rt: &R,
    disk: D,
    moves: u64,
    history: NewHistory<Posting>,
    outcomes: Vec<Outcome>,
) -> Result<Ran<Outcome, D>, JournalFault>
    requires history { history_id history ≡ L.history }
    requires room { (outcomes.items ≡ []) × (vec_len outcomes ≡ 0) × (vec_capacity outcomes ≡ 4) }
    ensures { IfOk result (Conserves D.Disk disk) }
{
    let moving = Moving::<L>::new(moves, history);
    let ran = run(
        rt,
        disk,
        SystemClock::new(rt),
        Options::new(WORKERS),
        &moving,
    )?;
    Ok(moving.told(ran, outcomes))
}

impl<L: Place> Moving<L> {
    /// Workers that have posted nothing yet.
    fn new(moves: u64, history: NewHistory<Posting>) -> Moving<L>
        requires { history_id history ≡ L.history }
    {
        let (history, postings) = history.named::<L>();
        Moving {
            moves,
            history,
            book: Mutex::new(Cashbook::new(postings)),
        }
    }

    /// What is left of a run, with how each worker ended in the place of what it answered, in room that was taken
    /// before.
    fn told<D>(self, ran: Ran<Moved<L>, D>, outcomes: Vec<Outcome>) -> Ran<Outcome, D>
        requires none { (outcomes.items ≡ []) × (vec_len outcomes ≡ 0) }
        requires room { vec_len ran.answers ≤ vec_capacity outcomes }
        ensures { TellsEnds ran result }
    {
        let Moving { history, book, .. } = self;
        let mut postings = book.into_inner().into_postings();
        let Ran {
            disk,
            answers,
            handles,
            settled,
            changes,
            trail,
            in_log,
            commit,
            checkpoint,
        } = ran;
        Ran {
            disk,
            answers: ended(&history, &mut postings, answers, outcomes),
            handles,
            settled,
            changes,
            trail,
            in_log,
            commit,
            checkpoint,
        }
    }
}

/// How each worker ended, whose postings are among these.
fn ended<L: Place>(
    history: &History<Posting, L>,
    postings: &mut Appender<Posting, L>,
    answers: Vec<Moved<L>>,
    outcomes: Vec<Outcome>,
) -> Vec<Outcome>
    requires none { (outcomes.items ≡ []) × (vec_len outcomes ≡ 0) }
    requires room { vec_len answers ≤ vec_capacity outcomes }
    ensures seen { All (λ moved. IsFirstPart moved.seen postings.old) answers.items }
    ensures ended { result.items ≡ map ended_of answers.items }
{
    let mut outcomes = outcomes;
    for moved in answers {
        let Moved { seen, ended } = moved;
        history.check(postings, seen);
        outcomes.push_reserved(ended);
    }
    outcomes
}
