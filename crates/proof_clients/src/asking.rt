//! What is asked of a file, whatever it answers: nothing after a write or a sync that failed.
ghost use Rattle.std.specs.Prelude.{◌<◌, ◌≤◌, IfSome};
ghost use Rattle.jb_disk.specs.Faults.{most_faults};
ghost use Rattle.jb_disk.specs.File.{faults_of, IsWellAsked};

use crate::commit::{give_up, give_up_refused};
use jb_block::{BlockSize, Stamp};
use jb_deck::Deck;
use jb_disk::FileDisk;
use jb_journal::{Clock, Options, Ran, Worker, run};
use jb_plan::Prepared;
use std::alloc::Global;
use std::fs::File;
use std::sync::Wait;
use std::thread::Threads;
use std::time;

/// Opens the journal in a file, commits a batch, reads a home into `buf` and writes the oldest transaction home, each
/// whatever the one before it answered. Of the file that is given back: no call of the system came after a write or a
/// sync that failed. `None` where the file is no disk.
pub fn ask_file(
    alloc: Global,
    file: File,
    size: BlockSize,
    batch: Prepared,
    stamp: Stamp,
    home: u64,
    buf: &mut [u8],
) -> Option<FileDisk>
    /// A file is opened, a batch is committed, a home read, and the oldest transaction written home, each whatever the
    /// call before it answered: of the file that is given back no call of the system came after a write or a sync that
    /// failed.
    ensures { IfSome result (λ disk. faults_of disk < most_faults → IsWellAsked disk) }
{
    jb_deck::laws::none_after::<FileDisk>();
    let Ok(disk) = FileDisk::of(file, size) else {
        give_up(batch);
        return None;
    };
    let mut deck = match Deck::open(alloc, disk) {
        Ok(deck) => deck,
        Err((disk, _)) => {
            give_up(batch);
            return Some(disk);
        }
    };
    if let Err(fault) = deck.commit_batch(batch, stamp) {
        give_up_refused(fault);
    }
    let _read = deck.read_home(home, buf).is_ok();
    let _home = deck.checkpoint_one().is_ok();
    Some(deck.close())
}

/// Runs workers on the journal in a file. Of the file that is given back: no call of the system came after a write or a
/// sync that failed. `None` where the file is no disk, or the run has no answer.
pub fn run_in_file<
    T: Drop + Send,
    W: Worker<T> + Sync,
    C: Clock + Drop + Send,
    R: AllocGlobal + Threads + Wait + time::Clock + Sync,
>(
    rt: &R,
    file: File,
    size: BlockSize,
    clock: C,
    options: Options,
    worker: &W,
) -> Option<Ran<T, FileDisk>>
    requires workers { (1 ≤ options.workers) × (options.workers ≤ 64) }
    requires needs { W.needs worker.now options.commits }
    /// Whatever was answered, no call of a file whose journal is run comes after a write or a sync that failed.
    ensures { IfSome result (λ ran. faults_of ran.disk < most_faults → IsWellAsked ran.disk) }
{
    let disk = FileDisk::of(file, size).ok()?;
    run(rt, disk, clock, options, worker).ok()
}
