//! A run of a journal that the loss of power cuts short, at any call of the disk, in one order of its threads.
ghost use Rattle.std.specs.Prelude.{◌≡◌, ◌≤◌, IfErr, IfOk};
ghost use Rattle.jb_disk.specs.Fuse.{disk_of};
ghost use Rattle.proof_clients.specs.CutRun.{CountsNow, IsCutNotRun, IsCutRun, not_over_fuse, over_fuse};

use jb_disk::FuseDisk;
use jb_journal::{Clock, Disk, NotRun, Options, Ran, Worker, run};
use std::sync::Wait;
use std::thread::Threads;
use std::time;

/// Runs the journal on a disk up to this many calls of the disk: from the next one on every call fails, and none of
/// them is tried. The disk is given back with what the workers answered.
///
/// # Errors
/// Those of [`run`].
pub fn run_until<
    T: Drop + Send,
    W: Worker<T> + Sync,
    D: Disk + Drop + Send,
    C: Clock + Drop + Send,
    R: AllocGlobal + Threads + Wait + time::Clock + Sync,
>(
    rt: &R,
    disk: D,
    calls: u64,
    clock: C,
    options: Options,
    worker: &W,
) -> Result<Ran<T, D>, NotRun<T, D>>
    requires workers { (1 ≤ options.workers) × (options.workers ≤ 64) }
    requires needs { W.needs worker.now options.commits }
    /// A run is cut short before any call of the disk: what a crash leaves then recovers to some first handles by
    /// ticket, and to all that any client knew to be committed. All that a run promises, it promises of the disk inside
    /// the fuse.
    ensures ran { IfOk result (IsCutRun ⟦<FuseDisk<D> as Disk>⟧ D.Disk disk (W.answers worker.now) options.workers) }
    /// One that gives no answer says why, as a run does. What a crash leaves then recovers to some handles, perhaps
    /// none, unless the journal was not opened.
    ensures refused { IfErr result (IsCutNotRun ⟦<FuseDisk<D> as Disk>⟧ D.Disk disk options.commits
        (W.answers worker.now) options.workers) }
{
    match run(rt, FuseDisk::of(disk, calls), clock, options, worker) {
        Ok(ran) => Ok(taken(ran)),
        Err(back) => Err(given_back(back)),
    }
}

/// What is left of a run over a fuse, with the disk inside it.
fn taken<T, D: Disk>(ran: Ran<T, FuseDisk<D>>) -> Ran<T, D>
    ensures same { (ran ≡ over_fuse ran.disk result) × (result.disk ≡ disk_of ran.disk) }
    ensures counts_now { CountsNow ⟦<FuseDisk<D> as Disk>⟧ ran.disk }
{
    let Ran {
        disk,
        answers,
        handles,
        settled,
        changes,
        trail,
        in_log,
        commit,
        checkpoint,
    } = ran;
    Ran {
        disk: disk.into_inner(),
        answers,
        handles,
        settled,
        changes,
        trail,
        in_log,
        commit,
        checkpoint,
    }
}

/// What is given back of a run over a fuse that has no answer, with the disk inside it.
fn given_back<T, D: Disk>(back: NotRun<T, FuseDisk<D>>) -> NotRun<T, D>
    ensures same { (back ≡ not_over_fuse back.disk result) × (result.disk ≡ disk_of back.disk) }
    ensures counts_now { CountsNow ⟦<FuseDisk<D> as Disk>⟧ back.disk }
{
    let NotRun {
        disk,
        answers,
        fault,
    } = back;
    NotRun {
        disk: disk.into_inner(),
        answers,
        fault,
    }
}
