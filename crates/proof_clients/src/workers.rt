//! The journal is run with the two workers.
ghost use Rattle.std.specs.Prelude.{IfOk};
ghost use Rattle.proof_clients.specs.TwoWorkers.{TwoHaveWorked};

use crate::telling::{Found, TellingWorkers};
use jb_journal::{Clock, Disk, NotRun, Options, Ran, run};
use std::sync::Wait;
use std::thread::Threads;
use std::time;

/// Runs the journal on a disk with two workers: the first one writes these bytes to a home and waits, and tells the
/// second one, which reads the home. Where the disk that is given back is honest, what the first has written stays
/// after a crash, and is what the second has read.
///
/// # Errors
/// Those of [`run`].
pub fn two_workers<
    D: Disk + Drop + Send,
    C: Clock + Drop + Send,
    R: AllocGlobal + Threads + Wait + time::Clock + Sync,
>(rt: &R, disk: D, clock: C, bytes: [u8; 1024]) -> Result<Ran<Found, D>, NotRun<Found, D>>
    /// In a program of two threads what one has written and waited for stays, and the other, once it is informed, reads
    /// it.
    ///
    /// One worker writes a home, waits, and tells another one, which reads the home. If the disk that is given back is
    /// honest, what is written stays in whatever a crash leaves since it was known to be committed, and is what the
    /// other one has read.
    ensures { IfOk result (TwoHaveWorked D.Disk bytes disk) }
{
    run(
        rt,
        disk,
        clock,
        Options::new(2),
        &TellingWorkers::new(bytes),
    )
}
