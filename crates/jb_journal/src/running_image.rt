//! An image is opened or made, and its journal is run.
ghost use Rattle.std.specs.Prelude.{◌≤◌, IfErr, IfOk};
ghost use Rattle.jb_journal.specs.RunImage.{IsImageNotRun, RanInImage};

use crate::clock::SystemClock;
use crate::image::open_or_create_holding;
use crate::image_not_run::ImageNotRun;
use crate::options::Options;
use crate::ran::Ran;
use crate::running::run;
use crate::worker::Worker;
use jb_disk::{FileDisk, Start};
use jb_image::ImageGeometry;
use std::fs::File;
use std::rt::Files;
use std::sync::Wait;
use std::thread::Threads;
use std::time;

/// Opens the image of this name, or makes it, and runs the workers on its journal, by the system's clock: an
/// [`open_or_create_holding`] and a [`run`] of the disk that it gives. `S` is what is supposed of the file: `Unknown`
/// where a program knows nothing of it.
///
/// # Errors
/// `Open` where the image was not opened, with the errors of [`open_or_create`](crate::open_or_create); `Run` where it
/// was and its journal was not run, with the disk and the errors of [`run`].
pub fn run_image<
    S: Start + Send,
    T: Drop + Send,
    W: Worker<T> + Sync,
    R: Files<File = File> + AllocGlobal + Threads + Wait + time::Clock + Sync,
>(
    rt: &R,
    name: &str,
    geometry: ImageGeometry,
    options: Options,
    worker: &W,
) -> Result<Ran<T, FileDisk<S>>, ImageNotRun<T, FileDisk<S>>>
    requires workers { (1 ≤ options.workers) × (options.workers ≤ 64) }
    requires needs { W.needs worker.now options.commits }
    /// From its opening to the end of its run all is said of one file. It was opened with its journal recovered: if it
    /// is honest, it then held the recovered image of what it held when it was opened, all durable, and what a crash
    /// leaves before the run, since its length was asked for, recovers to the same. Or the journal was made in it. And
    /// that very file was run, with all that `run` promises.
    ensures ran { IfOk result (RanInImage geometry options (W.answers worker.now)) }
    /// Without a run, the image was not opened; where that is a fault of the recovery, it is that of what some such
    /// file held, if that is honest. Or it was opened or made, and this very file is given back as a run that is
    /// refused gives it. [But see](docs/WRONG_BODIES.md#readers-writers-and-files).
    ensures refused { IfErr result (IsImageNotRun geometry options (W.answers worker.now)) }
{
    let disk = match open_or_create_holding::<S, R>(rt, name, geometry) {
        Ok(disk) => disk,
        Err(fault) => return Err(ImageNotRun::Open(fault)),
    };
    match run(rt, disk, SystemClock::new(rt), options, worker) {
        Ok(ran) => Ok(ran),
        Err(not_run) => Err(ImageNotRun::Run(not_run)),
    }
}
