//! Threads of a program that change the home blocks of a journal through a queue, which workers serve. Each waits until
//! its change is durable before it asks for the next one. Prints how many there were.
//!
//! ```sh
//! example_service [IMAGE]
//! ```
//!
//! `IMAGE` is made where there is no such file. Without it the disk is in memory.
#![tactic(auto)]

mod failed;
mod service;

use crate::failed::Failed;
use crate::service::{Asker, Service, queue};
use jb_journal::{
    BlockSize, Disk, ImageGeometry, JournalFault, MemoryDisk, Options, SystemClock, Width, format,
    open_or_create, run,
};
use std::alloc::Global;
use std::fs::File;
use std::io::Write;
use std::process::ExitCode;
use std::rt::Files;
use std::sync::Wait;
use std::thread::Threads;
use std::time::Clock;
use std::{env, thread};

/// The size of a block.
const SIZE: BlockSize = BlockSize::OneKib;

/// How many blocks the journal has.
const JOURNAL: u32 = 256;

/// How many threads ask.
const ASKERS: u32 = 4;

/// For how many changes each of them asks.
const CHANGES: u64 = 25;

/// How many home blocks there are: each change is of one of its own.
const HOMES: u64 = 100;

/// How many workers serve them.
const WORKERS: usize = 2;

/// Asks for the changes of the thread of this number, one after the other.
fn ask<R: Wait>(rt: &R, asker: Asker, at: u32) -> Result<(), Failed> {
    for number in 0..CHANGES {
        let home = u64::from(at) * CHANGES + number;
        asker.put(rt, home, number + 1)?;
    }
    Ok(())
}

/// Serves the queue on the journal of a disk, until nobody asks any more. Gives how many changes are durable.
fn serve<D: Disk + Drop + Send, R: AllocGlobal + Threads + Wait + Clock + Sync>(
    rt: &R,
    disk: D,
    service: &Service,
) -> Result<u64, JournalFault> {
    let ran = run(
        rt,
        disk,
        SystemClock::new(rt),
        Options::new(WORKERS),
        service,
    );
    // where the journal was not run, its askers wait in vain
    service.refuse(rt);
    let (_disk, answers) = ran?.durable()?;
    Ok(
        answers
            .iter()
            .fold(0, |sum: u64, served| sum.saturating_add(*served)),
    )
}

/// Starts the threads that ask, and serves them meanwhile.
fn run_threads<D: Disk + Drop + Send, R: AllocGlobal + Threads + Wait + Clock + Sync>(
    rt: &R,
    disk: D,
) -> Result<u64, Failed> {
    let (asker, service) = queue(rt.alloc())?;
    let mut askers = Vec::with_capacity(rt.alloc(), ASKERS as usize)?;
    for _ in 0..ASKERS {
        askers.push(asker.another()?)?;
    }
    // the queue ends once no thread has an asker
    drop(asker);
    thread::scope(
        thread::scope_env(),
        rt,
        move |scope| -> Result<u64, Failed> {
            let mut asking = Vec::new(rt.alloc());
            let mut asked = Ok(());
            for (at, asker) in (0..ASKERS).zip(askers) {
                match scope.spawn(move || ask(rt, asker, at)) {
                    Ok(thread) => asking.push(thread)?,
                    Err(_) => asked = Err(Failed::NoThread),
                }
            }
            let served = serve(rt, disk, &service);
            for thread in asking {
                let ended = thread.join(rt);
                if asked.is_ok() {
                    asked = ended;
                }
            }
            // why the journal has failed comes first
            let durable = served?;
            asked?;
            Ok(durable)
        },
    )
}

/// A disk in memory with a new journal.
fn in_memory(alloc: Global) -> Result<MemoryDisk, JournalFault> {
    let mut disk = MemoryDisk::new(alloc, SIZE, u64::from(JOURNAL) + HOMES)?;
    format(&mut disk, JOURNAL, 0, [0; 16], Width::Narrow)?;
    Ok(disk)
}

/// Makes the changes in the image of this name, or in memory.
fn run_on<R: Files<File = File> + AllocGlobal + Threads + Wait + Clock + Sync>(
    rt: &R,
    image: Option<String>,
) -> Result<u64, Failed> {
    let geometry = ImageGeometry::new(SIZE, JOURNAL, HOMES);
    match image {
        Some(image) => run_threads(rt, open_or_create(rt, &image, geometry)?),
        None => run_threads(rt, in_memory(rt.alloc())?),
    }
}

fn main(rt: HostRuntime) -> ExitCode {
    let Ok(mut words) = env::args(&rt) else {
        return ExitCode::from(1);
    };
    let told = match run_on(&rt, words.nth(1)) {
        Ok(durable) => writeln!(rt.stdout(), "{durable} changes are durable").map_err(Failed::from),
        Err(failed) => Err(failed),
    };
    match told {
        Ok(()) => ExitCode::SUCCESS,
        Err(failed) => {
            let _told = writeln!(rt.stderr(), "{failed}");
            ExitCode::from(1)
        }
    }
}
