//! An image that was not run.
use crate::journal_fault::JournalFault;
use crate::not_run::NotRun;
use jb_disk::Disk;
use std::fmt;

/// Why an image was not run, or why its run has no whole answer.
#[derive(Drop)]
#[must_use]
pub enum ImageNotRun<T, D> {
    /// It was neither opened nor made, for this.
    Open(JournalFault),
    /// It was opened or made, and its journal was not run, or the run has no whole answer. Its disk is here.
    Run(NotRun<T, D>),
}

impl<T, D: Disk> fmt::Display for ImageNotRun<T, D> {
    fn fmt<W: fmt::Write>(&self, f: &mut fmt::Formatter<W>) -> fmt::Result {
        match self {
            ImageNotRun::Open(fault) => fault.fmt(f),
            ImageNotRun::Run(not_run) => not_run.fmt(f),
        }
    }
}

impl<T: Drop, D: Disk + Drop> From<ImageNotRun<T, D>> for JournalFault {
    ghost use Rattle.jb_journal.specs.RunFaults.{TellsImageNotRun};

    ghost from_gives = { λ not_run fault. TellsImageNotRun D.Disk not_run fault };

    fn from(not_run: ImageNotRun<T, D>) -> JournalFault {
        match not_run {
            ImageNotRun::Open(fault) => fault,
            ImageNotRun::Run(not_run) => not_run.why(),
        }
    }
}
