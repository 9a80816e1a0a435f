//! A journal that was not run, and its disk.
use crate::fault::RunFault;
use crate::journal_fault::JournalFault;
use jb_deck::OpenFault;
use jb_disk::Disk;
use std::alloc::Global;
use std::fmt;

/// A journal that was not run, or whose run has no whole answer. Its disk is here, and nothing on it is destroyed.
#[derive(Drop)]
#[must_use]
pub struct NotRun<T, D> {
    /// The journal's disk.
    pub disk: D,
    /// What the workers answered that were called, in the order of their places: none, but with `Accounts`.
    pub answers: Vec<T>,
    /// Why it was not run.
    pub fault: RunFault,
}

impl<T, D> NotRun<T, D> {
    ghost use Rattle.std.specs.Prelude.{◌≡◌, []};

    /// One of which no worker was called.
    pub(crate) fn of(alloc: Global, disk: D, fault: RunFault) -> NotRun<T, D>
        ensures { (result.disk ≡ disk) × (result.answers.items ≡ []) × (result.fault ≡ fault) }
    {
        NotRun {
            disk,
            answers: Vec::new(alloc),
            fault,
        }
    }
}

impl<T, D: Disk> NotRun<T, D> {
    ghost use Rattle.jb_journal.specs.RunFaults.{TellsNotRun};

    /// Why it was not run: with the system's reason, where a call of the disk failed as the journal was opened, and
    /// the disk tells it.
    pub fn why(&self) -> JournalFault
        /// A journal that was not run is told as such; as a failed call of its disk only where its opening ended with
        /// one, and as the disk tells it.
        ensures { TellsNotRun D.Disk self.now result }
    {
        let RunFault::Open(OpenFault::DeviceFault) = self.fault else {
            return JournalFault::Run(self.fault);
        };
        match self.disk.failure() {
            Some(failure) => JournalFault::Device(failure),
            None => JournalFault::Run(self.fault),
        }
    }
}

impl<T, D: Disk> fmt::Display for NotRun<T, D> {
    fn fmt<W: fmt::Write>(&self, f: &mut fmt::Formatter<W>) -> fmt::Result {
        self.why().fmt(f)
    }
}

impl<T: Drop, D: Disk + Drop> From<NotRun<T, D>> for JournalFault {
    ghost use Rattle.jb_journal.specs.RunFaults.{TellsNotRun};

    ghost from_gives = { λ not_run fault. TellsNotRun D.Disk not_run fault };

    fn from(not_run: NotRun<T, D>) -> JournalFault {
        not_run.why()
    }
}
