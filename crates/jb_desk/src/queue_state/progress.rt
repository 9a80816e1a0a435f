//! How far the book of a desk has come.
ghost use Rattle.std.specs.Prelude.{◌≡◌};

use crate::queue_state::{Drained, QueueState};
use jb_book::Origin;
use jb_disk::Disk;

/// How far a book has come, as the thread that brings groups home sees it.
#[derive(Clone, Copy, PartialEq, Eq)]
pub(crate) struct Progress {
    /// The tickets below it are settled.
    pub(crate) settled: u64,
    /// Nothing more can happen.
    pub(crate) over: Option<Drained>,
    /// The journal has failed.
    pub(crate) is_aborted: bool,
}

impl<D: Disk, H: Origin> QueueState<D, H> {
    ghost use Rattle.jb_desk.specs.Progress.{HasCome};

    /// How far the book has come.
    pub fn progress(&self) -> Progress
        ensures { HasCome self.now.register.book result }
    {
        Progress {
            settled: self.register.book().settled(),
            over: self.drained(),
            is_aborted: self.register.book().is_aborted(),
        }
    }
}
