//! What a run leaves.
ghost use Rattle.std.specs.Prelude.{◌≡◌, ◌↔◌, IfErr, IfOk, IsOk};

use crate::fault::NotDurable;
use jb_deck::Entry;
use jb_desk::Ended;
use jb_disk::{Disk, Failure};

/// What is left of a journal that was run.
#[derive(Drop)]
pub struct Ran<T, D> {
    /// The journal's disk.
    pub disk: D,
    /// What each worker answered, in the order of their places.
    pub answers: Vec<T>,
    /// How many handles stopped.
    pub handles: u64,
    /// How many of them, the first by their tickets, are settled: they survive a crash.
    pub settled: u64,
    /// How many home blocks these changed, each handle's added up.
    pub changes: u64,
    /// The transactions that were committed, in the order of their tickets, without those that a worker has taken from
    /// the trail. They begin at the ticket 0 where none was.
    pub trail: Vec<Entry>,
    /// How many blocks of the log are in use by transactions that are not home; `None` where the journal has failed.
    /// With `Some(0)` each home on the disk is as the handles left it that are committed.
    pub in_log: Option<u32>,
    /// How the committer ended. Where it is `Shut`, every handle that stopped is settled. Otherwise the handles after
    /// the settled ones may be lost, and the program is to end, and to recover the journal when it is started anew.
    pub commit: Ended,
    /// How the checkpointer ended; `None` where there was none.
    pub checkpoint: Option<Ended>,
}

impl<T: Drop, D: Disk + Drop> Ran<T, D> {
    ghost use Rattle.jb_journal.specs.Run.{AllSettled, IsDoneAtHome, IsNotDurable, TellsFailure};

    /// The disk, and what each worker answered, where all that stopped is settled: it survives a crash; and the
    /// journal has not failed. Where there was a checkpointer, all is home, too.
    ///
    /// # Errors
    /// - `NotSettled` where the journal has failed, memory ran out or no transaction number was left before all was
    ///   settled: the last handles may be lost, also where their workers answered that all was well.
    /// - Otherwise `NotHome` where the journal has failed, or there was a checkpointer and not all is home.
    ///
    /// Where the journal has failed, `failure` is what the disk tells of it.
    pub fn durable(self) -> Result<(D, Vec<T>), NotDurable>
        ensures given { IfOk result (λ given. (given.0 ≡ self.disk) × (given.1 ≡ self.answers)) }
        /// With `refused`: A run is taken apart without an error exactly where all handles that stopped are settled,
        /// the journal has not failed, and, if there was a checkpointer, all is home; otherwise the error says which,
        /// and of a journal that has failed nothing but what its disk tells.
        ensures durable { IsOk result ↔ (AllSettled self × IsDoneAtHome self) }
        ensures refused { IfErr result (IsNotDurable D.Disk self) }
    {
        let (disk, answers, durable) = self.into_answers();
        match durable {
            Ok(()) => Ok((disk, answers)),
            Err(fault) => Err(fault),
        }
    }

    /// The same, with the disk and the answers also where not all is durable: so an error does not hide what the
    /// workers answered. A worker may have answered that all was well, though its last handles are lost.
    pub fn into_answers(self) -> (D, Vec<T>, Result<(), NotDurable>)
        ensures given { (result.0 ≡ self.disk) × (result.1 ≡ self.answers) }
        /// With `refused`: What a run leaves says that it is durable exactly where `durable` gives it, and else why it
        /// is not.
        ensures durable { IsOk result.2 ↔ (AllSettled self × IsDoneAtHome self) }
        ensures refused { IfErr result.2 (IsNotDurable D.Disk self) }
    {
        let durable = self.is_all_durable();
        let Ran { disk, answers, .. } = self;
        (disk, answers, durable)
    }

    /// Whether all is durable.
    fn is_all_durable(&self) -> Result<(), NotDurable>
        ensures durable { IsOk result ↔ (AllSettled self.now × IsDoneAtHome self.now) }
        ensures refused { IfErr result (IsNotDurable D.Disk self.now) }
    {
        let (handles, settled, failure) = (self.handles, self.settled, self.failure());
        if settled != handles {
            return Err(NotDurable::NotSettled {
                handles,
                settled,
                failure,
            });
        }
        match self.in_log {
            None => Err(NotDurable::NotHome { failure }),
            Some(blocks) if blocks > 0 && self.checkpoint.is_some() => {
                Err(NotDurable::NotHome { failure })
            }
            Some(_) => Ok(()),
        }
    }

    /// What the disk tells of the last call that failed, where the journal has failed: it fails with that call, and
    /// makes none after it.
    fn failure(&self) -> Option<Failure>
        ensures { TellsFailure D.Disk self.now result }
    {
        match self.in_log {
            None => self.disk.failure(),
            Some(_) => None,
        }
    }
}
