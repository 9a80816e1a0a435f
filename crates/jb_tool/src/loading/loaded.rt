use crate::loading::fault::QueueHandleFault;
use jb_journal::Ended;

/// A handle that was not run to its end.
#[derive(Clone, Copy, Debug, PartialEq, Eq)]
pub struct Refused {
    /// Its place in the queue, from 0 on.
    pub handle: u64,
    /// Why.
    pub fault: QueueHandleFault,
}

/// What a load did.
#[derive(Clone, Copy, Debug, PartialEq, Eq)]
pub struct Loaded {
    /// How many handles the queue has.
    pub queued: u64,
    /// How many handles stopped.
    pub handles: u64,
    /// How many home blocks these touched, added up.
    pub changes: u64,
    /// How many handles are settled.
    pub settled: u64,
    /// How many groups settled them.
    pub groups: u64,
    /// How many log blocks these groups take.
    pub blocks: u64,
    /// The first handle of the queue that was refused.
    pub refused: Option<Refused>,
    /// How the committer ended.
    pub commit: Ended,
    /// How the checkpointer ended; `None` where none was asked for.
    pub checkpoint: Option<Ended>,
}

impl Loaded {
    ghost use Rattle.std.specs.Prelude.{◌≡◌};
    ghost use Rattle.jb_tool.specs.LoadLines.{is_whole};

    /// Whether no handle was refused, the committer and the checkpointer ended as the desk was over, and every
    /// handle of the queue is settled.
    pub fn is_whole(&self) -> bool
        ensures { result ≡ is_whole self.now }
    {
        self.refused.is_none()
            && self.commit.is_shut()
            && self.checkpoint.is_none_or(|ended| ended.is_shut())
            && self.settled == self.queued
    }
}
